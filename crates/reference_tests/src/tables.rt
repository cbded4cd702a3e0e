// Tables on pages, for tests.
use asking::replies::*;
use asking::reply;
use std::alloc::{AllocError, Global};
use std::iter;
use std::process::Abort;
use std::test::*;

pub const NULL: u64 = 0xffff_ffff_ffff_ffff;

const PAGE_BYTES: usize = 4096;

// The cell of a word.
pub fn word(bytes: &[u8]) -> u64 {
    bytes
        .iter()
        .copied()
        .chain(iter::repeat(0))
        .take(7)
        .fold(0x80, |number, byte| (number << 8) | u64::from(byte))
}

// A page file in the making.
#[derive(Drop)]
pub struct PageFile {
    bytes: Vec<u8>,
}

impl PageFile {
    pub fn new(heap: Global) -> PageFile {
        PageFile {
            bytes: Vec::new(heap),
        }
    }

    pub fn heap(&self) -> Global {
        *self.bytes.allocator()
    }

    // A column more, on pages of its own.
    pub fn column(&mut self, cells: &[u64]) -> Result<(), AllocError> {
        for cell in cells.iter() {
            self.bytes.extend_from_slice(&cell.to_le_bytes())?;
        }
        self.fill_page()
    }

    // A column of the numbers 0, 1, 2, ..
    pub fn counting(&mut self, rows: u64) -> Result<(), AllocError> {
        let cells: Vec<u64> = (0..rows).collect(self.heap())?;
        self.column(cells.as_slice())
    }

    fn fill_page(&mut self) -> Result<(), AllocError> {
        self.bytes
            .resize(self.bytes.len().next_multiple_of(PAGE_BYTES), 0)
    }

    // Each question, behind the same first lines, comes to what stands beside it.
    pub fn expect_all(
        &self,
        rt: &impl Abort,
        head: &str,
        cases: &[(&str, &str)],
    ) -> Result<(), Fail> {
        for (steps, expected) in cases.iter() {
            let mut text = String::from_str(self.heap(), head)?;
            text.push_str(*steps)?;
            self.expect(rt, text.as_str(), *expected)?;
        }
        Ok(())
    }

    // A question comes to these lines, or is refused by this one.
    pub fn expect(&self, rt: &impl Abort, text: &str, expected: &str) -> Result<(), Fail> {
        let said = match reply(
            self.heap(),
            text.as_bytes(),
            "test.pages",
            self.bytes.as_slice(),
        ) {
            Ok(rows) => String::from_utf8_lossy(self.heap(), rows.as_slice())?,
            Err(Failure::Said(line)) => line,
            Err(Failure::OutOfMemory) => return Err(Fail::new("out of memory")),
        };
        assert_eq!(rt; said.as_str(), expected);
        Ok(())
    }
}
