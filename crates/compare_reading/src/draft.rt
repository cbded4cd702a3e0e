// A text that grows piece by piece, with blanks by chance.
use crate::chance::Chance;
use language_pieces::bytes::is_word_byte;
use std::alloc::{AllocError, Global};

const LETTERS: &[u8] = b"abcdefghijklmnopqrstuvwxyzABCXYZ_";

const WORD_BYTES: &[u8] = b"abcdefghijklmnopqrstuvwxyzABCXYZ_0123456789";

const DIGITS: &[u8] = b"0123456789";

const NAMES: [&[u8]; 12] = [
    b"a", b"b", b"day", b"late", b"start", b"_", b"x1", b"B_2", b"tables", b"iff", b"Sum", b"none_",
];

const EDGES: [&[u8]; 5] = [
    b"0",
    b"007",
    b"9223372036854775806",
    b"9223372036854775807",
    b"0000000000000009223372036854775807",
];

const TOO_LARGE: [&[u8]; 4] = [
    b"9223372036854775808",
    b"9999999999999999999",
    b"18446744073709551616",
    b"340282366920938463463374607431768211456",
];

pub const TYPES: [&[u8]; 2] = [b"num", b"word"];

#[derive(Drop)]
pub struct Draft {
    pub text: Vec<u8>,
    pub chance: Chance,
}

impl Draft {
    pub fn new(heap: Global, chance: Chance) -> Draft {
        Draft {
            text: Vec::new(heap),
            chance,
        }
    }

    // None, one or several, but at least one where it is needed.
    fn blanks(&mut self, needed: bool) -> Result<(), AllocError> {
        let count = match self.chance.below(8) {
            0 | 1 => 0,
            2 => 3,
            _ => 1,
        };
        for _ in 0..count.max(usize::from(needed)) {
            let blank = if self.chance.one_in(8) {
                self.chance.one_of(b"\t\r")
            } else {
                b' '
            };
            self.text.push(blank)?;
        }
        Ok(())
    }

    // Two words or numbers side by side want a blank between them.
    fn wants_blank(&self, piece: &[u8]) -> bool {
        match (self.text.last(), piece.first()) {
            (Some(last), Some(first)) => is_word_byte(*last) && is_word_byte(*first),
            _ => false,
        }
    }

    pub fn piece(&mut self, piece: &[u8]) -> Result<(), AllocError> {
        let needed = self.wants_blank(piece);
        self.blanks(needed)?;
        self.text.extend_from_slice(piece)
    }

    // One of these pieces.
    pub fn one_of(&mut self, pieces: &[&'static [u8]]) -> Result<(), AllocError> {
        let piece = self.chance.one_of(pieces);
        self.piece(piece)
    }

    fn bytes_of(&mut self, count: usize, bytes: &[u8]) -> Result<(), AllocError> {
        for _ in 0..count {
            let byte = self.chance.one_of(bytes);
            self.text.push(byte)?;
        }
        Ok(())
    }

    pub fn name(&mut self) -> Result<(), AllocError> {
        if !self.chance.one_in(4) {
            return self.one_of(&NAMES);
        }
        self.blanks(true)?;
        self.bytes_of(1, LETTERS)?;
        let more = self.chance.below(9);
        self.bytes_of(more, WORD_BYTES)
    }

    pub fn number(&mut self) -> Result<(), AllocError> {
        let pieces: Option<&[&'static [u8]]> = match self.chance.below(400) {
            0 => Some(&TOO_LARGE),
            1..40 => Some(&EDGES),
            _ => None,
        };
        if let Some(pieces) = pieces {
            return self.one_of(pieces);
        }
        self.blanks(true)?;
        let more = if self.chance.one_in(4) {
            self.chance.below(18)
        } else {
            self.chance.below(3)
        };
        self.bytes_of(more.saturating_add(1), DIGITS)
    }

    // A word of data, of at most seven bytes but for a few.
    pub fn word(&mut self) -> Result<(), AllocError> {
        self.piece(b"'")?;
        let len = if self.chance.one_in(200) {
            8
        } else {
            self.chance.below(8)
        };
        let plain = !self.chance.one_in(4);
        for _ in 0..len {
            let byte = if plain {
                self.chance.one_of(LETTERS)
            } else {
                self.chance.byte()
            };
            self.text.push(match byte {
                b'\'' | b'\n' => b'#',
                _ => byte,
            })?;
        }
        self.text.push(b'\'')?;
        Ok(())
    }

    fn note(&mut self) -> Result<(), AllocError> {
        self.piece(b"#")?;
        for _ in 0..self.chance.below(12) {
            let byte = self.chance.byte();
            self.text.push(if byte == b'\n' { b'\'' } else { byte })?;
        }
        Ok(())
    }

    pub fn end_line(&mut self) -> Result<(), AllocError> {
        if self.chance.one_in(6) {
            self.blanks(true)?;
        }
        if self.chance.one_in(8) {
            self.note()?;
        }
        self.text.push(b'\n')?;
        Ok(())
    }

    // A line that says nothing, now and then.
    pub fn idle_line(&mut self) -> Result<(), AllocError> {
        if self.chance.one_in(8) {
            self.end_line()
        } else {
            Ok(())
        }
    }
}
