// Parts of a text as messages show them.
ghost use Rattle.std.specs.Prelude.{◌≡◌, IsTrue, IfOk, Some, string_bytes};
ghost use Rattle.std.specs.List.{flat_map};
ghost use Rattle.messages.specs.Quotes.{one_line, prints, quoted, quoted_byte};

use std::alloc::{AllocError, Global};
use std::{fmt, str};

fn prints(byte: u8) -> bool
    ensures { result ≡ prints byte }
{
    (b' '..=b'~').contains(&byte)
}

// What doesn't print comes as \xNN, so that a message stays one line.
#[derive(Clone, Copy)]
struct QuotedByte(u8);

impl fmt::Display for QuotedByte {
    ghost output = { λ b. Some (quoted_byte b.0) };

    #[tactic(auto, using(std::proofs::lemmas::Fmt::hex_byte))]
    fn fmt<W: fmt::Write>(&self, f: &mut fmt::Formatter<W>) -> fmt::Result {
        let byte = self.0;
        if prints(byte) {
            f.write_str(char::from(byte).encode_utf8(&mut [0; 4]))
        } else {
            write!(f, "\\x{byte:02x}")
        }
    }
}

// Do all bytes print.
fn all_print(bytes: &[u8]) -> bool
    ensures { result ≡ one_line bytes.now }
{
    bytes.iter().all(|byte| prints(*byte))
}

// Bytes of a text as they stand between quotes.
#[derive(Clone, Copy)]
struct QuotedBytes<'a>(&'a [u8]);

impl fmt::Display for QuotedBytes<'_> {
    ghost output = { λ q. Some (flat_map quoted_byte q.0.now) };

    #[tactic(auto, using(crate::proofs::OneLine::printed))]
    fn fmt<W: fmt::Write>(&self, f: &mut fmt::Formatter<W>) -> fmt::Result {
        match str::from_utf8(self.0) {
            // What all prints is written at once.
            Ok(text) if all_print(self.0) => f.write_str(text),
            _ => {
                for byte in self.0.iter() {
                    QuotedByte(*byte).fmt(f)?;
                }
                Ok(())
            }
        }
    }
}

// Bytes of a text between quotes.
#[derive(Clone, Copy)]
pub struct Quoted<'a>(pub &'a [u8]);

impl fmt::Display for Quoted<'_> {
    ghost output = { λ q. Some (quoted q.0.now) };

    fn fmt<W: fmt::Write>(&self, f: &mut fmt::Formatter<W>) -> fmt::Result {
        f.write_str("'")?;
        QuotedBytes(self.0).fmt(f)?;
        f.write_str("'")
    }
}

// A name between quotes.
pub fn quote(heap: Global, name: &str) -> Result<String, AllocError>
    ensures value { IfOk result (λ m. string_bytes m ≡ quoted name.now) }
    ensures one_line { IfOk result (λ m. IsTrue (one_line (string_bytes m))) }
{
    Quoted(name.as_bytes()).to_string(heap)
}
