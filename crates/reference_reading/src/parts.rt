// Parts of a text that is at hand.
ghost use Rattle.std.specs.Prelude.{◌≡◌, ◌+◌, ◌≤◌, length, take, drop};

use crate::spans::*;

// Bytes of a text, and where they begin there.
#[derive(Clone, Copy)]
pub struct Part<'t> {
    pub start: usize,
    pub bytes: &'t [u8],
    ghost fits: { start + length bytes.now ≤ 9223372036854775807 },
}

impl<'t> Part<'t> {
    pub fn span(self) -> Span
        ensures start { result.start ≡ self.entry.start }
        ensures end { result.end ≡ self.entry.start + length self.entry.bytes.now }
    {
        Span {
            start: self.start,
            end: self.start + self.bytes.len(),
        }
    }

    // The first bytes, or all where there are fewer.
    pub fn front(self, len: usize) -> Part<'t>
        ensures start { result.start ≡ self.entry.start }
        ensures bytes { result.bytes.now ≡ take len self.entry.bytes.now }
    {
        Part {
            start: self.start,
            bytes: self.bytes.get(..len).unwrap_or(self.bytes),
        }
    }

    // The bytes behind the first ones, or none.
    pub fn behind(self, len: usize) -> Part<'t>
        ensures start { result.start + length result.bytes.now ≡ self.entry.start + length self.entry.bytes.now }
        ensures bytes { result.bytes.now ≡ drop len self.entry.bytes.now }
    {
        Part {
            start: self.start + len.min(self.bytes.len()),
            bytes: self.bytes.get(len..).unwrap_or(b""),
        }
    }
}
