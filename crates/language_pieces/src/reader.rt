ghost use Rattle.std.specs.Prelude.{◌≡◌, true, false, drop, Some, None};
ghost use Rattle.meaning.specs.Base.{same_bytes};
ghost use Rattle.meaning.specs.Text.{head_piece, tail_pieces};
ghost use Rattle.language_pieces.specs.Pieces.{cuts, none_left};
ghost use Rattle.language_pieces.specs.Views.{ahead, place_of};

use crate::cutting::*;
use crate::faults::{Expected, Fault};

// A place in a line, and the pieces that stand behind it.
// Whatever goes on in a line says that the line stays: no invariant can say it of a lent reader.
#[derive(Clone, Copy)]
pub struct Reader<'a> {
    pub line: &'a [u8],
    // A number and no slice of the rest: faults and columns are told by places of the line, and a slice would want an
    // invariant.
    pub at: usize,
    // Whether the first of an open quote's two pieces is read; no Option, since `at` is a fault's place either way.
    pub unclosed: bool,
}

impl<'a> Reader<'a> {
    #[tactic(auto, unfolding(crate::specs::Views::ahead))]
    pub fn new(line: &'a [u8]) -> Reader<'a>
        ensures line { result.line.now ≡ line.now }
        ensures pieces { ahead result ≡ cuts line.now }
    {
        Reader {
            line,
            at: 0,
            unclosed: false,
        }
    }

    // The bytes that are left.
    fn rest(&self) -> &'a [u8]
        ensures { result.now ≡ drop self.now.at self.now.line.now }
    {
        self.line.get(self.at..).unwrap_or(b"")
    }

    // The piece that stands next; empty at the end of the line, as in the definitions, so tests need no Option.
    #[tactic(auto, unfolding(crate::specs::Views::ahead))]
    pub fn piece(&self) -> &'a [u8]
        ensures { result.now ≡ head_piece (ahead self.now) }
    {
        if self.unclosed {
            return b"'";
        }
        match next_piece(self.rest()) {
            Ok(Some(cut)) => cut.piece,
            Ok(None) => b"",
            Err(_) => b"'",
        }
    }

    // Whether no piece is left.
    #[tactic(auto, unfolding(crate::specs::Views::ahead))]
    pub fn is_over(&self) -> bool
        ensures { result ≡ none_left (ahead self.now) }
    {
        !self.unclosed && matches!(next_piece(self.rest()), Ok(None))
    }

    // Goes on behind the next piece.
    #[tactic(auto, using(crate::proofs::Cut::goes_on, crate::proofs::Cut::at_the_end), unfolding(crate::specs::Views::ahead))]
    pub fn advance(&mut self)
        ensures line { self.new.line.now ≡ self.old.line.now }
        ensures pieces { ahead self.new ≡ tail_pieces (ahead self.old) }
    {
        if self.unclosed {
            self.unclosed = false;
            self.at = self.line.len();
            return;
        }
        match next_piece(self.rest()) {
            Ok(Some(cut)) => self.at = self.line.len() - cut.rest.len(),
            Ok(None) => {}
            Err(_) => self.unclosed = true,
        }
    }

    // Where the next piece begins.
    #[tactic(auto, using(crate::proofs::Cut::place_cuts))]
    pub fn place(&self) -> usize
        ensures at { result ≡ place_of self.now }
        ensures pieces { cuts (drop result self.now.line.now) ≡ cuts (drop self.now.at self.now.line.now) }
    {
        self.at + blanks(self.rest())
    }

    // Whether this word or sign stands next.
    #[tactic(auto, using(crate::proofs::Same::pointwise_same))]
    pub fn is(&self, word: &[u8]) -> bool
        ensures { result ≡ same_bytes (head_piece (ahead self.now)) word.now }
    {
        self.piece() == word
    }

    // Goes behind a word or sign that has to come next.
    pub fn expect(&mut self, word: &[u8], expected: Expected) -> Result<(), Fault>
        ensures line { self.new.line.now ≡ self.old.line.now }
        ensures read { elim result [ Ok u ↦ (same_bytes (head_piece (ahead self.old)) word.now ≡ true) × (ahead self.new ≡ tail_pieces (ahead self.old)) | Err f ↦ (same_bytes (head_piece (ahead self.old)) word.now ≡ false) × (self.new ≡ self.old) ] }
    {
        if !self.is(word) {
            return Err(self.fault(expected));
        }
        self.advance();
        Ok(())
    }

    // Goes behind the next piece if something was found in it.
    pub fn take<T: Copy>(&mut self, found: Option<T>, expected: Expected) -> Result<T, Fault>
        ensures line { self.new.line.now ≡ self.old.line.now }
        ensures read { elim result [ Ok value ↦ (found ≡ Some value) × (ahead self.new ≡ tail_pieces (ahead self.old)) | Err f ↦ (found ≡ None) × (self.new ≡ self.old) ] }
    {
        let Some(value) = found else {
            return Err(self.fault(expected));
        };
        self.advance();
        Ok(value)
    }

    // That something else should have stood next.
    pub fn fault(&self, expected: Expected) -> Fault
        ensures expected { result.expected ≡ expected }
        ensures at { result.place ≡ place_of self.now }
        ensures place { cuts (drop result.place self.now.line.now) ≡ cuts (drop self.now.at self.now.line.now) }
    {
        Fault {
            place: self.place(),
            expected,
        }
    }
}
