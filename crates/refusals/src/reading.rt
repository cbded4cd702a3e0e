ghost use Rattle.std.specs.Prelude.{◌≡◌, ◌-◌, [], ◌++◌, IfOk, Some, string_bytes};
ghost use Rattle.language.specs.Lines.{line_at};
ghost use Rattle.meaning.specs.Text.{lines_of};
ghost use Rattle.refusals.specs.Places.{found_at, place_told};
ghost use Rattle.refusals.specs.Reasons.{reason_told};

use language::faults::*;
use language::lines::line_of;
use language_pieces::reader::Reader;
use messages::quotes::Quoted;
use std::alloc::{AllocError, Global};
use std::fmt;

// The piece at a place of a line, with the quote that closes it.
fn piece_at(line: &[u8], place: usize) -> &[u8]
    ensures { result.now ≡ found_at line.now place }
{
    let rest = line.get(place..).unwrap_or(b"");
    let piece = Reader::new(rest).piece();
    match piece {
        [b'\'', ..] => rest.get(..piece.len() + 1).unwrap_or(piece),
        _ => piece,
    }
}

// The line, and the place in it, counted from 1.
#[derive(Clone, Copy)]
struct Place(NotAQuestion);

impl fmt::Display for Place {
    ghost output = { λ place. Some (place_told place.0) };

    fn fmt<W: fmt::Write>(&self, f: &mut fmt::Formatter<W>) -> fmt::Result {
        let line = self.0.line;
        match self.0.reason {
            Reason::NoFrom => write!(f, "line {line}: "),
            _ => {
                let place = self.0.place.saturating_add(1);
                write!(f, "line {line}, place {place}: ")
            }
        }
    }
}

// What is wrong, with the piece at the place: empty at the end of a line, as `Reader::piece` gives it.
#[derive(Clone, Copy)]
struct Why<'a> {
    reason: Reason,
    piece: &'a [u8],
}

impl fmt::Display for Why<'_> {
    ghost output = { λ why. Some (reason_told why.reason why.piece.now) };

    fn fmt<W: fmt::Write>(&self, f: &mut fmt::Formatter<W>) -> fmt::Result {
        let found = Quoted(self.piece);
        match self.reason {
            Reason::OpenQuote => write!(f, "a quote isn't closed"),
            Reason::LongWord => write!(f, "{found} has more than seven bytes"),
            Reason::LargeNumber => write!(f, "{found} isn't below 2^63"),
            Reason::NotANumber => write!(f, "{found} is neither a name nor a number"),
            Reason::DigitFirst => {
                write!(f, "{found} is no name: a name doesn't begin with a digit")
            }
            Reason::Stray => write!(f, "{found} has no meaning here"),
            Reason::NoFrom => write!(f, "the text ends without 'from'"),
            Reason::Reserved(expected) => {
                write!(
                    f,
                    "{expected} expected, {found} found, a word of the language"
                )
            }
            Reason::Expected(expected) if self.piece.is_empty() => {
                write!(f, "{expected} expected, the line ends")
            }
            Reason::Expected(expected) => write!(f, "{expected} expected, {found} found"),
        }
    }
}

// Why a text asks no question: where, and for which reason.
pub fn reading_message(heap: Global, text: &[u8], error: NotAQuestion) -> Result<String, AllocError>
    ensures { let line = line_at (lines_of [] text.now) (error.line - 1) in IfOk result (λ m. string_bytes m ≡ place_told error ++ reason_told error.reason (found_at line error.place)) }
{
    let piece = piece_at(line_of(text, error.line), error.place);
    let place = Place(error);
    let why = Why {
        reason: error.reason,
        piece,
    };
    format!(in heap; "{place}{why}")
}
