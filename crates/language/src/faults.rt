ghost use Rattle.std.specs.Prelude.{◌≡◌, ◌≤◌, [], ◌∷◌, length, drop};
ghost use Rattle.std.specs.List.{list_all};
ghost use Rattle.meaning.specs.Text.{is_digit, starts_with_digit};
ghost use Rattle.language.specs.Faults.{TrueOf, TrueOfPiece, is_unused, open_quote};

use language_pieces::bytes::*;
use language_pieces::faults::*;
use language_pieces::literals::number_of;
use language_pieces::names::is_reserved;
use language_pieces::reader::Reader;

// What is wrong with a line.
#[derive(Clone, Copy, Debug, PartialEq, Eq)]
pub enum Reason {
    OpenQuote,
    // A word of data of more than seven bytes.
    LongWord,
    // A number that isn't below 2^63.
    LargeNumber,
    // It begins with a digit and is no number.
    NotANumber,
    // A name that begins with a digit.
    DigitFirst,
    // A word of the language where something else should stand.
    Reserved(Expected),
    // A byte that stands nowhere in the language.
    Stray,
    // Something else should stand there.
    Expected(Expected),
    // The text ends, and there was no `from`.
    NoFrom,
}

// The line where a text stops being a question, counted from 1, the place in it, counted from 0, and why.
#[derive(Clone, Copy, Debug, PartialEq, Eq)]
pub struct NotAQuestion {
    pub line: usize,
    // Beside NoFrom the place is 0, as read's contract says, so it is no Option.
    pub place: usize,
    pub reason: Reason,
}

// Whether a quote stands first that isn't closed.
fn opens_quote(s: &[u8]) -> bool
    ensures { result ≡ open_quote s.now }
{
    match s {
        [b'\'', rest @ ..] => !rest.contains(&b'\''),
        _ => false,
    }
}

fn all_digits(piece: &[u8]) -> bool
    ensures { result ≡ list_all is_digit piece.now }
{
    piece.iter().all(|byte| is_digit(*byte))
}

fn starts_with_digit(piece: &[u8]) -> bool
    ensures { result ≡ starts_with_digit piece.now }
{
    match piece {
        [first, ..] => is_digit(*first),
        [] => false,
    }
}

// Whether no piece that says something has this byte outside quotes.
fn is_unused(byte: u8) -> bool
    ensures { result ≡ is_unused byte }
{
    !is_word_byte(byte) && !matches!(byte, b'\''..=b'-' | b'/' | b':' | b'<' | b'=' | b'%')
}

// Why a piece is no number.
fn not_a_number(piece: &[u8]) -> Reason
    ensures { TrueOfPiece result piece.now }
{
    if number_of(piece).is_some() || !starts_with_digit(piece) {
        Reason::Expected(Expected::Number)
    } else if all_digits(piece) {
        Reason::LargeNumber
    } else {
        Reason::NotANumber
    }
}

// Why a piece is no name.
fn not_a_name(expected: Expected, piece: &[u8]) -> Reason
    ensures { TrueOfPiece result piece.now }
{
    if starts_with_digit(piece) {
        Reason::DigitFirst
    } else if is_reserved(piece) {
        Reason::Reserved(expected)
    } else {
        Reason::Expected(expected)
    }
}

// Why no operand begins with a piece.
fn not_an_operand(piece: &[u8]) -> Reason
    ensures { TrueOfPiece result piece.now }
{
    if starts_with_digit(piece) {
        return not_a_number(piece);
    }
    if is_reserved(piece) {
        return Reason::Reserved(Expected::Operand);
    }
    match piece {
        [b'\'', word @ ..] if word.len() > 7 => Reason::LongWord,
        _ => Reason::Expected(Expected::Operand),
    }
}

// Why a piece doesn't stand where something is expected.
fn why_not(expected: Expected, piece: &[u8]) -> Reason
    ensures { TrueOfPiece result piece.now }
{
    match piece {
        [byte, ..] if is_unused(*byte) => Reason::Stray,
        _ => match expected {
            Expected::Name | Expected::NameOrColon => not_a_name(expected, piece),
            Expected::Number => not_a_number(piece),
            Expected::Operand => not_an_operand(piece),
            _ => Reason::Expected(expected),
        },
    }
}

impl NotAQuestion {
    // What is wrong with a line in which a fault was found.
    pub(crate) fn at(number: usize, line: &[u8], fault: Fault) -> NotAQuestion
        ensures line { result.line ≡ number }
        ensures place { result.place ≤ length line.now }
        ensures reason { TrueOf result.reason (drop result.place line.now) }
    {
        let place = fault.place.min(line.len());
        let rest = &line[place..];
        let reason = if opens_quote(rest) {
            Reason::OpenQuote
        } else {
            why_not(fault.expected, Reader::new(rest).piece())
        };
        NotAQuestion {
            line: number,
            place,
            reason,
        }
    }
}
