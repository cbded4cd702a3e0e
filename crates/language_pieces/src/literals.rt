ghost use Rattle.std.specs.Prelude.{◌≡◌, ◌+◌, ◌-◌, ◌*◌, ◌≤◌, ◌^◌, true, Some, None};
ghost use Rattle.meaning.specs.Text.{is_digit, as_number, as_word};
ghost use Rattle.values.specs.Types.{number_of_word};
ghost use Rattle.language_pieces.specs.Literals.{value_of_number, type_of, as_type};

use crate::bytes::*;
use values::number::Number;
use values::types::Kind;
use values::word::Word;

// Options and no TryFrom: the types are another crate's, and a piece that is none of them is no error here.

// A number with one digit more.
fn push_digit(value: u64, byte: u8) -> Option<u64>
    ensures { elim result [ None ↦ is_digit byte ≡ true → 2 ^ 64 ≤ value * 10 + (byte - 48) | Some n ↦ (is_digit byte ≡ true) × (n ≡ value * 10 + (byte - 48)) ] }
{
    if !is_digit(byte) {
        return None;
    }
    value.checked_mul(10)?.checked_add(u64::from(byte - b'0'))
}

// The number that a piece is, if it is one below 2^63.
pub fn number_of(piece: &[u8]) -> Option<Number>
    ensures { value_of_number result ≡ as_number piece.now }
{
    if piece.is_empty() {
        return None;
    }
    let mut value: u64 = 0;
    for byte in piece {
        value = push_digit(value, *byte)?;
    }
    Number::try_from(value).ok()
}

// The word of data that a piece is, if it is one of at most seven bytes.
pub fn word_of(piece: &[u8]) -> Option<Word>
    ensures { number_of_word result ≡ as_word piece.now }
{
    match piece {
        [b'\'', bytes @ ..] => Word::try_from(bytes).ok(),
        _ => None,
    }
}

// The type that a piece is.
#[tactic(auto, using(crate::proofs::Same::same_length, crate::proofs::Same::same_first))]
pub fn kind_of(piece: &[u8]) -> Option<Kind>
    ensures { type_of result ≡ as_type piece.now }
{
    match piece {
        b"num" => Some(Kind::Number),
        b"word" => Some(Kind::Word),
        _ => None,
    }
}
