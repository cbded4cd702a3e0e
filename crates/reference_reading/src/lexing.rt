// Cuts a line into pieces.
ghost use Rattle.std.specs.Prelude.{◌≡◌, ◌≤◌, length, IfSome};

use crate::faults::*;
use crate::parts::*;
use crate::pieces::*;
use reference_values::values::NUMBER_LIMIT;

const WORD_BYTES: usize = 7;

fn is_word_byte(byte: u8) -> bool {
    byte.is_ascii_alphanumeric() || byte == b'_'
}

fn is_blank(byte: u8) -> bool {
    byte == b' ' || byte == b'\t' || byte == b'\r'
}

// How many bytes at the front are letters, digits or _.
fn word_len(rest: &[u8]) -> usize
    ensures { result ≤ length rest.now }
{
    rest.iter().take_while(|byte| is_word_byte(**byte)).count()
}

// What stands behind the blanks at the front.
pub fn behind_blanks(rest: Part<'_>) -> Part<'_>
    ensures { length result.bytes.now ≤ length rest.entry.bytes.now }
{
    let blanks = rest
        .bytes
        .iter()
        .take_while(|byte| is_blank(**byte))
        .count();
    rest.behind(blanks)
}

// How many bytes the piece at the front takes; a quote takes both its quotes.
pub fn piece_len(rest: &[u8]) -> Option<usize>
    requires { 1 ≤ length rest.now }
    ensures { IfSome result (λ n. (1 ≤ n) × (n ≤ length rest.now)) }
{
    match rest {
        [b'\'', inner @ ..] => Some(inner.iter().position(|byte| *byte == b'\'')? + 2),
        [b'=', b'=', ..] => Some(2),
        [b'!', b'=', ..] => Some(2),
        [b'<', b'=', ..] => Some(2),
        [first, more @ ..] if is_word_byte(*first) => Some(1 + word_len(more)),
        _ => Some(1),
    }
}

fn number(digits: Part<'_>) -> Result<Token, Fault> {
    let value = digits.bytes.iter().try_fold(0, |value: u64, byte| {
        let digit = char::from(*byte).to_digit(10)?;
        Some(value.saturating_mul(10).saturating_add(u64::from(digit)))
    });
    match value {
        Some(value) if value < NUMBER_LIMIT => Ok(Token::Number(value)),
        Some(_) => Err(Fault::LargeNumber(digits.span())),
        None => Err(Fault::NotANumber(digits.span())),
    }
}

// The number of a word: its bytes as digits to base 256, the first the highest of seven.
fn word(bytes: &[u8]) -> Option<u64> {
    if bytes.len() > WORD_BYTES {
        return None;
    }
    let mut digits = [0; 8];
    digits[1..1 + bytes.len()].copy_from_slice(bytes);
    Some(u64::from_be_bytes(digits))
}

impl<'t> TryFrom<Part<'t>> for Sign {
    type Error = Fault;

    fn try_from(part: Part<'t>) -> Result<Sign, Fault> {
        match part.bytes {
            b"(" => Ok(Sign::Open),
            b")" => Ok(Sign::Close),
            b"," => Ok(Sign::Comma),
            b":" => Ok(Sign::Colon),
            b"=" => Ok(Sign::Gets),
            b"==" => Ok(Sign::Equal),
            b"!=" => Ok(Sign::Differ),
            b"<" => Ok(Sign::Less),
            b"<=" => Ok(Sign::AtMost),
            b"+" => Ok(Sign::Plus),
            b"-" => Ok(Sign::Minus),
            b"*" => Ok(Sign::Times),
            b"/" => Ok(Sign::Over),
            b"%" => Ok(Sign::Percent),
            _ => Err(Fault::StraySign(part.span())),
        }
    }
}

impl<'t> TryFrom<Part<'t>> for Token {
    type Error = Fault;

    fn try_from(part: Part<'t>) -> Result<Token, Fault> {
        match part.bytes {
            [b'\'', inner @ .., b'\''] => match word(inner) {
                Some(word) => Ok(Token::Quoted(word)),
                None => Err(Fault::LongWord(part.span())),
            },
            [b'0'..=b'9', ..] => number(part),
            [first, ..] if is_word_byte(*first) => Ok(match Keyword::from_bytes(part.bytes) {
                Some(keyword) => Token::Keyword(keyword),
                None => Token::Name,
            }),
            _ => Ok(Token::Sign(Sign::try_from(part)?)),
        }
    }
}
