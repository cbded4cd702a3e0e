ghost use Rattle.std.specs.Prelude.{◌≡◌, ◌<◌, ◌≤◌, true, false, [], ◌∷◌, length, take, drop, ◌==◌, slice_index};
ghost use Rattle.std.specs.List.{prefix_len, position};
ghost use Rattle.meaning.specs.Text.{is_blank, is_word_byte};
ghost use Rattle.language_pieces.specs.Pieces.{cuts, IsEndOf, IsCutOf, StandsFirst};

use crate::bytes::*;

// A piece of a line, and what stands behind it.
#[derive(Clone, Copy, Debug, PartialEq, Eq)]
pub struct Cut<'a> {
    pub piece: &'a [u8],
    pub rest: &'a [u8],
}

// A quote without its end.
#[derive(Clone, Copy, Debug, PartialEq, Eq)]
pub struct OpenQuote;

// How many blanks stand first.
// This and word_length are a chain each: with the test as a parameter the contract would speak of its answers.
pub(crate) fn blanks(s: &[u8]) -> usize
    ensures within { result ≤ length s.now }
    ensures count { result ≡ prefix_len is_blank s.now }
{
    s.iter().take_while(|byte| is_blank(**byte)).count()
}

// How many bytes of words stand first.
fn word_length(s: &[u8]) -> usize
    ensures within { result ≤ length s.now }
    ensures count { result ≡ prefix_len is_word_byte s.now }
{
    s.iter().take_while(|byte| is_word_byte(**byte)).count()
}

// Where the first quote stands.
fn quote_place(s: &[u8]) -> Option<usize>
    ensures { result ≡ position (λ byte. byte == 39) s.now }
{
    s.iter().position(|byte| *byte == b'\'')
}

// How long the sign is that stands first: == != <= or a byte.
fn sign_length(s: &[u8]) -> usize
    requires some { 0 < length s.now }
    requires blank { is_blank (slice_index s.now 0) ≡ false }
    requires note { (slice_index s.now 0 == 35) ≡ false }
    requires word { is_word_byte (slice_index s.now 0) ≡ false }
    requires quote { (slice_index s.now 0 == 39) ≡ false }
    ensures within { result ≤ length s.now }
    ensures cut { cuts s.now ≡ take result s.now ∷ cuts (drop result s.now) }
{
    match s {
        [byte, b'=', ..] if is_half(*byte) => 2,
        _ => 1,
    }
}

// What stands behind the blanks.
pub(crate) fn skip_blanks(s: &[u8]) -> &[u8]
    ensures end { IsEndOf result.now s.now }
    ensures same { cuts result.now ≡ cuts s.now }
    ensures stop { 0 < length result.now → is_blank (slice_index result.now 0) ≡ false }
{
    &s[blanks(s)..]
}

// The word of data that stands first, without its last quote.
fn cut_quote(s: &[u8]) -> Result<Cut<'_>, OpenQuote>
    requires some { 0 < length s.now }
    requires quote { slice_index s.now 0 ≡ 39 }
    ensures { elim result [ Ok c ↦ IsCutOf c s.now | Err e ↦ cuts s.now ≡ (39 ∷ []) ∷ (39 ∷ []) ∷ [] ] }
{
    let Some(length) = quote_place(&s[1..]) else {
        return Err(OpenQuote);
    };
    Ok(Cut {
        piece: &s[..length + 1],
        rest: &s[length + 2..],
    })
}

impl<'a> Cut<'a> {
    // The first bytes as a piece.
    fn at(s: &'a [u8], size: usize) -> Cut<'a>
        requires within { size ≤ length s.now }
        requires cut { cuts s.now ≡ take size s.now ∷ cuts (drop size s.now) }
        ensures { IsCutOf result s.now }
    {
        let (piece, rest) = s.split_at(size);
        Cut { piece, rest }
    }
}

fn first_piece(s: &[u8]) -> Result<Option<Cut<'_>>, OpenQuote>
    requires { 0 < length s.now → is_blank (slice_index s.now 0) ≡ false }
    ensures { StandsFirst result s.now }
{
    match s {
        [] => Ok(None),
        [b'#', ..] => Ok(None),
        [b'\'', ..] => Ok(Some(cut_quote(s)?)),
        [byte, ..] if is_word_byte(*byte) => Ok(Some(Cut::at(s, word_length(s)))),
        _ => Ok(Some(Cut::at(s, sign_length(s)))),
    }
}

// The first piece of the rest of a line.
pub(crate) fn next_piece(s: &[u8]) -> Result<Option<Cut<'_>>, OpenQuote>
    ensures { StandsFirst result s.now }
{
    first_piece(skip_blanks(s))
}
