ghost use Rattle.std.specs.Prelude.{◌≡◌};
ghost use Rattle.meaning.specs.Base.{among};
ghost use Rattle.meaning.specs.Text.{is_name, reserved_words};

use crate::bytes::*;

// Whether a word is one of the language, which is no name.
// Patterns and no table with contains: a name is refused by its length, or by the first bytes that differ.
#[tactic(auto, using(crate::proofs::Same::same_length, crate::proofs::Same::same_first, crate::proofs::Same::same_second, crate::proofs::Same::same_third, crate::proofs::Same::same_fourth, crate::proofs::Same::is_distinct))]
pub fn is_reserved(word: &[u8]) -> bool
    ensures { result ≡ among word.now reserved_words }
{
    matches!(
        word,
        b"table"
            | b"num"
            | b"word"
            | b"from"
            | b"keep"
            | b"make"
            | b"pick"
            | b"join"
            | b"left"
            | b"on"
            | b"group"
            | b"order"
            | b"take"
            | b"skip"
            | b"unite"
            | b"distinct"
            | b"sum"
            | b"count"
            | b"min"
            | b"max"
            | b"first"
            | b"and"
            | b"or"
            | b"not"
            | b"none"
            | b"if"
            | b"then"
            | b"else"
    )
}

pub fn is_name(piece: &[u8]) -> bool
    ensures { result ≡ is_name piece.now }
{
    match piece {
        [first, ..] => is_word_byte(*first) && !is_digit(*first) && !is_reserved(piece),
        [] => false,
    }
}
