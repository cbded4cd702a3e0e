ghost use Rattle.std.specs.Prelude.{◌≡◌};
ghost use Rattle.meaning.specs.Text.{is_blank, is_digit, is_word_byte};
ghost use Rattle.language_pieces.specs.Pieces.{is_half};

pub(crate) fn is_blank(byte: u8) -> bool
    ensures { result ≡ is_blank byte }
{
    matches!(byte, b' ' | b'\r' | b'\t')
}

pub fn is_digit(byte: u8) -> bool
    ensures { result ≡ is_digit byte }
{
    byte.is_ascii_digit()
}

// Whether a byte is part of a word: a letter, _ or a digit.
pub fn is_word_byte(byte: u8) -> bool
    ensures { result ≡ is_word_byte byte }
{
    matches!(byte, b'a'..=b'z' | b'A'..=b'Z' | b'_' | b'0'..=b'9')
}

// Whether = may follow a byte as part of the same sign.
pub(crate) fn is_half(byte: u8) -> bool
    ensures { result ≡ is_half byte }
{
    matches!(byte, b'=' | b'!' | b'<')
}
