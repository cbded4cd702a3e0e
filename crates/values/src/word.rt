ghost use Rattle.std.specs.Prelude.{◌≡◌, ◌<◌, ◌≤◌, length, MatchResult};
ghost use Rattle.meaning.specs.Values.{word_limit, word_number};

use crate::number::TooLarge;

// 2^56: the numbers of words are below it.
const WORD_LIMIT: u64 = 0x0100_0000_0000_0000;

// A word of at most seven bytes, by its number: seven digits of base 256, the first byte the highest.
#[derive(Clone, Copy, Debug, PartialEq, Eq, PartialOrd, Ord)]
pub struct Word {
    pub number: u64,
    ghost below: { number < word_limit },
}

// More than seven bytes.
#[derive(Clone, Copy, Debug, PartialEq, Eq)]
pub struct WordTooLong;

// The word of this number.
impl TryFrom<u64> for Word {
    type Error = TooLarge;

    ghost try_from_gives = { λ n r. MatchResult r (λ w. w.number ≡ n) (λ e. (e.0 ≡ n) × (word_limit ≤ n)) };

    fn try_from(number: u64) -> Result<Word, TooLarge> {
        if number < WORD_LIMIT {
            Ok(Word { number })
        } else {
            Err(TooLarge(number))
        }
    }
}

// The word of these bytes, if there are at most seven.
impl TryFrom<&[u8]> for Word {
    type Error = WordTooLong;

    ghost try_from_gives = { λ bytes r. MatchResult r
        (λ w. (length bytes.now ≤ 7) × (w.number ≡ word_number bytes.now))
        (λ _. 7 < length bytes.now) };

    #[tactic(auto, using(crate::proofs::Digits::digits_are_word))]
    fn try_from(bytes: &[u8]) -> Result<Word, WordTooLong> {
        if bytes.len() > 7 {
            return Err(WordTooLong);
        }
        let mut digits = [0; 8];
        digits[1..=bytes.len()].copy_from_slice(bytes);
        Ok(Word {
            number: u64::from_be_bytes(digits),
        })
    }
}
