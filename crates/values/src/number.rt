ghost use Rattle.std.specs.Prelude.{◌≡◌, ◌<◌, ◌≤◌, MatchResult};
ghost use Rattle.meaning.specs.Values.{num_limit};

// 2^63: numbers are below it.
pub(crate) const NUMBER_LIMIT: u64 = 0x8000_0000_0000_0000;

// A number below 2^63.
// Not Below<LIMIT> under two names: a word's number is made of bytes, and of two such types only one has that TryFrom.
#[derive(Clone, Copy, Debug, PartialEq, Eq, PartialOrd, Ord)]
pub struct Number {
    pub value: u64,
    ghost below: { value < num_limit },
}

// What is at a limit or above it, and so no number, or no word's number.
#[derive(Clone, Copy, Debug, PartialEq, Eq)]
pub struct TooLarge(pub u64);

impl TryFrom<u64> for Number {
    type Error = TooLarge;

    ghost try_from_gives = { λ n r. MatchResult r (λ x. x.value ≡ n) (λ e. (e.0 ≡ n) × (num_limit ≤ n)) };

    fn try_from(value: u64) -> Result<Number, TooLarge> {
        if value < NUMBER_LIMIT {
            Ok(Number { value })
        } else {
            Err(TooLarge(value))
        }
    }
}
