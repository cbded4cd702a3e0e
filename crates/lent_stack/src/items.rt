ghost use Rattle.std.specs.Prelude.{◌≡◌, ℕ};
ghost use Rattle.lent_stack.specs.Items.{value_in, kind_in};

use crate::packed::Packed;
use values::types::{Kind, Value};

// A value as its cell.
impl Packed for Value {
    ghost unpacked = { value_in };

    fn pack(self) -> u64 {
        self.to_cell()
    }

    fn unpack(word: u64) -> Value {
        Value::from_cell(word)
    }
}

// A type as a number, since the stack lies in lent words; none is 2.
impl Packed for Option<Kind> {
    ghost unpacked = { kind_in };

    fn pack(self) -> u64 {
        match self {
            Some(Kind::Number) => 0,
            Some(Kind::Word) => 1,
            None => 2,
        }
    }

    fn unpack(word: u64) -> Option<Kind> {
        match word {
            0 => Some(Kind::Number),
            1 => Some(Kind::Word),
            _ => None,
        }
    }
}
