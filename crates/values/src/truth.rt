ghost use Rattle.std.specs.Prelude.{◌≡◌};
ghost use Rattle.meaning.specs.Values.{truth, of_truth, not3, by_logic, if3};
ghost use Rattle.values.specs.Types.{value_of, truth_of, logic_of};

use crate::types::{Logic, Truth, Value};
use std::ops::Not;

// A number is true if it isn't 0.
impl From<Value> for Truth {
    ghost from_gives = { λ v t. truth_of t ≡ truth (value_of v) };

    fn from(v: Value) -> Truth {
        match v {
            Value::Number(n) if n.value == 0 => Truth::False,
            Value::Number(_) => Truth::True,
            Value::Null | Value::Word(_) => Truth::Unknown,
        }
    }
}

// 1, 0 or null.
impl From<Truth> for Value {
    ghost from_gives = { λ t v. value_of v ≡ of_truth (truth_of t) };

    fn from(t: Truth) -> Value {
        match t {
            Truth::True => Value::number(1),
            Truth::False => Value::number(0),
            Truth::Unknown => Value::Null,
        }
    }
}

impl Not for Truth {
    type Output = Truth;

    ghost not_gives = { λ t u. truth_of u ≡ not3 (truth_of t) };

    fn not(self) -> Truth {
        match self {
            Truth::False => Truth::True,
            Truth::Unknown => Truth::Unknown,
            Truth::True => Truth::False,
        }
    }
}

impl Truth {
    pub(crate) fn apply(self, logic: Logic, other: Truth) -> Truth
        ensures { truth_of result ≡ by_logic (logic_of logic) (truth_of self) (truth_of other) }
    {
        match logic {
            Logic::And => self.min(other),
            Logic::Or => self.max(other),
        }
    }

    // The first if true, the second if false, else null.
    pub fn select(self, first: Value, second: Value) -> Value
        ensures { value_of result ≡ if3 (truth_of self) (value_of first) (value_of second) }
    {
        match self {
            Truth::True => first,
            Truth::False => second,
            Truth::Unknown => Value::Null,
        }
    }
}
