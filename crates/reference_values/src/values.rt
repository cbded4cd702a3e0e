// Values and what operators make of them. The order of the variants is the order of values: null is the least.
ghost use Rattle.std.specs.Prelude.{not, ◌≡◌};
ghost use Rattle.meaning.specs.Steps.{add_to_sum, is_true, not_null};
ghost use Rattle.meaning.specs.Values.{apply_op, bit, if3, is_null, not3, num_or_null, of_truth, truth};
ghost use Rattle.reference_values.specs.Values.{compared, computed, meant, meant_op, meant_truth, meant_type, stored};

use crate::kinds::*;
use std::ops::Not;

#[derive(Clone, Copy, PartialEq, Eq, PartialOrd, Ord, Hash, Debug)]
pub enum Value {
    Null,
    Number(u64),
    // Seven bytes as digits to base 256.
    Word(u64),
}

// 2^63: numbers are below it, and words on a page begin with it.
pub const NUMBER_LIMIT: u64 = 0x8000_0000_0000_0000;

// 2^56
const WORD_LIMIT: u64 = 0x0100_0000_0000_0000;

// In this order `and` is the least of two truths and `or` the largest.
#[derive(Clone, Copy, PartialEq, Eq, PartialOrd, Ord)]
enum Truth {
    False,
    Unknown,
    True,
}

impl Not for Truth {
    type Output = Truth;

    ghost not_gives = { λ t r. meant_truth r ≡ not3 (meant_truth t) };

    fn not(self) -> Truth {
        match self {
            Truth::False => Truth::True,
            Truth::Unknown => Truth::Unknown,
            Truth::True => Truth::False,
        }
    }
}

impl From<Value> for Truth {
    ghost from_gives = { λ v t. meant_truth t ≡ truth (meant v) };

    fn from(value: Value) -> Truth {
        match value {
            Value::Number(0) => Truth::False,
            Value::Number(_) => Truth::True,
            Value::Null | Value::Word(_) => Truth::Unknown,
        }
    }
}

impl From<Truth> for Value {
    ghost from_gives = { λ t v. meant v ≡ of_truth (meant_truth t) };

    fn from(truth: Truth) -> Value {
        match truth {
            Truth::False => Value::Number(0),
            Truth::Unknown => Value::Null,
            Truth::True => Value::Number(1),
        }
    }
}

// 1 or 0
impl From<bool> for Value {
    ghost from_gives = { λ b v. meant v ≡ bit b };

    fn from(holds: bool) -> Value {
        Value::Number(u64::from(holds))
    }
}

impl Not for Value {
    type Output = Value;

    ghost not_gives = { λ v r. meant r ≡ of_truth (not3 (truth (meant v))) };

    fn not(self) -> Value {
        Value::from(!Truth::from(self))
    }
}

impl Value {
    // What a word on a page says in a column of this kind; what it can't be is null.
    pub fn from_cell(kind: Kind, cell: u64) -> Value
        ensures { meant result ≡ stored (meant_type kind) cell }
    {
        match kind {
            Kind::Num => Value::number(cell),
            Kind::Word => match cell.checked_sub(NUMBER_LIMIT) {
                Some(word) if word < WORD_LIMIT => Value::Word(word),
                _ => Value::Null,
            },
        }
    }

    fn number(n: u64) -> Value
        ensures { meant result ≡ num_or_null n }
    {
        if n < NUMBER_LIMIT {
            Value::Number(n)
        } else {
            Value::Null
        }
    }

    pub fn is_null(self) -> bool
        ensures value { bit result ≡ is_null (meant self) }
        ensures there { not_null (meant self) ≡ not result }
    {
        matches!(self, Value::Null)
    }

    pub fn is_true(self) -> bool
        ensures { result ≡ is_true (meant self) }
    {
        matches!(Truth::from(self), Truth::True)
    }

    pub fn choose(self, yes: Value, no: Value) -> Value
        ensures { meant result ≡ if3 (truth (meant self)) (meant yes) (meant no) }
    {
        match Truth::from(self) {
            Truth::True => yes,
            Truth::False => no,
            Truth::Unknown => Value::Null,
        }
    }

    // Words compare as their numbers do; other operators make null.
    fn compare(operator: Operator, a: u64, b: u64) -> Value
        ensures { meant result ≡ compared (meant_op operator) a b }
    {
        match operator {
            Operator::Equal => Value::from(a == b),
            Operator::Differ => Value::from(a != b),
            Operator::Less => Value::from(a < b),
            Operator::AtMost => Value::from(a <= b),
            _ => Value::Null,
        }
    }

    // What is too large, below 0 or divided by 0 is null.
    fn compute(operator: Operator, a: u64, b: u64) -> Value
        ensures { meant result ≡ computed (meant_op operator) a b }
    {
        match operator {
            Operator::Add => a.checked_add(b).map_or(Value::Null, Value::number),
            Operator::Multiply => a.checked_mul(b).map_or(Value::Null, Value::number),
            Operator::Subtract => a.checked_sub(b).map_or(Value::Null, Value::Number),
            Operator::Divide => a.checked_div(b).map_or(Value::Null, Value::Number),
            Operator::Remainder => a.checked_rem(b).map_or(Value::Null, Value::Number),
            _ => Value::compare(operator, a, b),
        }
    }

    pub fn apply(operator: Operator, a: Value, b: Value) -> Value
        ensures { meant result ≡ apply_op (meant_op operator) (meant a) (meant b) }
    {
        match operator {
            Operator::And => Value::from(Truth::from(a).min(Truth::from(b))),
            Operator::Or => Value::from(Truth::from(a).max(Truth::from(b))),
            _ => match (a, b) {
                (Value::Number(x), Value::Number(y)) => Value::compute(operator, x, y),
                (Value::Word(x), Value::Word(y)) => Value::compare(operator, x, y),
                (_, _) => Value::Null,
            },
        }
    }

    // One more term of a sum: null is left out, and a sum that was too large stays null.
    pub fn plus(self, term: Value) -> Value
        ensures { meant result ≡ add_to_sum (meant self) (meant term) }
    {
        match (self, term) {
            (Value::Number(_), Value::Null) => self,
            (Value::Number(a), Value::Number(b)) => Value::compute(Operator::Add, a, b),
            (_, _) => Value::Null,
        }
    }

    pub fn count(rows: usize) -> Value
        ensures { meant result ≡ num_or_null rows }
    {
        Value::number(rows as u64)
    }
}
