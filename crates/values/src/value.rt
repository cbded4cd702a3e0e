ghost use Rattle.std.specs.Prelude.{◌≡◌, not};
ghost use Rattle.std.specs.Ordering.{is_lt};
ghost use Rattle.meaning.specs.Steps.{same_value, less_value, not_null, is_true, add_to_sum, better};
ghost use Rattle.meaning.specs.Values.{num_or_null, by_arith, by_compare, on_nums, by_comparison, apply_op, is_null, bit};
ghost use Rattle.values.specs.Types.{value_of, truth_of, arith_of, compare_of, op_of};

use crate::number::Number;
use crate::types::{Arithmetic, Comparison, Operator, Truth, Value};

impl Arithmetic {
    fn apply(self, x: Number, y: Number) -> Value
        ensures { value_of result ≡ by_arith (arith_of self) x.value y.value }
    {
        let (x, y) = (x.value, y.value);
        let n = match self {
            Arithmetic::Add => Some(x + y),
            Arithmetic::Subtract => x.checked_sub(y),
            Arithmetic::Multiply => x.checked_mul(y),
            Arithmetic::Divide => x.checked_div(y),
            Arithmetic::Remainder => x.checked_rem(y),
        };
        n.map_or(Value::Null, Value::number)
    }
}

impl Comparison {
    fn apply(self, x: u64, y: u64) -> bool
        ensures { result ≡ by_compare (compare_of self) x y }
    {
        match self {
            Comparison::Equal => x == y,
            Comparison::NotEqual => x != y,
            Comparison::Less => x < y,
            Comparison::LessOrEqual => x <= y,
        }
    }
}

// 1 or 0.
impl From<bool> for Value {
    ghost from_gives = { λ b v. value_of v ≡ bit b };

    fn from(b: bool) -> Value {
        Value::number(u64::from(b))
    }
}

impl Value {
    // A number, or null if it is too large; a cell is a u64 as well, so this is no From.
    pub fn number(n: u64) -> Value
        ensures { value_of result ≡ num_or_null n }
    {
        Number::try_from(n).map_or(Value::Null, Value::Number)
    }

    // Whether a row is kept for which an expression comes to this value.
    pub fn is_true(self) -> bool
        ensures { result ≡ is_true (value_of self) }
    {
        matches!(self, Value::Number(n) if n.value != 0)
    }

    pub fn is_null(self) -> bool
        ensures value { bit result ≡ is_null (value_of self) }
        ensures there { not_null (value_of self) ≡ not result }
    {
        matches!(self, Value::Null)
    }

    fn calculate(self, arithmetic: Arithmetic, other: Value) -> Value
        ensures { value_of result ≡ on_nums (by_arith (arith_of arithmetic)) (value_of self) (value_of other) }
    {
        match (self, other) {
            (Value::Number(x), Value::Number(y)) => arithmetic.apply(x, y),
            _ => Value::Null,
        }
    }

    fn compare(self, comparison: Comparison, other: Value) -> Value
        ensures { value_of result ≡ by_comparison (compare_of comparison) (value_of self) (value_of other) }
    {
        match (self, other) {
            (Value::Number(x), Value::Number(y)) => comparison.apply(x.value, y.value).into(),
            (Value::Word(x), Value::Word(y)) => comparison.apply(x.number, y.number).into(),
            _ => Value::Null,
        }
    }

    // What an operator comes to on two values.
    pub fn apply(self, operator: Operator, other: Value) -> Value
        ensures { value_of result ≡ apply_op (op_of operator) (value_of self) (value_of other) }
    {
        match operator {
            Operator::Arithmetic(a) => self.calculate(a, other),
            Operator::Comparison(c) => self.compare(c, other),
            Operator::Logic(l) => Truth::from(self).apply(l, other.into()).into(),
        }
    }

    // What is derived as equality: null equals null.
    pub fn equals(self, other: Value) -> bool
        ensures { result ≡ same_value (value_of self) (value_of other) }
    {
        self == other
    }

    // What is derived as order: null is the least; numbers and words by size.
    pub fn is_less(self, other: Value) -> bool
        ensures { result ≡ less_value (value_of self) (value_of other) }
    {
        self < other
    }

    // A sum and one value more: null is left out, and a sum that was too large stays null.
    pub fn add_to_sum(self, v: Value) -> Value
        ensures { value_of result ≡ add_to_sum (value_of self) (value_of v) }
    {
        match (self, v) {
            (Value::Number(_), Value::Null) => self,
            (Value::Number(x), Value::Number(y)) => Value::number(x.value + y.value),
            _ => Value::Null,
        }
    }

    // The lesser of two, null left out; Ord's would be null.
    pub fn min(self, v: Value) -> Value
        ensures { value_of result ≡ better less_value (value_of self) (value_of v) }
    {
        match (self, v) {
            (Value::Null, kept) | (kept, Value::Null) => kept,
            _ => Ord::min(self, v),
        }
    }

    // The larger of two, null left out: null is the least.
    pub fn max(self, v: Value) -> Value
        ensures { value_of result ≡ better (λ a b. less_value b a) (value_of self) (value_of v) }
    {
        Ord::max(self, v)
    }
}

// What is derived for values is the order of the definitions.
pub fn value_order()
    ensures same { (a b : Value) → ⟦<Value as PartialEq>⟧.eq a b ≡ same_value (value_of a) (value_of b) }
    ensures less { (a b : Value) → is_lt (⟦<Value as Ord>⟧.cmp a b) ≡ less_value (value_of a) (value_of b) }
{}
