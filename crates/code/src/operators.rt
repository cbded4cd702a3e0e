ghost use Rattle.std.specs.Prelude.{◌≡◌, ℕ, ◌+◌, ◌<◌};
ghost use Rattle.values.specs.Types.{op_of};
ghost use Rattle.code.specs.Postfix.{i_op};
ghost use Rattle.code.specs.Operators.{operator_in};
ghost use Rattle.code.specs.Words.{unpacked};

use values::types::{Arithmetic, Comparison, Logic, Operator};

// The operators by their numbers.
pub static OPERATORS: [Operator; 11] = [
    Operator::Arithmetic(Arithmetic::Add),
    Operator::Arithmetic(Arithmetic::Subtract),
    Operator::Arithmetic(Arithmetic::Multiply),
    Operator::Arithmetic(Arithmetic::Divide),
    Operator::Arithmetic(Arithmetic::Remainder),
    Operator::Comparison(Comparison::Equal),
    Operator::Comparison(Comparison::NotEqual),
    Operator::Comparison(Comparison::Less),
    Operator::Comparison(Comparison::LessOrEqual),
    Operator::Logic(Logic::And),
    Operator::Logic(Logic::Or),
];

// The number of an operator, by which code and marks keep it in words; no From, since both types are other crates'.
pub fn operator_number(operator: Operator) -> u64
    ensures is { operator_in result ≡ operator }
    ensures small { result < 11 }
    ensures operation { (operand : ℕ) → unpacked (5 + result) operand ≡ i_op (op_of operator) }
{
    match operator {
        Operator::Arithmetic(arithmetic) => arithmetic as u64,
        Operator::Comparison(comparison) => 5 + comparison as u64,
        Operator::Logic(logic) => 9 + logic as u64,
    }
}
