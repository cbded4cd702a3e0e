ghost use Rattle.std.specs.Prelude.{◌≡◌, ◌<◌};
ghost use Rattle.values.specs.declared.types.Operator.{Operator};
ghost use Rattle.code.specs.Operators.{operator_in};
ghost use Rattle.language_expressions.specs.declared.machine.Mark.TheVariants.{Applied};
ghost use Rattle.language_expressions.specs.Marks.{mark_in, mark_of};

use crate::machine::{Chain, Mark};
use code::operators::{OPERATORS, operator_number};
use lent_stack::packed::Packed;
use values::types::Operator;

const CHAINS: [Chain; 4] = [Chain::Ors, Chain::Ands, Chain::Sums, Chain::Products];

// These are no From: u64 and `Operator` are other crates' types, and a chain has two numbers.
fn operator_of(number: u64) -> Operator
    ensures { result ≡ operator_in number }
{
    OPERATORS[number.min(10) as usize]
}

fn applied_number(chain: Chain) -> u64
    ensures is { (operator : Operator) → mark_of result operator ≡ Applied chain operator }
    ensures small { result < 16 }
{
    4 + chain as u64
}

// A mark as a number, since the stack lies in lent words: which one below 16, its operator above.
impl Packed for Mark {
    ghost unpacked = { mark_in };

    fn pack(self) -> u64 {
        match self {
            Mark::Chain(chain) => chain as u64,
            Mark::Applied(chain, operator) => {
                16 * operator_number(operator) + applied_number(chain)
            }
            Mark::Comparison => 8,
            Mark::Compared(operator) => 16 * operator_number(operator) + 9,
            Mark::Not => 10,
            Mark::Paren => 11,
            Mark::NoneParen => 12,
            Mark::Then => 13,
            Mark::Else => 14,
            Mark::End => 15,
        }
    }

    fn unpack(word: u64) -> Mark {
        let kind = word % 16;
        match kind {
            0..=3 => Mark::Chain(CHAINS[kind as usize]),
            4..=7 => Mark::Applied(CHAINS[kind as usize - 4], operator_of(word / 16)),
            8 => Mark::Comparison,
            9 => Mark::Compared(operator_of(word / 16)),
            10 => Mark::Not,
            11 => Mark::Paren,
            12 => Mark::NoneParen,
            13 => Mark::Then,
            14 => Mark::Else,
            _ => Mark::End,
        }
    }
}
