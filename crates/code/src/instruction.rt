ghost use Rattle.std.specs.Prelude.{◌≡◌, slice_index};
ghost use Rattle.code.specs.Words.{instr_of, unpacked};

use crate::operators::{OPERATORS, operator_number};
use values::number::Number;
use values::types::{Kind, Operator};
use values::word::Word;

// An instruction of postfix code: what is done with the values on a stack.
#[derive(Clone, Copy, Debug, PartialEq, Eq)]
pub enum Instruction {
    Number(Number),
    Word(Word),
    Null(Kind),
    Column(u64),
    Operator(Operator),
    Not,
    IsNull,
    If,
}

// An instruction lies in lent words, for there is no heap: the number of its operation, and its operand. A constant
// that is no value is null.
impl From<[u64; 2]> for Instruction {
    ghost from_gives = { λ words r. instr_of r ≡ unpacked (slice_index words 0) (slice_index words 1) };

    fn from([operation, operand]: [u64; 2]) -> Instruction {
        match operation {
            0 => Instruction::number(operand),
            1 => Instruction::word(operand),
            2 => Instruction::Null(Kind::Number),
            3 => Instruction::Null(Kind::Word),
            4 => Instruction::Column(operand),
            5..=15 => Instruction::Operator(OPERATORS[operation as usize - 5]),
            16 => Instruction::Not,
            17 => Instruction::IsNull,
            _ => Instruction::If,
        }
    }
}

impl From<Instruction> for [u64; 2] {
    ghost from_gives = { λ i r. unpacked (slice_index r 0) (slice_index r 1) ≡ instr_of i };

    fn from(instruction: Instruction) -> [u64; 2] {
        match instruction {
            Instruction::Number(n) => [0, n.value],
            Instruction::Word(w) => [1, w.number],
            Instruction::Null(Kind::Number) => [2, 0],
            Instruction::Null(Kind::Word) => [3, 0],
            Instruction::Column(i) => [4, i],
            Instruction::Operator(operator) => [5 + operator_number(operator), 0],
            Instruction::Not => [16, 0],
            Instruction::IsNull => [17, 0],
            Instruction::If => [18, 0],
        }
    }
}

impl Instruction {
    // One for this and word would take the constructor and the null's kind: no plainer than two lines.
    fn number(n: u64) -> Instruction
        ensures { instr_of result ≡ unpacked 0 n }
    {
        Number::try_from(n).map_or(Instruction::Null(Kind::Number), Instruction::Number)
    }

    fn word(n: u64) -> Instruction
        ensures { instr_of result ≡ unpacked 1 n }
    {
        Word::try_from(n).map_or(Instruction::Null(Kind::Word), Instruction::Word)
    }
}
