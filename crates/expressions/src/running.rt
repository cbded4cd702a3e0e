ghost use Rattle.std.specs.Prelude.{◌≡◌, ◌+◌, ◌*◌, ◌<◌, ◌≤◌, length};
ghost use Rattle.lent_stack.specs.Stacked.{popped};
ghost use Rattle.meaning.specs.Base.{each};
ghost use Rattle.code.specs.Words.{instr_of, code_in};
ghost use Rattle.expressions.specs.Algebra.{top, run_one, result as comes_to};

use crate::algebra::Algebra;
use code::instruction::Instruction;
use code::instructions::Instructions;
use lent_stack::stack::Stack;

fn take<A: Algebra>(algebra: &A, stack: &mut Stack<A::Item>) -> A::Item
    ensures item { A.meaning result ≡ top (A.sense algebra.now).a_empty (each A.meaning stack.old.items) }
    ensures left { stack.new ≡ popped stack.old }
{
    stack.pop().unwrap_or(algebra.empty())
}

fn execute<A: Algebra>(algebra: &A, instruction: Instruction, stack: &mut Stack<A::Item>)
    requires { length stack.old.items < stack.old.room }
    ensures room { stack.new.room ≡ stack.old.room }
    ensures depth { length stack.new.items ≤ length stack.old.items + 1 }
    ensures items { each A.meaning stack.new.items ≡ run_one (A.sense algebra.now) (instr_of instruction) (each A.meaning stack.old.items) }
{
    match instruction {
        Instruction::Number(number) => stack.push(algebra.number(number)),
        Instruction::Word(word) => stack.push(algebra.word(word)),
        Instruction::Null(kind) => stack.push(algebra.null(kind)),
        Instruction::Column(column) => stack.push(algebra.column(column)),
        Instruction::Operator(operator) => {
            let b = take(algebra, stack);
            let a = take(algebra, stack);
            stack.push(algebra.operator(operator, a, b));
        }
        Instruction::Not => {
            let a = take(algebra, stack);
            stack.push(algebra.not(a));
        }
        Instruction::IsNull => {
            let a = take(algebra, stack);
            stack.push(algebra.is_null(a));
        }
        Instruction::If => {
            let c = take(algebra, stack);
            let b = take(algebra, stack);
            let a = take(algebra, stack);
            stack.push(algebra.select(a, b, c));
        }
    }
}

// What code comes to; the stack needs a word for each instruction.
// Only evaluate and type_of take code with a stack: a struct of both would ask for the room where it is made.
pub(crate) fn run<A: Algebra>(algebra: &A, code: &[u64], words: &mut [u64]) -> A::Item
    requires { length code.now ≤ 2 * length words.old }
    ensures { A.meaning result ≡ comes_to (A.sense algebra.now) (code_in code.now) }
{
    let mut stack = Stack::new(words);
    for instruction in Instructions::new(code) {
        execute(algebra, instruction, &mut stack);
    }
    take(algebra, &mut stack)
}
