// bench_evaluate ROWS: for how many of so many rows `late < 20 and day < 2` is true.
#![tactic(auto)]

ghost use Rattle.std.specs.Prelude.{◌≡◌, ◌+◌, ◌*◌, ◌≤◌, length};

use code::code::Code;
use code::instruction::Instruction;
use expressions::evaluate::evaluate;
use std::{env, io};
use values::number::Number;
use values::types::{Comparison, Logic, Operator};

// Writes `late < 20 and day < 2`.
fn write_code(code: &mut Code)
    requires { 2 * length code.old.instructions + 14 ≤ code.old.size }
    ensures { length code.new.instructions ≡ length code.old.instructions + 7 }
{
    code.push(Instruction::Column(0));
    code.push(Instruction::Number(Number { value: 20 }));
    code.push(Instruction::Operator(Operator::Comparison(Comparison::Less)));
    code.push(Instruction::Column(1));
    code.push(Instruction::Number(Number { value: 2 }));
    code.push(Instruction::Operator(Operator::Comparison(Comparison::Less)));
    code.push(Instruction::Operator(Operator::Logic(Logic::And)));
}

fn count_true(rows: u64, code: &[u64], stack: &mut [u64]) -> usize
    requires { length code.now ≤ 2 * length stack.old }
{
    (0..rows)
        .filter(|i| evaluate(code, &[i % 40, i % 5], stack).is_true())
        .count()
}

fn rows_asked(rt: &HostRuntime) -> io::Result<u64> {
    let text = env::args(rt)?.nth(1);
    Ok(
        text.and_then(|text| text.as_str().parse::<u64>().ok())
            .unwrap_or(0),
    )
}

fn main(rt: HostRuntime) -> io::Result<()> {
    let rows = rows_asked(&rt)?;
    let mut code_words = [0; 14];
    let mut stack = [0; 7];
    let mut code = Code::new(&mut code_words);
    write_code(&mut code);
    let count = count_true(rows, code.words(), &mut stack);
    println!(rt; "{count}")?;
    Ok(())
}
