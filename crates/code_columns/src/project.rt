ghost use Rattle.std.specs.Prelude.{◌≡◌, ◌<◌};
ghost use Rattle.code.specs.Postfix.{map_col};
ghost use Rattle.code.specs.Words.{instr_of};
ghost use Rattle.code_columns.specs.Columns.{new_index, Projected};

use code::instruction::Instruction;
use column_set::ColumnSet;

// An instruction with its column counted among those of a set.
fn project_one(instruction: Instruction, used: ColumnSet) -> Instruction
    ensures { instr_of result ≡ map_col (new_index used) (instr_of instruction) }
{
    match instruction {
        Instruction::Column(i) if i < u64::from(used.width()) => {
            Instruction::Column(u64::from(used.count_before(i as u32)))
        }
        _ => instruction,
    }
}

// Turns code over a table's columns into code over those of a set.
pub fn project(code: &mut [u64], used: ColumnSet)
    ensures { Projected code.old used code.new }
{
    // By an index: nothing can be proved of what `chunks_exact_mut` leaves in the slice.
    for i in 0..code.len() / 2 {
        let instruction = project_one(Instruction::fetch(code, i), used);
        instruction.store(code, i);
    }
}
