ghost use Rattle.std.specs.Prelude.{◌≡◌, ℕ, ◌<◌, ◌≤◌, ◌||◌};
ghost use Rattle.column_set.specs.Membership.{has};
ghost use Rattle.code.specs.Words.{instr_of};
ghost use Rattle.code_columns.specs.Columns.{names_col, Named};

use code::instruction::Instruction;
use code::instructions::Instructions;
use column_set::ColumnSet;

// Inserts the column of an instruction, if it names one.
fn insert_column(instruction: Instruction, set: &mut ColumnSet)
    ensures width { set.new.width ≡ set.old.width }
    ensures columns { (k : ℕ) → k < set.old.width → has set.new.bits k ≡ (names_col k (instr_of instruction) || has set.old.bits k) }
{
    match instruction {
        Instruction::Column(i) if i < u64::from(set.width()) => set.insert(i as u32),
        _ => {}
    }
}

// The columns that an expression names, by its code, of so many.
pub fn columns_named(code: &[u64], width: u32) -> ColumnSet
    requires { width ≤ 64 }
    ensures width { result.width ≡ width }
    ensures columns { Named code.now result }
{
    let mut set = ColumnSet::empty(width);
    for instruction in Instructions::new(code) {
        insert_column(instruction, &mut set);
    }
    set
}
