ghost use Rattle.std.specs.Prelude.{◌≡◌, ◌*◌, ◌≤◌, length};
ghost use Rattle.meaning.specs.Values.{Value as V};
ghost use Rattle.values.specs.Types.{value_of};
ghost use Rattle.expressions.specs.Algebra.{row_algebra};
ghost use Rattle.expressions.specs.Words.{row_of, Evaluated};

use crate::algebra::Algebra;
use crate::running::run;
use values::number::Number;
use values::types::{Kind, Operator, Truth, Value};
use values::word::Word;

// Values, on a row of cells.
#[derive(Clone, Copy)]
struct Row<'a> {
    cells: &'a [u64],
}

impl<'a> Algebra for Row<'a> {
    type Item = Value;

    ghost Meaning = { V };

    ghost meaning = { value_of };

    ghost sense = { λ row. row_algebra (row_of row.cells.now) };

    fn number(&self, number: Number) -> Value {
        Value::Number(number)
    }

    fn word(&self, word: Word) -> Value {
        Value::Word(word)
    }

    fn null(&self, _kind: Kind) -> Value {
        Value::Null
    }

    // Null where there is no such column.
    #[tactic(auto, using(crate::proofs::Rows::at_cell, crate::proofs::Rows::at_past))]
    fn column(&self, column: u64) -> Value {
        self.cells
            .get(column as usize)
            .map_or(Value::Null, |cell| Value::from_cell(*cell))
    }

    fn operator(&self, operator: Operator, a: Value, b: Value) -> Value {
        a.apply(operator, b)
    }

    fn not(&self, a: Value) -> Value {
        Value::from(!Truth::from(a))
    }

    fn is_null(&self, a: Value) -> Value {
        Value::from(a.is_null())
    }

    fn select(&self, a: Value, b: Value, c: Value) -> Value {
        Truth::from(a).select(b, c)
    }

    fn empty(&self) -> Value {
        Value::Null
    }
}

// The value of an expression on a row of cells, by its code. The stack has a word for each instruction, so a text
// of so many bytes takes at most `stack_words` of them.
#[tactic(auto, using(crate::proofs::Means::result_eval, meaning::proofs::RowsAgree::length_each))]
pub fn evaluate(code: &[u64], row: &[u64], stack: &mut [u64]) -> Value
    requires { length code.now ≤ 2 * length stack.old }
    ensures { Evaluated code.now row.now result }
{
    run(&Row { cells: row }, code, stack)
}
