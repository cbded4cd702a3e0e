ghost use Rattle.std.specs.Prelude.{◌≡◌, ◌*◌, ◌≤◌, length};
ghost use Rattle.std.proofs.Math.Option.{Option as O};
ghost use Rattle.meaning.specs.Values.{Ty};
ghost use Rattle.expressions.specs.Algebra.{type_algebra};
ghost use Rattle.expressions.specs.Words.{maybe_type, col_type_at, TypeFound};

use crate::algebra::Algebra;
use crate::running::run;
use column_set::ColumnSet;
use values::number::Number;
use values::types::{Kind, Operator};
use values::word::Word;

// Types, none where parts don't fit, by the columns that hold words.
#[derive(Clone, Copy)]
struct Types {
    word_columns: ColumnSet,
}

impl Algebra for Types {
    type Item = Option<Kind>;

    ghost Meaning = { O Ty };

    ghost meaning = { maybe_type };

    ghost sense = { λ types. type_algebra (col_type_at types.word_columns.bits types.word_columns.width) };

    fn number(&self, _number: Number) -> Option<Kind> {
        Some(Kind::Number)
    }

    fn word(&self, _word: Word) -> Option<Kind> {
        Some(Kind::Word)
    }

    fn null(&self, kind: Kind) -> Option<Kind> {
        Some(kind)
    }

    fn column(&self, column: u64) -> Option<Kind> {
        let column = u32::try_from(column).ok()?;
        if column >= self.word_columns.width() {
            return None;
        }
        Some(if self.word_columns.contains(column) {
            Kind::Word
        } else {
            Kind::Number
        })
    }

    fn operator(&self, operator: Operator, a: Option<Kind>, b: Option<Kind>) -> Option<Kind> {
        let (a, b) = (a?, b?);
        let fits = match operator {
            Operator::Arithmetic(_) | Operator::Logic(_) => a == Kind::Number && b == Kind::Number,
            Operator::Comparison(_) => a == b,
        };
        fits.then_some(Kind::Number)
    }

    fn not(&self, a: Option<Kind>) -> Option<Kind> {
        a.filter(|kind| *kind == Kind::Number)
    }

    fn is_null(&self, a: Option<Kind>) -> Option<Kind> {
        a.map(|_| Kind::Number)
    }

    fn select(&self, a: Option<Kind>, b: Option<Kind>, c: Option<Kind>) -> Option<Kind> {
        let (a, b, c) = (a?, b?, c?);
        (a == Kind::Number && b == c).then_some(b)
    }

    fn empty(&self) -> Option<Kind> {
        None
    }
}

// The type of an expression, by its code; none where its parts don't fit. The stack takes as many words as that of
// `evaluate`.
pub fn type_of(code: &[u64], word_columns: ColumnSet, stack: &mut [u64]) -> Option<Kind>
    requires { length code.now ≤ 2 * length stack.old }
    ensures { TypeFound code.now word_columns.bits word_columns.width result }
{
    run(&Types { word_columns }, code, stack)
}
