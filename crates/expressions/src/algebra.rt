ghost use Rattle.std.specs.Prelude.{◌≡◌, ℕ};
ghost use Rattle.values.specs.Types.{type_of_kind, op_of};
ghost use Rattle.expressions.specs.Algebra.{Algebra as Sense};

use lent_stack::packed::Packed;
use values::number::Number;
use values::types::{Kind, Operator};
use values::word::Word;

// What each form of an expression comes to, as values on a row or as types.
pub(crate) trait Algebra {
    type Item: Packed + Copy;

    // What the items stand for, and what each form comes to.
    ghost Meaning: { Type 0 };

    ghost meaning: { Self.Item → Meaning };

    ghost sense: { Self → Sense ℕ Meaning };

    fn number(&self, number: Number) -> Self::Item
        ensures { meaning result ≡ (sense self.now).a_num number.value };

    fn word(&self, word: Word) -> Self::Item
        ensures { meaning result ≡ (sense self.now).a_word word.number };

    fn null(&self, kind: Kind) -> Self::Item
        ensures { meaning result ≡ (sense self.now).a_null (type_of_kind kind) };

    fn column(&self, column: u64) -> Self::Item
        ensures { meaning result ≡ (sense self.now).a_col column };

    fn operator(&self, operator: Operator, a: Self::Item, b: Self::Item) -> Self::Item
        ensures { meaning result ≡ (sense self.now).a_op (op_of operator) (meaning a) (meaning b) };

    fn not(&self, a: Self::Item) -> Self::Item
        ensures { meaning result ≡ (sense self.now).a_not (meaning a) };

    fn is_null(&self, a: Self::Item) -> Self::Item
        ensures { meaning result ≡ (sense self.now).a_none (meaning a) };

    fn select(&self, a: Self::Item, b: Self::Item, c: Self::Item) -> Self::Item
        ensures { meaning result ≡ (sense self.now).a_if (meaning a) (meaning b) (meaning c) };

    // What an empty stack gives.
    fn empty(&self) -> Self::Item
        ensures { meaning result ≡ (sense self.now).a_empty };
}
