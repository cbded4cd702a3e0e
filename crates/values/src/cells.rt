ghost use Rattle.std.specs.Prelude.{◌≡◌};
ghost use Rattle.meaning.specs.Values.{cell};
ghost use Rattle.values.specs.Types.{value_of, type_of_kind};
ghost use Rattle.values.specs.Cells.{from_cell, from_stored, key, KeyOrder};

use crate::number::NUMBER_LIMIT;
use crate::types::{Kind, Value};
use crate::word::Word;

// The cell of null.
pub const NULL_CELL: u64 = 0xffff_ffff_ffff_ffff;

// A u64 is a number, a word's number and a key too, so these are methods and no From.
impl Value {
    // The word of a page that stands for it.
    pub fn to_cell(self) -> u64
        ensures cell { result ≡ cell (value_of self) }
        ensures back { from_cell result ≡ value_of self }
    {
        match self {
            Value::Null => NULL_CELL,
            Value::Number(n) => n.value,
            Value::Word(w) => NUMBER_LIMIT + w.number,
        }
    }

    // What a cell stands for; what is no cell is null.
    pub fn from_cell(word: u64) -> Value
        ensures { value_of result ≡ from_cell word }
    {
        match word.checked_sub(NUMBER_LIMIT) {
            None => Value::number(word),
            Some(number) => Word::try_from(number).map_or(Value::Null, Value::Word),
        }
    }

    // What a word of a column of this type stands for; what is no cell of the type is null.
    pub fn from_stored(kind: Kind, word: u64) -> Value
        ensures { value_of result ≡ from_stored (type_of_kind kind) word }
    {
        let v = Value::from_cell(word);
        match (kind, v) {
            (Kind::Number, Value::Number(_)) | (Kind::Word, Value::Word(_)) => v,
            _ => Value::Null,
        }
    }
}

// A cell as a word of a key: such words compare as numbers as the values do, or the other way round.
pub fn key_word(word: u64, descending: bool) -> u64
    ensures { result ≡ key descending word }
{
    let ascending = word.wrapping_add(1);
    if descending {
        NULL_CELL - ascending
    } else {
        ascending
    }
}

// Comparing key words as numbers is the order of values.
pub fn key_words_order()
    ensures { KeyOrder }
{}
