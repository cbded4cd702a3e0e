// Why a question isn't sound.
ghost use Rattle.std.specs.Prelude.{◌≡◌, Some};
ghost use Rattle.reference_planning.specs.Faults.{unsound_told};
ghost use Rattle.reference_planning.specs.declared.faults.Unsound.TheVariants.{OutOfMemory};

use messages::lines::AtLine;
use messages::quotes::Quoted;
use reference_reading::spans::*;
use std::alloc::{AllocError, AllocFailed};
use std::fmt;

#[derive(Clone, Copy)]
pub enum Unsound {
    SameTable(Span),
    SameColumn(Span),
    NoColumns,
    TooManyColumns(usize),
    // A column that ends behind the tables' pages, and how many these are.
    BeyondBorder(Span, u64),
    NoTable(Span),
    // The column's name, and the step behind which it isn't.
    NoColumn(Span, Span),
    // The column's name, and the table that lacks it.
    NotInTable(Span, Span),
    WantsNumber(&'static str),
    WantsNumbers(&'static str),
    WantsOneType(&'static str),
    SumOfWords(Span),
    // The two columns of a join.
    TypesDiffer(Span, Span),
    // The table to be united, and the step behind which the columns are others.
    OtherColumns(Span, Span),
    OutOfMemory,
}

// A question that isn't sound.
pub type NotSound = AtLine<Unsound>;

// Two impls, since a failed push and a failed collect are two errors.
impl From<AllocError> for Unsound {
    ghost from_gives = { λ _ fault. fault ≡ OutOfMemory };

    fn from(_error: AllocError) -> Self {
        Unsound::OutOfMemory
    }
}

impl<T: Drop> From<AllocFailed<T>> for Unsound {
    ghost from_gives = { λ _ fault. fault ≡ OutOfMemory };

    fn from(_error: AllocFailed<T>) -> Self {
        Unsound::OutOfMemory
    }
}

// A fault beside the text that it is in, whose parts are quoted.
#[derive(Clone, Copy)]
pub struct UnsoundIn<'t> {
    pub text: &'t [u8],
    pub fault: Unsound,
}

impl fmt::Display for UnsoundIn<'_> {
    ghost output = { λ told. Some (unsound_told told.text.now told.fault) };

    fn fmt<W: fmt::Write>(&self, f: &mut fmt::Formatter<W>) -> fmt::Result {
        let quoted = |part: Span| Quoted(part.of(self.text));
        match self.fault {
            Unsound::SameTable(name) => write!(f, "a second table is named {}", quoted(name)),
            Unsound::SameColumn(name) => write!(f, "a second column is named {}", quoted(name)),
            Unsound::NoColumns => write!(f, "there are no columns"),
            Unsound::TooManyColumns(count) => write!(f, "{count} columns, more than 64"),
            Unsound::BeyondBorder(name, pages) => {
                write!(
                    f,
                    "column {} ends behind the file's {pages} pages",
                    quoted(name)
                )
            }
            Unsound::NoTable(name) => write!(f, "no table {}", quoted(name)),
            Unsound::NoColumn(name, step) => {
                write!(f, "no column {} behind {}", quoted(name), quoted(step))
            }
            Unsound::NotInTable(name, table) => {
                write!(f, "no column {} in table {}", quoted(name), quoted(table))
            }
            Unsound::WantsNumber(word) => write!(f, "'{word}' wants a number"),
            Unsound::WantsNumbers(word) => write!(f, "'{word}' wants numbers"),
            Unsound::WantsOneType(word) => write!(f, "'{word}' wants two values of one type"),
            Unsound::SumOfWords(name) => {
                write!(
                    f,
                    "'sum' wants numbers, not the words of column {}",
                    quoted(name)
                )
            }
            Unsound::TypesDiffer(x, y) => {
                write!(f, "columns {} and {} differ in type", quoted(x), quoted(y))
            }
            Unsound::OtherColumns(table, step) => write!(
                f,
                "table {} has other columns than stand behind {}",
                quoted(table),
                quoted(step)
            ),
            Unsound::OutOfMemory => write!(f, "out of memory"),
        }
    }
}
