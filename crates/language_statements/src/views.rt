ghost use Rattle.std.specs.Prelude.{◌≡◌};

use language_pieces::reader::Reader;
use std::marker::PhantomData;
use values::types::Kind;

// A column of a declared table.
#[derive(Clone, Copy)]
pub struct Column<'a> {
    pub name: &'a [u8],
    pub kind: Kind,
    pub page: u64,
}

// A column to order by.
#[derive(Clone, Copy)]
pub struct SortKey<'a> {
    pub name: &'a [u8],
    pub descending: bool,
}

// What may be made of a group's values of a column.
#[derive(Clone, Copy)]
pub enum Function {
    Sum,
    Min,
    Max,
    First,
}

#[derive(Clone, Copy)]
pub enum Aggregate<'a> {
    Count,
    Of(Function, &'a [u8]),
}

// A column that a group makes.
#[derive(Clone, Copy)]
pub struct NamedAggregate<'a> {
    pub name: &'a [u8],
    pub aggregate: Aggregate<'a>,
}

// Items up to the end of the line.
#[derive(Clone, Copy)]
pub struct Items<'a, T> {
    pub reader: Reader<'a>,
    of: PhantomData<T>,
}

impl<'a, T> Items<'a, T> {
    pub fn new(reader: Reader<'a>) -> Items<'a, T>
        ensures { result.reader ≡ reader.entry }
    {
        Items {
            reader,
            of: PhantomData,
        }
    }
}

pub type Names<'a> = Items<'a, &'a [u8]>;

pub type SortKeys<'a> = Items<'a, SortKey<'a>>;

pub type Columns<'a> = Items<'a, Column<'a>>;

// Names up to a colon.
#[derive(Clone, Copy)]
pub struct GroupKeys<'a> {
    pub reader: Reader<'a>,
}

// Aggregates parted by commas; no reader where none is to come.
#[derive(Clone, Copy)]
pub struct Aggregates<'a> {
    pub reader: Option<Reader<'a>>,
}

// The columns that a join compares: one of the rows, one of the table.
#[derive(Clone, Copy)]
pub struct Pair<'a> {
    pub own: &'a [u8],
    pub other: &'a [u8],
}

// The word that a step begins with.
#[derive(Clone, Copy)]
pub enum Verb {
    Keep,
    Make,
    Pick,
    Join,
    Left,
    Group,
    Order,
    Take,
    Skip,
    Unite,
    Distinct,
}

// A step; an expression is what is left of the line.
#[derive(Clone, Copy)]
pub enum Step<'a> {
    Keep(Reader<'a>),
    Make(&'a [u8], Reader<'a>),
    Pick(Names<'a>),
    Join {
        table: &'a [u8],
        on: Pair<'a>,
        left: bool,
    },
    Group(GroupKeys<'a>, Aggregates<'a>),
    Order(SortKeys<'a>),
    Take(u64),
    Skip(u64),
    Unite(&'a [u8]),
    Distinct,
}

// A declared table.
#[derive(Clone, Copy)]
pub struct Table<'a> {
    pub name: &'a [u8],
    pub rows: u64,
    pub columns: Columns<'a>,
}
