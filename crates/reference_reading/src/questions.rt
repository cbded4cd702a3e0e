// A question as it was read: its tables, the one that it begins with, its steps. Names are parts of the text.
use crate::names::NamedInText;
use crate::spans::*;
pub use reference_values::kinds::{Kind, Operator};

#[derive(Clone, Copy)]
pub struct Column {
    pub name: Span,
    pub kind: Kind,
}

impl NamedInText for Column {
    ghost called = { λ column. column.name };

    fn name(&self) -> Span {
        self.name
    }
}

// A column of a table, and the page that it begins on.
#[derive(Clone, Copy)]
pub struct StoredColumn {
    pub column: Column,
    pub page: u64,
}

#[derive(Drop)]
pub struct TableDecl {
    pub line: usize,
    pub name: Span,
    pub rows: u64,
    pub columns: Vec<StoredColumn>,
}

impl NamedInText for TableDecl {
    ghost called = { λ table. table.name };

    fn name(&self) -> Span {
        self.name
    }
}

// An item of postfix code: a value that goes onto the stack, or what is done with those on top of it.
#[derive(Clone, Copy)]
pub enum Item {
    Number(u64),
    Word(u64),
    Null(Kind),
    Column(Span),
    Apply(Operator),
    Not,
    IsNull,
    Choose,
}

// A column is named as it was read, and stands at its position once that is known.
#[derive(Clone, Copy)]
pub enum Aggregate<C> {
    Sum(C),
    Count,
    Min(C),
    Max(C),
    First(C),
}

#[derive(Clone, Copy)]
pub struct NamedAggregate {
    pub name: Span,
    pub aggregate: Aggregate<Span>,
}

#[derive(Clone, Copy)]
pub struct SortKey<C> {
    pub column: C,
    pub down: bool,
}

// With which table, on which columns of both, and whether a row without a match stays.
#[derive(Clone, Copy)]
pub struct Join {
    pub table: Span,
    pub column: Span,
    pub other_column: Span,
    pub stays: bool,
}

#[derive(Drop)]
pub struct Group {
    pub keys: Vec<Span>,
    pub aggregates: Vec<NamedAggregate>,
}

#[derive(Drop)]
pub struct Make {
    pub name: Span,
    pub code: Vec<Item>,
}

#[derive(Drop)]
pub enum Step {
    Keep(Vec<Item>),
    Make(Make),
    Pick(Vec<Span>),
    Join(Join),
    Group(Group),
    Order(Vec<SortKey<Span>>),
    Take(u64),
    Skip(u64),
    Unite(Span),
    Distinct,
}

// A step, its line's number and where its line stands.
#[derive(Drop)]
pub struct Statement {
    pub line: usize,
    pub span: Span,
    pub step: Step,
}

// The table that the question begins with, its line's number and where its line stands.
#[derive(Clone, Copy)]
pub struct Source {
    pub line: usize,
    pub span: Span,
    pub table: Span,
}

#[derive(Drop)]
pub struct Question {
    pub tables: Vec<TableDecl>,
    pub source: Source,
    pub steps: Vec<Statement>,
}
