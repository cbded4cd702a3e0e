// A sound question with its names replaced by positions.
ghost use Rattle.std.specs.Prelude.{◌≤◌, vec_len};

use reference_reading::questions::*;
use reference_values::values::*;

// How many words a page has.
pub const PAGE_WORDS: u64 = 512;

// An instruction of postfix code.
// Not `Item`, `Join`, `Group`, `Step` over positions: here a null has no kind, a make no name, a join a width.
#[derive(Clone, Copy)]
pub enum Instruction {
    Push(Value),
    Column(usize),
    Apply(Operator),
    Not,
    IsNull,
    Choose,
}

pub type Aggregation = Aggregate<usize>;

pub type SortColumn = SortKey<usize>;

// The joined table, the columns that have to be equal, and how many columns the table has.
#[derive(Clone, Copy)]
pub struct JoinOn {
    pub table: usize,
    pub column: usize,
    pub other_column: usize,
    pub other_width: usize,
    pub stays: bool,
}

#[derive(Drop)]
pub struct Grouping {
    pub keys: Vec<usize>,
    pub aggregations: Vec<Aggregation>,
}

#[derive(Drop)]
pub enum Action {
    Keep(Vec<Instruction>),
    Make(Vec<Instruction>),
    Pick(Vec<usize>),
    Join(JoinOn),
    Group(Grouping),
    Order(Vec<SortColumn>),
    Take(usize),
    Skip(usize),
    Unite(usize),
    Distinct,
}

// Columns: one to 64.
#[derive(Drop)]
pub struct Columns {
    pub all: Vec<Column>,
    ghost any: { 1 ≤ vec_len all },
    ghost few: { vec_len all ≤ 64 },
}

// What a step does, and the columns behind it.
#[derive(Drop)]
pub struct Bound {
    pub action: Action,
    pub columns: Columns,
}

// The table to begin with, what to do step by step, and the columns behind the last step.
#[derive(Drop)]
pub struct Plan {
    pub source: usize,
    pub actions: Vec<Action>,
    pub columns: Columns,
}
