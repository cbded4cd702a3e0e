// The types of columns, and the operators.
#[derive(Clone, Copy, PartialEq, Eq)]
pub enum Kind {
    Num,
    Word,
}

#[derive(Clone, Copy)]
pub enum Operator {
    Add,
    Subtract,
    Multiply,
    Divide,
    Remainder,
    Equal,
    Differ,
    Less,
    AtMost,
    And,
    Or,
}
