ghost use Rattle.std.specs.Prelude.{Some};
ghost use Rattle.language_pieces.specs.Faults.{expected_told};

use std::fmt;

// What a line should have gone on with.
#[derive(Clone, Copy, Debug, PartialEq, Eq)]
pub enum Expected {
    Name,
    NameOrColon,
    Number,
    Kind,
    Operand,
    Operator,
    Aggregate,
    Join,
    On,
    Equals,
    Comma,
    Close,
    Then,
    Else,
    NoneOf,
    End,
    TableOrFrom,
    Step,
}

impl fmt::Display for Expected {
    ghost output = { λ expected. Some (expected_told expected) };

    fn fmt<W: fmt::Write>(&self, f: &mut fmt::Formatter<W>) -> fmt::Result {
        f.write_str(match self {
            Expected::Name => "a name",
            Expected::NameOrColon => "a name or ':'",
            Expected::Number => "a number",
            Expected::Kind => "'num' or 'word'",
            Expected::Operand => "a value",
            Expected::Operator => "an operator or the end of the expression",
            Expected::Aggregate => "'sum', 'count', 'min', 'max' or 'first'",
            Expected::Join => "'join'",
            Expected::On => "'on'",
            Expected::Equals => "'='",
            Expected::Comma => "',' or the end of the line",
            Expected::Close => "')'",
            Expected::Then => "'then'",
            Expected::Else => "'else'",
            Expected::NoneOf => "'(', 'num' or 'word'",
            Expected::End => "the end of the line",
            Expected::TableOrFrom => "'table' or 'from'",
            Expected::Step => "a step",
        })
    }
}

// A place of a line, counted from 0, and what should have stood there.
#[derive(Clone, Copy, Debug, PartialEq, Eq)]
pub struct Fault {
    pub place: usize,
    pub expected: Expected,
}
