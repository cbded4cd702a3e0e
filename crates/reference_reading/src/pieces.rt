// The words of the language, and the pieces of a line.
use crate::faults::*;
use crate::spans::*;

#[derive(Clone, Copy, PartialEq, Eq)]
pub enum Keyword {
    Table,
    Num,
    Word,
    From,
    Keep,
    Make,
    Pick,
    Join,
    Left,
    On,
    Group,
    Order,
    Take,
    Skip,
    Unite,
    Distinct,
    Sum,
    Count,
    Min,
    Max,
    First,
    And,
    Or,
    Not,
    None,
    If,
    Then,
    Else,
}

#[derive(Clone, Copy, PartialEq, Eq)]
pub enum Sign {
    Open,
    Close,
    Comma,
    Colon,
    Gets,
    Equal,
    Differ,
    Less,
    AtMost,
    Plus,
    Minus,
    Times,
    Over,
    Percent,
}

#[derive(Clone, Copy, PartialEq, Eq)]
pub enum Token {
    Keyword(Keyword),
    Sign(Sign),
    Name,
    Number(u64),
    // A quoted word: its bytes as seven digits to base 256.
    Quoted(u64),
}

// A piece of a line, and where it stands.
#[derive(Clone, Copy)]
pub struct Piece {
    pub token: Token,
    pub span: Span,
}

impl Piece {
    // That it stands where something else is wanted.
    pub fn instead_of(self, wanted: Wanted) -> Fault {
        Fault::Found {
            wanted,
            found: self.span,
        }
    }
}

impl Keyword {
    // An Option and no TryFrom: what is no keyword is a name, so there is no error to tell.
    pub fn from_bytes(word: &[u8]) -> Option<Keyword> {
        Some(match word {
            b"table" => Keyword::Table,
            b"num" => Keyword::Num,
            b"word" => Keyword::Word,
            b"from" => Keyword::From,
            b"keep" => Keyword::Keep,
            b"make" => Keyword::Make,
            b"pick" => Keyword::Pick,
            b"join" => Keyword::Join,
            b"left" => Keyword::Left,
            b"on" => Keyword::On,
            b"group" => Keyword::Group,
            b"order" => Keyword::Order,
            b"take" => Keyword::Take,
            b"skip" => Keyword::Skip,
            b"unite" => Keyword::Unite,
            b"distinct" => Keyword::Distinct,
            b"sum" => Keyword::Sum,
            b"count" => Keyword::Count,
            b"min" => Keyword::Min,
            b"max" => Keyword::Max,
            b"first" => Keyword::First,
            b"and" => Keyword::And,
            b"or" => Keyword::Or,
            b"not" => Keyword::Not,
            b"none" => Keyword::None,
            b"if" => Keyword::If,
            b"then" => Keyword::Then,
            b"else" => Keyword::Else,
            _ => return None,
        })
    }
}
