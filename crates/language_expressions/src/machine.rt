ghost use Rattle.std.specs.Prelude.{◌≡◌, Some, None};
ghost use Rattle.language_expressions.specs.Machine.{tighter, given, chain_operator, comparison};

use code::instruction::Instruction;
use values::types::{Arithmetic, Comparison, Logic, Operator};

// How loose an operand may be, from loose to tight.
#[derive(Clone, Copy, Debug, PartialEq, Eq)]
pub enum Level {
    If,
    Or,
    And,
    Not,
    Sum,
    Product,
    Primary,
}

// The levels at which any number of operators may follow one another.
#[derive(Clone, Copy, Debug, PartialEq, Eq)]
pub enum Chain {
    Ors,
    Ands,
    Sums,
    Products,
}

// What is left to do once an operand is read.
#[derive(Clone, Copy, Debug, PartialEq, Eq)]
pub enum Mark {
    // An operator of the chain may follow.
    Chain(Chain),
    // The operand was the right side of an operator of the chain.
    Applied(Chain, Operator),
    // A comparison may follow.
    Comparison,
    // The operand was the right side of a comparison.
    Compared(Operator),
    Not,
    // A parenthesis is to be closed.
    Paren,
    NoneParen,
    // `then`, `else` or the end of an `if` is to come.
    Then,
    Else,
    End,
}

impl Chain {
    // How loose its operands may be.
    pub fn operands(self) -> Level
        ensures { result ≡ tighter self }
    {
        match self {
            Chain::Ors => Level::And,
            Chain::Ands => Level::Not,
            Chain::Sums => Level::Product,
            Chain::Products => Level::Primary,
        }
    }

    // The operator of the chain that a piece is.
    // An Option and no TryFrom: another piece ends the operands, which is no error.
    #[tactic(auto, using(language_pieces::proofs::Same::same_length))]
    pub fn operator(self, piece: &[u8]) -> Option<Operator>
        ensures { given result ≡ chain_operator self piece.now }
    {
        match (self, piece) {
            (Chain::Ors, b"or") => Some(Operator::Logic(Logic::Or)),
            (Chain::Ands, b"and") => Some(Operator::Logic(Logic::And)),
            (Chain::Sums, b"+") => Some(Operator::Arithmetic(Arithmetic::Add)),
            (Chain::Sums, b"-") => Some(Operator::Arithmetic(Arithmetic::Subtract)),
            (Chain::Products, b"*") => Some(Operator::Arithmetic(Arithmetic::Multiply)),
            (Chain::Products, b"/") => Some(Operator::Arithmetic(Arithmetic::Divide)),
            (Chain::Products, b"%") => Some(Operator::Arithmetic(Arithmetic::Remainder)),
            _ => None,
        }
    }
}

// The comparison that a piece is.
// An Option and no TryFrom: another piece ends the operands, which is no error.
#[tactic(auto, using(language_pieces::proofs::Same::same_length))]
pub fn comparison(piece: &[u8]) -> Option<Operator>
    ensures { given result ≡ comparison piece.now }
{
    match piece {
        b"==" => Some(Operator::Comparison(Comparison::Equal)),
        b"!=" => Some(Operator::Comparison(Comparison::NotEqual)),
        b"<" => Some(Operator::Comparison(Comparison::Less)),
        b"<=" => Some(Operator::Comparison(Comparison::LessOrEqual)),
        _ => None,
    }
}

// What a turn of the machine comes to.
#[derive(Clone, Copy)]
pub struct Turn {
    // What is set on the stack.
    pub mark: Option<Mark>,
    // What is put behind the code.
    pub instruction: Option<Instruction>,
    // How loose the operand may be that is wanted next, if one was not just read.
    pub wanted: Option<Level>,
}

impl Turn {
    // An operand is wanted.
    pub fn wants(level: Level) -> Turn
        ensures { result ≡ record { mark = None; instruction = None; wanted = Some level } }
    {
        Turn {
            mark: None,
            instruction: None,
            wanted: Some(level),
        }
    }

    // An operand is wanted, and the mark says what comes behind it.
    pub fn marks(mark: Mark, level: Level) -> Turn
        ensures { result ≡ record { mark = Some mark; instruction = None; wanted = Some level } }
    {
        Turn {
            mark: Some(mark),
            instruction: None,
            wanted: Some(level),
        }
    }

    // An expression is wanted, and the mark says what comes behind it.
    pub fn opens(mark: Mark) -> Turn
        ensures { result ≡ record { mark = Some mark; instruction = None; wanted = Some Level.If } }
    {
        Turn::marks(mark, Level::If)
    }

    // An operand was read.
    pub fn ends() -> Turn
        ensures { result ≡ record { mark = None; instruction = None; wanted = None } }
    {
        Turn {
            mark: None,
            instruction: None,
            wanted: None,
        }
    }

    // An operand was read, and this is the last of its code.
    pub fn gives(instruction: Instruction) -> Turn
        ensures { result ≡ record { mark = None; instruction = Some instruction; wanted = None } }
    {
        Turn {
            mark: None,
            instruction: Some(instruction),
            wanted: None,
        }
    }
}
