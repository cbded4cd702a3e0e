// Turns an expression into postfix code. Operators wait on a stack of marks until what binds less tightly comes.
use crate::faults::*;
use crate::lines::*;
use crate::pieces::*;
use crate::questions::*;

#[derive(Clone, Copy)]
enum Mark {
    Paren,
    NonePart,
    If,
    Then,
    Else,
    Not,
    Operator(Operator),
}

// What the next piece may be.
#[derive(Clone, Copy)]
enum State {
    Operand,
    BehindNone,
    Operator,
}

// The larger the level, the tighter it binds; brackets and the parts of an `if` are open.
#[derive(Clone, Copy, PartialEq, Eq, PartialOrd, Ord)]
enum Level {
    Open,
    Or,
    And,
    Comparison,
    Sum,
    Product,
}

impl From<Operator> for Level {
    fn from(operator: Operator) -> Level {
        match operator {
            Operator::Or => Level::Or,
            Operator::And => Level::And,
            Operator::Equal => Level::Comparison,
            Operator::Differ => Level::Comparison,
            Operator::Less => Level::Comparison,
            Operator::AtMost => Level::Comparison,
            Operator::Add => Level::Sum,
            Operator::Subtract => Level::Sum,
            Operator::Multiply => Level::Product,
            Operator::Divide => Level::Product,
            Operator::Remainder => Level::Product,
        }
    }
}

impl From<Mark> for Level {
    fn from(mark: Mark) -> Level {
        match mark {
            Mark::Operator(operator) => Level::from(operator),
            Mark::Not => Level::Comparison,
            _ => Level::Open,
        }
    }
}

impl Token {
    // The operator that stands between two values.
    // An Option and no TryFrom: another token may end the expression, which is no error.
    fn operator(self) -> Option<Operator> {
        match self {
            Token::Keyword(Keyword::Or) => Some(Operator::Or),
            Token::Keyword(Keyword::And) => Some(Operator::And),
            Token::Sign(Sign::Equal) => Some(Operator::Equal),
            Token::Sign(Sign::Differ) => Some(Operator::Differ),
            Token::Sign(Sign::Less) => Some(Operator::Less),
            Token::Sign(Sign::AtMost) => Some(Operator::AtMost),
            Token::Sign(Sign::Plus) => Some(Operator::Add),
            Token::Sign(Sign::Minus) => Some(Operator::Subtract),
            Token::Sign(Sign::Times) => Some(Operator::Multiply),
            Token::Sign(Sign::Over) => Some(Operator::Divide),
            Token::Sign(Sign::Percent) => Some(Operator::Remainder),
            _ => None,
        }
    }

    // Whether it ends a bracket or a part of an `if`.
    fn ends_part(self) -> bool {
        matches!(
            self,
            Token::Sign(Sign::Close) | Token::Keyword(Keyword::Then) | Token::Keyword(Keyword::Else)
        )
    }
}

impl Mark {
    // What ends the part that the mark opens.
    fn wants(self) -> Wanted {
        match self {
            Mark::If => Wanted::Then,
            Mark::Then => Wanted::Else,
            _ => Wanted::Close,
        }
    }
}

#[derive(Drop)]
struct Builder {
    code: Vec<Item>,
    marks: Vec<Mark>,
    state: State,
}

impl Builder {
    fn feed(&mut self, piece: Piece) -> Result<(), Fault> {
        match self.state {
            State::Operand => self.operand(piece),
            State::BehindNone => self.behind_none(piece),
            State::Operator => self.operator(piece),
        }
    }

    fn value(&mut self, item: Item) -> Result<(), Fault> {
        self.code.push(item)?;
        self.state = State::Operator;
        Ok(())
    }

    fn open(&mut self, mark: Mark) -> Result<(), Fault> {
        self.marks.push(mark)?;
        self.state = State::Operand;
        Ok(())
    }

    fn operand(&mut self, piece: Piece) -> Result<(), Fault> {
        match piece.token {
            Token::Number(n) => self.value(Item::Number(n)),
            Token::Quoted(w) => self.value(Item::Word(w)),
            Token::Name => self.value(Item::Column(piece.span)),
            Token::Sign(Sign::Open) => self.open(Mark::Paren),
            Token::Keyword(keyword) => self.prefix(keyword, piece),
            _ => Err(piece.instead_of(Wanted::Value)),
        }
    }

    // `if` may only begin an expression, and `not` stands only where a comparison may.
    fn prefix(&mut self, keyword: Keyword, piece: Piece) -> Result<(), Fault> {
        match keyword {
            Keyword::None => {
                self.state = State::BehindNone;
                Ok(())
            }
            Keyword::If if self.is_at_start() => self.open(Mark::If),
            Keyword::Not if self.may_compare() => self.open(Mark::Not),
            _ => Err(piece.instead_of(Wanted::Value)),
        }
    }

    fn is_at_start(&self) -> bool {
        !matches!(self.marks.last(), Some(Mark::Not | Mark::Operator(_)))
    }

    fn may_compare(&self) -> bool {
        match self.marks.last() {
            Some(Mark::Operator(operator)) => Level::from(*operator) < Level::Comparison,
            _ => true,
        }
    }

    fn behind_none(&mut self, piece: Piece) -> Result<(), Fault> {
        match piece.token {
            Token::Sign(Sign::Open) => self.open(Mark::NonePart),
            Token::Keyword(Keyword::Num) => self.value(Item::Null(Kind::Num)),
            Token::Keyword(Keyword::Word) => self.value(Item::Null(Kind::Word)),
            _ => Err(piece.instead_of(Wanted::NoneOf)),
        }
    }

    fn operator(&mut self, piece: Piece) -> Result<(), Fault> {
        match piece.token.operator() {
            Some(operator) => self.infix(operator, piece),
            None => self.close(piece),
        }
    }

    fn infix(&mut self, operator: Operator, piece: Piece) -> Result<(), Fault> {
        let level = Level::from(operator);
        if level == Level::Comparison {
            self.settle(Level::Sum)?;
            if !self.may_compare() {
                return Err(piece.instead_of(Wanted::Operator));
            }
        } else {
            self.settle(level)?;
        }
        self.open(Mark::Operator(operator))
    }

    // Writes the operators that wait and bind at least as tightly as `level`.
    fn settle(&mut self, level: Level) -> Result<(), Fault> {
        while let Some(mark) = self.marks.pop_if(|mark| Level::from(*mark) >= level) {
            match mark {
                Mark::Operator(operator) => self.code.push(Item::Apply(operator))?,
                _ => self.code.push(Item::Not)?,
            }
        }
        Ok(())
    }

    // Writes all that waits up to an open bracket or part of an `if`, which is taken off.
    fn unwind(&mut self) -> Result<Option<Mark>, Fault> {
        while let Some(mark) = self.marks.pop() {
            match mark {
                Mark::Operator(operator) => self.code.push(Item::Apply(operator))?,
                Mark::Not => self.code.push(Item::Not)?,
                Mark::Else => self.code.push(Item::Choose)?,
                _ => return Ok(Some(mark)),
            }
        }
        Ok(None)
    }

    // A piece that ends what stands before it.
    fn close(&mut self, piece: Piece) -> Result<(), Fault> {
        if !piece.token.ends_part() {
            return Err(piece.instead_of(Wanted::Operator));
        }
        match (self.unwind()?, piece.token) {
            (Some(Mark::Paren), Token::Sign(Sign::Close)) => Ok(()),
            (Some(Mark::NonePart), Token::Sign(Sign::Close)) => self.value(Item::IsNull),
            (Some(Mark::If), Token::Keyword(Keyword::Then)) => self.open(Mark::Then),
            (Some(Mark::Then), Token::Keyword(Keyword::Else)) => self.open(Mark::Else),
            (Some(mark), _) => Err(piece.instead_of(mark.wants())),
            (None, _) => Err(piece.instead_of(Wanted::Operator)),
        }
    }

    fn finish(&mut self) -> Result<(), Fault> {
        match self.state {
            State::Operand => return Err(Fault::Ends(Wanted::Value)),
            State::BehindNone => return Err(Fault::Ends(Wanted::NoneOf)),
            State::Operator => {}
        }
        match self.unwind()? {
            Some(mark) => Err(Fault::Ends(mark.wants())),
            None => Ok(()),
        }
    }
}

// The postfix code of the rest of the line.
pub fn read_expression(line: &mut Line) -> Result<Vec<Item>, Fault> {
    let heap = line.heap();
    let mut builder = Builder {
        code: Vec::new(heap),
        marks: Vec::new(heap),
        state: State::Operand,
    };
    while let Some(piece) = line.pieces.pop_front() {
        builder.feed(piece)?;
    }
    builder.finish()?;
    let Builder {
        code,
        marks: _,
        state: _,
    } = builder;
    Ok(code)
}
