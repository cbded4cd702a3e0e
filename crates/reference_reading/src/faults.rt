// Why a text is no question.
ghost use Rattle.std.specs.Prelude.{◌≡◌, Some};
ghost use Rattle.reference_reading.specs.Faults.{fault_told, wanted_told};
ghost use Rattle.reference_reading.specs.declared.faults.Fault.TheVariants.{OutOfMemory};

use crate::spans::*;
use messages::lines::AtLine;
use messages::quotes::Quoted;
use std::alloc::{AllocError, AllocFailed};
use std::fmt;

// What a line should have gone on with.
#[derive(Clone, Copy, PartialEq, Eq)]
pub enum Wanted {
    Name,
    Number,
    Type,
    Value,
    Operator,
    Aggregate,
    Join,
    On,
    Gets,
    Colon,
    Comma,
    Close,
    Then,
    Else,
    NoneOf,
    End,
    TableOrFrom,
    Step,
}

impl fmt::Display for Wanted {
    ghost output = { λ wanted. Some (wanted_told wanted) };

    fn fmt<W: fmt::Write>(&self, f: &mut fmt::Formatter<W>) -> fmt::Result {
        f.write_str(match self {
            Wanted::Name => "a name",
            Wanted::Number => "a number",
            Wanted::Type => "'num' or 'word'",
            Wanted::Value => "a value",
            Wanted::Operator => "an operator or the end of the expression",
            Wanted::Aggregate => "'sum', 'count', 'min', 'max' or 'first'",
            Wanted::Join => "'join'",
            Wanted::On => "'on'",
            Wanted::Gets => "'='",
            Wanted::Colon => "':'",
            Wanted::Comma => "',' or the end of the line",
            Wanted::Close => "')'",
            Wanted::Then => "'then'",
            Wanted::Else => "'else'",
            Wanted::NoneOf => "'(', 'num' or 'word'",
            Wanted::End => "the end of the line",
            Wanted::TableOrFrom => "'table' or 'from'",
            Wanted::Step => "a step",
        })
    }
}

#[derive(Clone, Copy)]
pub enum Fault {
    OpenQuote,
    LongWord(Span),
    LargeNumber(Span),
    // It begins with a digit and isn't a number.
    NotANumber(Span),
    StraySign(Span),
    Found { wanted: Wanted, found: Span },
    // The line ends where something more is wanted.
    Ends(Wanted),
    NoFrom,
    OutOfMemory,
}

// A fault beside the text that it is in, whose parts are quoted.
#[derive(Clone, Copy)]
pub struct FaultIn<'t> {
    pub text: &'t [u8],
    pub fault: Fault,
}

impl fmt::Display for FaultIn<'_> {
    ghost output = { λ told. Some (fault_told told.text.now told.fault) };

    fn fmt<W: fmt::Write>(&self, f: &mut fmt::Formatter<W>) -> fmt::Result {
        let quoted = |part: Span| Quoted(part.of(self.text));
        match self.fault {
            Fault::OpenQuote => write!(f, "a quote isn't closed"),
            Fault::LongWord(word) => write!(f, "{} has more than seven bytes", quoted(word)),
            Fault::LargeNumber(digits) => write!(f, "{} isn't below 2^63", quoted(digits)),
            Fault::NotANumber(word) => {
                write!(f, "{} is neither a name nor a number", quoted(word))
            }
            Fault::StraySign(sign) => write!(f, "{} has no meaning here", quoted(sign)),
            Fault::Found { wanted, found } => {
                write!(f, "{wanted} expected, {} found", quoted(found))
            }
            Fault::Ends(wanted) => write!(f, "{wanted} expected, the line ends"),
            Fault::NoFrom => write!(f, "the text ends without 'from'"),
            Fault::OutOfMemory => write!(f, "out of memory"),
        }
    }
}

// A text that is no question.
pub type NotAQuestion = AtLine<Fault>;

// Two impls, since a failed push and a failed collect are two errors; here only a push may fail.
impl From<AllocError> for Fault {
    ghost from_gives = { λ _ fault. fault ≡ OutOfMemory };

    fn from(_error: AllocError) -> Self {
        Fault::OutOfMemory
    }
}

impl<T: Drop> From<AllocFailed<T>> for Fault {
    ghost from_gives = { λ _ fault. fault ≡ OutOfMemory };

    fn from(_error: AllocFailed<T>) -> Self {
        Fault::OutOfMemory
    }
}
