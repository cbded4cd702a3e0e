// What `ask` is called with.
ghost use Rattle.std.specs.Prelude.{◌≡◌, Some, MatchResult, map, string_bytes};
ghost use Rattle.asking.specs.Arguments.{Asks, ComesTo, is_file, is_text};
ghost use Rattle.asking.specs.declared.arguments.Command.{Command};
ghost use Rattle.asking.specs.declared.arguments.TheConstants.{USAGE};

use std::error::Error;
use std::fmt;

pub const HELP: &str = "ask QUESTION PAGES

Answers the question in the file QUESTION on the page file PAGES and prints its
rows, a line each, values parted by commas. QUESTION - is standard input.

  ask examples/flights/late.question examples/flights/flights.pages

A text that is no question, or one that isn't sound, is refused: one line on
standard error says where and why, and the status is 1.

  --help  prints this
";

pub const USAGE: &str = "ask: a question and a page file are wanted; ask --help says more";

// The arguments make no sense.
#[derive(Clone, Copy, PartialEq, Eq, Debug)]
pub struct Misused;

impl fmt::Display for Misused {
    ghost output = { λ _. Some USAGE.now };

    fn fmt<W: fmt::Write>(&self, f: &mut fmt::Formatter<W>) -> fmt::Result {
        f.write_str(USAGE)
    }
}

impl Error for Misused {}

#[derive(Clone, Copy, PartialEq, Eq, Debug)]
pub enum Command<'a> {
    Help,
    Answer { question: &'a str, pages: &'a str },
    // Neither: the arguments make no sense.
    Misused,
}

impl<'a> Command<'a> {
    // What the arguments behind the program's name come to.
    pub fn from_arguments(arguments: &'a [String]) -> Command<'a>
        ensures { ComesTo (map string_bytes arguments.now) result }
    {
        match arguments {
            [only] if only.as_str() == "--help" => Command::Help,
            [question, pages] if is_text(question.as_str()) && is_file(pages.as_str()) => {
                Command::Answer {
                    question: question.as_str(),
                    pages: pages.as_str(),
                }
            }
            _ => Command::Misused,
        }
    }
}

// The command that arguments ask for, if they make sense.
impl<'a> TryFrom<&'a [String]> for Command<'a> {
    type Error = Misused;

    ghost try_from_gives = { λ arguments result. MatchResult result (Asks (map string_bytes arguments.now)) (λ _. (c : Command) → Asks (map string_bytes arguments.now) c → ⊥) };

    fn try_from(arguments: &'a [String]) -> Result<Command<'a>, Misused> {
        match Command::from_arguments(arguments) {
            Command::Misused => Err(Misused),
            command => Ok(command),
        }
    }
}

fn is_file(argument: &str) -> bool
    ensures { result ≡ is_file argument.now }
{
    !argument.starts_with('-')
}

// A file, or `-` for standard input.
fn is_text(argument: &str) -> bool
    ensures { result ≡ is_text argument.now }
{
    is_file(argument) || argument.len() == 1
}
