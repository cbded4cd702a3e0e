// Reads a whole text: tables first, then `from`, then steps, a line each. Lines without pieces say nothing.
ghost use Rattle.std.specs.Iterator.{at_most};
ghost use Rattle.std.specs.Prelude.{length};
ghost use Rattle.reference_reading.specs.Texts.{TakesLine};

use crate::faults::*;
use crate::lines::*;
use crate::parts::*;
use crate::pieces::*;
use crate::questions::*;
use crate::statements::*;
use std::alloc::Global;

// The lines that are left of a text, without their ends.
// Not std's `split_inclusive`: it leaves the line ends, and of these lines it is proved that they have none.
#[derive(Drop)]
struct Lines<'t> {
    rest: Part<'t>,
}

impl<'t> Iterator for Lines<'t> {
    type Item = Part<'t>;

    ghost next_gives = { TakesLine };

    ghost remaining = { λ lines. at_most (length lines.rest.bytes.now) };

    fn next(&mut self) -> Option<Part<'t>> {
        let rest = self.rest;
        if rest.bytes.is_empty() {
            return None;
        }
        let end = rest
            .bytes
            .iter()
            .position(|byte| *byte == b'\n')
            .unwrap_or(rest.bytes.len());
        self.rest = rest.behind(end + 1);
        Some(rest.front(end))
    }
}

// A question of which only some lines are read.
#[derive(Drop)]
struct Draft {
    tables: Vec<TableDecl>,
    source: Option<Source>,
    steps: Vec<Statement>,
}

impl Draft {
    // A line before `from`, or `from` itself.
    fn head(&mut self, mut line: Line) -> Result<(), Fault> {
        let piece = line.take(Wanted::TableOrFrom)?;
        match piece.token {
            Token::Keyword(Keyword::Table) => self.tables.push(read_table(line)?)?,
            Token::Keyword(Keyword::From) => self.source = Some(read_source(line)?),
            _ => return Err(piece.instead_of(Wanted::TableOrFrom)),
        }
        Ok(())
    }

    fn add(&mut self, number: usize, line: Part<'_>) -> Result<(), Fault> {
        let heap = *self.tables.allocator();
        let line = Line::cut(heap, number, line)?;
        if line.is_over() {
            return Ok(());
        }
        if self.source.is_none() {
            return self.head(line);
        }
        self.steps.push(read_step(line)?)?;
        Ok(())
    }
}

// The question that a text asks, or the first line that is wrong.
pub fn read(heap: Global, text: &[u8]) -> Result<Question, NotAQuestion> {
    let mut draft = Draft {
        tables: Vec::new(heap),
        source: None,
        steps: Vec::new(heap),
    };
    let mut last = 1;
    let rest = Part {
        start: 0,
        bytes: text,
    };
    for (line, part) in (1..).zip(Lines { rest }) {
        last = line;
        draft
            .add(line, part)
            .map_err(|fault| NotAQuestion { line, fault })?;
    }
    let Draft {
        tables,
        source,
        steps,
    } = draft;
    match source {
        Some(source) => Ok(Question {
            tables,
            source,
            steps,
        }),
        None => Err(NotAQuestion {
            line: last,
            fault: Fault::NoFrom,
        }),
    }
}
