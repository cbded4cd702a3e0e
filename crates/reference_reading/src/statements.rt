// Reads a table or a step from the pieces of its line. Who reads takes the line, so that its pieces are gone before what was read is kept.
ghost use Rattle.reference_reading.specs.Lines.{Shrank};
ghost use Rattle.std.specs.Prelude.{OnOk};

use crate::expressions::*;
use crate::faults::*;
use crate::lines::*;
use crate::pieces::*;
use crate::questions::*;
use crate::spans::*;

// What stands in a line several times, one behind the other.
trait Item: Sized {
    fn read(line: &mut Line) -> Result<Self, Fault>
        ensures { OnOk result (Shrank line.old line.new) };
}

// A name.
impl Item for Span {
    fn read(line: &mut Line) -> Result<Span, Fault> {
        line.name()
    }
}

impl Item for StoredColumn {
    fn read(line: &mut Line) -> Result<StoredColumn, Fault> {
        let name = line.name()?;
        let kind = line.kind()?;
        let page = line.number()?;
        let column = Column { name, kind };
        Ok(StoredColumn { column, page })
    }
}

impl Item for SortKey<Span> {
    fn read(line: &mut Line) -> Result<SortKey<Span>, Fault> {
        let down = line.is_next(Token::Sign(Sign::Minus));
        if down {
            line.expect(Token::Sign(Sign::Minus), Wanted::Name)?;
        }
        let column = line.name()?;
        Ok(SortKey { column, down })
    }
}

// The items up to the end of the line.
fn items<T: Item + Drop>(line: &mut Line) -> Result<Vec<T>, Fault> {
    let mut items = Vec::new(line.heap());
    while !line.is_over() {
        items.push(T::read(line)?)?;
    }
    Ok(items)
}

// NAME ROWS, then a name, a type and a page for each column.
pub fn read_table(mut line: Line) -> Result<TableDecl, Fault> {
    let name = line.name()?;
    let rows = line.number()?;
    let columns = items(&mut line)?;
    Ok(TableDecl {
        line: line.number,
        name,
        rows,
        columns,
    })
}

// Names up to the colon, which is taken too.
fn group_keys(line: &mut Line) -> Result<Vec<Span>, Fault> {
    let mut keys = Vec::new(line.heap());
    while !line.is_next(Token::Sign(Sign::Colon)) {
        if line.is_over() {
            return Err(Fault::Ends(Wanted::Colon));
        }
        keys.push(line.name()?)?;
    }
    line.expect(Token::Sign(Sign::Colon), Wanted::Colon)?;
    Ok(keys)
}

fn aggregate(line: &mut Line) -> Result<Aggregate<Span>, Fault>
    ensures { OnOk result (Shrank line.old line.new) }
{
    let piece = line.take(Wanted::Aggregate)?;
    match piece.token {
        Token::Keyword(Keyword::Count) => Ok(Aggregate::Count),
        Token::Keyword(Keyword::Sum) => Ok(Aggregate::Sum(line.name()?)),
        Token::Keyword(Keyword::Min) => Ok(Aggregate::Min(line.name()?)),
        Token::Keyword(Keyword::Max) => Ok(Aggregate::Max(line.name()?)),
        Token::Keyword(Keyword::First) => Ok(Aggregate::First(line.name()?)),
        _ => Err(piece.instead_of(Wanted::Aggregate)),
    }
}

fn named_aggregate(line: &mut Line) -> Result<NamedAggregate, Fault>
    ensures { OnOk result (Shrank line.old line.new) }
{
    let name = line.name()?;
    line.expect(Token::Sign(Sign::Gets), Wanted::Gets)?;
    let aggregate = aggregate(line)?;
    Ok(NamedAggregate { name, aggregate })
}

// At least one aggregate, commas between them.
fn aggregates(line: &mut Line) -> Result<Vec<NamedAggregate>, Fault> {
    let mut aggregates = Vec::new(line.heap());
    aggregates.push(named_aggregate(line)?)?;
    while !line.is_over() {
        line.expect(Token::Sign(Sign::Comma), Wanted::Comma)?;
        aggregates.push(named_aggregate(line)?)?;
    }
    Ok(aggregates)
}

// TABLE on COLUMN = COLUMN
fn join(line: &mut Line, stays: bool) -> Result<Join, Fault> {
    let table = line.name()?;
    line.expect(Token::Keyword(Keyword::On), Wanted::On)?;
    let column = line.name()?;
    line.expect(Token::Sign(Sign::Gets), Wanted::Gets)?;
    let other_column = line.name()?;
    Ok(Join {
        table,
        column,
        other_column,
        stays,
    })
}

fn left_join(line: &mut Line) -> Result<Join, Fault> {
    line.expect(Token::Keyword(Keyword::Join), Wanted::Join)?;
    join(line, true)
}

fn make(line: &mut Line) -> Result<Make, Fault> {
    let name = line.name()?;
    line.expect(Token::Sign(Sign::Gets), Wanted::Gets)?;
    let code = read_expression(line)?;
    Ok(Make { name, code })
}

fn group(line: &mut Line) -> Result<Group, Fault> {
    let keys = group_keys(line)?;
    let aggregates = aggregates(line)?;
    Ok(Group { keys, aggregates })
}

// The table behind `from`.
pub fn read_source(mut line: Line) -> Result<Source, Fault> {
    let table = line.name()?;
    line.end()?;
    Ok(Source {
        line: line.number,
        span: line.span,
        table,
    })
}

fn step(line: &mut Line) -> Result<Step, Fault> {
    let piece = line.take(Wanted::Step)?;
    let Token::Keyword(keyword) = piece.token else {
        return Err(piece.instead_of(Wanted::Step));
    };
    match keyword {
        Keyword::Keep => Ok(Step::Keep(read_expression(line)?)),
        Keyword::Make => Ok(Step::Make(make(line)?)),
        Keyword::Pick => Ok(Step::Pick(items(line)?)),
        Keyword::Join => Ok(Step::Join(join(line, false)?)),
        Keyword::Left => Ok(Step::Join(left_join(line)?)),
        Keyword::Group => Ok(Step::Group(group(line)?)),
        Keyword::Order => Ok(Step::Order(items(line)?)),
        Keyword::Take => Ok(Step::Take(line.number()?)),
        Keyword::Skip => Ok(Step::Skip(line.number()?)),
        Keyword::Unite => Ok(Step::Unite(line.name()?)),
        Keyword::Distinct => Ok(Step::Distinct),
        _ => Err(piece.instead_of(Wanted::Step)),
    }
}

pub fn read_step(mut line: Line) -> Result<Statement, Fault> {
    let step = step(&mut line)?;
    line.end()?;
    Ok(Statement {
        line: line.number,
        span: line.span,
        step,
    })
}
