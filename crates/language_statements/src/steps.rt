ghost use Rattle.std.specs.Prelude.{◌≡◌, Ok, Err, is_ok};
ghost use Rattle.std.proofs.Math.Option.{some, none};
ghost use Rattle.meaning.specs.Text.{head_piece, tail_pieces, read_to_end, step_line, table_line};
ghost use Rattle.language_pieces.specs.Pieces.{none_left};
ghost use Rattle.language_pieces.specs.Views.{ahead};
ghost use Rattle.language_statements.specs.Items.{Named};
ghost use Rattle.language_statements.specs.Statements.{verb_named, verb_line, make_line, join_line, read_pair, pair_of, group_line, StepRead, table_of};

use crate::items::*;
use crate::lists::finish;
use crate::views::*;
use language_pieces::faults::*;
use language_pieces::reader::Reader;

// The word that a step begins with.
impl TryFrom<&[u8]> for Verb {
    type Error = Expected;

    ghost try_from_gives = { λ piece r. Named (verb_named piece.now) r };

    #[tactic(auto, using(language_pieces::proofs::Same::same_length, language_pieces::proofs::Same::same_first, crate::proofs::Taken::same_third, crate::proofs::Taken::is_distinct))]
    fn try_from(piece: &[u8]) -> Result<Verb, Expected> {
        match piece {
            b"keep" => Ok(Verb::Keep),
            b"make" => Ok(Verb::Make),
            b"pick" => Ok(Verb::Pick),
            b"join" => Ok(Verb::Join),
            b"left" => Ok(Verb::Left),
            b"group" => Ok(Verb::Group),
            b"order" => Ok(Verb::Order),
            b"take" => Ok(Verb::Take),
            b"skip" => Ok(Verb::Skip),
            b"unite" => Ok(Verb::Unite),
            b"distinct" => Ok(Verb::Distinct),
            _ => Err(Expected::Step),
        }
    }
}

// That a line ends here.
fn expect_end(reader: &Reader) -> Result<(), Fault>
    ensures { is_ok result ≡ none_left (ahead reader.now) }
{
    if !reader.is_over() {
        return Err(reader.fault(Expected::End));
    }
    Ok(())
}

// Reads what stands alone at the end of a line.
#[tactic(auto, using(crate::proofs::Stepped::alone_is, crate::proofs::Stepped::alone_not))]
pub fn lone<'a, T: Parse<'a> + Drop>(mut reader: Reader<'a>) -> Result<T, Fault>
    ensures { elim result [ Ok v ↦ read_to_end (T.reads (ahead reader.entry)) ≡ some (T.meaning v) | Err f ↦ read_to_end (T.reads (ahead reader.entry)) ≡ none ] }
{
    let value = T::parse(&mut reader)?;
    expect_end(&reader)?;
    Ok(value)
}

fn read_make<'a>(mut reader: Reader<'a>) -> Result<Step<'a>, Fault>
    ensures { StepRead result (make_line (ahead reader.entry)) reader.entry.line.now }
{
    let name = <&[u8]>::parse(&mut reader)?;
    reader.expect(b"=", Expected::Equals)?;
    Ok(Step::Make(name, reader))
}

#[tactic(auto, using(crate::proofs::Stepped::pair_read), unfolding(crate::specs::Statements::read_pair))]
fn read_pair<'a>(mut reader: Reader<'a>) -> Result<Pair<'a>, Fault>
    ensures { elim result [ Ok p ↦ read_pair (ahead reader.entry) ≡ some (pair_of p) | Err f ↦ read_pair (ahead reader.entry) ≡ none ] }
{
    let own = <&[u8]>::parse(&mut reader)?;
    reader.expect(b"=", Expected::Equals)?;
    let other = lone(reader)?;
    Ok(Pair { own, other })
}

fn read_join<'a>(mut reader: Reader<'a>, left: bool) -> Result<Step<'a>, Fault>
    ensures { StepRead result (join_line left (ahead reader.entry)) reader.entry.line.now }
{
    let table = <&[u8]>::parse(&mut reader)?;
    reader.expect(b"on", Expected::On)?;
    let on = read_pair(reader)?;
    Ok(Step::Join { table, on, left })
}

fn read_group<'a>(reader: Reader<'a>) -> Result<Step<'a>, Fault>
    ensures { StepRead result (group_line (ahead reader.entry)) reader.entry.line.now }
{
    let keys = GroupKeys { reader };
    let mut behind = keys;
    finish(&mut behind)?;
    let aggregates = Aggregates {
        reader: Some(behind.reader),
    };
    Ok(Step::Group(keys, aggregates))
}

// The step that a verb begins, from what stands behind it.
fn read_with<'a>(verb: Verb, mut reader: Reader<'a>) -> Result<Step<'a>, Fault>
    ensures { StepRead result (verb_line verb (ahead reader.entry)) reader.entry.line.now }
{
    match verb {
        Verb::Keep => Ok(Step::Keep(reader)),
        Verb::Make => read_make(reader),
        Verb::Pick => Ok(Step::Pick(Items::new(reader))),
        Verb::Join => read_join(reader, false),
        Verb::Left => {
            reader.expect(b"join", Expected::Join)?;
            read_join(reader, true)
        }
        Verb::Group => read_group(reader),
        Verb::Order => Ok(Step::Order(Items::new(reader))),
        Verb::Take => Ok(Step::Take(lone(reader)?)),
        Verb::Skip => Ok(Step::Skip(lone(reader)?)),
        Verb::Unite => Ok(Step::Unite(lone(reader)?)),
        Verb::Distinct => {
            expect_end(&reader)?;
            Ok(Step::Distinct)
        }
    }
}

// The step that a line may be; the lists and the expression in it are not read yet.
#[tactic(auto, using(crate::proofs::Stepped::step_some, crate::proofs::Stepped::as_read))]
pub fn read_step<'a>(mut reader: Reader<'a>) -> Result<Step<'a>, Fault>
    ensures { StepRead result (step_line (head_piece (ahead reader.entry)) (tail_pieces (ahead reader.entry))) reader.entry.line.now }
{
    let verb = Verb::try_from(reader.piece()).map_err(|expected| reader.fault(expected))?;
    reader.advance();
    read_with(verb, reader)
}

// The table that a line may be, from what stands behind the word table; its columns are not read yet.
#[tactic(auto, using(crate::proofs::Stepped::table_is))]
pub fn read_table<'a>(mut reader: Reader<'a>) -> Result<Table<'a>, Fault>
    ensures { elim result [ Ok t ↦ table_line (ahead reader.entry) ≡ table_of t | Err f ↦ table_line (ahead reader.entry) ≡ none ] }
{
    let name = <&[u8]>::parse(&mut reader)?;
    let rows = u64::parse(&mut reader)?;
    Ok(Table {
        name,
        rows,
        columns: Items::new(reader),
    })
}
