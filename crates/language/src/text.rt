ghost use Rattle.std.specs.Prelude.{◌≡◌, ◌-◌, ◌^◌, ◌≤◌, length, Some, None, is_ok};
ghost use Rattle.meaning.specs.Base.{is_some};
ghost use Rattle.meaning.specs.Text.{table_line};
ghost use Rattle.language_pieces.specs.Views.{ahead};
ghost use Rattle.language.specs.Lines.{bytes_left, left_in};
ghost use Rattle.language.specs.Questions.{step_in, head_in, HeadRead, HeadsRead, StepsChecked, Read, reading_words, newlines, last_line, ReadingFits};

use crate::checks::*;
use crate::faults::*;
use crate::lines::Lines;
use crate::question::*;
use language_pieces::faults::*;
use language_pieces::reader::Reader;
use language_statements::lists::finish;
use language_statements::steps::*;

// Whether a table stands behind the word table.
#[tactic(auto, using(crate::proofs::Heads::table_whole))]
fn check_table(reader: Reader) -> Result<(), Fault>
    ensures { is_ok result ≡ is_some (table_line (ahead reader.entry)) }
{
    let mut table = read_table(reader)?;
    finish(&mut table.columns)
}

// Reads a line before the steps: a table, or `from` with its name.
#[tactic(auto, using(crate::proofs::Heads::head_table, crate::proofs::Heads::head_table_bad, crate::proofs::Heads::head_from, crate::proofs::Heads::head_none, crate::proofs::Wholes::no_head))]
fn read_head<'a>(mut reader: Reader<'a>) -> Result<Option<&'a [u8]>, Fault>
    ensures { HeadRead result (head_in (ahead reader.entry)) }
{
    if reader.is(b"table") {
        reader.advance();
        check_table(reader)?;
        return Ok(None);
    }
    if reader.is(b"from") {
        reader.advance();
        return Ok(Some(lone(reader)?));
    }
    Err(reader.fault(Expected::TableOrFrom))
}

// Goes behind the line with `from`, and gives the name in it.
fn read_heads<'a>(text: &[u8], lines: &mut Lines<'a>) -> Result<&'a [u8], NotAQuestion>
    ensures short { bytes_left lines.new ≤ bytes_left lines.old }
    ensures heads { HeadsRead result text.now (left_in lines.old) (left_in lines.new) }
{
    while let Some(reader) = lines.next_reader() {
        let wrong = |fault| NotAQuestion::at(lines.number, reader.line, fault);
        if let Some(name) = read_head(reader).map_err(wrong)? {
            return Ok(name);
        }
    }
    Err(NotAQuestion {
        line: last_line(text),
        place: 0,
        reason: Reason::NoFrom,
    })
}

// Whether a line is a step.
#[tactic(auto, unfolding(crate::specs::Questions::step_in))]
fn check_line(reader: Reader, words: &mut [u64]) -> Result<(), Fault>
    requires { reading_words (length reader.line.now) ≤ length words.old }
    ensures { is_ok result ≡ is_some (step_in (ahead reader.entry)) }
{
    let step = read_step(reader)?;
    check_step(step, words)
}

// Whether all lines are steps.
fn check_lines(mut lines: Lines, words: &mut [u64]) -> Result<(), NotAQuestion>
    requires { reading_words (bytes_left lines) ≤ length words.old }
    ensures { StepsChecked result (left_in lines.entry) }
{
    while let Some(reader) = lines.next_reader() {
        let wrong = |fault| NotAQuestion::at(lines.number, reader.line, fault);
        check_line(reader, words).map_err(wrong)?;
    }
    Ok(())
}

fn count_newlines(s: &[u8]) -> usize
    ensures value { result ≡ newlines s.now }
    ensures few { result ≤ length s.now }
{
    s.iter().filter(|byte| **byte == b'\n').count()
}

// The number of the last line; a newline at the end begins no other.
fn last_line(text: &[u8]) -> usize
    ensures { result ≡ last_line text.now }
{
    match text {
        [before @ .., _] => 1 + count_newlines(before),
        [] => 1,
    }
}

// How many words reading takes for a text of so many bytes, if a word can say it.
pub fn reading_words(bytes: usize) -> Option<usize>
    ensures { elim result [ None ↦ 2 ^ 64 ≤ reading_words bytes | Some n ↦ n ≡ reading_words bytes ] }
{
    bytes.checked_mul(48)?.checked_add(135)
}

// Marks and code have room in 96 words for each byte and 256.
pub fn reading_fits()
    ensures { ReadingFits }
{}

// Reads a whole text: a question, or where and why it asks none.
pub fn read<'a>(text: &'a [u8], words: &mut [u64]) -> Result<Question<'a>, NotAQuestion>
    requires { reading_words (length text.now) ≤ length words.old }
    ensures { Read result text.now }
{
    let lines = Lines::new(text);
    let mut behind = lines;
    let from = read_heads(text, &mut behind)?;
    check_lines(behind, words)?;
    Ok(Question {
        tables: Tables::new(lines),
        from,
        steps: Steps::new(behind),
    })
}
