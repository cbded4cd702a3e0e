ghost use Rattle.std.specs.Prelude.{◌≡◌, ℕ, List, [], length};
ghost use Rattle.std.specs.Iterator.{at_most};
ghost use Rattle.std.proofs.Math.Option.{Option, some};
ghost use Rattle.meaning.specs.Steps.{Decl, Step as AskedStep};
ghost use Rattle.language_statements.specs.Statements.{step_of, table_of, EnoughFor};
ghost use Rattle.language.specs.Lines.{Line, left_in};
ghost use Rattle.language.specs.Questions.{tables_in, steps_in};
ghost use Rattle.language.specs.Walks.{Viewed, NextGives, no_tables, no_steps};

use crate::lines::Lines;
use language_pieces::reader::Reader;
use language_statements::steps::*;
use language_statements::views::*;
use std::marker::PhantomData;

// What a line may be a view of.
pub trait LineView<'a> {
    // What such a view stands for, if its lists and its expression are right.
    ghost Meant: { Type 0 };

    ghost meaning: { Self → Option Meant };

    // What those that come first in lines stand for.
    ghost all: { List Line → Option (List Meant) };

    // So many words for marks and for code are enough for its expression.
    ghost enough: { ℕ → ℕ → Self → Type 0 };

    fn view(reader: Reader<'a>) -> Option<Self>
        ensures { Viewed meaning all enough reader.entry result };

    // No lines are views of nothing.
    ghost over: { all [] ≡ some [] };
}

impl<'a> LineView<'a> for Table<'a> {
    ghost Meant = { Decl };

    ghost meaning = { λ t. table_of t };

    ghost all = { tables_in };

    ghost enough = { λ marks code t. Unit {0} };

    ghost over = { no_tables };

    #[tactic(auto, using(crate::proofs::Walked::table_viewed, crate::proofs::Walked::bad_table, crate::proofs::Walked::no_table))]
    fn view(mut reader: Reader<'a>) -> Option<Table<'a>> {
        if !reader.is(b"table") {
            return None;
        }
        reader.advance();
        read_table(reader).ok()
    }
}

impl<'a> LineView<'a> for Step<'a> {
    ghost Meant = { AskedStep };

    ghost meaning = { λ v. step_of v };

    ghost all = { steps_in };

    ghost enough = { λ marks code v. EnoughFor marks code v };

    ghost over = { no_steps };

    #[tactic(auto, using(crate::proofs::Walked::step_viewed, crate::proofs::Walked::no_step))]
    fn view(reader: Reader<'a>) -> Option<Step<'a>> {
        read_step(reader).ok()
    }
}

// Lines that are views of one type, one after another.
#[derive(Clone, Copy)]
pub struct LineViews<'a, T> {
    lines: Lines<'a>,
    of: PhantomData<T>,
}

pub type Tables<'a> = LineViews<'a, Table<'a>>;

pub type Steps<'a> = LineViews<'a, Step<'a>>;

// A question as views of its text.
#[derive(Clone, Copy)]
pub struct Question<'a> {
    pub tables: Tables<'a>,
    // The name behind `from`.
    pub from: &'a [u8],
    pub steps: Steps<'a>,
}

impl<'a, T> LineViews<'a, T> {
    pub(crate) fn new(lines: Lines<'a>) -> LineViews<'a, T>
        ensures { result.lines ≡ lines.entry }
    {
        LineViews {
            lines,
            of: PhantomData,
        }
    }

    // The number of the line that came last.
    pub fn line(&self) -> usize
        ensures { result ≡ self.now.lines.number }
    {
        self.lines.number
    }
}

impl<'a, T: LineView<'a>> Iterator for LineViews<'a, T> {
    type Item = T;

    ghost next_gives = { λ s r t. NextGives T.meaning T.all T.enough s.lines r t.lines };

    ghost remaining = { λ s. at_most (length (left_in s.lines)) };

    fn next(&mut self) -> Option<T> {
        T::view(self.lines.next_reader()?)
    }
}
