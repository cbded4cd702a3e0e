ghost use Rattle.std.specs.Prelude.{◌≡◌, ◌<◌, ◌≤◌, List, [], ◌∷◌, length, IfOk, Ok, Err, Some, is_ok};
ghost use Rattle.std.specs.Iterator.{at_most};
ghost use Rattle.std.proofs.Math.Option.{none};
ghost use Rattle.meaning.specs.Base.{is_some, Bytes};
ghost use Rattle.meaning.specs.Text.{Parsed};
ghost use Rattle.meaning.specs.Steps.{NamedAgg};
ghost use Rattle.language_pieces.specs.Views.{ahead};
ghost use Rattle.language_statements.specs.Items.{group_keys_left, aggregates_left, pieces_left, aggs_left, more_aggs, key_more, key_over, named_agg_of, SameLine, StillOnLine};
ghost use Rattle.language_statements.specs.Lists.{Left, items_left, ItemRead, ItemGiven, Kept};

use crate::items::*;
use crate::views::*;
use language_pieces::faults::*;
use language_pieces::reader::Reader;

// A list that is read item by item.
pub trait FallibleIterator {
    type Item;

    // What the items stand for together.
    ghost Whole: { Type 0 };

    // What none of them stands for, with these pieces behind it.
    ghost over: { List Bytes → Whole };

    // One in front of others.
    ghost more: { Self.Item → Whole → Whole };

    // What is left to be taken.
    ghost left: { Self → Left Whole };

    // The next item, if one more is to come.
    fn try_next(&mut self) -> Result<Option<Self::Item>, Fault>
        ensures item { ItemRead over more (left self.old) result (left self.new) };
}

// Takes all items that are left.
pub fn finish<L: FallibleIterator>(list: &mut L) -> Result<(), Fault>
where
    L::Item: Drop,
    ensures whole { is_ok result ≡ is_some (L.left list.old).whole }
    ensures kept { IfOk result (λ _. Kept L.over L.more (L.left list.old) (L.left list.new)) }
{
    while let Some(_) = list.try_next()? {}
    Ok(())
}

impl<'a, T: Parse<'a>> FallibleIterator for Items<'a, T> {
    type Item = T;

    ghost Whole = { List T.Meant };

    ghost over = { λ l. [] };

    ghost more = { λ v xs. T.meaning v ∷ xs };

    ghost left = { λ s. items_left T.reads (ahead s.reader) };

    #[tactic(auto, using(crate::proofs::Listed::items_over, crate::proofs::Listed::items_bad, crate::proofs::Listed::items_one, crate::proofs::Listed::refused))]
    fn try_next(&mut self) -> Result<Option<T>, Fault>
        ensures line { self.new.reader.line.now ≡ self.old.reader.line.now }
        ensures item { ItemRead (λ l. []) (λ v xs. T.meaning v ∷ xs) (items_left T.reads (ahead self.old.reader)) result (items_left T.reads (ahead self.new.reader)) }
    {
        if self.reader.is_over() {
            return Ok(None);
        }
        Ok(Some(T::parse(&mut self.reader)?))
    }
}

// Each list has an Iterator of its own: std's trait can't be implemented for every FallibleIterator at once.
impl<'a, T: Parse<'a>> Iterator for Items<'a, T> {
    type Item = T;

    ghost next_gives = { λ s r t. ItemGiven (λ l. []) (λ v xs. T.meaning v ∷ xs) (items_left T.reads (ahead s.reader)) r (items_left T.reads (ahead t.reader)) };

    ghost remaining = { λ s. at_most (length (ahead s.reader)) };

    fn next(&mut self) -> Option<T> {
        self.try_next().ok().flatten()
    }
}

impl<'a> FallibleIterator for GroupKeys<'a> {
    type Item = &'a [u8];

    ghost Whole = { Parsed (List Bytes) };

    ghost over = { key_over };

    ghost more = { key_more };

    ghost left = { group_keys_left };

    // A name; none at the colon, which is then behind.
    #[tactic(auto, using(crate::proofs::Listed::keys_end, crate::proofs::Listed::keys_bad, crate::proofs::Listed::keys_one, crate::proofs::Listed::refused))]
    fn try_next(&mut self) -> Result<Option<&'a [u8]>, Fault>
        ensures line { self.new.reader.line.now ≡ self.old.reader.line.now }
        ensures item { ItemRead key_over key_more (group_keys_left self.old) result (group_keys_left self.new) }
    {
        if self.reader.is(b":") {
            self.reader.advance();
            return Ok(None);
        }
        let name = <&[u8]>::parse(&mut self.reader).map_err(|fault| Fault {
            expected: Expected::NameOrColon,
            ..fault
        })?;
        Ok(Some(name))
    }
}

impl<'a> Iterator for GroupKeys<'a> {
    type Item = &'a [u8];

    ghost next_gives = { λ s r t. ItemGiven key_over key_more (group_keys_left s) r (group_keys_left t) };

    ghost remaining = { λ s. at_most (length (ahead s.reader)) };

    fn next(&mut self) -> Option<&'a [u8]> {
        self.try_next().ok().flatten()
    }
}

// A reader of the next aggregate behind a comma, and none at the end of the line.
#[tactic(auto, using(crate::proofs::Listed::more_comma, crate::proofs::Listed::more_over, crate::proofs::Listed::more_none, crate::proofs::Listed::after_fewer))]
fn behind_aggregate<'a>(mut reader: Reader<'a>) -> Result<Option<Reader<'a>>, Fault>
    ensures line { IfOk result (λ next. SameLine (Some reader.entry) next) }
    ensures fewer { IfOk result (λ next. length (pieces_left next) ≤ length (ahead reader.entry)) }
    ensures more { elim result [ Ok next ↦ more_aggs (ahead reader.entry) ≡ aggs_left next | Err f ↦ more_aggs (ahead reader.entry) ≡ none ] }
{
    if reader.is(b",") {
        reader.advance();
        Ok(Some(reader))
    } else if reader.is_over() {
        Ok(None)
    } else {
        Err(reader.fault(Expected::Comma))
    }
}

impl<'a> FallibleIterator for Aggregates<'a> {
    type Item = NamedAggregate<'a>;

    ghost Whole = { List NamedAgg };

    ghost over = { λ l. [] };

    ghost more = { λ v xs. named_agg_of v ∷ xs };

    ghost left = { aggregates_left };

    #[tactic(auto, using(crate::proofs::Listed::aggs_bad, crate::proofs::Listed::aggs_stop, crate::proofs::Listed::aggs_one, crate::proofs::Listed::refused))]
    fn try_next(&mut self) -> Result<Option<NamedAggregate<'a>>, Fault>
        ensures line { elim result [ Err f ↦ StillOnLine self.old.reader self.new.reader | Ok x ↦ SameLine self.old.reader self.new.reader ] }
        ensures item { ItemRead (λ l. []) (λ v xs. named_agg_of v ∷ xs) (aggregates_left self.old) result (aggregates_left self.new) }
    {
        let Some(mut reader) = self.reader else {
            return Ok(None);
        };
        let aggregate = NamedAggregate::parse(&mut reader);
        // Behind a fault too, the list goes on from where the reader stands.
        self.reader = Some(reader);
        let aggregate = aggregate?;
        self.reader = behind_aggregate(reader)?;
        Ok(Some(aggregate))
    }
}

impl<'a> Iterator for Aggregates<'a> {
    type Item = NamedAggregate<'a>;

    ghost next_gives = { λ s r t. ItemGiven (λ l. []) (λ v xs. named_agg_of v ∷ xs) (aggregates_left s) r (aggregates_left t) };

    ghost remaining = { λ s. at_most (length (pieces_left s.reader)) };

    fn next(&mut self) -> Option<NamedAggregate<'a>> {
        self.try_next().ok().flatten()
    }
}
