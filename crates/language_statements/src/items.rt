ghost use Rattle.std.specs.Prelude.{◌≡◌, ℕ, ◌<◌, List, length, Some, None, Ok, Err};
ghost use Rattle.std.proofs.Math.Option.{Option, some, none};
ghost use Rattle.meaning.specs.Base.{Bytes};
ghost use Rattle.meaning.specs.Text.{Parsed, parsed, read_name, read_number, read_type};
ghost use Rattle.meaning.specs.Values.{Ty};
ghost use Rattle.meaning.specs.Steps.{Agg, NamedAgg, StoredCol, SortKey as Key};
ghost use Rattle.values.specs.Types.{type_of_kind};
ghost use Rattle.language_pieces.specs.Views.{ahead};
ghost use Rattle.language_statements.specs.Items.{Shortens, Named, function_named, read_aggregate, read_key, key_of, agg_of, read_named_agg, named_agg_of, read_column, column_of};
ghost use Rattle.language_statements.specs.Shorter.{name_shorter, number_shorter, type_shorter, key_shorter, aggregate_shorter, named_agg_shorter, column_shorter};

use crate::views::*;
use language_pieces::faults::*;
use language_pieces::literals::*;
use language_pieces::names::is_name;
use language_pieces::reader::Reader;
use values::types::Kind;

// What is read from the pieces of a line.
pub trait Parse<'a> {
    // What such a value stands for.
    ghost Meant: { Type 0 };

    ghost meaning: { Self → Meant };

    // How the definitions read one.
    ghost reads: { List Bytes → Option (Parsed Meant) };

    fn parse(reader: &mut Reader<'a>) -> Result<Self, Fault>
        ensures line { reader.new.line.now ≡ reader.old.line.now }
        ensures item { elim result [ Ok v ↦ reads (ahead reader.old) ≡ parsed (meaning v) (ahead reader.new) | Err f ↦ reads (ahead reader.old) ≡ none ] };

    // Fewer pieces are left behind it.
    ghost shortens: { Shortens reads };
}

// A name.
impl<'a> Parse<'a> for &'a [u8] {
    ghost Meant = { Bytes };

    ghost meaning = { λ v. v.now };

    ghost reads = { read_name };

    ghost shortens = { name_shorter };

    #[tactic(auto, using(crate::proofs::Taken::name_not, crate::proofs::Taken::name_taken))]
    fn parse(reader: &mut Reader<'a>) -> Result<&'a [u8], Fault> {
        let name = reader.piece();
        if !is_name(name) {
            return Err(reader.fault(Expected::Name));
        }
        reader.advance();
        Ok(name)
    }
}

// A number below 2^63.
impl<'a> Parse<'a> for u64 {
    ghost Meant = { ℕ };

    ghost meaning = { λ n. n };

    ghost reads = { read_number };

    ghost shortens = { number_shorter };

    fn parse(reader: &mut Reader<'a>) -> Result<u64, Fault> {
        let number = reader.take(number_of(reader.piece()), Expected::Number)?;
        Ok(number.value)
    }
}

// The word num or word.
impl<'a> Parse<'a> for Kind {
    ghost Meant = { Ty };

    ghost meaning = { λ k. type_of_kind k };

    ghost reads = { read_type };

    ghost shortens = { type_shorter };

    fn parse(reader: &mut Reader<'a>) -> Result<Kind, Fault> {
        reader.take(kind_of(reader.piece()), Expected::Kind)
    }
}

impl<'a> Parse<'a> for SortKey<'a> {
    ghost Meant = { Key };

    ghost meaning = { λ k. key_of k };

    ghost reads = { read_key };

    ghost shortens = { key_shorter };

    fn parse(reader: &mut Reader<'a>) -> Result<SortKey<'a>, Fault> {
        let descending = reader.is(b"-");
        if descending {
            reader.advance();
        }
        let name = <&[u8]>::parse(reader)?;
        Ok(SortKey { name, descending })
    }
}

impl TryFrom<&[u8]> for Function {
    type Error = Expected;

    ghost try_from_gives = { λ piece r. Named (function_named piece.now) r };

    #[tactic(auto, using(language_pieces::proofs::Same::same_length, language_pieces::proofs::Same::same_first))]
    fn try_from(piece: &[u8]) -> Result<Function, Expected> {
        match piece {
            b"sum" => Ok(Function::Sum),
            b"min" => Ok(Function::Min),
            b"max" => Ok(Function::Max),
            b"first" => Ok(Function::First),
            _ => Err(Expected::Aggregate),
        }
    }
}

// The word count, or a function with the name of a column.
impl<'a> Parse<'a> for Aggregate<'a> {
    ghost Meant = { Agg };

    ghost meaning = { λ v. agg_of v };

    ghost reads = { read_aggregate };

    ghost shortens = { aggregate_shorter };

    #[tactic(auto, unfolding(crate::specs::Items::read_aggregate))]
    fn parse(reader: &mut Reader<'a>) -> Result<Aggregate<'a>, Fault> {
        if reader.is(b"count") {
            reader.advance();
            return Ok(Aggregate::Count);
        }
        let function = Function::try_from(reader.piece()).map_err(|wanted| reader.fault(wanted))?;
        reader.advance();
        let column = <&[u8]>::parse(reader)?;
        Ok(Aggregate::Of(function, column))
    }
}

// A name, = and an aggregate.
impl<'a> Parse<'a> for NamedAggregate<'a> {
    ghost Meant = { NamedAgg };

    ghost meaning = { λ v. named_agg_of v };

    ghost reads = { read_named_agg };

    ghost shortens = { named_agg_shorter };

    fn parse(reader: &mut Reader<'a>) -> Result<NamedAggregate<'a>, Fault> {
        let name = <&[u8]>::parse(reader)?;
        reader.expect(b"=", Expected::Equals)?;
        let aggregate = Aggregate::parse(reader)?;
        Ok(NamedAggregate { name, aggregate })
    }
}

// A name, a type and the number of a page.
impl<'a> Parse<'a> for Column<'a> {
    ghost Meant = { StoredCol };

    ghost meaning = { λ v. column_of v };

    ghost reads = { read_column };

    ghost shortens = { column_shorter };

    fn parse(reader: &mut Reader<'a>) -> Result<Column<'a>, Fault> {
        let name = <&[u8]>::parse(reader)?;
        let kind = Kind::parse(reader)?;
        let page = u64::parse(reader)?;
        Ok(Column { name, kind, page })
    }
}
