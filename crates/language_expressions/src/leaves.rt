ghost use Rattle.std.specs.Prelude.{◌≡◌, Some, None};
ghost use Rattle.std.proofs.Math.Option.{some, none};
ghost use Rattle.meaning.specs.Text.{head_piece};
ghost use Rattle.code.specs.Postfix.{map_col};
ghost use Rattle.code.specs.Words.{instr_of};
ghost use Rattle.language_pieces.specs.Pieces.{name_at};
ghost use Rattle.language_pieces.specs.Views.{ahead};
ghost use Rattle.language_expressions.specs.Machine.{leaf};

use code::instruction::Instruction;
use language_pieces::literals::*;
use language_pieces::names::is_name;
use language_pieces::reader::Reader;

// The instruction of the next piece, if it is an operand by itself; a column is the place where its name begins.
pub fn leaf(reader: &Reader) -> Option<Instruction>
    ensures { elim result [ None ↦ leaf (head_piece (ahead reader.now)) ≡ none | Some i ↦ leaf (head_piece (ahead reader.now)) ≡ some (map_col (name_at reader.now.line.now) (instr_of i)) ] }
{
    let piece = reader.piece();
    if let Some(number) = number_of(piece) {
        return Some(Instruction::Number(number));
    }
    if let Some(word) = word_of(piece) {
        return Some(Instruction::Word(word));
    }
    if is_name(piece) {
        return Some(Instruction::Column(reader.place() as u64));
    }
    None
}
