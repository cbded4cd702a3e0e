ghost use Rattle.std.specs.Prelude.{◌∷◌};
ghost use Rattle.language_expressions.specs.Machine.{none_turn, primary_turn, operand_turn, operator_turn};
ghost use Rattle.language_expressions.specs.Turns.{TurnRead};

use crate::leaves::leaf;
use crate::machine::*;
use code::instruction::Instruction;
use language_pieces::faults::{Expected, Fault};
use language_pieces::literals::kind_of;
use language_pieces::reader::Reader;

// A turn behind the word none: an expression in parentheses, or a type.
fn none_turn(reader: &mut Reader) -> Result<Turn, Fault>
    ensures { TurnRead result reader.old reader.new none_turn }
{
    if reader.is(b"(") {
        reader.advance();
        return Ok(Turn::opens(Mark::NoneParen));
    }
    let kind = reader.take(kind_of(reader.piece()), Expected::NoneOf)?;
    Ok(Turn::gives(Instruction::Null(kind)))
}

// A turn at which a primary is wanted.
fn primary_turn(reader: &mut Reader) -> Result<Turn, Fault>
    ensures { TurnRead result reader.old reader.new primary_turn }
{
    if reader.is(b"(") {
        reader.advance();
        return Ok(Turn::opens(Mark::Paren));
    }
    if reader.is(b"none") {
        reader.advance();
        return none_turn(reader);
    }
    let instruction = reader.take(leaf(reader), Expected::Operand)?;
    Ok(Turn::gives(instruction))
}

// A turn at which an operand of a level is wanted.
pub fn operand_turn(level: Level, reader: &mut Reader) -> Result<Turn, Fault>
    ensures { TurnRead result reader.old reader.new (operand_turn level) }
{
    match level {
        Level::If if reader.is(b"if") => {
            reader.advance();
            Ok(Turn::opens(Mark::Then))
        }
        Level::If => Ok(Turn::wants(Level::Or)),
        Level::Or => Ok(Turn::marks(Mark::Chain(Chain::Ors), Level::And)),
        Level::And => Ok(Turn::marks(Mark::Chain(Chain::Ands), Level::Not)),
        Level::Not if reader.is(b"not") => {
            reader.advance();
            Ok(Turn::marks(Mark::Not, Level::Not))
        }
        Level::Not => Ok(Turn::marks(Mark::Comparison, Level::Sum)),
        Level::Sum => Ok(Turn::marks(Mark::Chain(Chain::Sums), Level::Product)),
        Level::Product => Ok(Turn::marks(Mark::Chain(Chain::Products), Level::Primary)),
        Level::Primary => primary_turn(reader),
    }
}

// A turn at which an operand was read: by the mark that was set last.
pub fn operator_turn(mark: Mark, reader: &mut Reader) -> Result<Turn, Fault>
    ensures { TurnRead result reader.old reader.new (λ l M c. operator_turn (mark ∷ M) l c) }
{
    match mark {
        Mark::Chain(chain) => {
            let Some(operator) = chain.operator(reader.piece()) else {
                return Ok(Turn::ends());
            };
            reader.advance();
            Ok(Turn::marks(Mark::Applied(chain, operator), chain.operands()))
        }
        Mark::Applied(chain, operator) => Ok(Turn {
            mark: Some(Mark::Chain(chain)),
            instruction: Some(Instruction::Operator(operator)),
            wanted: None,
        }),
        Mark::Comparison => {
            let Some(operator) = comparison(reader.piece()) else {
                return Ok(Turn::ends());
            };
            reader.advance();
            Ok(Turn::marks(Mark::Compared(operator), Level::Sum))
        }
        Mark::Compared(operator) => Ok(Turn::gives(Instruction::Operator(operator))),
        Mark::Not => Ok(Turn::gives(Instruction::Not)),
        Mark::Paren => {
            reader.expect(b")", Expected::Close)?;
            Ok(Turn::ends())
        }
        Mark::NoneParen => {
            reader.expect(b")", Expected::Close)?;
            Ok(Turn::gives(Instruction::IsNull))
        }
        Mark::Then => {
            reader.expect(b"then", Expected::Then)?;
            Ok(Turn::opens(Mark::Else))
        }
        Mark::Else => {
            reader.expect(b"else", Expected::Else)?;
            Ok(Turn::opens(Mark::End))
        }
        Mark::End => Ok(Turn::gives(Instruction::If)),
    }
}
