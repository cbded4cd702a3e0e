ghost use Rattle.std.specs.Prelude.{◌≡◌, ℕ, ◌+◌, ◌*◌, ◌<◌, ◌≤◌, List, length, Ok, Err};
ghost use Rattle.std.proofs.Math.Option.{none};
ghost use Rattle.meaning.specs.Base.{Bytes};
ghost use Rattle.code.specs.Postfix.{Instr};
ghost use Rattle.code.specs.Room.{instruction_limit, mark_words};
ghost use Rattle.language_pieces.specs.Views.{ahead};
ghost use Rattle.language_expressions.specs.Machine.{turn};
ghost use Rattle.language_expressions.specs.Turns.{marked, coded, state, next_outcome};
ghost use Rattle.language_expressions.specs.Views.{named_code, whole_expression, CodedBehind};

use crate::machine::*;
use crate::turns::{operand_turn, operator_turn};
use code::code::Code;
use language_pieces::faults::{Expected, Fault};
use language_pieces::reader::Reader;
use lent_stack::stack::Stack;

// The next turn; none where the expression ends, which is the end of the line.
fn next_turn(
    wanted: Option<Level>,
    reader: &mut Reader,
    marks: &mut Stack<Mark>,
) -> Result<Option<Turn>, Fault>
    ensures line { reader.new.line.now ≡ reader.old.line.now }
    ensures room { marks.new.room ≡ marks.old.room }
    ensures turn { (c : List (Instr Bytes)) → next_outcome reader.old.line.now result (ahead reader.new) marks.new.items c ≡ turn (state wanted (ahead reader.old) marks.old.items c) }
{
    match wanted {
        Some(level) => Ok(Some(operand_turn(level, reader)?)),
        None => match marks.pop() {
            Some(mark) => Ok(Some(operator_turn(mark, reader)?)),
            None if reader.is_over() => Ok(None),
            None => Err(reader.fault(Expected::Operator)),
        },
    }
}

impl Turn {
    // Sets its mark, and puts its instruction behind the code.
    #[tactic(auto, using(crate::proofs::Naming::code_more))]
    fn settle(self, marks: &mut Stack<Mark>, code: &mut Code)
        requires deep { length marks.old.items < marks.old.room }
        requires room { 2 * length code.old.instructions + 2 ≤ code.old.size }
        ensures marks { marks.new ≡ record { items = marked self.mark marks.old.items; room = marks.old.room } }
        ensures size { code.new.size ≡ code.old.size }
        ensures within { 2 * length code.new.instructions ≤ code.new.size }
        ensures code { (line : List ℕ) → named_code line code.new.instructions ≡ coded line self.instruction (named_code line code.old.instructions) }
    {
        if let Some(mark) = self.mark {
            marks.push(mark);
        }
        if let Some(instruction) = self.instruction {
            code.push(instruction);
        }
    }
}

// Reads the pieces that are left of a line as an expression, and puts its code behind the code that is there.
pub fn read_expression(mut reader: Reader, stack: &mut [u64], code: &mut Code) -> Result<(), Fault>
    requires deep { mark_words (length reader.line.now) ≤ length stack.old }
    requires room { 2 * (length code.old.instructions + instruction_limit (length reader.line.now)) ≤ code.old.size }
    ensures size { code.new.size ≡ code.old.size }
    ensures within { 2 * length code.new.instructions ≤ code.new.size }
    ensures read { elim result [ Err f ↦ whole_expression (ahead reader.entry) ≡ none | Ok u ↦ CodedBehind (whole_expression (ahead reader.entry)) (named_code reader.entry.line.now code.old.instructions) (named_code reader.entry.line.now code.new.instructions) ] }
{
    let mut marks = Stack::new(stack);
    let mut wanted = Some(Level::If);
    while let Some(turn) = next_turn(wanted, &mut reader, &mut marks)? {
        turn.settle(&mut marks, code);
        wanted = turn.wanted;
    }
    Ok(())
}
