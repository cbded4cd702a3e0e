// Postfix code on rows.
use reference_planning::plans::*;
use reference_values::values::*;
use std::alloc::{AllocError, Global};

pub fn cell(row: &[Value], column: usize) -> Value {
    row.get(column).copied().unwrap_or(Value::Null)
}

// Postfix code, and the stack that it works on.
#[derive(Drop)]
pub struct Evaluator<'c> {
    code: &'c [Instruction],
    stack: Vec<Value>,
}

impl<'c> Evaluator<'c> {
    pub fn new(heap: Global, code: &'c [Instruction]) -> Evaluator<'c> {
        Evaluator {
            code,
            stack: Vec::new(heap),
        }
    }

    fn pop(&mut self) -> Value {
        self.stack.pop().unwrap_or(Value::Null)
    }

    fn execute(&mut self, instruction: Instruction, row: &[Value]) -> Value {
        match instruction {
            Instruction::Push(value) => value,
            Instruction::Column(at) => cell(row, at),
            Instruction::Apply(operator) => {
                let right = self.pop();
                let left = self.pop();
                Value::apply(operator, left, right)
            }
            Instruction::Not => !self.pop(),
            Instruction::IsNull => Value::from(self.pop().is_null()),
            Instruction::Choose => {
                let no = self.pop();
                let yes = self.pop();
                self.pop().choose(yes, no)
            }
        }
    }

    // What the code comes to on a row; the stack is left as it was.
    pub fn evaluate(&mut self, row: &[Value]) -> Result<Value, AllocError> {
        for instruction in self.code.iter() {
            let value = self.execute(*instruction, row);
            self.stack.push(value)?;
        }
        Ok(self.pop())
    }
}
