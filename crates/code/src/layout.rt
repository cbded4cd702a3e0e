ghost use Rattle.std.specs.Prelude.{◌≡◌, ℕ, ◌/◌, ◌<◌, ◌≢◌, length};
ghost use Rattle.code.specs.Words.{instr_of, instruction_at};

use crate::instruction::Instruction;

// By an index, for those that write instructions in place: no chunk of a &mut slice is known after its loan.
impl Instruction {
    // The i-th instruction of code in words.
    pub fn fetch(code: &[u64], i: usize) -> Instruction
        requires { i < length code.now / 2 }
        ensures { instr_of result ≡ instruction_at code.now i }
    {
        Instruction::from([code[2 * i], code[2 * i + 1]])
    }

    // Puts it in the place of the i-th instruction.
    pub fn store(self, code: &mut [u64], i: usize)
        requires { i < length code.old / 2 }
        ensures stored { instruction_at code.new i ≡ instr_of self }
        ensures others { (k : ℕ) → k ≢ i → instruction_at code.new k ≡ instruction_at code.old k }
    {
        let [operation, operand] = <[u64; 2]>::from(self);
        code[2 * i] = operation;
        code[2 * i + 1] = operand;
    }
}
