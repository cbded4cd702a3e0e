ghost use Rattle.std.specs.Prelude.{◌≡◌, ◌/◌, length};
ghost use Rattle.std.specs.Iterator.{YieldsFirstBy, item_count};
ghost use Rattle.code.specs.Words.{instr_of, code_in};

use crate::instruction::Instruction;
use std::marker::Model;

// The instructions of code in words, one after the other.
#[derive(Drop)]
pub struct Instructions<'a> {
    words: &'a [u64],
}

impl<'a> Model for Instructions<'a> {
    ghost use Rattle.std.specs.Prelude.{ℕ, List};
    ghost use Rattle.code.specs.Postfix.{Instr};
    ghost use Rattle.code.specs.Words.{code_in};

    ghost Value = { List (Instr ℕ) };

    ghost view = { λ s. code_in s.words.now };
}

impl<'a> Instructions<'a> {
    pub fn new(words: &'a [u64]) -> Instructions<'a>
        ensures code { result ≡ code_in words.now }
        ensures count { length result ≡ length words.now / 2 }
    {
        Instructions { words }
    }
}

impl<'a> Iterator for Instructions<'a> {
    type Item = Instruction;

    // The first of those left comes, and the others are left.
    ghost next_gives = { YieldsFirstBy instr_of (λ s. s) };

    ghost remaining = { item_count (λ s. s) };

    fn next(&mut self) -> Option<Instruction> {
        match self.words {
            [operation, operand, rest @ ..] => {
                self.words = rest;
                Some(Instruction::from([*operation, *operand]))
            }
            _ => None,
        }
    }
}
