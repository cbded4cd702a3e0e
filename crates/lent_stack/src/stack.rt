ghost use Rattle.std.specs.Prelude.{◌≡◌, ◌<◌, ◌≤◌, [], length};
ghost use Rattle.lent_stack.specs.Stacked.{pushed, popped, first};

use crate::packed::Packed;
use std::marker::{Model, PhantomData};

// A stack in lent words, one for each item: the engine takes no memory of its own.
#[derive(Drop)]
pub struct Stack<'a, T: Packed> {
    words: &'a mut [u64],
    depth: usize,
    items: PhantomData<T>,
}

// A clause sees its items, the last one first, and for how many it has room.
impl<'a, T: Packed> Model for Stack<'a, T> {
    ghost use Rattle.std.specs.Prelude.{◌≤◌, length};
    ghost use Rattle.lent_stack.specs.Stacked.{Stacked, on_words};

    ghost Value = { Stacked T };

    ghost view = { λ s. on_words T.unpacked s.words.now s.depth };

    ghost invariant = { λ s. s.depth ≤ length s.words.now };
}

impl<'a, T: Packed> Stack<'a, T> {
    pub fn new(words: &'a mut [u64]) -> Stack<'a, T>
        ensures { result ≡ record { items = []; room = length words.old } }
    {
        Stack {
            depth: 0,
            words,
            items: PhantomData,
        }
    }

    #[tactic(auto, using(crate::proofs::Stacked::word_left, crate::proofs::Stacked::one_more, crate::proofs::Stacked::pushed_word))]
    pub fn push(&mut self, item: T)
        requires { length self.old.items < self.old.room }
        ensures { self.new ≡ pushed item self.old }
    {
        self.words[self.depth] = item.pack();
        self.depth += 1;
    }

    // Takes the last item off.
    #[tactic(auto, using(crate::proofs::Stacked::none_above))]
    pub fn pop(&mut self) -> Option<T>
        ensures item { result ≡ first self.old.items }
        ensures left { self.new ≡ popped self.old }
        ensures within { length self.old.items ≤ self.old.room }
    {
        if self.depth == 0 {
            return None;
        }
        self.depth -= 1;
        Some(T::unpack(self.words[self.depth]))
    }
}
