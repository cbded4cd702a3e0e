ghost use Rattle.std.specs.Prelude.{◌≡◌, ◌≤◌, length, take};
ghost use Rattle.std.specs.Iterator.{YieldsFirst, item_count};
ghost use Rattle.column_set.specs.Membership.{count_before, columns_before};

use crate::ColumnSet;
use std::marker::Model;

// The columns of a set, one after the other.
#[derive(Drop)]
pub struct Columns {
    rest: ColumnSet,
}

impl Model for Columns {
    ghost use Rattle.std.specs.Prelude.{ℕ, List};
    ghost use Rattle.column_set.specs.Membership.{columns_before};

    ghost Value = { List ℕ };

    ghost view = { λ s. columns_before s.rest.bits s.rest.width };
}

impl ColumnSet {
    // Its columns, in order.
    pub fn columns(self) -> Columns
        ensures { result ≡ columns_before self.bits self.width }
    {
        Columns { rest: self }
    }

    // Writes its columns, in order, and says how many there are.
    pub fn list(self, into: &mut [u64]) -> usize
        requires { self.width ≤ length into.old }
        ensures count { result ≡ count_before self.bits self.width }
        ensures listed { take result into.new ≡ columns_before self.bits self.width }
    {
        for (place, column) in self.columns().enumerate() {
            // By place: nothing is known of a slice's words after an adapter of its iter_mut.
            into[place] = u64::from(column);
        }
        self.len() as usize
    }
}

impl Iterator for Columns {
    type Item = u32;

    ghost next_gives = { YieldsFirst (λ s. s) };

    ghost remaining = { item_count (λ s. s) };

    fn next(&mut self) -> Option<u32> {
        self.rest.take_first()
    }
}
