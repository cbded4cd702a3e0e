// Sets of column numbers.
#![tactic(auto)]

pub mod columns;

ghost use Rattle.std.specs.Prelude.{◌≡◌, ◌-◌, ◌^◌, ◌<◌, ◌≤◌};
ghost use Rattle.column_set.specs.Membership.{has, count_before, Empty, AllBefore, Inserted, Removed, United, Taken, ProjectedPlace};

// Which of a table's columns, by their numbers: a bit for each. It has no model, since a `Copy` struct's has to give
// the fields back: its value would be these two again. What changes a set says that its width stays, as no invariant
// can.
#[derive(Clone, Copy, Debug, PartialEq, Eq)]
pub struct ColumnSet {
    bits: u64,
    width: u32,
    ghost few: { width ≤ 64 },
    ghost within: { bits < 2 ^ width },
}

// The bit of a column.
fn bit(i: u32) -> u64
    requires { i < 64 }
    ensures { result ≡ 2 ^ i }
{
    1 << i
}

// The bits of all columns before one.
fn bits_before(i: u32) -> u64
    requires { i ≤ 64 }
    ensures { result ≡ 2 ^ i - 1 }
{
    if i == 64 { u64::MAX } else { bit(i) - 1 }
}

impl ColumnSet {
    // None of so many columns.
    // A width is asked to be at most 64 here and in all: a type for it would be made at each call only to be opened.
    pub fn empty(width: u32) -> ColumnSet
        requires { width ≤ 64 }
        ensures width { result.width ≡ width }
        ensures columns { Empty result.bits }
    {
        ColumnSet { bits: 0, width }
    }

    // All of so many columns.
    pub fn all(width: u32) -> ColumnSet
        requires { width ≤ 64 }
        ensures width { result.width ≡ width }
        ensures columns { AllBefore width result.bits }
    {
        ColumnSet {
            bits: bits_before(width),
            width,
        }
    }

    // How many columns the table has.
    pub fn width(self) -> u32
        ensures width { result ≡ self.width }
        ensures few { result ≤ 64 }
    {
        self.width
    }

    pub fn contains(self, i: u32) -> bool
        ensures { result ≡ has self.bits i }
    {
        i < self.width && (self.bits >> i) % 2 == 1
    }

    pub fn insert(&mut self, i: u32)
        requires { i < self.old.width }
        ensures width { self.new.width ≡ self.old.width }
        ensures columns { Inserted self.old.bits i self.new.bits }
    {
        self.bits |= bit(i);
    }

    pub fn remove(&mut self, i: u32)
        ensures width { self.new.width ≡ self.old.width }
        ensures columns { Removed self.old.bits i self.new.bits }
    {
        if self.contains(i) {
            self.bits ^= bit(i);
        }
    }

    pub fn union(self, other: ColumnSet) -> ColumnSet
        requires { other.width ≤ self.width }
        ensures width { result.width ≡ self.width }
        ensures columns { United self.bits other.bits result.bits }
    {
        ColumnSet {
            bits: self.bits | other.bits,
            width: self.width,
        }
    }

    pub fn len(self) -> u32
        ensures count { result ≡ count_before self.bits self.width }
        ensures projected { ProjectedPlace self.bits self.width result }
        ensures few { result ≤ self.width }
    {
        self.bits.count_ones()
    }

    // How many of the set are before column i: its place in a table that has only the set's columns.
    pub fn count_before(self, i: u32) -> u32
        requires { i < self.width }
        ensures count { result ≡ count_before self.bits i }
        ensures projected { ProjectedPlace self.bits i result }
        ensures few { result ≤ i }
    {
        (self.bits % bit(i)).count_ones()
    }

    // The first column, which is taken out.
    fn take_first(&mut self) -> Option<u32>
        ensures width { self.new.width ≡ self.old.width }
        ensures first { Taken self.old.bits result self.new.bits }
    {
        if self.bits == 0 {
            return None;
        }
        let i = self.bits.trailing_zeros();
        self.remove(i);
        Some(i)
    }
}
