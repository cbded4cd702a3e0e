// Expressions by chance. Parts that are still to be written wait on a stack, the next one last.
ghost use Rattle.std.specs.Prelude.{◌≡◌, ◌+◌, ◌<◌, ◌≤◌, OnOk, if◌then◌else◌};
ghost use Rattle.std.specs.List.{sum_by};
ghost use Rattle.compare_reading.specs.Growth.{turns_left, turns_of};

use crate::draft::{Draft, TYPES};
use std::alloc::AllocError;

const OR: [&[u8]; 1] = [b"or"];

const AND: [&[u8]; 1] = [b"and"];

const COMPARISONS: [&[u8]; 4] = [b"==", b"!=", b"<", b"<="];

const SUMS: [&[u8]; 2] = [b"+", b"-"];

const PRODUCTS: [&[u8]; 3] = [b"*", b"/", b"%"];

#[derive(Clone, Copy)]
enum Part {
    Expression,
    Either,
    Both,
    Condition,
    Sum,
    Product,
    Primary,
    Piece(&'static [u8]),
}

#[derive(Drop)]
struct Growth<'d> {
    draft: &'d mut Draft,
    waiting: Vec<Part>,
    // How many times more a part may become several.
    branches: usize,
}

impl Growth<'_> {
    // Whether a part becomes several.
    fn branches_off(&mut self, one_in: usize) -> bool
        ensures waiting { self.new.waiting.items ≡ self.old.waiting.items }
        ensures branches { self.new.branches + (if result then 1 else 0) ≡ self.old.branches }
    {
        match self.branches.checked_sub(1) {
            Some(left) if self.draft.chance.one_in(one_in) => {
                self.branches = left;
                true
            }
            _ => false,
        }
    }

    // Puts parts on the stack, the last one first.
    fn wait(&mut self, parts: &[Part]) -> Result<(), AllocError>
        ensures waiting { OnOk result (sum_by turns_of self.new.waiting.items ≡ sum_by turns_of self.old.waiting.items + sum_by turns_of parts.now) }
        ensures branches { self.new.branches ≡ self.old.branches }
    {
        self.waiting.extend(parts.iter().rev().copied())
    }

    // Operands with operators between them.
    fn chain(&mut self, operand: Part, operators: &[&'static [u8]]) -> Result<(), AllocError>
        requires { turns_of operand ≤ 7 }
        ensures { OnOk result (turns_left self.new ≤ turns_left self.old + turns_of operand) }
    {
        self.waiting.push(operand)?;
        for _ in 0..3 {
            if self.branches_off(5) {
                let operator = self.draft.chance.one_of(operators);
                self.wait(&[operand, Part::Piece(operator)])?;
            }
        }
        Ok(())
    }

    fn expression(&mut self) -> Result<(), AllocError>
        ensures { OnOk result (turns_left self.new < turns_left self.old + 7) }
    {
        if !self.branches_off(6) {
            return self.wait(&[Part::Either]);
        }
        self.wait(&[
            Part::Piece(b"if"),
            Part::Expression,
            Part::Piece(b"then"),
            Part::Expression,
            Part::Piece(b"else"),
            Part::Expression,
        ])
    }

    fn condition(&mut self) -> Result<(), AllocError>
        ensures { OnOk result (turns_left self.new < turns_left self.old + 4) }
    {
        if self.branches_off(8) {
            return self.wait(&[Part::Piece(b"not"), Part::Condition]);
        }
        if self.branches_off(4) {
            let comparison = self.draft.chance.one_of(&COMPARISONS);
            return self.wait(&[Part::Sum, Part::Piece(comparison), Part::Sum]);
        }
        self.wait(&[Part::Sum])
    }

    fn primary(&mut self) -> Result<(), AllocError>
        ensures { OnOk result (turns_left self.new < turns_left self.old + 1) }
    {
        if self.branches_off(4) {
            self.wait(&[Part::Piece(b"("), Part::Expression, Part::Piece(b")")])?;
            return if self.draft.chance.one_in(3) {
                self.wait(&[Part::Piece(b"none")])
            } else {
                Ok(())
            };
        }
        match self.draft.chance.below(10) {
            0 => {
                self.draft.piece(b"none")?;
                self.draft.one_of(&TYPES)
            }
            1..4 => self.draft.number(),
            4..6 => self.draft.word(),
            _ => self.draft.name(),
        }
    }

    fn grow(&mut self, part: Part) -> Result<(), AllocError>
        ensures { OnOk result (turns_left self.new < turns_left self.old + turns_of part) }
    {
        match part {
            Part::Expression => self.expression(),
            Part::Either => self.chain(Part::Both, &OR),
            Part::Both => self.chain(Part::Condition, &AND),
            Part::Condition => self.condition(),
            Part::Sum => self.chain(Part::Product, &SUMS),
            Part::Product => self.chain(Part::Primary, &PRODUCTS),
            Part::Primary => self.primary(),
            Part::Piece(piece) => self.draft.piece(piece),
        }
    }
}

impl Draft {
    pub fn expression(&mut self) -> Result<(), AllocError> {
        let most = if self.chance.one_in(20) { 200 } else { 12 };
        let branches = self.chance.below(most);
        let waiting = vec![in *self.text.allocator(); Part::Expression]?;
        let mut growth = Growth {
            draft: self,
            waiting,
            branches,
        };
        while let Some(part) = growth.waiting.pop() {
            growth.grow(part)?;
        }
        Ok(())
    }
}
