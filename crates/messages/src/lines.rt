// What is wrong on a line of a text.
ghost use Rattle.std.specs.Prelude.{option_map};
ghost use Rattle.messages.specs.Lines.{message_text};

use std::fmt;

// The line, counted from 1, and what is wrong there.
#[derive(Clone, Copy)]
pub struct AtLine<F> {
    pub line: usize,
    pub fault: F,
}

impl<F: fmt::Display> fmt::Display for AtLine<F> {
    ghost output = { λ wrong. option_map (message_text wrong.line) (F.output wrong.fault) };

    fn fmt<W: fmt::Write>(&self, f: &mut fmt::Formatter<W>) -> fmt::Result {
        let line = self.line;
        let fault = &self.fault;
        write!(f, "line {line}: {fault}")
    }
}
