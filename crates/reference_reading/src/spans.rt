// Parts of a text. What is read outlives the text: a name is where it stands there.
ghost use Rattle.std.specs.Prelude.{◌≡◌, Decides};
ghost use Rattle.reference_reading.specs.Spans.{part};

// Where a part begins and where it ends.
#[derive(Clone, Copy)]
pub struct Span {
    pub start: usize,
    pub end: usize,
}

impl Span {
    // No bytes where the part doesn't lie within the text.
    pub fn of(self, text: &[u8]) -> &[u8]
        ensures { result.now ≡ part text.now self }
    {
        text.get(self.start..self.end).unwrap_or(b"")
    }

    // Are two parts written with the same bytes.
    pub fn same(self, other: Span, text: &[u8]) -> bool
        ensures { Decides result (part text.now self ≡ part text.now other) }
    {
        self.of(text) == other.of(text)
    }
}
