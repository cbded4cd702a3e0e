// What is called by a name.
ghost use Rattle.std.specs.Prelude.{◌≡◌, ℕ, ◌<◌, List, length, IfSome, position};
ghost use Rattle.std.specs.Str.{bytes_eq};
ghost use Rattle.reference_reading.specs.Spans.{part};
ghost use Rattle.reference_reading.specs.declared.spans.Span.{Span};

use crate::spans::*;

pub trait Named {
    ghost called: { Self → List ℕ };

    fn name(&self) -> &[u8]
        ensures { result.now ≡ called self.now };
}

// The place of the first that is called by this name.
pub fn find<T: Named>(all: &[T], name: &[u8]) -> Option<usize>
    ensures within { IfSome result (λ i. i < length all.now) }
    ensures first { result ≡ position (λ one. bytes_eq (T.called one) name.now) all.now }
{
    all.iter().position(|one| one.name() == name)
}

// What is called by a part of a text, which it doesn't hold.
pub trait NamedInText {
    ghost called: { Self → Span };

    fn name(&self) -> Span
        ensures { result ≡ called self.now };
}

// The place of the first that is called by this name in the text.
pub fn find_in_text<T: NamedInText>(text: &[u8], all: &[T], name: &[u8]) -> Option<usize>
    ensures within { IfSome result (λ i. i < length all.now) }
    ensures first { result ≡ position (λ one. bytes_eq (part text.now (T.called one)) name.now) all.now }
{
    all.iter().position(|one| one.name().of(text) == name)
}
