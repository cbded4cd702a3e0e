ghost use Rattle.std.specs.Prelude.{◌≡◌, ◌-◌, ◌≤◌, [], ◌∷◌, length, Some, None};
ghost use Rattle.std.specs.Iterator.{at_most};
ghost use Rattle.std.specs.List.{position};
ghost use Rattle.meaning.specs.Text.{lines_of};
ghost use Rattle.language.specs.Lines.{is_newline, lines_in, bytes_in, lines_left, bytes_left, left_in, NextLine, LineFound, line_at};

use language_pieces::reader::Reader;

// What is left of a text, none behind its last line, and how many lines came before.
// Not std's `split`: views copy these lines as they stand, and say how many came before.
#[derive(Clone, Copy)]
pub struct Lines<'a> {
    rest: Option<&'a [u8]>,
    pub number: usize,
}

fn newline_in(text: &[u8]) -> Option<usize>
    ensures { result ≡ position is_newline text.now }
{
    text.iter().position(|byte| *byte == b'\n')
}

// The first line, and the text behind the newline that ends it.
#[tactic(auto, using(crate::proofs::Cutting::line_cut, crate::proofs::Cutting::line_last, crate::proofs::Cutting::newline_within))]
fn split_line(text: &[u8]) -> (&[u8], Option<&[u8]>)
    ensures lines { lines_of [] text.now ≡ result.0.now ∷ lines_in result.1 }
    ensures line { length result.0.now ≤ length text.now }
    ensures rest { bytes_in result.1 ≤ length text.now }
{
    match newline_in(text) {
        Some(n) => (&text[..n], Some(&text[n + 1..])),
        None => (text, None),
    }
}

impl<'a> Lines<'a> {
    #[tactic(auto, unfolding(crate::specs::Lines::lines_left))]
    pub fn new(text: &'a [u8]) -> Lines<'a>
        ensures text { result.rest ≡ Some text.entry }
        ensures number { result.number ≡ 0 }
        ensures lines { lines_left result ≡ lines_of [] text.now }
    {
        Lines {
            rest: Some(text),
            number: 0,
        }
    }

    // A reader of the next line that has pieces.
    #[tactic(auto, using(crate::proofs::Cutting::line_passed, crate::proofs::Cutting::line_found, crate::proofs::Cutting::lines_over))]
    pub fn next_reader(&mut self) -> Option<Reader<'a>>
        ensures short { bytes_left self.new ≤ bytes_left self.old }
        ensures line { elim result [ None ↦ left_in self.old ≡ [] | Some s ↦ LineFound s self.old self.new ] }
    {
        while let Some(line) = self.next() {
            let reader = Reader::new(line);
            if !reader.is_over() {
                return Some(reader);
            }
        }
        None
    }
}

impl<'a> Iterator for Lines<'a> {
    type Item = &'a [u8];

    ghost next_gives = { NextLine };

    ghost remaining = { λ s. at_most (length (lines_left s)) };

    #[tactic(auto, unfolding(crate::specs::Lines::lines_left))]
    fn next(&mut self) -> Option<&'a [u8]> {
        let (line, rest) = split_line(self.rest?);
        self.rest = rest;
        self.number = self.number.saturating_add(1);
        Some(line)
    }
}

// The line of a number, counted from 1; empty where the text has fewer, as `line_at` is, so it is no Option.
pub fn line_of<'a>(text: &'a [u8], number: usize) -> &'a [u8]
    ensures { result.now ≡ line_at (lines_of [] text.now) (number - 1) }
{
    Lines::new(text)
        .nth(number.saturating_sub(1))
        .unwrap_or(b"")
}
