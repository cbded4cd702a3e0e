// The pieces of a line, taken one by one.
ghost use Rattle.reference_reading.specs.Lines.{Took};
ghost use Rattle.std.specs.Prelude.{OnOk};

use crate::faults::*;
use crate::lexing::*;
use crate::parts::*;
use crate::pieces::*;
use crate::questions::*;
use crate::spans::*;
use std::alloc::Global;
use std::collections::VecDeque;

#[derive(Drop)]
pub struct Line {
    // Counted from 1.
    pub number: usize,
    // The line without blanks at its ends and without its note.
    pub span: Span,
    // What is still to be read.
    pub pieces: VecDeque<Piece>,
}

impl Line {
    // Cuts a line into pieces, up to its end or a note.
    pub fn cut(heap: Global, number: usize, line: Part<'_>) -> Result<Line, Fault> {
        let mut pieces = VecDeque::new(heap);
        let line = behind_blanks(line);
        // What stands behind the last piece.
        let mut behind = line;
        while let rest @ Part {
            bytes: [first, ..],
            ..
        } = behind_blanks(behind)
        {
            if *first == b'#' {
                break;
            }
            let Some(len) = piece_len(rest.bytes) else {
                return Err(Fault::OpenQuote);
            };
            let part = rest.front(len);
            let token = Token::try_from(part)?;
            let span = part.span();
            pieces.push_back(Piece { token, span })?;
            behind = rest.behind(len);
        }
        let span = Span {
            start: line.start,
            end: behind.start,
        };
        Ok(Line {
            number,
            span,
            pieces,
        })
    }

    pub fn heap(&self) -> Global {
        *self.pieces.allocator()
    }

    pub fn is_over(&self) -> bool {
        self.pieces.is_empty()
    }

    pub fn is_next(&self, token: Token) -> bool {
        self.pieces
            .front()
            .is_some_and(|piece| piece.token == token)
    }

    // The next piece, which has to be there.
    pub fn take(&mut self, wanted: Wanted) -> Result<Piece, Fault>
        ensures { OnOk result (Took self.old self.new) }
    {
        self.pieces.pop_front().ok_or(Fault::Ends(wanted))
    }

    // name, number and kind differ in a pattern: a closure for it would save one line each.
    pub fn name(&mut self) -> Result<Span, Fault>
        ensures { OnOk result (Took self.old self.new) }
    {
        let piece = self.take(Wanted::Name)?;
        match piece.token {
            Token::Name => Ok(piece.span),
            _ => Err(piece.instead_of(Wanted::Name)),
        }
    }

    pub fn number(&mut self) -> Result<u64, Fault>
        ensures { OnOk result (Took self.old self.new) }
    {
        let piece = self.take(Wanted::Number)?;
        match piece.token {
            Token::Number(n) => Ok(n),
            _ => Err(piece.instead_of(Wanted::Number)),
        }
    }

    pub fn kind(&mut self) -> Result<Kind, Fault>
        ensures { OnOk result (Took self.old self.new) }
    {
        let piece = self.take(Wanted::Type)?;
        match piece.token {
            Token::Keyword(Keyword::Num) => Ok(Kind::Num),
            Token::Keyword(Keyword::Word) => Ok(Kind::Word),
            _ => Err(piece.instead_of(Wanted::Type)),
        }
    }

    pub fn expect(&mut self, token: Token, wanted: Wanted) -> Result<(), Fault>
        ensures { OnOk result (Took self.old self.new) }
    {
        let piece = self.take(wanted)?;
        if piece.token == token {
            Ok(())
        } else {
            Err(piece.instead_of(wanted))
        }
    }

    // Nothing may come behind.
    pub fn end(&self) -> Result<(), Fault> {
        match self.pieces.front() {
            Some(piece) => Err(piece.instead_of(Wanted::End)),
            None => Ok(()),
        }
    }
}
