// Questions by chance: well-formed but for a number or a word that is too large now and then.
use crate::draft::{Draft, TYPES};
use std::alloc::AllocError;

const FUNCTIONS: [&[u8]; 4] = [b"sum", b"min", b"max", b"first"];

impl Draft {
    fn table(&mut self) -> Result<(), AllocError> {
        self.piece(b"table")?;
        self.name()?;
        self.number()?;
        for _ in 0..self.chance.below(6) {
            self.name()?;
            self.one_of(&TYPES)?;
            self.number()?;
        }
        Ok(())
    }

    fn names(&mut self) -> Result<(), AllocError> {
        for _ in 0..self.chance.below(5) {
            self.name()?;
        }
        Ok(())
    }

    fn keys(&mut self) -> Result<(), AllocError> {
        for _ in 0..self.chance.below(5) {
            if self.chance.one_in(3) {
                self.piece(b"-")?;
            }
            self.name()?;
        }
        Ok(())
    }

    fn make(&mut self) -> Result<(), AllocError> {
        self.piece(b"make")?;
        self.name()?;
        self.piece(b"=")?;
        self.expression()
    }

    fn join(&mut self) -> Result<(), AllocError> {
        if self.chance.one_in(2) {
            self.piece(b"left")?;
        }
        self.piece(b"join")?;
        self.name()?;
        self.piece(b"on")?;
        self.name()?;
        self.piece(b"=")?;
        self.name()
    }

    fn aggregate(&mut self) -> Result<(), AllocError> {
        self.name()?;
        self.piece(b"=")?;
        if self.chance.one_in(4) {
            return self.piece(b"count");
        }
        self.one_of(&FUNCTIONS)?;
        self.name()
    }

    fn group(&mut self) -> Result<(), AllocError> {
        self.piece(b"group")?;
        self.names()?;
        self.piece(b":")?;
        self.aggregate()?;
        for _ in 0..self.chance.below(4) {
            self.piece(b",")?;
            self.aggregate()?;
        }
        Ok(())
    }

    fn numbered(&mut self, verb: &[u8]) -> Result<(), AllocError> {
        self.piece(verb)?;
        self.number()
    }

    fn step(&mut self) -> Result<(), AllocError> {
        match self.chance.below(14) {
            0 => {
                self.piece(b"pick")?;
                self.names()
            }
            1..3 => self.join(),
            3..5 => self.group(),
            5 => {
                self.piece(b"order")?;
                self.keys()
            }
            6 => self.numbered(b"take"),
            7 => self.numbered(b"skip"),
            8 => {
                self.piece(b"unite")?;
                self.name()
            }
            9 => self.piece(b"distinct"),
            10..12 => self.make(),
            _ => {
                self.piece(b"keep")?;
                self.expression()
            }
        }
    }

    pub fn question(&mut self) -> Result<(), AllocError> {
        for _ in 0..self.chance.below(5) {
            self.idle_line()?;
            self.table()?;
            self.end_line()?;
        }
        self.piece(b"from")?;
        self.name()?;
        self.end_line()?;
        for _ in 0..self.chance.below(9) {
            self.idle_line()?;
            self.step()?;
            self.end_line()?;
        }
        if self.chance.one_in(4) {
            let _ = self.text.pop();
        }
        Ok(())
    }
}
