// Is a question sound: tables well declared, every step fitting.
ghost use Rattle.std.specs.Prelude.{◌≡◌, ◌<◌, length, IfOk};

use crate::faults::*;
use crate::plans::*;
use reference_reading::names::find_in_text;
use reference_reading::questions::*;
use reference_reading::spans::*;
use std::alloc::Global;

const MOST_COLUMNS: usize = 64;

impl Columns {
    // One to 64 columns, all of different names.
    pub fn new(text: &[u8], all: Vec<Column>) -> Result<Columns, Unsound>
        ensures { IfOk result (λ columns. columns.all ≡ all) }
    {
        if all.is_empty() {
            return Err(Unsound::NoColumns);
        }
        if all.len() > MOST_COLUMNS {
            return Err(Unsound::TooManyColumns(all.len()));
        }
        for (i, column) in all.iter().enumerate() {
            if find_in_text(text, &all[..i], column.name.of(text)).is_some() {
                return Err(Unsound::SameColumn(column.name));
            }
        }
        Ok(Columns { all })
    }
}

// A column's pages lie below the border, also where it has no rows.
fn check_pages(table: &TableDecl, border: u64) -> Result<(), Unsound> {
    let pages = table.rows.div_ceil(PAGE_WORDS);
    let beyond = table
        .columns
        .iter()
        .find(|stored| stored.page.saturating_add(pages) > border);
    match beyond {
        Some(stored) => Err(Unsound::BeyondBorder(stored.column.name, border)),
        None => Ok(()),
    }
}

// The tables that a question declares.
#[derive(Clone, Copy)]
pub struct Tables<'b> {
    pub heap: Global,
    pub text: &'b [u8],
    pub all: &'b [TableDecl],
}

impl Tables<'_> {
    pub fn find(self, name: Span) -> Result<usize, Unsound>
        ensures { IfOk result (λ i. i < length self.entry.all.now) }
    {
        find_in_text(self.text, self.all, name.of(self.text)).ok_or(Unsound::NoTable(name))
    }

    // The columns of a table.
    pub fn columns_of(self, table: &TableDecl) -> Result<Columns, Unsound> {
        let columns: Vec<Column> = table
            .columns
            .iter()
            .map(|stored| stored.column)
            .collect(self.heap)?;
        Columns::new(self.text, columns)
    }

    fn check_table(
        self,
        before: &[TableDecl],
        table: &TableDecl,
        border: u64,
    ) -> Result<(), Unsound> {
        if find_in_text(self.text, before, table.name.of(self.text)).is_some() {
            return Err(Unsound::SameTable(table.name));
        }
        let _ = self.columns_of(table)?;
        check_pages(table, border)
    }

    pub fn check(self, border: u64) -> Result<(), NotSound> {
        for (at, table) in self.all.iter().enumerate() {
            self.check_table(&self.all[..at], table, border)
                .map_err(|fault| NotSound {
                    line: table.line,
                    fault,
                })?;
        }
        Ok(())
    }
}
