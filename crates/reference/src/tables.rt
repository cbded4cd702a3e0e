// Tables, from their columns on pages to rows.
use reference_planning::plans::PAGE_WORDS;
use reference_reading::questions::*;
use reference_values::values::*;
use std::alloc::{AllocError, Global};

pub type Row = Vec<Value>;

// A word that isn't there is null.
fn value_at(words: &[u64], stored: &StoredColumn, row: u64) -> Value {
    let at = stored.page.saturating_mul(PAGE_WORDS).saturating_add(row);
    words.get(at as usize).map_or(
        Value::Null,
        |word| Value::from_cell(stored.column.kind, *word),
    )
}

// An empty row with room for so many values and for some more, which `make` adds one by one.
pub fn empty_row(heap: Global, width: usize) -> Result<Row, AllocError> {
    let room = width.checked_next_power_of_two().unwrap_or(width);
    Vec::with_capacity(heap, room.max(4))
}

fn load_row(heap: Global, words: &[u64], table: &TableDecl, row: u64) -> Result<Row, AllocError> {
    let mut values = empty_row(heap, table.columns.len())?;
    values.extend(
        table
            .columns
            .iter()
            .map(|stored| value_at(words, stored, row)),
    )?;
    Ok(values)
}

pub fn load(heap: Global, words: &[u64], table: &TableDecl) -> Result<Vec<Row>, AllocError> {
    (0..table.rows)
        .map(|row| load_row(heap, words, table, row))
        .try_collect(heap)
}
