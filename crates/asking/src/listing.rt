// An answer's rows as text: a line for each, values parted by commas.
// Bytes and no Display, since a word's bytes need not be UTF-8.
ghost use Rattle.std.specs.Prelude.{◌≡◌, ◌++◌, map, IfOk, codes, OnOk};
ghost use Rattle.asking.specs.Listing.{behind_comma, line, listing, meant_row, shown, trimmed, word_bytes};
ghost use Rattle.meaning.specs.Values.{word};
ghost use Rattle.reference_values.specs.Values.{meant};
ghost use Rattle.std.specs.List.{flat_map};

use reference::tables::*;
use reference_values::values::*;
use std::alloc::{AllocError, Global};

// Without the zero bytes at the end.
fn trimmed(mut bytes: &[u8]) -> &[u8]
    ensures { result.now ≡ trimmed bytes.now }
{
    while let [front @ .., 0] = bytes {
        bytes = front;
    }
    bytes
}

// A word's seven bytes between quotes, without trailing zero bytes.
fn push_word(out: &mut Vec<u8>, number: u64) -> Result<(), AllocError>
    ensures { OnOk result (out.new.items ≡ out.old.items ++ shown (word number)) }
{
    let bytes = number.to_be_bytes();
    out.push(b'\'')?;
    out.extend_from_slice(trimmed(&bytes[1..]))?;
    out.push(b'\'')?;
    Ok(())
}

fn push_value(out: &mut Vec<u8>, value: Value) -> Result<(), AllocError>
    ensures { OnOk result (out.new.items ≡ out.old.items ++ shown (meant value)) }
{
    let heap = *out.allocator();
    match value {
        Value::Null => Ok(()),
        Value::Number(n) => out.extend_from_slice(n.to_string(heap)?.as_bytes()),
        Value::Word(number) => push_word(out, number),
    }
}

// Values with a comma before each.
fn push_more(out: &mut Vec<u8>, values: &[Value]) -> Result<(), AllocError>
    ensures { OnOk result (out.new.items ≡ out.old.items ++ flat_map behind_comma (map meant values.now)) }
{
    for value in values.iter() {
        out.push(b',')?;
        push_value(out, *value)?;
    }
    Ok(())
}

fn push_row(out: &mut Vec<u8>, row: &[Value]) -> Result<(), AllocError>
    ensures { OnOk result (out.new.items ≡ out.old.items ++ line (map meant row.now)) }
{
    if let [first, rest @ ..] = row {
        push_value(out, *first)?;
        push_more(out, rest)?;
    }
    out.push(b'\n')?;
    Ok(())
}

pub fn list_rows(heap: Global, rows: &[Row]) -> Result<Vec<u8>, AllocError>
    ensures { IfOk result (λ text. text.items ≡ listing (map meant_row rows.now)) }
{
    let mut out = Vec::new(heap);
    for row in rows.iter() {
        push_row(&mut out, row.as_slice())?;
    }
    Ok(out)
}
