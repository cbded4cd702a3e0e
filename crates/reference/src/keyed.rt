// The steps that put rows together by their keys: order, distinct, group.
use crate::evaluating::*;
use crate::tables::*;
use reference_planning::plans::*;
use reference_values::values::*;
use std::alloc::{AllocError, Global};
use std::cmp::Ordering;
use std::collections::{HashMap, HashSet};

fn compare_at(sort: SortColumn, a: &[Value], b: &[Value]) -> Ordering {
    let ordering = cell(a, sort.column).cmp(&cell(b, sort.column));
    if sort.down {
        ordering.reverse()
    } else {
        ordering
    }
}

// By the first of these columns in which the rows differ.
fn compare(columns: &[SortColumn], a: &[Value], b: &[Value]) -> Ordering {
    columns
        .iter()
        .map(|sort| compare_at(*sort, a, b))
        .find(|ordering| ordering.is_ne())
        .unwrap_or(Ordering::Equal)
}

// Rows by their sort columns, equal ones as they stood.
pub fn order(mut rows: Vec<Row>, columns: &[SortColumn]) -> Result<Vec<Row>, AllocError> {
    rows.sort_by(|a, b| compare(columns, a.as_slice(), b.as_slice()))?;
    Ok(rows)
}

// Whether each row stands there for the first time; null is a value like others.
fn stand_first(heap: Global, rows: &[Row]) -> Result<Vec<bool>, AllocError> {
    let mut seen = HashSet::with_capacity(heap, rows.len())?;
    let mut first = Vec::new(heap);
    for row in rows.iter() {
        first.push(seen.insert(row)?)?;
    }
    Ok(first)
}

// Each row once, where it first stands.
pub fn distinct(rows: Vec<Row>) -> Result<Vec<Row>, AllocError> {
    let heap = *rows.allocator();
    let first = stand_first(heap, rows.as_slice())?;
    let mut kept = Vec::new(heap);
    for (row, first) in rows.into_iter().zip(first) {
        if first {
            kept.push(row)?;
        }
    }
    Ok(kept)
}

fn compare_keys(keys: &[usize], a: &[Value], b: &[Value]) -> Ordering {
    keys.iter()
        .map(|column| cell(a, *column).cmp(&cell(b, *column)))
        .find(|ordering| ordering.is_ne())
        .unwrap_or(Ordering::Equal)
}

// Whether rows stand in the order of these columns, upwards or downwards, so that equal keys stand together.
fn stand_in_order(rows: &[Row], keys: &[usize]) -> bool {
    let up = rows.iter().zip(rows.iter().skip(1)).all(|(a, b)| compare_keys(
        keys,
        a.as_slice(),
        b.as_slice(),
    ).is_le());
    up || rows.iter().zip(rows.iter().skip(1)).all(|(a, b)| compare_keys(
        keys,
        a.as_slice(),
        b.as_slice(),
    ).is_ge())
}

// The rows of each group where equal keys stand together: a row is of the last group, or of a new one.
fn runs<'r>(
    heap: Global,
    rows: &'r [Row],
    keys: &[usize],
) -> Result<Vec<Vec<&'r Row>>, AllocError> {
    let mut groups: Vec<Vec<&'r Row>> = Vec::new(heap);
    let mut before: &[Value] = &[];
    for row in rows.iter() {
        let is_same = compare_keys(keys, before, row.as_slice()).is_eq();
        match groups.last_mut() {
            Some(group) if is_same => group.push(row)?,
            _ => groups.push(vec![in heap; row]?)?,
        }
        before = row.as_slice();
    }
    Ok(groups)
}

// The rows of each group, wherever equal keys stand.
// A map to places in the list: a map of groups would not keep this order.
fn scattered<'r>(
    heap: Global,
    rows: &'r [Row],
    keys: &[usize],
) -> Result<Vec<Vec<&'r Row>>, AllocError> {
    let mut numbers = HashMap::with_capacity(heap, rows.len())?;
    let mut groups: Vec<Vec<&'r Row>> = Vec::new(heap);
    for row in rows.iter() {
        let key: Row = keys
            .iter()
            .map(|column| cell(row.as_slice(), *column))
            .collect(heap)?;
        let number = *numbers.entry(key)?.or_insert(groups.len());
        match groups.get_mut(number) {
            Some(group) => group.push(row)?,
            None => groups.push(vec![in heap; row]?)?,
        }
    }
    Ok(groups)
}

// The rows of each group, groups in the order of their first rows; null is a key like others.
fn groups<'r>(
    heap: Global,
    rows: &'r [Row],
    keys: &[usize],
) -> Result<Vec<Vec<&'r Row>>, AllocError> {
    if stand_in_order(rows, keys) {
        runs(heap, rows, keys)
    } else {
        scattered(heap, rows, keys)
    }
}

// The values of a column, put together one after the other.
fn fold<F: FnMut(Value, Value) -> Value>(group: &[&Row], column: usize, start: Value, f: F) -> Value
    requires { F.IsAlwaysCallable f }
{
    group
        .iter()
        .map(|row| cell(row.as_slice(), column))
        .fold(start, f)
}

// The lesser of two values, null only if both are.
fn lesser(a: Value, b: Value) -> Value {
    match (a, b) {
        (Value::Null, _) => b,
        (_, Value::Null) => a,
        (_, _) => a.min(b),
    }
}

fn aggregate(group: &[&Row], aggregation: Aggregation) -> Value {
    match aggregation {
        Aggregation::Sum(column) => fold(group, column, Value::Number(0), Value::plus),
        Aggregation::Count => Value::count(group.len()),
        Aggregation::Min(column) => fold(group, column, Value::Null, lesser),
        Aggregation::Max(column) => fold(group, column, Value::Null, Value::max),
        Aggregation::First(column) => group
            .first()
            .map_or(Value::Null, |row| cell(row.as_slice(), column)),
    }
}

// The group's key, then its aggregates.
fn group_row(heap: Global, group: &[&Row], grouping: &Grouping) -> Result<Row, AllocError> {
    let keys = grouping
        .keys
        .iter()
        .map(|column| Aggregation::First(*column));
    let aggregations = grouping.aggregations.iter().copied();
    let mut row = empty_row(
        heap,
        grouping
            .keys
            .len()
            .saturating_add(grouping.aggregations.len()),
    )?;
    row.extend(
        keys.chain(aggregations)
            .map(|aggregation| aggregate(group, aggregation)),
    )?;
    Ok(row)
}

// A row for each group; without keys there is one group, also of no rows.
pub fn group(heap: Global, rows: &[Row], grouping: &Grouping) -> Result<Vec<Row>, AllocError> {
    let mut groups = groups(heap, rows, grouping.keys.as_slice())?;
    if grouping.keys.is_empty() && groups.is_empty() {
        groups.push(Vec::new(heap))?;
    }
    groups
        .iter()
        .map(|group| group_row(heap, group.as_slice(), grouping))
        .try_collect(heap)
}
