// The rows of one operation.
ghost use Rattle.std.specs.Prelude.{◌≡◌, IfOk, option_map};
ghost use Rattle.serde_json.specs.View.{view};
ghost use Rattle.latency_table.specs.Rows.{is_whole, pair_of, is_pair, are_pairs, number, up_to, row_above, rows_of};

use mx_base::{List, NoMemory};
use serde_json::Value;
use std::alloc::Global;

/// The widest words have so many bits.
const MOST_WIDTH: u8 = 128;

/// The greatest latency.
const MOST_LATENCY: u8 = 64;

/// From this width on, in bits, an operation has this latency, in ticks.
#[derive(Clone, Copy, PartialEq, Eq)]
pub(crate) struct Row {
    pub(crate) from: u8,
    pub(crate) latency: u8,
}

/// Whether a value has the form of rows: an array of pairs of whole numbers.
pub(crate) fn are_pairs(value: &Value) -> bool
    ensures { result ≡ are_pairs (view value.now) }
{
    let Some(pairs) = value.as_array() else {
        return false;
    };
    for pair in pairs {
        if !is_pair(pair) {
            return false;
        }
    }
    true
}

fn is_pair(value: &Value) -> bool
    ensures { result ≡ is_pair (view value.now) }
{
    match pair_of(value) {
        Some((from, latency)) => is_whole(from) && is_whole(latency),
        None => false,
    }
}

// The two items of a value that is an array of two.
#[tactic(auto, using(crate::proofs::ItemLemmas::item_steps))]
fn pair_of(value: &Value) -> Option<(&Value, &Value)>
    ensures { option_map (λ p. (view p.0.now, view p.1.now)) result ≡ pair_of (view value.now) }
{
    let items = value.as_array()?;
    if items.len() != 2 {
        return None;
    }
    Some((&items[0], &items[1]))
}

// Whether a value is a whole number that is kept in 64 bits, with or without sign.
fn is_whole(value: &Value) -> bool
    ensures { result ≡ is_whole (view value.now) }
{
    value.is_u64() || value.is_i64()
}

/// The rows that a value says; `None` where it isn't an array of pairs whose numbers are in range, or
/// the widths don't rise.
pub(crate) fn rows_of(alloc: Global, value: &Value) -> Result<Option<List<Row>>, NoMemory>
    ensures { IfOk result (λ rows. rows ≡ rows_of (view value.now)) }
{
    let Some(pairs) = value.as_array() else {
        return Ok(None);
    };
    let mut rows = List::new(alloc);
    let mut above = 0;
    for pair in pairs {
        let Some(row) = row_above(above, pair) else {
            return Ok(None);
        };
        above = row.from;
        rows.push(row)?;
    }
    Ok(Some(rows))
}

// The row that a pair says, where its numbers are in range and its width is above another.
fn row_above(above: u8, pair: &Value) -> Option<Row>
    ensures { result ≡ row_above above (view pair.now) }
{
    let (from, latency) = pair_of(pair)?;
    let from = number(from, MOST_WIDTH)?;
    let latency = number(latency, MOST_LATENCY)?;
    if from <= above {
        return None;
    }
    Some(Row { from, latency })
}

// A number without sign, where it is at most so much.
fn number(value: &Value, most: u8) -> Option<u8>
    ensures { result ≡ up_to most (number (view value.now)) }
{
    match value.as_u64() {
        Some(n) if n <= u64::from(most) => Some(n as u8),
        _ => None,
    }
}
