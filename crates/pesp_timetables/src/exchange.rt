//! Which rows are exchanged.

use crate::settings::{BAD_TRIED, WIDE};
use crate::table::ForestTable;
use pesp_forest::{Frame, Random, RowForest};
use pesp_network::NetRow;

/// A row that goes into the forest, its place among those outside, and the row that goes out.
#[derive(Clone, Copy)]
pub(crate) struct Exchange {
    pub(crate) place: u32,
    pub(crate) enters: u32,
    pub(crate) leaves: u32,
}

/// Whether a row costs what it must by the prices of the root: it has no weight, its prices rise by more or less than open
/// offsets allow, or by as much as a slack of 0 gives.
fn is_paid(frame: &Frame, table: &ForestTable, place: u32) -> Option<bool> {
    let row = frame.row(place)?;
    let rise = table.basis.rise(place)?;
    let slopes = table.basis.slopes(place)?;
    if row.weight == 0 || rise < slopes.below || rise > slopes.between {
        return Some(true);
    }
    let slack = rise.checked_sub(row.lower)?;
    Some(slack.checked_rem_euclid(i64::from(frame.period()))? == 0)
}

/// The row upwards from the event so many rows above another.
fn row_above(forest: &RowForest, event: u32, steps: u32) -> Option<u32> {
    let mut current = event;
    for _ in 0..steps {
        current = forest.tree().place(current)?.up;
    }
    Some(forest.tree().place(current)?.by)
}

/// How many rows lead from an event up to another.
fn steps_up(forest: &RowForest, event: u32, top: u32) -> Option<u32> {
    let depth = forest.tree().place(event)?.depth;
    depth.checked_sub(forest.tree().place(top)?.depth)
}

/// A row of the way along the forest between the ends of another.
fn draw_between(random: &mut Random, forest: &RowForest, row: &NetRow) -> Option<u32> {
    let top = forest.tree().meeting(row.head, row.tail)?;
    let from_head = steps_up(forest, row.head, top)?;
    let both = from_head.checked_add(steps_up(forest, row.tail, top)?)?;
    let drawn = u32::try_from(random.below(u64::from(both))).ok()?;
    if drawn < from_head {
        return row_above(forest, row.head, drawn);
    }
    row_above(forest, row.tail, both.saturating_sub(drawn).checked_sub(1)?)
}

/// Whether it looks bad to have one row in the forest in place of another: its span is far greater by its weight.
fn looks_bad(enters: &NetRow, leaves: &NetRow) -> bool {
    let out = u128::from(leaves.span).saturating_mul(u128::from(enters.weight).saturating_add(1));
    let into = u128::from(enters.span).saturating_mul(u128::from(leaves.weight).saturating_add(1));
    out.saturating_mul(WIDE) < into
}

/// Draws an exchange; None where what was drawn isn't to be tried.
pub(crate) fn draw(
    random: &mut Random,
    frame: &Frame,
    table: &ForestTable,
    outside: &[u32],
) -> Option<Exchange> {
    let place = u32::try_from(random.below(outside.len() as u64)).ok()?;
    let enters = outside.get(place as usize).copied()?;
    if is_paid(frame, table, enters)? && random.below(BAD_TRIED) != 0 {
        return None;
    }
    let row = frame.row(enters)?;
    let leaves = draw_between(random, &table.forest, row)?;
    if looks_bad(row, frame.row(leaves)?) && random.below(BAD_TRIED) != 0 {
        return None;
    }
    Some(Exchange {
        place,
        enters,
        leaves,
    })
}
