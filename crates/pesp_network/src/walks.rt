//! Fundamental walks.

ghost use Rattle.std.specs.Prelude.{◌≡◌, ◌≢◌, ℕ, ◌+◌, ◌-◌, ◌<◌, ◌≤◌, ◌++◌, ◌==◌, ◌||◌, List, length, reverse, IfOk, IfErr, IfSome, IfNone, OnOk, All, vec_len};
ghost use Rattle.pesp_problem.specs.declared.limits.TheConstants.{MOST_ROWS};
ghost use Rattle.pesp_problem.specs.declared.arc.Arc.{Arc};
ghost use Rattle.pesp_problem.specs.Walks.{Names};
ghost use Rattle.pesp_network.specs.Networks.{arcs_of_network, signed_rows};
ghost use Rattle.pesp_network.specs.Growing.{at};
ghost use Rattle.pesp_network.specs.Rooted.{Under, IsForest, AreTreeRows};
ghost use Rattle.pesp_network.specs.Ways.{step_up, step_down, is_under, up_way, top, down_way, way_between, IsForestWay, walk_of, walks_of, IsTooMany};

use crate::parts::Forest;
use crate::refusal::NetRefusal;
use crate::row::NetRow;
use pesp_problem::{MOST_SIGNED_ROWS, SignedRow, Walk};
use std::alloc::{AllocError, Global};

/// The row that joins an event to the one above it, from the event upwards.
fn upward(rows: &[NetRow], forest: &Forest, event: usize) -> SignedRow
    requires event { event < vec_len forest.now.up }
    requires row { Names (length rows.now) (at forest.now.by.items event) }
    requires few { length rows.now ≤ MOST_ROWS }
    ensures { result ≡ step_up (arcs_of_network rows.now) forest.now event }
{
    let by = forest.by[event];
    SignedRow {
        row: by as u32,
        plus: rows[by - 1].tail as usize == event,
    }
}

/// The row that joins an event to the one above it, from there down to the event.
fn downward(rows: &[NetRow], forest: &Forest, event: usize) -> SignedRow
    requires event { event < vec_len forest.now.up }
    requires row { Names (length rows.now) (at forest.now.by.items event) }
    requires few { length rows.now ≤ MOST_ROWS }
    ensures { result ≡ step_down (arcs_of_network rows.now) forest.now event }
{
    let by = forest.by[event];
    SignedRow {
        row: by as u32,
        plus: rows[by - 1].head as usize == event,
    }
}

/// Whether an event is another one or lies below it in its tree.
fn is_above(forest: &Forest, upper: usize, lower: usize) -> bool
    requires upper { upper < vec_len forest.now.up }
    requires lower { lower < vec_len forest.now.up }
    ensures { result ≡ is_under forest.now upper lower }
{
    let place = forest.place[lower];
    forest.place[upper] <= place && place <= forest.last[upper]
}

/// Goes up from an event until it is above another one of its tree, and gives the event where it stops.
fn climb(
    rows: &[NetRow],
    forest: &Forest,
    walk: &mut Vec<SignedRow>,
    from: usize,
    to: usize,
) -> Result<usize, AllocError>
    requires forest { IsForest (vec_len forest.now.up) (arcs_of_network rows.now) forest.now }
    requires from { from < vec_len forest.now.up }
    requires to { to < vec_len forest.now.up }
    requires one_tree { at forest.now.root.items from ≡ at forest.now.root.items to }
    ensures walk { OnOk result (walk.new.items
        ≡ walk.old.items ++ up_way (arcs_of_network rows.now) forest.now to
        (at forest.now.place.items from) from) }
    ensures top { IfOk result (λ u. u ≡ top forest.now to (at forest.now.place.items from) from) }
{
    let mut upper = from;
    'climb: while !is_above(forest, upper, to) {
        walk.push(upward(rows, forest, upper))?;
        upper = forest.up[upper];
    }
    Ok(upper)
}

/// The way from an event up to one above it, each row signed as the way down passes it.
fn descend(
    alloc: Global,
    rows: &[NetRow],
    forest: &Forest,
    from: usize,
    to: usize,
) -> Result<Vec<SignedRow>, AllocError>
    requires forest { IsForest (vec_len forest.now.up) (arcs_of_network rows.now) forest.now }
    requires from { from < vec_len forest.now.up }
    requires to { to < vec_len forest.now.up }
    requires above { Under forest.now from to }
    ensures { IfOk result (λ way. reverse way.items
        ≡ down_way (arcs_of_network rows.now) forest.now from (at forest.now.place.items to) to) }
{
    let mut way = Vec::new(alloc);
    let mut lower = to;
    'descent: while lower != from {
        way.push(downward(rows, forest, lower))?;
        lower = forest.up[lower];
    }
    Ok(way)
}

/// Goes on along the forest from an event to another one of its tree.
fn go_on(
    alloc: Global,
    rows: &[NetRow],
    forest: &Forest,
    walk: &mut Vec<SignedRow>,
    from: usize,
    to: usize,
) -> Result<(), AllocError>
    requires forest { IsForest (vec_len forest.now.up) (arcs_of_network rows.now) forest.now }
    requires from { from < vec_len forest.now.up }
    requires to { to < vec_len forest.now.up }
    requires one_tree { at forest.now.root.items from ≡ at forest.now.root.items to }
    ensures { OnOk result (walk.new.items ≡ walk.old.items
        ++ way_between (arcs_of_network rows.now) forest.now from to) }
{
    let upper = climb(rows, forest, walk, from, to)?;
    let mut down = descend(alloc, rows, forest, upper, to)?;
    down.reverse();
    walk.extend_from_slice(down.as_slice())?;
    Ok(())
}

/// The way along the forest from one event to another, or None where they are in two trees.
pub fn way(
    alloc: Global,
    rows: &[NetRow],
    forest: &Forest,
    from: usize,
    to: usize,
) -> Result<Option<Vec<SignedRow>>, AllocError>
    requires forest { IsForest (vec_len forest.now.up) (arcs_of_network rows.now) forest.now }
    requires from { from < vec_len forest.now.up }
    requires to { to < vec_len forest.now.up }
    ensures way { IfOk result (λ found. IfSome found
        (λ way. IsForestWay (arcs_of_network rows.now) forest.now from to way.items)) }
    ensures none { IfOk result
        (λ found. IfNone found (at forest.now.root.items from ≢ at forest.now.root.items to)) }
{
    if forest.root[from] != forest.root[to] {
        return Ok(None);
    }
    let mut way = Vec::new(alloc);
    go_on(alloc, rows, forest, &mut way, from, to)?;
    Ok(Some(way))
}

/// The walk that begins with the row k and goes back through rows of the forest.
pub fn walk_back(
    alloc: Global,
    rows: &[NetRow],
    forest: &Forest,
    k: usize,
) -> Result<Vec<SignedRow>, AllocError>
    requires forest { IsForest (vec_len forest.now.up) (arcs_of_network rows.now) forest.now }
    requires row { Names (length rows.now) k }
    ensures { IfOk result (λ walk. walk.items ≡ walk_of (arcs_of_network rows.now) forest.now k) }
{
    let row = rows[k - 1];
    let mut walk = Vec::new(alloc);
    walk.push(SignedRow {
        row: k as u32,
        plus: true,
    })?;
    let tail = row.tail as usize;
    let head = row.head as usize;
    go_on(alloc, rows, forest, &mut walk, head, tail)?;
    Ok(walk)
}

/// Whether the row k joins one of its ends to the event above it.
fn is_kept(forest: &Forest, row: &NetRow, k: usize) -> bool
    requires tail { row.now.tail < vec_len forest.now.up }
    requires head { row.now.head < vec_len forest.now.up }
    ensures { result ≡ ((at forest.now.by.items row.now.tail == k) ||
        (at forest.now.by.items row.now.head == k)) }
{
    forest.by[row.tail as usize] == k || forest.by[row.head as usize] == k
}

/// The walks of the rows outside the forest, by rising row.
pub fn walks(alloc: Global, rows: &[NetRow], forest: &Forest) -> Result<Vec<Walk>, NetRefusal>
    requires { IsForest (vec_len forest.now.up) (arcs_of_network rows.now) forest.now }
    ensures table { IfOk result
        (λ table. table.items ≡ walks_of (arcs_of_network rows.now) forest.now (length rows.now)) }
    ensures small { IfOk result (λ table. signed_rows table.items ≤ MOST_SIGNED_ROWS) }
    ensures refused { IfErr result
        (IsTooMany (arcs_of_network rows.now) forest.now (length rows.now)) }
{
    let mut table = Vec::new(alloc);
    let mut total: usize = 0;
    for (i, row) in rows.iter().enumerate() {
        if is_kept(forest, row, i + 1) {
            continue;
        }
        let walk = walk_back(alloc, rows, forest, i + 1)?;
        total += walk.len();
        if total > MOST_SIGNED_ROWS {
            return Err(NetRefusal::TableTooLarge);
        }
        table.push(Walk::new(walk))?;
    }
    Ok(table)
}

/// The rows of the forest.
pub fn forest_rows(alloc: Global, events: usize, forest: &Forest) -> Result<Vec<u32>, AllocError>
    requires { (arcs : List Arc) × IsForest events arcs forest.now }
    ensures { IfOk result (λ found. AreTreeRows events forest.now found.items) }
{
    let mut found = Vec::new(alloc);
    for event in 0..events {
        let row = forest.by[event];
        if row == 0 {
            continue;
        }
        found.push(row as u32)?;
    }
    Ok(found)
}
