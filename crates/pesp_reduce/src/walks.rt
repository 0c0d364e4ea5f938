//! Walks of what is left as walks of the whole network.

ghost use Rattle.std.specs.Prelude.{◌≡◌, ◌≢◌, ◌<◌, length, IfOk, All};
ghost use Rattle.pesp_problem.specs.Walks.{Names, AreRows, Leads, IsWalk, start, finish};
ghost use Rattle.pesp_problem.specs.Forests.{AreJoined, IsSimple};
ghost use Rattle.pesp_network.specs.Networks.{arcs_of_network};
ghost use Rattle.pesp_reduce.specs.LiftedWalks as spec;

use crate::contraction::Contraction;
use pesp_network::{NetRow, Network};
use pesp_problem::{Memory, SignedRow};
use std::alloc::Global;

/// The row from which a signed row of what is left comes.
fn original_row(left: &[NetRow], signed: SignedRow) -> SignedRow
    requires { Names (length left.now) signed.row }
    ensures { result ≡ spec.original_row left.now signed }
{
    SignedRow {
        row: left[signed.row as usize - 1].origin,
        plus: signed.plus,
    }
}

/// The event at which a signed row begins.
fn start_of(rows: &[NetRow], signed: SignedRow) -> u32
    requires { Names (length rows.now) signed.row }
    ensures { result ≡ start (arcs_of_network rows.now) signed }
{
    let row = rows[signed.row as usize - 1];
    if signed.plus { row.tail } else { row.head }
}

/// The event at which a signed row ends.
fn finish_of(rows: &[NetRow], signed: SignedRow) -> u32
    requires { Names (length rows.now) signed.row }
    ensures { result ≡ finish (arcs_of_network rows.now) signed }
{
    let row = rows[signed.row as usize - 1];
    if signed.plus { row.head } else { row.tail }
}

/// The signed row after that at a place, the first after the last.
fn row_after(walk: &[SignedRow], i: usize) -> SignedRow
    requires { i < length walk.now }
    ensures { result ≡ spec.row_after walk.now i }
{
    if i + 1 == walk.len() {
        walk[0]
    } else {
        walk[i + 1]
    }
}

/// A way without loops between events that are joined, with no row twice.
fn between(alloc: Global, tree: &Network, from: u32, to: u32) -> Result<Vec<SignedRow>, Memory>
    requires from { from < tree.now.events }
    requires to { to < tree.now.events }
    requires joined { AreJoined (arcs_of_network tree.now.rows) from to }
    ensures rows { IfOk result (λ way. AreRows (arcs_of_network tree.now.rows) way.items) }
    ensures leads { IfOk result (λ way. Leads (arcs_of_network tree.now.rows) from way.items to) }
    ensures simple { IfOk result (λ way. IsSimple (arcs_of_network tree.now.rows) way.items) }
    ensures end_once { IfOk result
        (λ way. All (λ s. start (arcs_of_network tree.now.rows) s ≢ to) way.items) }
{
    match tree.way(alloc, from, to)? {
        Some(way) => Ok(way),
        None => unreachable!(),
    }
}

/// The walk along the rows from which the rows of a walk come, with contracted rows from the end of one to the start of
/// the next.
pub fn lifted(
    alloc: Global,
    whole: &[NetRow],
    contraction: &Contraction,
    left: &[NetRow],
    walk: &[SignedRow],
) -> Result<Vec<SignedRow>, Memory>
    requires contraction { spec.IsContractionOf whole.now contraction.now }
    requires left { spec.AreLeftOf whole.now contraction.now left.now }
    requires walk { IsWalk (arcs_of_network left.now) walk.now }
    ensures { IfOk result (λ made. spec.IsLiftOf whole.now contraction.now.contracted.items left.now
        walk.now made.items) }
{
    let mut made = Vec::new(alloc);
    for (i, signed) in walk.iter().enumerate() {
        let passed = original_row(left, *signed);
        let next = original_row(left, row_after(walk, i));
        made.push(passed)?;
        let from = finish_of(whole, passed);
        let to = start_of(whole, next);
        let way = between(alloc, &contraction.tree, from, to)?;
        made.extend_from_slice(way.as_slice())?;
    }
    Ok(made)
}
