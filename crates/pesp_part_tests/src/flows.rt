//! Levels of events, and circulations on rows.

ghost use Rattle.std.specs.Prelude.{◌<◌, ◌≤◌, IsTrue};

use crate::given::Case;
use crate::spelling::tell_list;
use crate::words::{small, whole};
use pesp_bound::{Edge, Outcome, settle};
use pesp_forest::Frame;
use pesp_network::Network;
use pesp_relaxation::{Basis, PivotEnd, Slopes};
use std::alloc::Global;

/// The word at a place, as a size.
fn size(words: &[&str], place: usize) -> Option<usize> {
    usize::try_from(small(words, place)?).ok()
}

/// The edges of the lines `edge START FINISH GAIN LOSS`.
fn edges_of(case: Case<'_>) -> Option<Vec<Edge>> {
    let mut edges = Vec::new(case.alloc);
    for words in &case.all("edge")? {
        edges
            .push(Edge {
                start: size(words, 0)?,
                finish: size(words, 1)?,
                gain: size(words, 2)?,
                loss: size(words, 3)?,
            })
            .ok()?;
    }
    Some(edges)
}

fn is_within(edge: &Edge) -> bool
    ensures { IsTrue result → (edge.now.start < 3) × (edge.now.finish < 3) × (edge.now.gain ≤ 9) }
{
    edge.start < 3 && edge.finish < 3 && edge.gain <= 9
}

/// Tells the least levels of three events.
/// Where a closed way gains, it tells how many edges that has.
pub(crate) fn ask_levels(case: Case<'_>, told: &mut String) -> Option<()> {
    tell_levels(case.alloc, &edges_of(case)?, told)
}

/// Tells the same of edges between these events, of which none gains more than 9.
fn tell_levels(alloc: Global, edges: &[Edge], told: &mut String) -> Option<()> {
    if !edges.iter().all(is_within) {
        return None;
    }
    match settle(alloc, edges, 3, 9).ok()? {
        Outcome::Levels(levels) => tell_list(&levels, told),
        Outcome::Gains(way) => write!(told, " a closed way of {} edges", way.len()).ok(),
    }
}

/// Sets what a unit of flow on a row costs, below, between and above.
/// Sets its flow too.
fn set_row(basis: &mut Basis, row: u32, words: &[&str]) -> Option<()> {
    let slopes = Slopes {
        below: whole(words, 0)?,
        between: whole(words, 1)?,
        above: whole(words, 2)?,
    };
    basis.set_slopes(row, slopes)?;
    basis.set_flow(row, whole(words, 3)?)
}

/// Sets each row by a line `flow BELOW BETWEEN ABOVE FLOW`. How many rows there are.
fn set_rows(case: Case<'_>, basis: &mut Basis) -> Option<u32> {
    let mut count = 0u32;
    for words in &case.all("flow")? {
        set_row(basis, count, words)?;
        count = count.checked_add(1)?;
    }
    Some(count)
}

/// Begins with the costs and the flows of the lines, and with a tree.
/// How many rows there are.
fn start(case: Case<'_>, frame: &Frame, basis: &mut Basis) -> Option<u32> {
    let count = set_rows(case, basis)?;
    let order: Vec<u32> = (0..count).collect(case.alloc).ok()?;
    basis.start(case.alloc, frame, &order).ok()??;
    Some(count)
}

/// Tells the flow of each row.
fn tell_flows(basis: &Basis, count: u32, told: &mut String) -> Option<()> {
    for row in 0..count {
        write!(told, " {}", basis.flow(row)?).ok()?;
    }
    Some(())
}

/// Tells the flows that are found.
/// Or it tells a closed way along which more flow costs less without end.
fn circulate(
    case: Case<'_>,
    frame: &Frame,
    basis: &mut Basis,
    rounds: u32,
    told: &mut String,
) -> Option<()> {
    let count = start(case, frame, basis)?;
    let ended = basis.solve(frame, rounds);
    let name = if ended == PivotEnd::Endless {
        " ray"
    } else {
        " flows"
    };
    told.push_str(name).ok()?;
    tell_flows(basis, count, told)
}

/// Tells what is found on the rows of the network in so many rounds.
pub(crate) fn ask_circulation(case: Case<'_>, network: &Network, told: &mut String) -> Option<()> {
    let rounds = case.number(0)?;
    let frame = Frame::new(case.alloc, network).ok()?;
    let Ok(mut basis) = Basis::idle(case.alloc, &frame) else {
        drop(frame);
        return None;
    };
    let done = circulate(case, &frame, &mut basis, rounds, told);
    drop(frame);
    drop(basis);
    done
}
