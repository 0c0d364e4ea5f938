//! Multipliers for a leaf. Nothing is promised of them: a proposal is judged by the value that it has.

ghost use Rattle.pesp_nodes.specs.Problems.{IsNodeOf};

use pesp_forest::Frame;
use pesp_nodes::{Node, Passage, Problem, offset_range};
use pesp_problem::{Memory, Pair, SignedRow, Walk};
use pesp_relaxation::{Basis, PivotEnd, Slopes, slopes_of};
use std::alloc::{AllocError, Global};

/// The greatest multiplier of a pair by amount.
const MOST_MULTIPLIER: i64 = 1_000_000_000_000;

/// What flow costs on a row that no cycle passes: more than prices can bring.
const CLOSED: Slopes = Slopes {
    below: -2_305_843_009_213_693_952,
    between: 2_305_843_009_213_693_952,
    above: 2_305_843_009_213_693_952,
};

/// The row that a cycle alone passes, by its place from 0, and whether it passes it under a plus sign.
#[derive(Clone, Copy)]
struct Own {
    row: u32,
    plus: bool,
}

/// The cycle that alone passes a row, and the sign.
fn owner(passages: &[Passage]) -> Option<(usize, bool)> {
    if passages.len() != 1 {
        return None;
    }
    let only = passages.get(0)?;
    let cycle = (only.cycle as usize).wrapping_sub(1);
    match only.count {
        1 => Some((cycle, true)),
        -1 => Some((cycle, false)),
        _ => None,
    }
}

/// Sets the row of its own of the cycle that alone passes a row.
fn set_own(owns: &mut [Option<Own>], passages: &[Passage], row: u32) -> Option<()> {
    let (cycle, plus) = owner(passages)?;
    *owns.get_mut(cycle)? = Some(Own { row, plus });
    Some(())
}

/// A row of its own for each cycle that has one.
fn own_rows(alloc: Global, problem: &Problem) -> Result<Vec<Option<Own>>, AllocError> {
    let mut owns: Vec<Option<Own>> = vec![in alloc; None; problem.table().len()]?;
    for (place, passages) in problem.passages().iter().enumerate() {
        let row = u32::try_from(place).unwrap_or(u32::MAX);
        let _is_own = set_own(&mut owns, passages.as_slice(), row);
    }
    Ok(owns)
}

/// Marks a cycle's own row.
fn mark_own(is_own: &mut [bool], own: Option<Own>) -> Option<()> {
    *is_own.get_mut(own?.row as usize)? = true;
    Some(())
}

/// Whether each row is a cycle's own.
fn own_marks(alloc: Global, rows: usize, owns: &[Option<Own>]) -> Result<Vec<bool>, AllocError> {
    let mut is_own = vec![in alloc; false; rows]?;
    for own in owns {
        mark_own(&mut is_own, *own);
    }
    Ok(is_own)
}

/// Adds the rows that cycles pass, those of cycles' own or the others.
fn add_rows(
    rows: &mut Vec<u32>,
    problem: &Problem,
    is_own: &[bool],
    wanted: bool,
) -> Result<(), AllocError> {
    for (place, passages) in problem.passages().iter().enumerate() {
        let is_passed = !passages.as_slice().is_empty();
        if is_passed && is_own.get(place).copied() == Some(wanted) {
            rows.push(u32::try_from(place).unwrap_or(u32::MAX))?;
        }
    }
    Ok(())
}

/// The rows that cycles pass, those of cycles' own last.
fn rows_in_order(
    alloc: Global,
    problem: &Problem,
    owns: &[Option<Own>],
) -> Result<Vec<u32>, AllocError> {
    let is_own = own_marks(alloc, problem.arcs().len(), owns)?;
    let mut rows = Vec::new(alloc);
    add_rows(&mut rows, problem, &is_own, false)?;
    add_rows(&mut rows, problem, &is_own, true)?;
    Ok(rows)
}

/// What flow on a row costs by its slack range, and by the offsets of its cycle.
fn cost_of(frame: &Frame, node: &Node, row: u32, offsets: (i64, i64)) -> Option<Slopes> {
    let (one, other) = node.slacks().get(row as usize).copied()?;
    let range = (one.min(other), one.max(other));
    slopes_of(frame.period(), frame.row(row)?, range, offsets)
}

/// Gives rows that cycles pass what their flow costs by their slack ranges, and closes the others.
fn set_slacks(basis: &mut Basis, frame: &Frame, problem: &Problem, node: &Node) -> Option<()> {
    for (place, passages) in problem.passages().iter().enumerate() {
        let row = u32::try_from(place).ok()?;
        let slopes = if passages.as_slice().is_empty() {
            CLOSED
        } else {
            cost_of(frame, node, row, (0, 0))?
        };
        basis.set_slopes(row, slopes)?;
    }
    Some(())
}

/// The offsets of a cycle as its own row counts them: a row that the cycle passes under a minus sign has flow below 0 where
/// the multiplier is above.
fn offsets_by_row(left: (i64, i64), plus: bool) -> Option<(i64, i64)> {
    if plus {
        return Some(left);
    }
    Some((left.1.checked_neg()?, left.0.checked_neg()?))
}

/// Gives the cycles' own rows what their flow costs; None where a cycle has no row of its own.
fn set_offsets(
    basis: &mut Basis,
    frame: &Frame,
    problem: &Problem,
    node: &Node,
    owns: &[Option<Own>],
) -> Option<()>
    requires { IsNodeOf problem.now node.now }
{
    for place in 0..problem.table().len() {
        let own = owns.get(place).copied()??;
        let left = offset_range(problem, node, place as u32 + 1)?;
        let offsets = offsets_by_row(left, own.plus)?;
        basis.set_slopes(own.row, cost_of(frame, node, own.row, offsets)?)?;
    }
    Some(())
}

/// Adds a multiplier to the flows along a walk.
fn add_walk(flows: &mut [i64], walk: &[SignedRow], mult: i64) -> Option<()> {
    for s in walk {
        let flow = flows.get_mut((s.row as usize).wrapping_sub(1))?;
        let sum = if s.plus {
            flow.checked_add(mult)
        } else {
            flow.checked_sub(mult)
        };
        *flow = sum?;
    }
    Some(())
}

/// Adds the flow of a pair.
fn add_pair(flows: &mut [i64], table: &[Walk], pair: &Pair) -> Option<()> {
    let walk = table.get((pair.cycle as usize).wrapping_sub(1))?;
    add_walk(flows, walk.rows(), pair.mult)
}

/// Adds the flow of pairs.
fn add_pairs(flows: &mut [i64], table: &[Walk], pairs: &[Pair]) -> Option<()> {
    for pair in pairs {
        add_pair(flows, table, pair)?;
    }
    Some(())
}

/// Sets the flow on each row.
fn set_flows(basis: &mut Basis, flows: &[i64]) -> Option<()> {
    for (place, flow) in flows.iter().enumerate() {
        basis.set_flow(u32::try_from(place).ok()?, *flow)?;
    }
    Some(())
}

/// The multiplier of a cycle: the flow on its own row, as far as the limit of a multiplier.
fn mult_of(basis: &Basis, own: Option<Own>) -> Option<i64> {
    let own = own?;
    let flow = basis.flow(own.row)?;
    let mult = if own.plus { flow } else { flow.checked_neg()? };
    Some(mult.clamp(-MOST_MULTIPLIER, MOST_MULTIPLIER))
}

/// The cycles whose own rows carry a flow.
fn pairs_of(alloc: Global, owns: &[Option<Own>], basis: &Basis) -> Result<Vec<Pair>, AllocError> {
    let mut pairs = Vec::new(alloc);
    let mut cycle = 0u32;
    for own in owns {
        cycle = cycle.saturating_add(1);
        let mult = mult_of(basis, *own).unwrap_or(0);
        if mult != 0 {
            pairs.push(Pair { cycle, mult })?;
        }
    }
    Ok(pairs)
}

/// Pairs that are proposed for a leaf, whether their value grows without end as they are multiplied, and levels of events
/// that may meet the demands of all rows; none where none were found.
#[derive(Drop)]
pub struct LeafProposal {
    pub pairs: Vec<Pair>,
    pub endless: bool,
    pub levels: Vec<usize>,
}

/// No pairs.
fn nothing_proposed(alloc: Global) -> LeafProposal {
    LeafProposal {
        pairs: Vec::new(alloc),
        endless: false,
        levels: Vec::new(alloc),
    }
}

/// Levels that rise as prices do, the least of them 0.
fn levels_of(alloc: Global, prices: &[i64]) -> Result<Vec<usize>, AllocError> {
    let least = prices.iter().copied().min().unwrap_or(0);
    let mut levels = Vec::with_capacity(alloc, prices.len())?;
    for price in prices {
        let level = usize::try_from(price.saturating_sub(least)).unwrap_or(0);
        levels.push(level)?;
    }
    Ok(levels)
}

/// A circulation of pairs on a problem's rows, with what flow on them costs at a node; None where a cycle has no row of its
/// own, or where numbers would pass 64 bits.
fn circulation_of(
    alloc: Global,
    frame: &Frame,
    problem: &Problem,
    node: &Node,
    owns: &[Option<Own>],
    start: &[Pair],
    weighted: bool,
) -> Result<Option<Basis>, AllocError>
    requires { IsNodeOf problem.now node.now }
{
    let mut basis = Basis::idle(alloc, frame)?;
    if !weighted {
        basis.clear_weights();
    }
    let mut flows = vec![in alloc; 0i64; problem.arcs().len()]?;
    let are_flows = add_pairs(&mut flows, problem.table(), start).is_some()
        && set_flows(&mut basis, &flows).is_some();
    let are_costs = set_slacks(&mut basis, frame, problem, node).is_some()
        && set_offsets(&mut basis, frame, problem, node, owns).is_some();
    let rows = rows_in_order(alloc, problem, owns)?;
    if !are_flows || !are_costs || basis.start(alloc, frame, &rows)?.is_none() {
        return Ok(None);
    }
    Ok(Some(basis))
}

/// The pairs of a circulation where its pivots ended.
fn proposal_of(
    alloc: Global,
    owns: &[Option<Own>],
    basis: &Basis,
    ended: PivotEnd,
) -> Result<LeafProposal, AllocError> {
    let endless = ended == PivotEnd::Endless;
    Ok(LeafProposal {
        pairs: pairs_of(alloc, owns, basis)?,
        endless,
        levels: if endless {
            Vec::new(alloc)
        } else {
            levels_of(alloc, basis.prices())?
        },
    })
}

/// Pairs for a leaf, found from pairs by so many pivots of their circulation.
pub fn propose(
    alloc: Global,
    problem: &Problem,
    node: &Node,
    start: &[Pair],
    weighted: bool,
    rounds: u32,
) -> Result<LeafProposal, Memory>
    requires { IsNodeOf problem.now node.now }
{
    let frame = Frame::new(alloc, problem.network())?;
    let owns = own_rows(alloc, problem)?;
    let circulation = circulation_of(alloc, &frame, problem, node, &owns, start, weighted)?;
    let Some(mut basis) = circulation else {
        return Ok(nothing_proposed(alloc));
    };
    let ended = basis.solve(&frame, rounds);
    Ok(proposal_of(alloc, &owns, &basis, ended)?)
}
