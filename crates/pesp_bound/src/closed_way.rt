//! The pairs of a closed way: how often it turns each cycle.

ghost use Rattle.std.specs.Prelude.{◌≡◌, ℕ, ◌-◌, ◌<◌, ◌≤◌, length, pos, unsigned_abs, slice_index_or, All, IfOk, MatchBool, ⊤, vec_len};
ghost use Rattle.pesp_problem.specs.declared.limits.TheConstants.{MOST_CYCLES, MOST_ROWS};
ghost use Rattle.pesp_problem.specs.Walks.{Names, net_count};
ghost use Rattle.pesp_problem.specs.Forests.{own_row};
ghost use Rattle.pesp_nodes.specs.Problems.{ArePairs};
ghost use Rattle.pesp_bound.specs.Differences.{walk_along, own_flow, AreCycleMultipliers};

use crate::shifts::own_place;
use pesp_nodes::count_rows;
use pesp_problem::{Pair, SignedRow, Walk};
use std::alloc::{AllocError, Global};

/// The signed rows at these places.
fn walk_along(
    alloc: Global,
    rows: &[SignedRow],
    way: &[usize],
) -> Result<Vec<SignedRow>, AllocError>
    requires { All (λ k. k < length rows.now) way.now }
    ensures { IfOk result (λ v. v.items ≡ walk_along rows.now way.now) }
{
    let mut walk = Vec::new(alloc);
    for k in way {
        walk.push(rows[*k])?;
    }
    Ok(walk)
}

/// How often the way along these rows passes each of so many rows: forward less backward.
pub fn flows_along(
    alloc: Global,
    count: usize,
    rows: &[SignedRow],
    way: &[usize],
) -> Result<Vec<i64>, AllocError>
    requires exist { All (λ s. Names count s.row) rows.now }
    requires places { All (λ k. k < length rows.now) way.now }
    requires short { length way.now ≤ MOST_ROWS }
    ensures long { IfOk result (λ v. vec_len v ≡ count) }
    ensures flows { IfOk result (λ v. (i : ℕ) → i < count
        → slice_index_or v.items i (pos 0) ≡ net_count (walk_along rows.now way.now) i) }
{
    let walk = walk_along(alloc, rows, way)?;
    let mut flows = vec![in alloc; 0i64; count]?;
    count_rows(&walk, &mut flows);
    Ok(flows)
}

/// A cycle with its multiplier.
fn pair_of(cycle: u32, mult: &i64) -> Pair
    ensures cycle { result.cycle ≡ cycle }
    ensures mult { result.mult ≡ mult.now }
{
    Pair { cycle, mult: *mult }
}

/// Whether a flow is 0.
fn is_zero(flow: &i64) -> bool
    ensures { MatchBool result (flow.now ≡ pos 0) (1 ≤ unsigned_abs flow.now) }
{
    *flow == 0
}

/// The cycles with the flows on the rows with which they begin, where these are not 0.
pub fn pairs_of(alloc: Global, table: &[Walk], flows: &[i64]) -> Result<Vec<Pair>, AllocError>
    requires few { length table.now ≤ MOST_CYCLES }
    requires own { All (λ walk. Names (length flows.now) (own_row walk)) table.now }
    requires small { All (λ z. unsigned_abs z ≤ 1000000000000) flows.now }
    ensures pairs { IfOk result (λ v. ArePairs (length table.now) v.items) }
    ensures mults { IfOk result (λ v. AreCycleMultipliers (length table.now)
        (own_flow table.now (λ i. slice_index_or flows.now i (pos 0))) v.items) }
{
    let mut pairs = Vec::new(alloc);
    for c in 0..table.len() {
        let flow = &flows[own_place(&table[c])];
        if is_zero(flow) {
            continue;
        }
        pairs.push(pair_of(c as u32 + 1, flow))?;
    }
    Ok(pairs)
}
