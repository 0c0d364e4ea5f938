//! Whether no shift of a fundamental cut is cheaper.

ghost use Rattle.std.specs.Prelude.{◌≡◌, ℕ, ◌<◌, ◌≤◌, List, IsTrue, length, vec_len};
ghost use Rattle.pesp_problem.specs.declared.limits.TheConstants.{MOST_ROWS};
ghost use Rattle.pesp_propagate.specs.Slacks.{AreSlacksAt};
ghost use Rattle.pesp_propagate.specs.Cuts.{IsCutBest, AreCutsBest};
ghost use Rattle.pesp_problem.specs.Roots.{Roots, AreRoots};
ghost use Rattle.pesp_propagate.specs.Rooted.{roots_of, IsFor};
ghost use Rattle.pesp_propagate.specs.Lists.{AreListed};

use crate::cuts::{Cuts, list};
use crate::numbers::Numbers;
use crate::rooted::Rooted;
use crate::shift::best_shift;
use pesp_problem::Arc;

/// Whether no shift of what hangs below an event is cheaper, by the list of its cut.
fn is_cut_best(
    period: u32,
    arcs: &[Arc],
    slacks: &[u32],
    cuts: &Cuts,
    cut: u32,
    numbers: &mut Numbers,
) -> bool
    requires some { 0 < period }
    ensures { (times : List ℕ) (n : ℕ) (r : Roots) → IsTrue result → cut < n
        → AreSlacksAt period times arcs.now slacks.now → AreListed n arcs.now r (length arcs.now)
        cuts.now → IsCutBest (record { period = period; arcs = arcs.now }) times r cut }
{
    let Some(entries) = list(cuts, cut) else {
        return false;
    };
    let best = best_shift(
        period,
        arcs,
        slacks,
        entries,
        &mut numbers.costs,
        &mut numbers.bars,
    );
    match best {
        Some(amount) => amount == 0,
        None => false,
    }
}

/// Whether no shift of what hangs below any event that is joined upwards is cheaper, by the lists of all cuts.
pub fn are_cuts_best(
    period: u32,
    arcs: &[Arc],
    slacks: &[u32],
    rooted: &Rooted,
    cuts: &Cuts,
    numbers: &mut Numbers,
) -> bool
    requires some { 0 < period }
    requires few { vec_len rooted.now.by ≤ MOST_ROWS }
    ensures { (times : List ℕ) (n : ℕ) → IsTrue result → IsFor n rooted.now
        → AreSlacksAt period times arcs.now slacks.now
        → AreListed n arcs.now (roots_of rooted.now) (length arcs.now) cuts.now
        → AreCutsBest n (record { period = period; arcs = arcs.now }) times (roots_of rooted.now) }
{
    for (cut, by) in rooted.by.iter().enumerate() {
        if *by != 0 && !is_cut_best(period, arcs, slacks, cuts, cut as u32, numbers) {
            return false;
        }
    }
    true
}
