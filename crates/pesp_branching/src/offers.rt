//! Times that are offered: before the first step, and after a step. What finds times is asked for nowhere else.

ghost use Rattle.std.specs.Prelude.{◌≡◌, ℕ, length, IfOk, IfSome, OnOk};
ghost use Rattle.pesp_problem.specs.NetTimetables.{IsNetTimetable};
ghost use Rattle.pesp_network.specs.Networks.{net_of_network};
ghost use Rattle.pesp_branching.specs.Turns.{IsWorked};
ghost use Rattle.pesp_branching.specs.Offering.{OffersSome, MayOffer, OffersFirst};

use crate::settings::{
    BATCHES, BATCHES_OF_MANY_ROWS, BATCHES_OF_MORE_ROWS, FEW_ROWS, MET_ROUNDS, MORE_ROWS,
};
use crate::turn::times_are_offered;
use pesp_board::Board;
use pesp_forest::TimesFinder;
use pesp_network::Network;
use pesp_problem::Memory;
use pesp_reduce::Reduced;
use pesp_simplex::{Improved, SimplexRefusal, improve};
use std::alloc::Global;

/// Whether times are looked for after so many splits, where so many rows are left.
fn is_due(rows: usize, used: u32) -> bool {
    if rows > MORE_ROWS {
        BATCHES_OF_MANY_ROWS.contains(&used)
    } else if rows > FEW_ROWS {
        BATCHES_OF_MORE_ROWS.contains(&used)
    } else {
        BATCHES.contains(&used)
    }
}

/// Offers times.
fn offer(board: &mut Board, times: Vec<u32>)
    ensures problem { board.new.problem ≡ board.old.problem }
    ensures offers { OffersSome board.old.problem board.old.state board.new.state }
    ensures tree { board.new.state.tree ≡ board.old.state.tree }
    ensures numbers { length board.new.state.numbers ≡ length board.old.state.numbers }
    ensures worked { (used : ℕ) → IsWorked board.old.problem used board.old.state
        → IsWorked board.old.problem used board.new.state }
{
    times_are_offered();
    board.problem().keeps_limits();
    board.offer(times);
}

/// Times that are made cheaper in so many rounds, where they are a timetable of the network.
fn improved(
    alloc: Global,
    network: &Network,
    times: &[u32],
    rounds: u32,
) -> Result<Option<Vec<u32>>, Memory>
    ensures { IfOk result (λ found. IfSome found
        (λ better. IsNetTimetable (net_of_network network.now) network.now.events better.items)) }
{
    match improve(alloc, network, times, rounds) {
        Ok(Improved { times, .. }) => Ok(Some(times)),
        Err(SimplexRefusal::NotFeasible) => Ok(None),
        Err(SimplexRefusal::Memory) => Err(Memory),
    }
}

/// The cheapest times of a finder, lifted to the instance; None where it has none that are a timetable.
fn best_times<F: TimesFinder>(
    alloc: Global,
    reduced: &Reduced,
    finder: &F,
) -> Result<Option<Vec<u32>>, Memory> {
    let Some(times) = finder.best()? else {
        return Ok(None);
    };
    if !reduced.network().is_timetable(&times) {
        return Ok(None);
    }
    Ok(Some(reduced.lift_times(alloc, &times)?))
}

/// Times of the instance that a finder begins with; None says nothing.
fn first_times<F: TimesFinder>(
    alloc: Global,
    reduced: &Reduced,
    finder: &mut F,
) -> Result<Option<Vec<u32>>, Memory> {
    finder.begin()?;
    best_times(alloc, reduced, finder)
}

/// Offers times before the first step: those that are 0 for every event, and then those that are found for what is left of the
/// instance, at which the finder looks, lifted to the instance.
pub fn offer_times<F: TimesFinder>(
    alloc: Global,
    board: &mut Board,
    reduced: &Reduced,
    finder: &mut F,
) -> Result<(), Memory>
    ensures problem { board.new.problem ≡ board.old.problem }
    ensures offers { OnOk result
        (OffersFirst board.old.problem board.old.state board.new.state) }
    ensures tree { board.new.state.tree ≡ board.old.state.tree }
    ensures worked { (used : ℕ) → IsWorked board.old.problem used board.old.state
        → IsWorked board.old.problem used board.new.state }
{
    let events = board.problem().network().events() as usize;
    let zeros = vec![in alloc; 0u32; events]?;
    offer(board, zeros);
    let Some(first) = first_times(alloc, reduced, finder)? else {
        return Ok(());
    };
    offer(board, first);
    Ok(())
}

/// Times that were met with, made cheaper, where they are a timetable of the network.
fn met_times(
    alloc: Global,
    network: &Network,
    met: Option<Vec<u32>>,
) -> Result<Option<Vec<u32>>, Memory>
    ensures { IfOk result (λ found. IfSome found
        (λ better. IsNetTimetable (net_of_network network.now) network.now.events better.items)) }
{
    let Some(times) = met else {
        return Ok(None);
    };
    improved(alloc, network, &times, MET_ROUNDS)
}

/// The cheapest times of a finder that takes these up, and looks for more where they are due after so many splits; lifted to the
/// instance. None where nothing is new.
fn found_times<F: TimesFinder>(
    alloc: Global,
    reduced: &Reduced,
    finder: &mut F,
    met: Option<Vec<u32>>,
    used: u32,
) -> Result<Option<Vec<u32>>, Memory> {
    let is_due = is_due(reduced.network().rows().len(), used);
    let is_new = met.is_some() || is_due;
    if let Some(times) = met {
        finder.take(times)?;
    }
    if is_due {
        finder.go_on(used)?;
    }
    if !is_new {
        return Ok(None);
    }
    best_times(alloc, reduced, finder)
}

/// Times of the instance after so many splits: of those that were met with, and of a finder that looks for times.
fn later_times<F: TimesFinder>(
    alloc: Global,
    reduced: &Reduced,
    finder: &mut F,
    met: Option<Vec<u32>>,
    used: u32,
) -> Result<Option<Vec<u32>>, Memory> {
    let better = met_times(alloc, reduced.network(), met)?;
    if finder.is_looking() {
        return found_times(alloc, reduced, finder, better, used);
    }
    let Some(better) = better else {
        return Ok(None);
    };
    Ok(Some(reduced.lift_times(alloc, &better)?))
}

/// Offers times after so many splits: those that were met with, made cheaper and lifted to the instance, where they are a
/// timetable of what is left of it; and those that a finder which looks at that finds with them, after 128, 256, 512 splits and so
/// on, the more seldom the more rows are left.
pub fn offer_met<F: TimesFinder>(
    alloc: Global,
    board: &mut Board,
    reduced: &Reduced,
    finder: &mut F,
    met: Option<Vec<u32>>,
    used: u32,
) -> Result<(), Memory>
    ensures problem { board.new.problem ≡ board.old.problem }
    ensures offers { OnOk result
        (MayOffer board.old.problem board.old.state board.new.state) }
    ensures tree { board.new.state.tree ≡ board.old.state.tree }
    ensures numbers { length board.new.state.numbers ≡ length board.old.state.numbers }
    ensures worked { (used : ℕ) → IsWorked board.old.problem used board.old.state
        → IsWorked board.old.problem used board.new.state }
{
    let Some(later) = later_times(alloc, reduced, finder, met, used)? else {
        return Ok(());
    };
    offer(board, later);
    Ok(())
}
