//! What is proposed for a leaf.

use crate::settings::NARROWED_JOBS;
use crate::slack_cut::{Narrowing, narrow};
use pesp_board::{Board, Job};
use pesp_nodes::Node;
use pesp_problem::Memory;
use pesp_reduce::Reduced;
use pesp_strategy::{Advice, Split, Strategy};
use std::alloc::Global;

/// A cut that is proposed: of a cycle's offsets, with pairs for both parts, or of a row's slacks.
#[derive(Drop)]
pub enum Proposal {
    Split(Split),
    Narrowing(Narrowing),
}

/// What is proposed for a leaf: a cut, and times of what is left of the instance that were met with on the way.
#[derive(Drop)]
pub struct Advised {
    pub cut: Option<Proposal>,
    pub met: Option<Vec<u32>>,
}

impl Advised {
    /// Nothing is proposed.
    fn nothing() -> Advised {
        Advised {
            cut: None,
            met: None,
        }
    }
}

/// The slack ranges of the rows that are left.
fn slacks_left(alloc: Global, reduced: &Reduced, node: &Node) -> Result<Vec<(u32, u32)>, Memory> {
    let slacks = node.slacks();
    let mut left = Vec::with_capacity(alloc, reduced.network().rows().len())?;
    for row in reduced.network().rows() {
        let place = (row.origin as usize).wrapping_sub(1);
        left.push(slacks.get(place).copied().unwrap_or((0, 0)))?;
    }
    Ok(left)
}

/// What the strategy proposes for the leaf, at this node: nothing where there is no strategy.
fn ask_strategy(
    alloc: Global,
    strategy: &mut Option<Strategy>,
    board: &Board,
    reduced: &Reduced,
    job: &Job,
    node: &Node,
) -> Result<Advised, Memory> {
    let Some(strategy) = strategy else {
        return Ok(Advised::nothing());
    };
    let Some((_, pairs)) = board.job_leaf(job.number) else {
        return Ok(Advised::nothing());
    };
    let best = board.best().map(i128::from);
    let slacks = slacks_left(alloc, reduced, node)?;
    let looked = strategy.look(alloc, &job.path, &slacks, node.offsets(), pairs, best)?;
    let Some(Advice { cut, times, .. }) = looked else {
        return Ok(Advised::nothing());
    };
    Ok(Advised {
        cut: cut.map(Proposal::Split),
        met: times,
    })
}

/// What is proposed for the leaf that was just lent, at this node: a cut of slacks where propagation shuts
/// one of its parts, as long as no timetable is known and few leaves were lent; else what the strategy proposes.
pub fn ask(
    alloc: Global,
    strategy: &mut Option<Strategy>,
    board: &Board,
    reduced: &Reduced,
    job: &Job,
    node: &Node,
) -> Result<Advised, Memory> {
    if board.best().is_none() && job.number < NARROWED_JOBS {
        if let Some(cut) = narrow(alloc, board.problem().network(), reduced, node)? {
            return Ok(Advised {
                cut: Some(Proposal::Narrowing(cut)),
                met: None,
            });
        }
    }
    ask_strategy(alloc, strategy, board, reduced, job, node)
}
