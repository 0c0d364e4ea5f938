//! The best timetable so far.

use pesp_cert::Certificate;
use pesp_problem::{Instance, Memory, Score, score};
use pesp_sharp_trees::Left;
use pesp_truth::Answer;
use std::alloc::Global;

/// The times of a timetable of the instance, one for each event, and their cost.
#[derive(Drop)]
pub struct Best {
    pub times: Vec<u32>,
    pub cost: u64,
}

/// The timetable of an instance that has these times; None where they are none.
fn timetable_of(instance: &Instance, times: Vec<u32>) -> Option<Best> {
    match score(instance, &times) {
        Score::Feasible { cost } => Some(Best { times, cost }),
        _ => None,
    }
}

/// The timetable that a certificate shows, where it shows one.
pub fn shown_by(
    alloc: Global,
    instance: &Instance,
    certificate: &Certificate,
) -> Result<Option<Best>, Memory> {
    let mut times = Vec::new(alloc);
    for (_, time) in certificate.times() {
        times.push(*time)?;
    }
    Ok(timetable_of(instance, times))
}

/// Whether an answer leaves something to be found.
pub fn is_open(answer: Answer) -> bool {
    matches!(answer, Answer::Bounded { .. })
}

/// Whether a cost is below that of the best timetable so far.
fn is_cheaper(cost: u64, best: &Option<Best>) -> bool {
    match best {
        Some(best) => cost < best.cost,
        None => true,
    }
}

/// Takes times of what is left of the instance, where they are a timetable that is cheaper than the best one so far.
pub fn offer(left: Left<'_>, times: &[u32], best: &mut Option<Best>) -> Result<(), Memory> {
    let network = left.reduced.network();
    if !network.is_timetable(times) || !is_cheaper(network.cost_of(times), best) {
        return Ok(());
    }
    let lifted = left.reduced.lift_times(left.alloc, times)?;
    if let Some(found) = timetable_of(left.instance, lifted) {
        *best = Some(found);
    }
    Ok(())
}
