//! What an answer says, and whether it shows what it has to.

ghost use Rattle.std.specs.Prelude.{◌≡◌, ◌↔◌, IsTrue, map, length, IfOk, MatchOption};
ghost use Rattle.pesp_truth.specs.Certificates.{ShowsTimetable, ShowsAnswer};
ghost use Rattle.pesp_judges.specs.Faults.{HasShape, IsTimesFault, IsAnswerFault};
ghost use Rattle.pesp_judges.specs.Faults as spec;

use crate::refusal::Refusal;
use pesp_problem::{Instance, Score, score};
use pesp_truth::Answer;
use std::alloc::{AllocError, Global};

/// Whether no times are shown without a cost, and a least cost is below the cost.
fn has_shape(answer: Answer, times: &[(i64, u32)]) -> bool
    ensures { IsTrue result ↔ HasShape answer (map (λ t. t.1) times.now) }
{
    match answer {
        Answer::Optimal(_) => true,
        Answer::Infeasible => times.is_empty(),
        Answer::Bounded { least, cost } => match cost {
            Some(cost) => least < cost,
            None => times.is_empty(),
        },
    }
}

/// Whether the labels are those of the events in order.
fn are_labels(events: &[i64], times: &[(i64, u32)]) -> bool
    ensures { IsTrue result ↔ (map (λ t. t.0) times.now ≡ events.now) }
{
    if times.len() != events.len() {
        return false;
    }
    for (place, shown) in times.iter().enumerate() {
        if shown.0 != events[place] {
            return false;
        }
    }
    true
}

/// The shown times without their labels.
fn times_of(alloc: Global, times: &[(i64, u32)]) -> Result<Vec<u32>, AllocError>
    ensures { IfOk result (λ v. v.items ≡ map (λ t. t.1) times.now) }
{
    times.iter().map(|shown| shown.1).collect(alloc)
}

/// What is wrong with times that should be a timetable of this cost.
fn judge_times(
    alloc: Global,
    instance: &Instance,
    times: &[(i64, u32)],
    cost: u64,
) -> Result<Option<Refusal>, AllocError>
    ensures { IfOk result (λ found. MatchOption found
        (ShowsTimetable instance.now (map (λ t. t.0) times.now) (map (λ t. t.1) times.now) cost)
        (λ refusal. IsTimesFault instance.now cost (map (λ t. t.0) times.now)
        (map (λ t. t.1) times.now) refusal)) }
{
    if !are_labels(instance.events(), times) {
        return Ok(Some(Refusal::Times));
    }
    let shown = times_of(alloc, times)?;
    match score(instance, &shown) {
        Score::NotTimes => Ok(Some(Refusal::Times)),
        Score::Violates { row, .. } => Ok(Some(Refusal::Violates { row })),
        Score::Feasible { cost: found } => {
            if found == cost {
                Ok(None)
            } else {
                Ok(Some(Refusal::WrongCost))
            }
        }
    }
}

/// The first thing that is wrong with an answer and the times that are shown with it.
pub fn judge_answer(
    alloc: Global,
    instance: &Instance,
    answer: Answer,
    times: &[(i64, u32)],
) -> Result<Option<Refusal>, AllocError>
    ensures { IfOk result (λ found. MatchOption found
        (ShowsAnswer instance.now answer (map (λ t. t.0) times.now) (map (λ t. t.1) times.now))
        (λ refusal. IsAnswerFault instance.now answer (map (λ t. t.0) times.now)
        (map (λ t. t.1) times.now) refusal)) }
{
    if !has_shape(answer, times) {
        return Ok(Some(Refusal::AnswerShape));
    }
    match answer.cost() {
        Some(cost) => judge_times(alloc, instance, times, cost),
        None => Ok(None),
    }
}
