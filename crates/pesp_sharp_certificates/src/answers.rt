//! What a certificate tells of the best timetable, and of a bound beside it.

use crate::best::Best;
use pesp_cert::Front;
use pesp_offset_tree::{SharpLine, Sharpened};
use pesp_problem::{Instance, Memory};
use pesp_truth::Answer;
use std::alloc::Global;

/// The greatest bound that a certificate tells.
pub(crate) const MOST_BOUND: u64 = 999_999_999_999_999_999;

/// Whether a line shows a bound.
fn shows_bound(line: &SharpLine) -> bool {
    match line {
        SharpLine::Bound(_) => true,
        SharpLine::Kept { bound, .. } => *bound < u64::MAX,
        _ => false,
    }
}

/// The answer of a bound, where there is one, beside the best timetable.
pub(crate) fn answer_beside(least: Option<u64>, best: &Option<Best>) -> Answer {
    match (least, best) {
        (Some(least), None) => Answer::Bounded { least, cost: None },
        (None, None) => Answer::Infeasible,
        (Some(least), Some(best)) if least < best.cost => Answer::Bounded {
            least,
            cost: Some(best.cost),
        },
        (_, Some(best)) => Answer::Optimal(best.cost),
    }
}

/// The answer that a tree shows beside the best timetable.
pub(crate) fn answer_of(sharpened: &Sharpened, best: &Option<Best>) -> Answer {
    let has_bound = sharpened.lines.iter().any(shows_bound);
    let least = sharpened.bound.min(MOST_BOUND);
    answer_beside(has_bound.then_some(least), best)
}

/// The labels of the events with the times of the best timetable; none where there is none.
pub(crate) fn labelled(
    alloc: Global,
    instance: &Instance,
    best: &Option<Best>,
) -> Result<Vec<(i64, u32)>, Memory> {
    let mut labelled = Vec::new(alloc);
    let Some(best) = best else {
        return Ok(labelled);
    };
    for (place, label) in instance.events().iter().enumerate() {
        if let Some(time) = best.times.get(place) {
            labelled.push((*label, *time))?;
        }
    }
    Ok(labelled)
}

/// A front, where it has a walk or a lemma.
pub(crate) fn some_front(front: Front) -> Option<Front> {
    if front.marks().walks().is_empty() && front.lemmas().is_empty() {
        drop(front);
        None
    } else {
        Some(front)
    }
}
