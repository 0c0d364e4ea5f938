//! Answers with a better timetable in the place of their own.

use crate::answers::{answer_beside, labelled};
use crate::best::Best;
use pesp_cert::{Certificate, Front, Fronted, Marks};
use pesp_problem::{Instance, Memory};
use pesp_sharp_trees::{copied_lemmas, copied_lines, copied_marks, copied_walks};
use std::alloc::Global;

/// A certificate with the best timetable in the place of its own.
fn with_times(
    alloc: Global,
    instance: &Instance,
    old: &Certificate,
    best: &Option<Best>,
) -> Result<Option<Certificate>, Memory> {
    let times = labelled(alloc, instance, best)?;
    let cycles = copied_walks(alloc, old.cycles())?;
    let tree = copied_lines(alloc, old.tree())?;
    let answer = answer_beside(old.answer().least(), best);
    Ok(Certificate::new(old.version(), old.period(), answer, times, cycles, tree).ok())
}

/// A copy of a front; None where there is none.
fn copied_front(alloc: Global, front: &Option<Front>) -> Result<Option<Front>, Memory> {
    let Some(front) = front else {
        return Ok(None);
    };
    let marks = front.marks();
    let walks = copied_marks(alloc, marks.walks())?;
    let Ok(marks) = Marks::new(marks.scale(), walks) else {
        return Ok(None);
    };
    match copied_lemmas(alloc, front.lemmas()) {
        Ok(lemmas) => Ok(Front::new(marks, lemmas).ok()),
        Err(refused) => {
            drop(marks);
            Err(refused)
        }
    }
}

/// An answer with the best timetable in the place of its own; None where that isn't cheaper.
pub fn timed_of(
    alloc: Global,
    instance: &Instance,
    old: &Fronted,
    best: &Option<Best>,
) -> Result<Option<Fronted>, Memory> {
    match best {
        Some(found)
            if old
                .certificate
                .answer()
                .cost()
                .is_none_or(|cost| found.cost < cost) => {}
        _ => return Ok(None),
    }
    let Some(certificate) = with_times(alloc, instance, &old.certificate, best)? else {
        return Ok(None);
    };
    match copied_front(alloc, &old.front) {
        Ok(front) => Ok(Some(Fronted { front, certificate })),
        Err(refused) => {
            drop(certificate);
            Err(refused)
        }
    }
}
