//! The marked walks of a front, one after another.

ghost use Rattle.std.specs.Prelude.{◌≡◌, ◌≤◌, length, All, IfOk, IfSome, IsSomeAnd, OnOk, MatchOption};
ghost use Rattle.pesp_problem.specs.declared.limits.TheConstants.{MOST_CYCLES};
ghost use Rattle.pesp_problem.specs.Arcs as instances;
ghost use Rattle.pesp_problem.specs.Nets.{AreZeros};
ghost use Rattle.pesp_problem.specs.Marked.{IsMarkedWalk};
ghost use Rattle.pesp_judges.specs.Faults.{IsMarkFault};

use pesp_judges::{Refusal, judge_walks};
use pesp_problem::Instance;
use pesp_truth::Marks;
use std::alloc::{AllocError, Global};

/// Judges the marked walks of a front, where there is one. It tells the first that isn't closed, or None where each is.
///
/// The fault is `OpenWalk` by the walk's number, which goes on from so many cycles. Where a row of the walk doesn't exist, it is
/// `NoSuch` by the walk's line. The working numbers, one a row, are 0 before and after.
pub fn walks_fault(
    alloc: Global,
    instance: &Instance,
    cycles: usize,
    front: Option<&Marks>,
    working: &mut [i128],
) -> Result<Option<Refusal>, AllocError>
    requires few { cycles ≤ MOST_CYCLES }
    requires long { length working.old ≡ length instance.now.rows }
    requires zeros { AreZeros working.old }
    ensures verdict { IfOk result (λ found. MatchOption found
        (IfSome front.entry (λ marks. All (IsMarkedWalk (instances.arcs_of instance.now)) marks.now.walks))
        (λ refusal. IsSomeAnd front.entry (λ marks. IsMarkFault (instances.arcs_of instance.now) cycles 2 marks.now.walks refusal))) }
    ensures zeros { OnOk result (AreZeros working.new) }
{
    match front {
        None => Ok(None),
        Some(marks) => judge_walks(alloc, instance, cycles, 2, marks, working),
    }
}
