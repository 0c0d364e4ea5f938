//! Whether the marked walks are closed.

ghost use Rattle.std.specs.Prelude.{[], ◌∷◌, ◌≡◌, ◌<◌, ◌≤◌, ◌^◌, length, All, IfOk, OnOk, MatchOption};
ghost use Rattle.pesp_problem.specs.declared.limits.TheConstants.{MOST_CYCLES};
ghost use Rattle.pesp_problem.specs.Arcs.{arcs_of};
ghost use Rattle.pesp_problem.specs.Nets.{AreZeros};
ghost use Rattle.pesp_problem.specs.Marked.{signed_rows, IsMarkedWalk};
ghost use Rattle.pesp_judges.specs.Faults.{IsMarkFault};

use crate::refusal::Refusal;
use crate::walks::judge_cycle;
use pesp_leaves::Elements;
use pesp_problem::{Instance, MarkedRow, SignedRow};
use pesp_truth::Marks;
use std::alloc::{AllocError, Global};

/// The rows of a marked walk, without their marks, that are still to come.
#[derive(Clone, Copy)]
struct UnmarkedRows<'a>(&'a [MarkedRow]);

impl<'a> Elements<SignedRow> for UnmarkedRows<'a> {
    ghost elements = { λ rows. signed_rows rows.0.now };

    #[inline]
    fn take_next(&mut self) -> Option<SignedRow> {
        let (first, rest) = self.0.split_first()?;
        self.0 = rest;
        Some(first.signed)
    }
}

/// The first of the marked walks that isn't closed, and why. They are numbered on from the cycles, and the first stands in the
/// line after `line`. The working numbers, one a row, are 0 before and after.
pub fn judge_walks(
    alloc: Global,
    instance: &Instance,
    cycles: usize,
    line: u64,
    marks: &Marks,
    working: &mut [i128],
) -> Result<Option<Refusal>, AllocError>
    requires few { cycles ≤ MOST_CYCLES }
    requires line { line < 2 ^ 62 }
    requires long { length working.old ≡ length instance.now.rows }
    requires zeros { AreZeros working.old }
    ensures verdict { IfOk result (λ found. MatchOption found
        (All (IsMarkedWalk (arcs_of instance.now)) marks.now.walks)
        (λ refusal. IsMarkFault (arcs_of instance.now) cycles line marks.now.walks refusal)) }
    ensures zeros { OnOk result (AreZeros working.new) }
{
    let walks = marks.walks();
    let mut places = Vec::new(alloc);
    for (place, walk) in walks.iter().enumerate() {
        let number = (cycles + place) as u32 + 1;
        let at = line + place as u64 + 1;
        let rows = UnmarkedRows(walk.rows());
        match judge_cycle(alloc, instance, rows, number, at, &mut places, working)? {
            Ok(_nets) => {}
            Err(refusal) => return Ok(Some(refusal)),
        }
    }
    Ok(None)
}
