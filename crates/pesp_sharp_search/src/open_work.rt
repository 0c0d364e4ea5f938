//! Work on open leaves of a certificate.

ghost use Rattle.std.specs.Prelude.{◌≡◌, ◌<◌, ◌↔◌, ◌⊎◌, All, IfOk, IfSome, IsTrue, MatchOption, Some};
ghost use Rattle.pesp_truth.specs.Certificates.{IsValid};
ghost use Rattle.pesp_sharp_work.specs.Jobs.{AreJobsOf};
ghost use Rattle.pesp_sharp_work.specs.Keeping.{KeepsOtherLeaves};
ghost use Rattle.pesp_sharp_search.specs.Keeping.{IsSharpWorked};

use crate::{Leaves, SharpWatcher, Sharpener, resume_leaves};
use pesp_cert::Fronted;
use pesp_problem::{Instance, Memory};
use pesp_sharp_work::{is_open, keeps_others, open_count};
use pesp_whole_check::costs_shown;
use std::alloc::Global;

/// Whether there are jobs of all these numbers, where there are so many.
fn are_jobs(jobs: &[u64], count: u64) -> bool
    ensures { IsTrue result ↔ All (λ job. job < count) jobs.now }
{
    jobs.iter().all(|job| *job < count)
}

/// What the lines show that are open leaves but none of these jobs, of which the numbers rise; None for every other line.
fn spared(
    alloc: Global,
    shown: &[Option<u64>],
    cost: Option<u64>,
    jobs: &[u64],
) -> Result<Vec<Option<u64>>, Memory> {
    let mut spared = Vec::with_capacity(alloc, shown.len())?;
    let mut number = 0u64;
    let mut next = 0usize;
    for line_shows in shown {
        if !is_open(*line_shows, cost) {
            spared.push(None)?;
            continue;
        }
        if jobs.get(next).copied() == Some(number) {
            spared.push(None)?;
            next = next.saturating_add(1);
        } else {
            spared.push(*line_shows)?;
        }
        number = number.saturating_add(1);
    }
    Ok(spared)
}

/// What was found from a base, where it keeps the leaves that weren't to be worked on, else the base.
fn worked(
    alloc: Global,
    instance: &Instance,
    base: Fronted,
    found: Option<Fronted>,
    jobs: &[u64],
    until: Option<u64>,
) -> Result<Fronted, Memory>
    requires base { IsValid base.front instance.now base.content }
    requires found { IfSome found (λ c. IsValid c.front instance.now c.content) }
    ensures { IfOk result (λ c. ((c ≡ base) ⊎ (found ≡ Some c)) × KeepsOtherLeaves instance.now base jobs.now until c) }
{
    let Some(found) = found else {
        return Ok(base);
    };
    match keeps_others(alloc, instance, &base, &found, jobs, until) {
        Ok(true) => {
            drop(base);
            Ok(found)
        }
        Ok(false) => {
            drop(found);
            Ok(base)
        }
        Err(refused) => {
            drop(found);
            drop(base);
            Err(refused)
        }
    }
}

/// Works on open leaves of a valid certificate, by their numbers as jobs, which rise: they are split, that of least value first, and
/// sharpened by marked walks, by at most so many splits of leaves below the bound, where one is named. What comes of it is the whole
/// certificate, and what `resume_sharp` promises of it. Where its answer is open, each other open leaf, and each that is worth as
/// much as the bound, is there at the end of the same path, and shows as much; but for those that aren't below the cost that is
/// known then. None where no more leaves than one of the numbers are open. The one refusal is of memory. A sharpener
/// proposes, and looks for times of what is left of the instance.
pub fn work_sharp<F: Sharpener, W: SharpWatcher>(
    alloc: Global,
    instance: &Instance,
    base: Fronted,
    jobs: &[u64],
    steps: u32,
    until: Option<u64>,
    sharpener: &mut F,
    watcher: &mut W,
) -> Result<Option<Fronted>, Memory>
    requires { IsValid base.front instance.now base.content }
    ensures { IfOk result (λ found. MatchOption found
        (AreJobsOf instance.now base jobs.now → ⊥)
        (λ c. AreJobsOf instance.now base jobs.now × IsSharpWorked instance.now base jobs.now steps until c)) }
{
    let shown = costs_shown(alloc, instance, &base)?;
    let cost = base.certificate.answer().cost();
    if !are_jobs(jobs, open_count(&shown, cost)) {
        return Ok(None);
    }
    let spared = spared(alloc, &shown, cost, jobs)?;
    let leaves = Leaves {
        spared: &spared,
        until,
    };
    let found = resume_leaves(alloc, instance, &base, leaves, steps, sharpener, watcher)?;
    Ok(Some(worked(alloc, instance, base, found, jobs, until)?))
}
