//! Searches that go on from a certificate.

ghost use Rattle.std.specs.Prelude.{IfOk, IfSome};
ghost use Rattle.pesp_truth.specs.Certificates.{IsValid};
ghost use Rattle.pesp_sharp_search.specs.Solving.{IsSharpResumed};

use crate::choice::{branches_of, first_standing};
use crate::whole_search::proposed;
use pesp_cert::Fronted;
use pesp_problem::{Instance, Memory};
use pesp_search::{Leaves, Pace, Proposals, SharpWatcher, Sharpener};
use std::alloc::Global;

/// What is proposed in the place of a certificate whose tree has so many branches, by so many splits of its leaves, or of some of
/// them.
fn proposed_from<F: Sharpener, W: SharpWatcher>(
    alloc: Global,
    instance: &Instance,
    base: &Fronted,
    branches: u32,
    leaves: Option<Leaves<'_>>,
    steps: u32,
    sharpener: &mut F,
    watcher: &mut W,
) -> Result<Proposals, Memory> {
    let pace = Pace::Steps {
        before: branches,
        most: steps,
    };
    sharpener.sharpen_from(alloc, instance, base, leaves, pace)?;
    proposed(alloc, instance, base, sharpener, watcher)
}

/// Goes on from a valid certificate of an instance, with or without marked walks: its open leaves are split, that of least value
/// first, and sharpened by marked walks, until so many were split, none is open below the best cost, or the watcher ends it.
/// A sharpener proposes, and looks for times of what is left of the instance; the watcher is asked after each leaf.
///
/// What comes of it is a certificate that is valid for the instance with its marked walks. Its bound isn't below the base's, and
/// its cost isn't above the base's; none counts as above every number. Its tree has at most so many branches more. Where the
/// root alone shows more than the base, the tree is begun anew. The one refusal is of memory.
pub fn resume_sharp<F: Sharpener, W: SharpWatcher>(
    alloc: Global,
    instance: &Instance,
    base: Fronted,
    steps: u32,
    sharpener: &mut F,
    watcher: &mut W,
) -> Result<Fronted, Memory>
    requires { IsValid base.front instance.now base.content }
    ensures { IfOk result (IsSharpResumed instance.now base steps) }
{
    let answer = base.certificate.answer();
    let branches = branches_of(&base.certificate);
    let most = branches.saturating_add(steps);
    let proposals = proposed_from(
        alloc, instance, &base, branches, None, steps, sharpener, watcher,
    )?;
    match first_standing(alloc, instance, answer, proposals, most)? {
        Some(found) => Ok(found),
        None => Ok(base),
    }
}

/// Goes on from some leaves of a valid certificate's tree in the same way. What is found is what `resume_sharp` promises of what comes
/// of going on, but the tree isn't begun anew; None where nothing is found that may stand in the certificate's place.
pub fn resume_leaves<F: Sharpener, W: SharpWatcher>(
    alloc: Global,
    instance: &Instance,
    base: &Fronted,
    leaves: Leaves<'_>,
    steps: u32,
    sharpener: &mut F,
    watcher: &mut W,
) -> Result<Option<Fronted>, Memory>
    requires { IsValid base.now.front instance.now base.now.content }
    ensures { IfOk result (λ found. IfSome found (IsSharpResumed instance.now base.now steps)) }
{
    let answer = base.certificate.answer();
    let branches = branches_of(&base.certificate);
    let most = branches.saturating_add(steps);
    let chosen = Some(leaves);
    let proposals = proposed_from(
        alloc, instance, base, branches, chosen, steps, sharpener, watcher,
    )?;
    let found = first_standing(alloc, instance, answer, proposals, most)?;
    match found {
        Some(found) => Ok(Some(found)),
        None => Ok(None),
    }
}
