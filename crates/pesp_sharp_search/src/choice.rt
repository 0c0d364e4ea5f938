//! The choice between a plain answer and what is proposed in its place.

ghost use Rattle.std.specs.Prelude.{◌≡◌, ◌↔◌, ℕ, List, IsTrue, IfOk, IfSome, None};
ghost use Rattle.pesp_truth.specs.Certificates.{lines_of, IsValid};
ghost use Rattle.pesp_branching.specs.Rooms.{branch_lines};
ghost use Rattle.pesp_search.specs.Solving.{CostsNoMore};
ghost use Rattle.pesp_sharp_search.specs.Solving.{IsPlainAnswer, MayStand, StandsWhole, IsSharpSolved};

use crate::branches::count_branches;
use pesp_cert::{Certificate, Fronted};
use pesp_judges::Verdict;
use pesp_problem::{Instance, Memory};
use pesp_search::Proposals;
use pesp_sharp_work::{branches_leave_both, is_no_worse, told_in_full};
use pesp_truth::Answer;
use pesp_whole_check::check_sharp;
use std::alloc::Global;

/// What is known of an instance, and how many branches the tree has that shows it.
#[derive(Drop)]
pub struct SharpSolved {
    pub fronted: Fronted,
    pub steps_used: u32,
}

/// How many branches the tree of a certificate has.
pub(crate) fn branches_of(certificate: &Certificate) -> u32
    ensures { result ≡ branch_lines (lines_of certificate.now) }
{
    count_branches(certificate.tree())
}

/// Whether the checker accepts a certificate.
fn is_accepted(alloc: Global, instance: &Instance, fronted: &Fronted) -> Result<bool, Memory>
    ensures { IfOk result (λ accepted. IsTrue accepted ↔ IsValid fronted.now.front instance.now fronted.now.content) }
{
    match check_sharp(alloc, instance, fronted)? {
        Verdict::Accepted => Ok(true),
        Verdict::Refused(_) => Ok(false),
    }
}

/// Whether a proposal may stand in the place of an answer: it is no worse, its tree has at most so many branches, and the checker
/// accepts it.
fn may_stand(
    alloc: Global,
    instance: &Instance,
    answer: Answer,
    proposal: &Fronted,
    steps: u32,
) -> Result<bool, Memory>
    ensures { IfOk result (λ may. IsTrue may ↔ MayStand instance.now answer steps proposal.now) }
{
    let certificate = &proposal.certificate;
    if !is_no_worse(answer, certificate.answer()) || branches_of(certificate) > steps {
        return Ok(false);
    }
    is_accepted(alloc, instance, proposal)
}

/// A proposal, where there is one and it may stand in the place of an answer.
fn standing(
    alloc: Global,
    instance: &Instance,
    answer: Answer,
    proposal: Option<Fronted>,
    steps: u32,
) -> Result<Option<Fronted>, Memory>
    ensures { IfOk result (λ found. IfSome found (MayStand instance.now answer steps)) }
{
    let Some(proposal) = proposal else {
        return Ok(None);
    };
    if may_stand(alloc, instance, answer, &proposal, steps)? {
        Ok(Some(proposal))
    } else {
        Ok(None)
    }
}

/// The first of the proposals that may stand in the place of an answer; None where none may.
pub(crate) fn first_standing(
    alloc: Global,
    instance: &Instance,
    answer: Answer,
    proposals: Proposals,
    steps: u32,
) -> Result<Option<Fronted>, Memory>
    ensures { IfOk result (λ found. IfSome found (MayStand instance.now answer steps)) }
{
    let Proposals { sharp, timed } = proposals;
    if let Some(found) = standing(alloc, instance, answer, sharp, steps)? {
        return Ok(Some(found));
    }
    standing(alloc, instance, answer, timed, steps)
}

/// An answer without a front.
pub(crate) fn without_front(plain: Certificate) -> Fronted
    ensures { result ≡ record { front = None; content = plain } }
{
    Fronted {
        front: None,
        certificate: plain,
    }
}

/// The same, where each branch of it leaves both of its parts an offset.
fn whole_standing(
    alloc: Global,
    instance: &Instance,
    answer: Answer,
    proposals: Proposals,
    steps: u32,
) -> Result<Option<Fronted>, Memory>
    ensures { IfOk result (λ found. IfSome found (StandsWhole instance.now answer steps)) }
{
    let found = first_standing(alloc, instance, answer, proposals, steps)?;
    let Some(found) = found else {
        return Ok(None);
    };
    match branches_leave_both(alloc, instance, &found.certificate) {
        Ok(true) => Ok(Some(found)),
        Ok(false) => {
            drop(found);
            Ok(None)
        }
        Err(refused) => {
            drop(found);
            Err(refused)
        }
    }
}

/// The first proposal that may stand in the place of a plain answer, where its branches leave both parts an offset, else that
/// answer.
fn chosen(
    alloc: Global,
    instance: &Instance,
    plain: Fronted,
    proposals: Proposals,
    steps: u32,
) -> Result<Fronted, Memory>
    requires { IsPlainAnswer instance.now plain }
    ensures { IfOk result (StandsWhole instance.now plain.content.answer steps) }
{
    let answer = plain.certificate.answer();
    match whole_standing(alloc, instance, answer, proposals, steps)? {
        Some(found) => Ok(found),
        None => Ok(plain),
    }
}

/// What is answered where a plain answer stands and these are proposed in its place.
pub(crate) fn settled(
    alloc: Global,
    instance: &Instance,
    plain: Fronted,
    proposals: Proposals,
    steps: u32,
) -> Result<SharpSolved, Memory>
    requires { IsPlainAnswer instance.now plain }
    ensures solved { IfOk result
        (λ sharp. IsSharpSolved instance.now steps sharp.steps_used sharp.fronted) }
    ensures improved { (times : List ℕ) → CostsNoMore instance.now times plain.content
        → IfOk result (λ sharp. CostsNoMore instance.now times sharp.fronted.content) }
{
    let found = chosen(alloc, instance, plain, proposals, steps)?;
    let fronted = told_in_full(alloc, instance, found)?;
    let steps_used = branches_of(&fronted.certificate);
    Ok(SharpSolved {
        fronted,
        steps_used,
    })
}
