//! Works that are grafted onto a certificate whose leaves may name marked walks.

ghost use Rattle.std.specs.Prelude.{◌≡◌, ◌↔◌, ◌≤◌, ◌^◌, ℕ, List, false, length, IfOk, IfSome, IsTrue};
ghost use Rattle.pesp_problem.specs.Timetables.{Pesp};
ghost use Rattle.pesp_truth.specs.Certificates.{IsValid};
ghost use Rattle.pesp_cert.specs.Fronted.{IsFrontedText};
ghost use Rattle.pesp_sharp_work.specs.Ranks.{IsNoWorse};
ghost use Rattle.pesp_sharp_work.specs.Grafts.{TakesSharpWork, IsSharpGrafted};

use crate::full_answer::told_in_full;
use crate::joined_texts::cut_work;
use crate::ranks::is_no_worse;
use pesp_cert::{CertRefusal, Fronted, parse_fronted};
use pesp_judges::{Refusal, Verdict};
use pesp_problem::{Instance, Memory};
use pesp_sharp_merge::{Merged, ShownCertificate, merge, merge_leaves};
use pesp_whole_check::{check_sharp, costs_shown};
use std::alloc::Global;

/// What became of a work.
#[derive(Clone, Copy, PartialEq, Eq)]
pub enum SharpReply {
    /// What it shows was taken, joined with what stood or alone.
    Taken,
    /// It shows no more than what stood.
    AddsNothing,
    /// Its text is no certificate's.
    Unread(CertRefusal),
    /// It isn't valid.
    NotValid(Refusal),
    /// Nothing comes of both that is valid and no worse than either, as where a part would pass a limit; and what stood has the
    /// better bound and it the better cost, or the other way round.
    TooLarge,
}

/// A certificate with works grafted onto it, and what became of each of them.
#[derive(Drop)]
pub struct SharpGraft {
    pub fronted: Fronted,
    pub replies: Vec<SharpReply>,
}

/// What comes of two valid certificates. It isn't judged yet.
fn joined(
    alloc: Global,
    instance: &Instance,
    stood: &Fronted,
    work: &Fronted,
) -> Result<Merged, Memory>
    requires stood { IsValid stood.now.front instance.now stood.now.content }
    requires work { IsValid work.now.front instance.now work.now.content }
{
    let own = costs_shown(alloc, instance, stood)?;
    let other = costs_shown(alloc, instance, work)?;
    let own = ShownCertificate {
        fronted: stood,
        costs: &own,
    };
    let other = ShownCertificate {
        fronted: work,
        costs: &other,
    };
    merge(alloc, own, other)
}

/// Whether what comes of two certificates is valid and no worse than either.
fn is_better(
    alloc: Global,
    instance: &Instance,
    stood: &Fronted,
    work: &Fronted,
    joined: &Fronted,
) -> Result<bool, Memory>
    ensures { IfOk result (λ better. IsTrue better ↔ IsValid joined.now.front instance.now joined.now.content
        × IsNoWorse stood.now.content.answer joined.now.content.answer
        × IsNoWorse work.now.content.answer joined.now.content.answer) }
{
    let answer = joined.certificate.answer();
    if !is_no_worse(stood.certificate.answer(), answer) {
        return Ok(false);
    }
    if !is_no_worse(work.certificate.answer(), answer) {
        return Ok(false);
    }
    match check_sharp(alloc, instance, joined)? {
        Verdict::Accepted => Ok(true),
        Verdict::Refused(_) => Ok(false),
    }
}

/// Whether what stands is no worse than a work.
fn shows_as_much(stood: &Fronted, work: &Fronted) -> bool
    ensures { IsTrue result ↔ IsNoWorse work.now.content.answer stood.now.content.answer }
{
    is_no_worse(work.certificate.answer(), stood.certificate.answer())
}

/// Puts what comes of a valid certificate and a work in the place of the first, where it is valid and no worse than either;
/// whether it did.
fn take_joined(
    alloc: Global,
    instance: &Instance,
    stood: &mut Fronted,
    work: &Fronted,
) -> Result<bool, Memory>
    requires stood { IsValid stood.old.front instance.now stood.old.content }
    requires work { IsValid work.now.front instance.now work.now.content }
    ensures joined { IfOk result (λ taken. IsTrue taken
        → IsValid stood.new.front instance.now stood.new.content
        × IsNoWorse stood.old.content.answer stood.new.content.answer
        × IsNoWorse work.now.content.answer stood.new.content.answer) }
    ensures kept { IfOk result (λ taken. taken ≡ false → stood.new ≡ stood.old) }
{
    match joined(alloc, instance, stood, work)? {
        Merged::Better(joined) => {
            let better = is_better(alloc, instance, stood, work, &joined)?;
            if better {
                *stood = joined;
            }
            Ok(better)
        }
        Merged::NothingNew | Merged::TooLarge => Ok(false),
    }
}

/// A certificate with the answer that its tree shows, where the checker accepts it; None where it doesn't.
fn judged(alloc: Global, instance: &Instance, found: Fronted) -> Result<Option<Fronted>, Memory>
    ensures { IfOk result (λ told. IfSome told (λ c. IsValid c.front instance.now c.content)) }
{
    match check_sharp(alloc, instance, &found) {
        Ok(Verdict::Accepted) => Ok(Some(told_in_full(alloc, instance, found)?)),
        Ok(Verdict::Refused(_)) => {
            drop(found);
            Ok(None)
        }
        Err(refused) => {
            drop(found);
            Err(refused)
        }
    }
}

/// Puts one leaf that names the lemmas of a valid certificate and of a work in the place of the first, where both are leaves behind
/// lemmas, and it is valid and no worse than either; whether it did.
fn take_lemmas(
    alloc: Global,
    instance: &Instance,
    stood: &mut Fronted,
    work: &Fronted,
) -> Result<bool, Memory>
    ensures joined { IfOk result (λ taken. IsTrue taken
        → IsValid stood.new.front instance.now stood.new.content
        × IsNoWorse stood.old.content.answer stood.new.content.answer
        × IsNoWorse work.now.content.answer stood.new.content.answer) }
    ensures kept { IfOk result (λ taken. taken ≡ false → stood.new ≡ stood.old) }
{
    let Some(found) = merge_leaves(alloc, stood, work)? else {
        return Ok(false);
    };
    let Some(both) = judged(alloc, instance, found)? else {
        return Ok(false);
    };
    if shows_as_much(&both, stood) && shows_as_much(&both, work) {
        *stood = both;
        Ok(true)
    } else {
        drop(both);
        Ok(false)
    }
}

/// Puts what comes of a valid certificate and a work in the place of the first, by their lemmas or by their trees.
fn take_both(
    alloc: Global,
    instance: &Instance,
    stood: &mut Fronted,
    work: &Fronted,
) -> Result<bool, Memory>
    requires stood { IsValid stood.old.front instance.now stood.old.content }
    requires work { IsValid work.now.front instance.now work.now.content }
    ensures joined { IfOk result (λ taken. IsTrue taken
        → IsValid stood.new.front instance.now stood.new.content
        × IsNoWorse stood.old.content.answer stood.new.content.answer
        × IsNoWorse work.now.content.answer stood.new.content.answer) }
    ensures kept { IfOk result (λ taken. taken ≡ false → stood.new ≡ stood.old) }
{
    if take_lemmas(alloc, instance, stood, work)? {
        return Ok(true);
    }
    take_joined(alloc, instance, stood, work)
}

/// Takes a valid work alone in the place of a valid certificate, where it is no worse.
fn take_alone(stood: &mut Fronted, work: Fronted) -> SharpReply
    ensures { (p : Pesp) (text : List ℕ) → IsValid work.front p work.content → IsFrontedText text work
        → TakesSharpWork p stood.old text result stood.new }
{
    if shows_as_much(stood, &work) {
        drop(work);
        return SharpReply::AddsNothing;
    }
    if shows_as_much(&work, stood) {
        *stood = work;
        return SharpReply::Taken;
    }
    drop(work);
    SharpReply::TooLarge
}

/// Grafts a valid certificate onto another one.
fn take_valid(
    alloc: Global,
    instance: &Instance,
    stood: &mut Fronted,
    work: Fronted,
    text: &[u8],
) -> Result<SharpReply, Memory>
    requires stood { IsValid stood.old.front instance.now stood.old.content }
    requires work { IsValid work.front instance.now work.content }
    requires text { IsFrontedText text.now work }
    ensures { IfOk result (λ reply. TakesSharpWork instance.now stood.old text.now reply stood.new) }
{
    match take_both(alloc, instance, stood, &work) {
        Ok(true) => {
            drop(work);
            Ok(SharpReply::Taken)
        }
        Ok(false) => Ok(take_alone(stood, work)),
        Err(refused) => {
            drop(work);
            Err(refused)
        }
    }
}

/// Grafts a work onto a valid certificate, where its text is that of a valid one.
fn take_work(
    alloc: Global,
    instance: &Instance,
    stood: &mut Fronted,
    text: &[u8],
) -> Result<SharpReply, Memory>
    requires short { length text.now ≤ 2 ^ 62 }
    requires stood { IsValid stood.old.front instance.now stood.old.content }
    ensures { IfOk result (λ reply. TakesSharpWork instance.now stood.old text.now reply stood.new) }
{
    let work = match parse_fronted(alloc, text) {
        Ok(work) => work,
        Err(CertRefusal::Memory) => return Err(Memory),
        Err(refusal) => return Ok(SharpReply::Unread(refusal)),
    };
    match check_sharp(alloc, instance, &work)? {
        Verdict::Accepted => take_valid(alloc, instance, stood, work, text),
        Verdict::Refused(refusal) => Ok(SharpReply::NotValid(refusal)),
    }
}

/// Grafts works onto a valid certificate, whoever made them. Each is a whole certificate, and they stand one behind the other: each ends
/// with its first line `end`. What comes of it is a certificate that is valid with its marked walks; its bound isn't below, and
/// its cost isn't above, that of the base and of each work that was taken or adds nothing. The one refusal is of memory.
pub fn graft_sharp(
    alloc: Global,
    instance: &Instance,
    base: Fronted,
    works: &[u8],
) -> Result<SharpGraft, Memory>
    requires short { length works.now ≤ 2 ^ 62 }
    requires valid { IsValid base.front instance.now base.content }
    ensures { IfOk result (λ graft. IsSharpGrafted instance.now base works.now graft.replies.items graft.fronted) }
{
    let mut stood = base;
    let mut replies = Vec::new(alloc);
    let mut rest = works;
    while !rest.is_empty() {
        let (work, more) = cut_work(rest);
        let reply = take_work(alloc, instance, &mut stood, work)?;
        replies.push(reply)?;
        rest = more;
    }
    Ok(SharpGraft {
        fronted: stood,
        replies,
    })
}
