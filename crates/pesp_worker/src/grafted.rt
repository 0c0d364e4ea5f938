//! Works that are grafted onto a certificate.

ghost use Rattle.std.specs.Prelude.{◌≡◌, [], ◌∷◌, ◌++◌, map, IfOk, OnOk, IsTrue, ◌↔◌, Err, None};
ghost use Rattle.pesp_truth.specs.Certificates.{IsValid};
ghost use Rattle.pesp_tree.specs.declared.refusal.GiveRefusal.TheVariants.{Memory as Refused};
ghost use Rattle.pesp_tree.specs.Certificates.{IsProblemOf, IsCertificateOf};
ghost use Rattle.pesp_worker.specs.Grafts.{OffersShown, TakesWork, TakesWorks, IsGrafted};

use crate::lent::lend_base;
use pesp_board::{Board, GiveRefusal, Work};
use pesp_cert::Certificate;
use pesp_cert_items::WorkText;
use pesp_problem::{Instance, Memory};
use std::alloc::Global;

/// What became of a work: it was taken for its job, or why not.
#[derive(Clone, Copy, PartialEq, Eq)]
pub struct Reply {
    pub job: u64,
    pub given: Result<(), GiveRefusal>,
}

/// A certificate with works grafted onto it, and what became of each of them.
#[derive(Drop)]
pub struct Grafted {
    pub certificate: Certificate,
    pub replies: Vec<Reply>,
}

/// Whether the labels are these events in order.
fn are_labels(shown: &[(i64, u32)], events: &[i64]) -> bool
    ensures { IsTrue result ↔ (map (λ t. t.0) shown.now ≡ events.now) }
{
    if shown.len() != events.len() {
        return false;
    }
    for (place, label) in shown.iter().enumerate() {
        if label.0 != events[place] {
            return false;
        }
    }
    true
}

/// The times without their labels.
fn times_of(alloc: Global, shown: &[(i64, u32)]) -> Result<Vec<u32>, Memory>
    ensures { IfOk result (λ times. times.items ≡ map (λ t. t.1) shown.now) }
{
    Ok(shown.iter().map(|t| t.1).collect(alloc)?)
}

/// Offers the times, where their labels are the events in order.
fn offer_shown(
    alloc: Global,
    events: &[i64],
    board: &mut Board,
    shown: &[(i64, u32)],
) -> Result<(), Memory>
    ensures problem { board.new.problem ≡ board.old.problem }
    ensures offers { OnOk result
        (OffersShown board.old.problem events.now board.old.state shown.now board.new.state) }
{
    if !are_labels(shown, events) {
        return Ok(());
    }
    let times = times_of(alloc, shown)?;
    board.offer(times);
    Ok(())
}

/// A reply that is no refusal of memory.
fn answered(given: Result<(), GiveRefusal>) -> Result<Result<(), GiveRefusal>, Memory>
    ensures same { IfOk result (λ reply. reply ≡ given) }
    ensures answered { IfOk result (λ reply. reply ≡ Err Refused → ⊥) }
{
    match given {
        Err(GiveRefusal::Memory) => Err(Memory),
        Ok(())
        | Err(
            GiveRefusal::UnknownJob
            | GiveRefusal::AlreadyGiven
            | GiveRefusal::NotValid
            | GiveRefusal::TooLarge,
        ) => Ok(given),
    }
}

/// Gives a work, and then offers its times.
fn take_work(
    alloc: Global,
    events: &[i64],
    board: &mut Board,
    work: WorkText,
) -> Result<Reply, Memory>
    ensures problem { board.new.problem ≡ board.old.problem }
    ensures takes { IfOk result (λ reply. TakesWork board.old.problem events.now board.old.state
        work reply board.new.state) }
{
    let WorkText { job, times, tree } = work;
    let given = answered(board.give(alloc, job, &Work::Tree(tree)))?;
    offer_shown(alloc, events, board, &times)?;
    Ok(Reply { job, given })
}

/// Puts a reply behind those before it.
fn keep(replies: &mut Vec<Reply>, reply: Reply) -> Result<(), Memory>
    ensures { OnOk result (replies.new.items ≡ replies.old.items ++ reply ∷ []) }
{
    replies.push(reply)?;
    Ok(())
}

/// Takes works in order; what became of each.
fn take_works(
    alloc: Global,
    events: &[i64],
    board: &mut Board,
    works: Vec<WorkText>,
) -> Result<Vec<Reply>, Memory>
    ensures problem { board.new.problem ≡ board.old.problem }
    ensures takes { IfOk result (λ replies. TakesWorks board.old.problem events.now board.old.state
        works.items replies.items board.new.state) }
{
    let mut replies = Vec::new(alloc);
    for work in works {
        let reply = take_work(alloc, events, board, work)?;
        keep(&mut replies, reply)?;
    }
    Ok(replies)
}

/// Takes works, and certifies what is known then.
fn graft_on(
    alloc: Global,
    instance: &Instance,
    board: &mut Board,
    works: Vec<WorkText>,
) -> Result<Grafted, Memory>
    requires { IsProblemOf instance.now board.old.problem }
    ensures takes { IfOk result (λ grafted. TakesWorks board.old.problem instance.now.events
        board.old.state works.items grafted.replies.items board.new.state) }
    ensures certified { IfOk result (λ grafted. IsCertificateOf board.old.problem
        instance.now.events board.new.state grafted.certificate) }
    ensures valid { IfOk result (λ grafted. IsValid None instance.now grafted.certificate) }
{
    let replies = take_works(alloc, instance.events(), board, works)?;
    let certificate = board.certificate(alloc, instance)?;
    Ok(Grafted {
        certificate,
        replies,
    })
}

/// Grafts works onto a valid certificate, whoever made them: after all open leaves are lent, each work in turn is given for its
/// job, and then, whatever the reply, its times are offered where their labels are the events in order. What comes of it is a
/// valid certificate, whose bound isn't below the base's and whose cost isn't above the base's; and a reply for each work. The
/// one refusal is of memory.
pub fn graft(
    alloc: Global,
    instance: &Instance,
    base: &Certificate,
    works: Vec<WorkText>,
) -> Result<Grafted, Memory>
    requires { IsValid None instance.now base.now }
    ensures { IfOk result (λ grafted. IsGrafted instance.now base.now works.items
        grafted.replies.items grafted.certificate) }
{
    // Both keep their limits.
    instance.events();
    base.answer();
    let mut lent = lend_base(alloc, instance, base)?;
    graft_on(alloc, instance, &mut lent.board, works)
}
