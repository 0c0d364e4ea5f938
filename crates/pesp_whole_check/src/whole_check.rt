//! The check of a certificate as a whole, without a front and behind one.

ghost use Rattle.std.specs.Prelude.{◌≡◌, ◌↔◌, ◌+◌, ◌^◌, ◌<◌, ◌≤◌, [], length, None, Ok, IfOk, IfSome, MatchOption, option_map, option_copied};
ghost use Rattle.pesp_problem.specs.Arcs.{net_of};
ghost use Rattle.pesp_problem.specs.Limits.{KeepsLimits};
ghost use Rattle.pesp_problem.specs.Nets.{AreZeros, AreNets};
ghost use Rattle.pesp_truth.specs.FrontLimits.{MarksKeepLimits};
ghost use Rattle.pesp_truth.specs.Shown.{AreShownLemmas};
ghost use Rattle.pesp_truth.specs.Truth.{IsTrueAnswer};
ghost use Rattle.pesp_truth.specs.Certificates.{Front as SpecFront, IsValid, shown_times};
ghost use Rattle.pesp_leaves.specs.Taken.{HaveRows};
ghost use Rattle.pesp_judges.specs.Faults as faults;
ghost use Rattle.pesp_judges.specs.Faults.{IsVerdict, IsFirstFault};
ghost use Rattle.pesp_whole_check.specs.Costs.{facts_said};
ghost use Rattle.pesp_whole_check.specs.Inner.{AreClosed, IsSoundTree, IsInnerTreeFault, IsInnerFault};

use crate::front_walks::walks_fault;
use crate::lemma_check::{judge_front, last_line};
use crate::room::{claim_over, room_for};
use pesp_cert::{Certificate, Front, Fronted};
use pesp_judges::{Checker, Nets, Refusal, Verdict, judge_answer, judge_cycles, judge_tree, zeros};
use pesp_problem::{Instance, Memory};
use pesp_truth::laws::valid_is_true;
use pesp_truth::{Lemma, Marks};
use std::alloc::Global;

/// The number in the whole text of a line of the certificate's own.
fn own_line(front: &Option<Front>, line: u64) -> u64
    requires { line < 2 ^ 61 }
    ensures value { result ≡ faults.own_line front.now line }
    ensures few { result < 2 ^ 62 }
    ensures limits { IfSome front.now (λ f. MarksKeepLimits f.marks) }
{
    match front {
        None => line,
        Some(front) => last_line(front) + line,
    }
}

/// The scale and the marked walks of a front, where there is one.
pub(crate) fn marks_of(front: &Option<Front>) -> Option<&Marks>
    ensures { option_copied result ≡ option_map (λ f. f.marks) front.now }
{
    match front {
        None => None,
        Some(front) => Some(front.marks()),
    }
}

/// The first fault of the tree, where all cycles are walks and all marked walks are closed.
fn tree_fault(
    alloc: Global,
    instance: &Instance,
    front: &Option<Front>,
    facts: &[Lemma],
    certificate: &Certificate,
    table: &[Nets],
    working: &mut [i128],
) -> Result<Option<Refusal>, Memory>
    requires facts { facts.now ≡ facts_said front.now }
    requires rows { HaveRows (length instance.now.rows) facts.now }
    requires nets { AreNets (length instance.now.rows) certificate.now.cycles table.now }
    requires closed { AreClosed front.now instance.now }
    requires long { length working.old ≡ length instance.now.rows }
    requires zeros { AreZeros working.old }
    ensures { IfOk result (λ found. MatchOption found (IsSoundTree front.now instance.now certificate.now)
        (λ refusal. IsInnerTreeFault front.now instance.now certificate.now refusal)) }
{
    let own = 4 + certificate.times().len() as u64 + certificate.cycles().len() as u64;
    let first = own_line(front, own);
    let mut room = room_for(alloc, instance, front.is_some())?;
    let least = certificate.answer().least();
    let claim = claim_over(marks_of(front), facts, &room.arcs, &room.weights, least);
    let checker = Checker::new(instance, table, claim);
    let lines = certificate.tree();
    let rates = &mut room.rates;
    Ok(judge_tree(alloc, &checker, lines, first, working, rates)?)
}

/// The first fault of the marked walks, or of the tree, where all cycles are walks.
fn inner_fault(
    alloc: Global,
    instance: &Instance,
    front: &Option<Front>,
    facts: &[Lemma],
    certificate: &Certificate,
    table: &[Nets],
    working: &mut [i128],
) -> Result<Option<Refusal>, Memory>
    requires facts { facts.now ≡ facts_said front.now }
    requires rows { HaveRows (length instance.now.rows) facts.now }
    requires nets { AreNets (length instance.now.rows) certificate.now.cycles table.now }
    requires long { length working.old ≡ length instance.now.rows }
    requires zeros { AreZeros working.old }
    ensures { IfOk result (λ found. MatchOption found
        (AreClosed front.now instance.now × IsSoundTree front.now instance.now certificate.now)
        (λ refusal. IsInnerFault front.now instance.now certificate.now refusal)) }
{
    let cycles = certificate.cycles().len();
    let found = walks_fault(alloc, instance, cycles, marks_of(front), working)?;
    if found.is_some() {
        return Ok(found);
    }
    tree_fault(alloc, instance, front, facts, certificate, table, working)
}

/// The first fault of a certificate's own lines, where the lemmas of its front are shown.
fn own_fault(
    alloc: Global,
    instance: &Instance,
    front: &Option<Front>,
    facts: &[Lemma],
    certificate: &Certificate,
    working: &mut [i128],
) -> Result<Option<Refusal>, Memory>
    requires facts { facts.now ≡ facts_said front.now }
    requires shown { IfSome front.now (λ f. AreShownLemmas (net_of instance.now) [] f.lemmas) }
    requires long { length working.old ≡ length instance.now.rows }
    requires zeros { AreZeros working.old }
    ensures { IfOk result
        (λ found. MatchOption found (IsValid front.now instance.now certificate.now)
        (λ refusal. IsFirstFault front.now instance.now certificate.now refusal)) }
{
    if certificate.period() != instance.period() {
        return Ok(Some(Refusal::OtherPeriod));
    }
    let times = certificate.times();
    let found = judge_answer(alloc, instance, certificate.answer(), times)?;
    if found.is_some() {
        return Ok(found);
    }
    let line = own_line(front, 3 + times.len() as u64);
    match judge_cycles(alloc, instance, certificate.cycles(), line, working)? {
        Ok(table) => inner_fault(alloc, instance, front, facts, certificate, &table, working),
        Err(refusal) => Ok(Some(refusal)),
    }
}

/// The first fault of a certificate.
fn first_fault(
    alloc: Global,
    instance: &Instance,
    front: &Option<Front>,
    certificate: &Certificate,
) -> Result<Option<Refusal>, Memory>
    ensures found { IfOk result
        (λ found. MatchOption found (IsValid front.now instance.now certificate.now)
        (λ refusal. IsFirstFault front.now instance.now certificate.now refusal)) }
    ensures limits { KeepsLimits instance.now }
{
    let mut working = zeros(alloc, instance.rows().len())?;
    match judge_front(alloc, instance, front, &mut working)? {
        Ok(facts) => own_fault(alloc, instance, front, &facts, certificate, &mut working),
        Err(refusal) => Ok(Some(refusal)),
    }
}

/// Judges a certificate behind a front, where there is one.
fn check_behind(
    alloc: Global,
    instance: &Instance,
    front: &Option<Front>,
    certificate: &Certificate,
) -> Result<Verdict, Memory>
    ensures verdict { IfOk result
        (λ verdict. IsVerdict front.now instance.now certificate.now verdict) }
    ensures exactly { IfOk result
        (λ verdict. (verdict ≡ Verdict.Accepted) ↔ IsValid front.now instance.now certificate.now) }
    ensures truth { result ≡ Ok Verdict.Accepted
        → IsTrueAnswer instance.now certificate.now.answer (shown_times certificate.now) }
{
    valid_is_true();
    match first_fault(alloc, instance, front, certificate)? {
        None => Ok(Verdict::Accepted),
        Some(refusal) => Ok(Verdict::Refused(refusal)),
    }
}

/// Judges a certificate without a front, as `check_sharp` does.
pub fn check(
    alloc: Global,
    instance: &Instance,
    certificate: &Certificate,
) -> Result<Verdict, Memory>
    ensures verdict { IfOk result (λ verdict. IsVerdict None instance.now certificate.now verdict) }
    ensures exactly { IfOk result
        (λ verdict. (verdict ≡ Verdict.Accepted) ↔ IsValid None instance.now certificate.now) }
    ensures truth { result ≡ Ok Verdict.Accepted
        → IsTrueAnswer instance.now certificate.now.answer (shown_times certificate.now) }
{
    let none = None;
    check_behind(alloc, instance, &none, certificate)
}

/// Judges a certificate with its front, where it has one, whoever made it: `Accepted` exactly where it is valid for the
/// instance, and then its answer is true of the instance's own activities; else `Refused` with the first thing that is wrong.
/// `Memory` only where a growth was refused.
///
/// It looks at the lemmas of the front in order, of each at its rows, its cycles, its marked walks and its tree, then at the
/// period, the shape of the answer, the shown times, then at the cycles in order, then at the marked walks in
/// order, then at the lines of the tree in order. Lines are those of the text with its front, and a marked walk that isn't
/// closed is told as `OpenWalk` by its number, which goes on from the cycles'. A leaf's work depends on the rows that its
/// cycles and walks pass; one that names marked walks or lemmas takes that of all rows once, and so does one closed by
/// propagation. A branch takes constant work, and no call depth grows with the tree.
pub fn check_sharp(
    alloc: Global,
    instance: &Instance,
    certificate: &Fronted,
) -> Result<Verdict, Memory>
    ensures verdict { IfOk result
        (λ verdict. IsVerdict certificate.now.front instance.now certificate.now.content verdict) }
    ensures exactly { IfOk result (λ verdict. (verdict ≡ Verdict.Accepted)
        ↔ IsValid certificate.now.front instance.now certificate.now.content) }
    ensures truth { result ≡ Ok Verdict.Accepted
        → IsTrueAnswer instance.now certificate.now.content.answer
        (shown_times certificate.now.content) }
{
    check_behind(
        alloc,
        instance,
        &certificate.front,
        &certificate.certificate,
    )
}
