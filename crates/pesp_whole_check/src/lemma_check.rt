//! The lemmas of a front, one after another.

ghost use Rattle.std.specs.Prelude.{◌≡◌, ℕ, ◌+◌, ◌<◌, ◌≤◌, ◌^◌, [], ◌∷◌, ◌++◌, length, true, All, IfOk, IfSome, OnOk, MatchOption, MatchResult};
ghost use Rattle.pesp_problem.specs.declared.limits.TheConstants.{MOST_CYCLES, MOST_LINES, MOST_SIGNED_ROWS};
ghost use Rattle.pesp_problem.specs.Arcs.{arcs_of, net_of};
ghost use Rattle.pesp_problem.specs.Nets.{AreZeros};
ghost use Rattle.pesp_cert.specs.Limits.{is_shown_lemma, are_lemmas, total_rows};
ghost use Rattle.pesp_truth.specs.FrontLimits.{MarksKeepLimits};
ghost use Rattle.pesp_truth.specs.Lemmas.{NamesRows};
ghost use Rattle.pesp_truth.specs.Shown as spec;
ghost use Rattle.pesp_truth.specs.Shown.{LemmaProof, IsShownLemma, AreShownLemmas, lemmas_of};
ghost use Rattle.pesp_truth.specs.Certificates.{front_lines};
ghost use Rattle.pesp_leaves.specs.Taken.{HaveRows};
ghost use Rattle.pesp_judges.specs.declared.refusal.Refusal.TheVariants.{NoSuch};
ghost use Rattle.pesp_judges.specs.Faults.{IsCycleFault, IsFrontFault, IsLemmaFault, IsLemmasFault};
ghost use Rattle.pesp_judges.specs.Lines.{KeepsLineLimits};
ghost use Rattle.pesp_judges.specs.Showing.{kept_of_lemma, KeepsLemmaLimits, CyclesShown, ShownTo, first_line};
ghost use Rattle.pesp_whole_check.specs.Costs.{facts_said};

use pesp_cert::{Front, ShownLemma};
use pesp_judges::{LemmaJudge, Refusal, said_by};
use pesp_problem::{Instance, MarkedRow, MarkedWalk, Memory, Pair, Walk};
use pesp_truth::{Lemma, NotLemma, TreeLine};
use std::alloc::{AllocError, Global};

/// A marked walk again.
fn walk_again(alloc: Global, walk: &MarkedWalk) -> Result<MarkedWalk, Memory>
    ensures { IfOk result (λ again. again ≡ walk.now) }
{
    let rows: Vec<MarkedRow> = walk.rows().iter().copied().collect(alloc)?;
    Ok(MarkedWalk::new(rows))
}

/// Pairs again.
fn pairs_again(alloc: Global, pairs: &[Pair]) -> Result<Vec<Pair>, AllocError>
    ensures { IfOk result (λ again. again.items ≡ pairs.now) }
{
    pairs.iter().copied().collect(alloc)
}

/// The rows of a lemma with their weights, without its least sum.
fn fact_of(alloc: Global, lemma: &ShownLemma) -> Result<Lemma, Memory>
    requires { is_shown_lemma lemma.now ≡ true }
    ensures { IfOk result (λ fact. fact.weights ≡ lemma.now.fact.weights) }
{
    let weights = pairs_again(alloc, &lemma.weights)?;
    match Lemma::new(weights, 0) {
        Ok(fact) => Ok(fact),
        Err(NotLemma) => unreachable!(),
    }
}

/// A lemma of a front as a value.
fn fact_said(alloc: Global, lemma: &ShownLemma) -> Result<Lemma, Memory>
    requires { is_shown_lemma lemma.now ≡ true }
    ensures { IfOk result (λ fact. fact ≡ lemma.now.fact) }
{
    let fact = fact_of(alloc, lemma)?;
    Ok(fact.with_least(lemma.least))
}

/// The lemmas of a front as values.
pub(crate) fn facts_of(alloc: Global, front: &Option<Front>) -> Result<Vec<Lemma>, Memory>
    ensures { IfOk result (λ facts. facts.items ≡ facts_said front.now) }
{
    let mut facts = Vec::new(alloc);
    let Some(front) = front else {
        return Ok(facts);
    };
    for lemma in front.lemmas() {
        let fact = fact_said(alloc, lemma)?;
        facts.push(fact)?;
    }
    Ok(facts)
}

/// What is wrong with the cycles of a lemma, of which the first stands in the line after `line`.
fn cycles_fault(
    alloc: Global,
    judge: &mut LemmaJudge<'_>,
    cycles: &[Walk],
    line: u64,
    working: &mut [i128],
) -> Result<Option<Refusal>, Memory>
    requires few { length cycles.now ≤ MOST_CYCLES }
    requires rows { total_rows cycles.now ≤ MOST_SIGNED_ROWS }
    requires line { line < 2 ^ 62 }
    requires long { length working.old ≡ length judge.old.instance.now.rows }
    requires zeros { AreZeros working.old }
    ensures instance { judge.new.instance.now ≡ judge.old.instance.now }
    ensures verdict { IfOk result (λ found. (s : LemmaProof) (at : ℕ) → KeepsLemmaLimits s → s.cycles ≡ cycles.now
        → line ≡ at + 2 + length s.marks.walks → CyclesShown judge.old.instance.now s at (kept_of_lemma judge.old) 0
        → MatchOption found (CyclesShown judge.old.instance.now s at (kept_of_lemma judge.new) (length s.cycles))
        (λ refusal. IsCycleFault (arcs_of judge.old.instance.now) s.cycles line refusal)) }
    ensures zeros { OnOk result (AreZeros working.new) }
{
    for (place, cycle) in cycles.iter().enumerate() {
        let at = line + place as u64 + 1;
        let found = judge.take_cycle(alloc, cycle.rows(), at, working)?;
        if found.is_some() {
            return Ok(found);
        }
    }
    Ok(None)
}

/// What is wrong with the marked walks or the tree of a lemma; the tree's lines begin with the line `first`.
fn lines_fault(
    alloc: Global,
    judge: &mut LemmaJudge<'_>,
    facts: &[Lemma],
    lines: &[TreeLine],
    first: u64,
    working: &mut [i128],
) -> Result<Option<Refusal>, Memory>
    requires limits { All KeepsLineLimits lines.now }
    requires few { length lines.now ≤ MOST_LINES }
    requires rows { HaveRows (length judge.old.instance.now.rows) facts.now }
    requires first { first < 2 ^ 62 }
    requires long { length working.old ≡ length judge.old.instance.now.rows }
    requires zeros { AreZeros working.old }
    ensures instance { judge.new.instance.now ≡ judge.old.instance.now }
    ensures verdict { IfOk result (λ found. (s : LemmaProof) (at : ℕ) → KeepsLemmaLimits s → s.tree ≡ lines.now
        → first ≡ first_line s at → ShownTo judge.old.instance.now facts.now s at (kept_of_lemma judge.old) 0
        → MatchOption found (ShownTo judge.old.instance.now facts.now s at (kept_of_lemma judge.new) (length s.tree))
        (λ refusal. IsLemmaFault (net_of judge.old.instance.now) facts.now s at refusal)) }
    ensures zeros { OnOk result (AreZeros working.new) }
{
    for (place, tree_line) in lines.iter().enumerate() {
        let at = first + place as u64;
        let found = judge.take_line(alloc, facts, said_by(tree_line), at, working)?;
        if found.is_some() {
            return Ok(found);
        }
    }
    Ok(None)
}

/// The marked walks of a lemma came.
fn take_walks(alloc: Global, judge: &mut LemmaJudge<'_>, walks: &[MarkedWalk]) -> Result<(), Memory>
    ensures instance { judge.new.instance.now ≡ judge.old.instance.now }
    ensures kept { OnOk result (kept_of_lemma judge.new ≡ record (kept_of_lemma judge.old) { walks = (kept_of_lemma judge.old).walks ++ walks.now }) }
{
    for walk in walks {
        let again = walk_again(alloc, walk)?;
        judge.take_walk(again)?;
    }
    Ok(())
}

/// The judge of a lemma of which rows, least sum, scale and marked walks came, where its rows exist.
fn judge_of<'a>(
    alloc: Global,
    instance: &'a Instance,
    lemma: &ShownLemma,
    at: u64,
) -> Result<Result<LemmaJudge<'a>, Refusal>, Memory>
    requires limits { is_shown_lemma lemma.now ≡ true }
    requires line { at < 2 ^ 61 }
    ensures { IfOk result (λ found. MatchResult found
        (λ judge. (judge.instance.now ≡ instance.now) × CyclesShown instance.now lemma.now at (kept_of_lemma judge) 0)
        (λ refusal. (refusal ≡ NoSuch at) × (NamesRows (arcs_of instance.now) lemma.now.fact.weights → ⊥))) }
{
    let fact = fact_of(alloc, lemma)?;
    let mut judge = match LemmaJudge::new(alloc, instance, fact, at) {
        Ok(judge) => judge,
        Err(refusal) => return Ok(Err(refusal)),
    };
    judge.take_least(lemma.least);
    judge.take_scale(lemma.scale);
    match take_walks(alloc, &mut judge, &lemma.walks) {
        Ok(()) => Ok(Ok(judge)),
        Err(refused) => {
            drop(judge);
            Err(refused)
        }
    }
}

/// What is wrong with the cycles, the marked walks or the tree of a lemma.
fn parts_fault(
    alloc: Global,
    judge: &mut LemmaJudge<'_>,
    facts: &[Lemma],
    lemma: &ShownLemma,
    at: u64,
    working: &mut [i128],
) -> Result<Option<Refusal>, Memory>
    requires limits { is_shown_lemma lemma.now ≡ true }
    requires rows { HaveRows (length judge.old.instance.now.rows) facts.now }
    requires line { at < 2 ^ 61 }
    requires begun { CyclesShown judge.old.instance.now lemma.now at (kept_of_lemma judge.old) 0 }
    requires long { length working.old ≡ length judge.old.instance.now.rows }
    requires zeros { AreZeros working.old }
    ensures verdict { IfOk result (λ found. MatchOption found
        (ShownTo judge.old.instance.now facts.now lemma.now at (kept_of_lemma judge.new) (length lemma.now.tree))
        (λ refusal. IsLemmaFault (net_of judge.old.instance.now) facts.now lemma.now at refusal)) }
    ensures zeros { OnOk result (AreZeros working.new) }
{
    let line = at + 2 + lemma.walks.len() as u64;
    let found = cycles_fault(alloc, judge, &lemma.cycles, line, working)?;
    if let Some(refusal) = found {
        return Ok(Some(refusal));
    }
    let first = line + 1 + lemma.cycles.len() as u64;
    lines_fault(alloc, judge, facts, &lemma.tree, first, working)
}

/// The lemma whose rows stand in the line `at`, where it is shown from those before it, or what is wrong with it.
fn judge_lemma(
    alloc: Global,
    instance: &Instance,
    facts: &[Lemma],
    lemma: &ShownLemma,
    at: u64,
    working: &mut [i128],
) -> Result<Result<Lemma, Refusal>, Memory>
    requires limits { is_shown_lemma lemma.now ≡ true }
    requires rows { HaveRows (length instance.now.rows) facts.now }
    requires line { at < 2 ^ 61 }
    requires long { length working.old ≡ length instance.now.rows }
    requires zeros { AreZeros working.old }
    ensures verdict { IfOk result (λ found. MatchResult found
        (λ fact. (fact ≡ lemma.now.fact) × IsShownLemma (net_of instance.now) facts.now lemma.now)
        (λ refusal. IsLemmaFault (net_of instance.now) facts.now lemma.now at refusal)) }
    ensures zeros { OnOk result (AreZeros working.new) }
{
    let mut judge = match judge_of(alloc, instance, lemma, at)? {
        Ok(judge) => judge,
        Err(refusal) => return Ok(Err(refusal)),
    };
    let found = parts_fault(alloc, &mut judge, facts, lemma, at, working);
    let fact = judge.into_lemma();
    match found? {
        None => Ok(Ok(fact)),
        Some(refusal) => Ok(Err(refusal)),
    }
}

/// How many lines say and show a lemma.
fn lemma_lines(lemma: &ShownLemma) -> u64
    requires { is_shown_lemma lemma.now ≡ true }
    ensures value { result ≡ spec.lemma_lines lemma.now }
    ensures few { result ≤ 1200003 }
{
    3 + lemma.walks.len() as u64 + lemma.cycles.len() as u64 + lemma.tree.len() as u64
}

/// The lemmas as values, where each is shown from those before it, or the first fault; the first begins in the line `at`.
fn judge_lemmas(
    alloc: Global,
    instance: &Instance,
    lemmas: &[ShownLemma],
    at: u64,
    working: &mut [i128],
) -> Result<Result<Vec<Lemma>, Refusal>, Memory>
    requires limits { are_lemmas lemmas.now ≡ true }
    requires line { at < 2 ^ 60 }
    requires long { length working.old ≡ length instance.now.rows }
    requires zeros { AreZeros working.old }
    ensures verdict { IfOk result (λ found. MatchResult found
        (λ facts. (facts.items ≡ lemmas_of lemmas.now) × AreShownLemmas (net_of instance.now) [] lemmas.now)
        (λ refusal. IsLemmasFault (net_of instance.now) [] lemmas.now at refusal)) }
    ensures zeros { OnOk result (AreZeros working.new) }
{
    let mut facts = Vec::new(alloc);
    let mut line = at;
    for lemma in lemmas {
        match judge_lemma(alloc, instance, &facts, lemma, line, working)? {
            Ok(fact) => facts.push(fact)?,
            Err(refusal) => return Ok(Err(refusal)),
        }
        line += lemma_lines(lemma);
    }
    Ok(Ok(facts))
}

/// The number of the last line of a front.
pub(crate) fn last_line(front: &Front) -> u64
    ensures value { result ≡ front_lines front.now }
    ensures few { result < 2 ^ 61 }
    ensures keeps { MarksKeepLimits front.now.marks }
{
    let mut lines = 2 + front.marks().walks().len() as u64;
    for lemma in front.lemmas() {
        lines += lemma_lines(lemma);
    }
    lines
}

/// The lemmas of a front, where there is one and each is shown, or the first fault.
pub(crate) fn judge_front(
    alloc: Global,
    instance: &Instance,
    front: &Option<Front>,
    working: &mut [i128],
) -> Result<Result<Vec<Lemma>, Refusal>, Memory>
    requires long { length working.old ≡ length instance.now.rows }
    requires zeros { AreZeros working.old }
    ensures verdict { IfOk result (λ found. MatchResult found
        (λ facts. (facts.items ≡ facts_said front.now)
        × IfSome front.now (λ f. AreShownLemmas (net_of instance.now) [] f.lemmas))
        (λ refusal. IsFrontFault front.now instance.now refusal)) }
    ensures zeros { OnOk result (AreZeros working.new) }
{
    let Some(front) = front else {
        return Ok(Ok(Vec::new(alloc)));
    };
    let at = 3 + front.marks().walks().len() as u64;
    judge_lemmas(alloc, instance, front.lemmas(), at, working)
}
