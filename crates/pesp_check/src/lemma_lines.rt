//! The lines of a text that say and show a lemma.

ghost use Rattle.std.specs.Prelude.{◌≡◌, ℕ, ◌+◌, List, [], ◌∷◌, ◌++◌, true, false, length, All, IfOk, OnOk, MatchOption};
ghost use Rattle.pesp_problem.specs.Arcs.{net_of};
ghost use Rattle.pesp_problem.specs.Walks.{Names};
ghost use Rattle.pesp_problem.specs.Nets.{AreZeros};
ghost use Rattle.pesp_truth.specs.Limits.{weights_keep_limits};
ghost use Rattle.pesp_truth.specs.Shown.{LemmaProof};
ghost use Rattle.pesp_leaves.specs.Taken.{HaveRows};
ghost use Rattle.pesp_judges.specs.Faults.{IsLemmaFault};
ghost use Rattle.pesp_judges.specs.Showing.{kept_of_lemma, KeepsLemmaLimits};
ghost use Rattle.pesp_cert_lines.specs.declared.item.Item.{Item as LineItem};
ghost use Rattle.pesp_cert_items.specs.Lent.{item_said, listed, pairs_left_in};
ghost use Rattle.pesp_check.specs.Items as spec;
ghost use Rattle.pesp_check.specs.Items.{KeepsItemLimits, begins_part};
ghost use Rattle.pesp_check.specs.Judging.{LemmaTo};

use crate::elements::RowsLeft;
use crate::marks_draft::walk_of;
use crate::said_line::said_line;
use pesp_cert_items::{Item, LinePairs, TextLine};
use pesp_judges::{LemmaJudge, Refusal};
use pesp_problem::{Memory, Pair};
use pesp_truth::{Lemma, NotLemma};
use std::alloc::{AllocError, Global};

/// Whether the line stands behind a lemma that is whole: it begins the next one, or the certificate's own lines.
pub(crate) fn ends_lemma(line: &TextLine<'_>) -> bool
    ensures { result ≡ spec.ends_lemma (item_said line.now) }
{
    match line {
        TextLine::Lemma(_) => true,
        TextLine::Own(item) => matches!(item, Item::Version(_)),
        TextLine::Front | TextLine::Scale(_) | TextLine::Walk(_) | TextLine::Least(_) => false,
    }
}

/// The pairs of a line.
fn pairs_of(alloc: Global, pairs: LinePairs<'_>) -> Result<Vec<Pair>, AllocError>
    ensures { IfOk result (λ list. list.items ≡ pairs_left_in pairs.entry) }
{
    pairs.collect(alloc)
}

/// The rows of a lemma with their weights, without its least sum.
pub(crate) fn fact_in(alloc: Global, pairs: LinePairs<'_>) -> Result<Lemma, Memory>
    requires { weights_keep_limits (pairs_left_in pairs) ≡ true }
    ensures { IfOk result (λ fact. fact.weights ≡ pairs_left_in pairs.entry) }
{
    let weights = pairs_of(alloc, pairs)?;
    match Lemma::new(weights, 0) {
        Ok(fact) => Ok(fact),
        Err(NotLemma) => unreachable!(),
    }
}

/// Adds a lemma behind others.
pub(crate) fn add_fact(facts: &mut Vec<Lemma>, fact: Lemma) -> Result<(), AllocError>
    ensures rows { (rows : ℕ) → HaveRows rows facts.old.items
        → All (λ pair. Names rows pair.cycle) fact.weights → HaveRows rows facts.new.items }
    ensures items { OnOk result (facts.new.items ≡ facts.old.items ++ fact ∷ []) }
{
    facts.push(fact)?;
    Ok(())
}

/// Takes a cycle, or a line of the tree, of a lemma.
fn show_item(
    alloc: Global,
    lemma: &mut LemmaJudge<'_>,
    facts: &[Lemma],
    item: Item<'_>,
    at: u64,
    working: &mut [i128],
) -> Result<Option<Refusal>, Memory>
    requires limits { KeepsItemLimits (listed item) }
    requires rows { HaveRows (length lemma.old.instance.now.rows) facts.now }
    requires long { length working.old ≡ length lemma.old.instance.now.rows }
    requires zeros { AreZeros working.old }
    ensures instance { lemma.new.instance.now ≡ lemma.old.instance.now }
    ensures shown { IfOk result (λ found. (s : LemmaProof) (first line : ℕ) (rest more : List LineItem) → KeepsLemmaLimits s
        → begins_part more ≡ true → spec.ends_lemma (listed item.entry) ≡ false → at ≡ line + 1
        → LemmaTo lemma.old.instance.now facts.now s first (kept_of_lemma lemma.old) line (listed item.entry ∷ rest) more
        → MatchOption found (LemmaTo lemma.old.instance.now facts.now s first (kept_of_lemma lemma.new) at rest more)
        (λ refusal. IsLemmaFault (net_of lemma.old.instance.now) facts.now s first refusal)) }
    ensures zeros { OnOk result (AreZeros working.new) }
{
    match item {
        Item::Cycle(rows) => Ok(lemma.take_cycle(alloc, RowsLeft(rows), at, working)?),
        Item::Version(_) => Ok(None),
        Item::Period(_) => Ok(None),
        Item::Answer(_) => Ok(None),
        Item::Time(_, _) => Ok(None),
        line => lemma.take_line(alloc, facts, said_line(line), at, working),
    }
}

/// Takes a line of a lemma, which stands in the line `at` of the text: what is wrong with the lemma.
pub(crate) fn show_line(
    alloc: Global,
    lemma: &mut LemmaJudge<'_>,
    facts: &[Lemma],
    line: TextLine<'_>,
    at: u64,
    working: &mut [i128],
) -> Result<Option<Refusal>, Memory>
    requires limits { KeepsItemLimits (item_said line) }
    requires rows { HaveRows (length lemma.old.instance.now.rows) facts.now }
    requires long { length working.old ≡ length lemma.old.instance.now.rows }
    requires zeros { AreZeros working.old }
    ensures instance { lemma.new.instance.now ≡ lemma.old.instance.now }
    ensures shown { IfOk result (λ found. (s : LemmaProof) (first before : ℕ) (rest more : List LineItem) → KeepsLemmaLimits s
        → begins_part more ≡ true → spec.ends_lemma (item_said line.entry) ≡ false → at ≡ before + 1
        → LemmaTo lemma.old.instance.now facts.now s first (kept_of_lemma lemma.old) before (item_said line.entry ∷ rest) more
        → MatchOption found (LemmaTo lemma.old.instance.now facts.now s first (kept_of_lemma lemma.new) at rest more)
        (λ refusal. IsLemmaFault (net_of lemma.old.instance.now) facts.now s first refusal)) }
    ensures zeros { OnOk result (AreZeros working.new) }
{
    match line {
        TextLine::Least(least) => {
            lemma.take_least(least);
            Ok(None)
        }
        TextLine::Scale(scale) => {
            lemma.take_scale(scale);
            Ok(None)
        }
        TextLine::Walk(rows) => {
            let walk = walk_of(alloc, rows)?;
            lemma.take_walk(walk)?;
            Ok(None)
        }
        TextLine::Own(item) => show_item(alloc, lemma, facts, item, at, working),
        TextLine::Front => Ok(None),
        TextLine::Lemma(_) => Ok(None),
    }
}
