//! The judge of one lemma, by its lines one after another.

ghost use Rattle.std.specs.Prelude.{◌≡◌, ◌+◌, ◌<◌, ◌≤◌, ◌^◌, ℕ, [], List, ◌∷◌, ◌++◌, length, All, true, false, is_some, get_or, IfOk, OnOk, MatchOption, MatchResult};
ghost use Rattle.std.specs.Option.{ForSome};
ghost use Rattle.pesp_problem.specs.declared.limits.TheConstants.{MOST_CYCLES, MOST_SIGNED_ROWS};
ghost use Rattle.pesp_problem.specs.Arcs.{arcs_of};
ghost use Rattle.pesp_problem.specs.Walks.{Names, RowExists};
ghost use Rattle.pesp_problem.specs.Nodes.{cycle_at};
ghost use Rattle.pesp_problem.specs.Nets.{AreZeros, AreSmallCounts};
ghost use Rattle.pesp_problem.specs.Terms.{number_at};
ghost use Rattle.pesp_truth.specs.declared.tree.TreeLine.TheVariants as lines;
ghost use Rattle.pesp_truth.specs.Trees.{line_of};
ghost use Rattle.pesp_judges.specs.Pending.{Standing};
ghost use Rattle.pesp_judges.specs.Faults.{IsCycleFault};
ghost use Rattle.pesp_judges.specs.SaidLines.{line_said, KeepsSaidLimits};
ghost use Rattle.pesp_truth.specs.Lemmas.{Lemma as SpecLemma, NamesRows, weight_at};
ghost use Rattle.pesp_truth.specs.Shown.{LemmaProof};
ghost use Rattle.pesp_leaves.specs.Taken.{HaveRows, AreSmallWeights};

use crate::marked_walks::judge_walks;
use crate::node_walk::NodeWalk;
use crate::refusal::Refusal;
use crate::table::root;
use crate::tree::{SaidLine, take_line};
use crate::walks::judge_cycle;
use crate::weights::{are_rows, weights_by_row};
use pesp_leaves::{Checker, Claim, Elements, Shown, zeros};
use pesp_problem::{
    Arc, Instance, MOST_CYCLES, MarkedWalk, Memory, Nets, Pair, Rates, SignedRow, no_rates,
};
use pesp_truth::{Lemma, Marks};
use std::alloc::{AllocError, Global};
use std::mem::replace;

/// What is kept of a lemma while its lines come: the line of its rows, the rows with their weights, what the sum is at least, the
/// scale, the marked walks and the net counts of the cycles; for the tree the marked walks, what leaves ask for, and the present
/// node with the way to it.
#[derive(Drop)]
pub struct LemmaJudge<'a> {
    instance: &'a Instance,
    line: u64,
    fact: Lemma,
    least: i64,
    scale: u32,
    walks: Vec<MarkedWalk>,
    table: Vec<Nets>,
    places: Vec<u32>,
    front: Option<Marks>,
    arcs: Vec<Arc>,
    own: Vec<i64>,
    rates: Vec<Rates>,
    walk: Option<NodeWalk<'a>>,
    ghost rows: { All (λ pair. Names (length instance.now.rows) pair.cycle) fact.weights },
    ghost at: { line < 2 ^ 61 },
    ghost few: { length table.items ≤ MOST_CYCLES },
    ghost small: { All (AreSmallCounts (length instance.now.rows)) table.items },
    ghost standing: { ForSome walk (λ w. (w.problem ≡ instance.now)
        × (w.cycles ≡ length table.items)) },
    ghost same: { is_some walk ≡ true → ForSome front (λ _. arcs.items ≡ arcs_of instance.now) },
    ghost exist: { is_some walk ≡ true → ForSome front
        (λ marks. All (λ path. All (λ s. RowExists arcs.items s.signed) path) marks.walks) },
    ghost long: { is_some walk ≡ true → length own.items ≡ length instance.now.rows },
    ghost light: { is_some walk ≡ true → AreSmallWeights own.items },
    ghost placed: { is_some walk ≡ true → (i : ℕ) → i < length own.items
        → number_at own.items i ≡ weight_at fact.weights i },
    ghost wide: { is_some walk ≡ true → length rates.items ≡ length instance.now.rows },
}

/// Adds the net counts of one more cycle.
pub fn add_nets(table: &mut Vec<Nets>, nets: Nets) -> Result<(), AllocError>
    ensures small { (rows : ℕ) → All (AreSmallCounts rows) table.old.items
        → AreSmallCounts rows nets → All (AreSmallCounts rows) table.new.items }
    ensures long { length table.new.items ≤ length table.old.items + 1 }
    ensures items { OnOk result (table.new.items ≡ table.old.items ++ nets ∷ []) }
{
    table.push(nets)?;
    Ok(())
}

impl<'a> LemmaJudge<'a> {
    ghost use Rattle.pesp_judges.specs.Showing.{kept_of_lemma, rows_kept, KeepsLemmaLimits, CyclesShown, LinesShown, ShownTo, LemmaIsTold, first_line};

    /// Its rows came, in this line: they exist, or what is wrong with them.
    pub fn new(
        alloc: Global,
        instance: &'a Instance,
        fact: Lemma,
        line: u64,
    ) -> Result<LemmaJudge<'a>, Refusal>
        requires { line < 2 ^ 61 }
        ensures { MatchResult result
            (λ judge. (judge.instance.now ≡ instance.now) × NamesRows (arcs_of instance.now) fact.weights
            × (kept_of_lemma judge ≡ rows_kept line fact.weights))
            (λ refusal. (refusal ≡ Refusal.NoSuch line) × (NamesRows (arcs_of instance.now) fact.weights → ⊥)) }
    {
        if !are_rows(instance.rows().len(), fact.weights()) {
            return Err(Refusal::NoSuch { line });
        }
        Ok(LemmaJudge {
            instance,
            line,
            fact,
            least: 0,
            scale: 0,
            walks: Vec::new(alloc),
            table: Vec::new(alloc),
            places: Vec::new(alloc),
            front: None,
            arcs: Vec::new(alloc),
            own: Vec::new(alloc),
            rates: Vec::new(alloc),
            walk: None,
        })
    }

    /// Its least sum came.
    pub fn take_least(&mut self, least: i64)
        ensures instance { self.new.instance.now ≡ self.old.instance.now }
        ensures kept { kept_of_lemma self.new ≡ record (kept_of_lemma self.old) { least = least } }
    {
        self.least = least;
    }

    /// The scale of its leaves came.
    pub fn take_scale(&mut self, scale: u32)
        ensures instance { self.new.instance.now ≡ self.old.instance.now }
        ensures kept { kept_of_lemma self.new ≡ record (kept_of_lemma self.old) { scale = scale } }
    {
        self.scale = scale;
    }

    /// A marked walk came. It is judged when all cycles came.
    pub fn take_walk(&mut self, walk: MarkedWalk) -> Result<(), AllocError>
        ensures instance { self.new.instance.now ≡ self.old.instance.now }
        ensures kept { OnOk result (kept_of_lemma self.new ≡ record (kept_of_lemma self.old) { walks = self.old.walks.items ++ walk ∷ [] }) }
    {
        self.walks.push(walk)?;
        Ok(())
    }

    /// A cycle came, in this line: what is wrong with it.
    pub fn take_cycle<R: Elements<SignedRow>>(
        &mut self,
        alloc: Global,
        rows: R,
        line: u64,
        working: &mut [i128],
    ) -> Result<Option<Refusal>, AllocError>
        requires short { length (R.elements rows) ≤ MOST_SIGNED_ROWS }
        requires long { length working.old ≡ length self.old.instance.now.rows }
        requires zeros { AreZeros working.old }
        ensures instance { self.new.instance.now ≡ self.old.instance.now }
        ensures verdict { IfOk result (λ found. (s : LemmaProof) (at k : ℕ) → KeepsLemmaLimits s
            → CyclesShown self.old.instance.now s at (kept_of_lemma self.old) k → k < length s.cycles
            → R.elements rows ≡ cycle_at s.cycles k → line ≡ (at + 2 + length s.marks.walks) + (k + 1)
            → MatchOption found (CyclesShown self.old.instance.now s at (kept_of_lemma self.new) (k + 1))
            (λ refusal. IsCycleFault (arcs_of self.old.instance.now) s.cycles (at + 2 + length s.marks.walks) refusal)) }
        ensures zeros { OnOk result (AreZeros working.new) }
    {
        if self.walk.is_some() || self.table.len() >= MOST_CYCLES {
            return Ok(None);
        }
        let number = self.table.len() as u32 + 1;
        let places = &mut self.places;
        match judge_cycle(alloc, self.instance, rows, number, line, places, working)? {
            Ok(nets) => {
                add_nets(&mut self.table, nets)?;
                Ok(None)
            }
            Err(refusal) => Ok(Some(refusal)),
        }
    }

    /// All cycles came: judges the marked walks, and goes to the root of the tree.
    fn begin_tree(&mut self, alloc: Global, working: &mut [i128]) -> Result<Option<Refusal>, Memory>
        requires before { is_some self.old.walk ≡ false }
        requires long { length working.old ≡ length self.old.instance.now.rows }
        requires zeros { AreZeros working.old }
        ensures instance { self.new.instance.now ≡ self.old.instance.now }
        ensures verdict { IfOk result (λ found. (earlier : List SpecLemma) (s : LemmaProof) (at : ℕ)
            → KeepsLemmaLimits s → CyclesShown self.old.instance.now s at (kept_of_lemma self.old) (length s.cycles)
            → LemmaIsTold self.old.instance.now earlier s at (kept_of_lemma self.new) 0 found) }
        ensures zeros { OnOk result (AreZeros working.new) }
    {
        let walks = replace(&mut self.walks, Vec::new(alloc));
        let Ok(marks) = Marks::new(self.scale, walks) else {
            return Ok(None);
        };
        let cycles = self.table.len();
        let found = judge_walks(alloc, self.instance, cycles, self.line + 2, &marks, working)?;
        if found.is_some() {
            return Ok(found);
        }
        let rows = self.instance.rows().len();
        self.front = Some(marks);
        self.arcs = self.instance.arcs(alloc)?;
        self.own = weights_by_row(alloc, rows, self.fact.weights())?;
        self.rates = no_rates(alloc, rows)?;
        let ranges = root(alloc, self.instance, &self.table)?;
        self.walk = Some(NodeWalk::new(alloc, self.instance, ranges));
        Ok(None)
    }

    /// All cycles came: goes on to the tree, where it has not gone there yet.
    fn end_cycles(&mut self, alloc: Global, working: &mut [i128]) -> Result<Option<Refusal>, Memory>
        requires long { length working.old ≡ length self.old.instance.now.rows }
        requires zeros { AreZeros working.old }
        ensures instance { self.new.instance.now ≡ self.old.instance.now }
        ensures verdict { IfOk result (λ found. (earlier : List SpecLemma) (s : LemmaProof) (at k : ℕ)
            → KeepsLemmaLimits s → ShownTo self.old.instance.now earlier s at (kept_of_lemma self.old) k
            → LemmaIsTold self.old.instance.now earlier s at (kept_of_lemma self.new) k found) }
        ensures zeros { OnOk result (AreZeros working.new) }
    {
        if self.walk.is_some() {
            return Ok(None);
        }
        self.begin_tree(alloc, working)
    }

    /// Judges a line of the tree at the first of the nodes that wait.
    fn judge_line<P: Elements<Pair>>(
        &mut self,
        alloc: Global,
        facts: &[Lemma],
        said: SaidLine<P>,
        line: u64,
        working: &mut [i128],
    ) -> Result<Option<Refusal>, AllocError>
        requires limits { KeepsSaidLimits P.elements said }
        requires rows { HaveRows (length self.old.instance.now.rows) facts.now }
        requires long { length working.old ≡ length self.old.instance.now.rows }
        requires zeros { AreZeros working.old }
        ensures instance { self.new.instance.now ≡ self.old.instance.now }
        ensures verdict { IfOk result (λ found. (s : LemmaProof) (at k : ℕ) (standing : Standing) → KeepsLemmaLimits s
            → LinesShown self.old.instance.now facts.now s at (kept_of_lemma self.old) k standing → k < length s.tree
            → line_said P.elements said ≡ line_of (get_or s.tree k lines.Propagated) → line ≡ first_line s at + k
            → LemmaIsTold self.old.instance.now facts.now s at (kept_of_lemma self.new) (k + 1) found) }
        ensures zeros { OnOk result (AreZeros working.new) }
    {
        let Some(walk) = &mut self.walk else {
            return Ok(None);
        };
        let Some(marks) = &self.front else {
            return Ok(None);
        };
        if walk.is_done() {
            return Ok(None);
        }
        let claim = Claim::Behind(Shown {
            marks,
            facts,
            arcs: &self.arcs,
            weights: &self.own,
            is_cost: false,
            least: Some(self.least),
        });
        let checker = Checker::new(self.instance, &self.table, claim);
        take_line(alloc, &checker, walk, said, line, working, &mut self.rates)
    }

    /// A line of the tree came, in this line of the text: what is wrong with it, or with the marked walks where it is the first.
    /// It may name these lemmas.
    pub fn take_line<P: Elements<Pair>>(
        &mut self,
        alloc: Global,
        facts: &[Lemma],
        said: SaidLine<P>,
        line: u64,
        working: &mut [i128],
    ) -> Result<Option<Refusal>, Memory>
        requires limits { KeepsSaidLimits P.elements said }
        requires rows { HaveRows (length self.old.instance.now.rows) facts.now }
        requires long { length working.old ≡ length self.old.instance.now.rows }
        requires zeros { AreZeros working.old }
        ensures instance { self.new.instance.now ≡ self.old.instance.now }
        ensures verdict { IfOk result (λ found. (s : LemmaProof) (at k : ℕ) → KeepsLemmaLimits s
            → ShownTo self.old.instance.now facts.now s at (kept_of_lemma self.old) k → k < length s.tree
            → line_said P.elements said ≡ line_of (get_or s.tree k lines.Propagated) → line ≡ first_line s at + k
            → LemmaIsTold self.old.instance.now facts.now s at (kept_of_lemma self.new) (k + 1) found) }
        ensures zeros { OnOk result (AreZeros working.new) }
    {
        let found = self.end_cycles(alloc, working)?;
        if found.is_some() {
            return Ok(found);
        }
        Ok(self.judge_line(alloc, facts, said, line, working)?)
    }

    /// The lemma, where all its lines came.
    pub fn into_lemma(self) -> Lemma
        ensures lemma { result ≡ record { weights = self.entry.fact.weights; least = self.entry.least } }
        ensures rows { All (λ pair. Names (length self.entry.instance.now.rows) pair.cycle) result.weights }
    {
        self.fact.with_least(self.least)
    }
}
