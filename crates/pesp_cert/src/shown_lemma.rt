//! A lemma with what shows it.

ghost use Rattle.std.specs.Prelude.{◌≡◌, IfOk, OnOk};
ghost use Rattle.pesp_cert.specs.Drafts.{with_rows, shown_by};

use pesp_cert_lines::{Item, LinePairs, MarkedRows, SignedRows};
use pesp_problem::{MarkedWalk, Memory, Pair, Pairs, Walk};
use pesp_truth::TreeLine;
use std::alloc::Global;
use std::marker::Model;

/// A lemma with what shows it, as the lines of a front say it: rows with their weights, what the sum of weight times slack is at
/// least, and a scale, marked walks, cycles and a tree of its own. Lines that were judged may be added in any order.
#[derive(Drop)]
pub struct ShownLemma {
    pub weights: Vec<Pair>,
    pub least: i64,
    pub scale: u32,
    pub walks: Vec<MarkedWalk>,
    pub cycles: Vec<Walk>,
    pub tree: Vec<TreeLine>,
}

impl Model for ShownLemma {
    ghost use Rattle.pesp_truth.specs.Shown.{LemmaProof};

    ghost Value = { LemmaProof };

    ghost view = { λ s. record {
      fact = record { weights = s.weights.items; least = s.least };
      marks = record { scale = s.scale; walks = s.walks.items };
      cycles = s.cycles.items;
      tree = s.tree.items;
    } };
}

/// The marked walk along these rows.
pub(crate) fn marked_walk_of(alloc: Global, rows: MarkedRows<'_>) -> Result<MarkedWalk, Memory>
    ensures { IfOk result (λ walk. walk ≡ rows.entry) }
{
    let rows = rows.collect(alloc)?;
    Ok(MarkedWalk::new(rows))
}

/// The walk along these rows.
pub(crate) fn walk_of(alloc: Global, rows: SignedRows<'_>) -> Result<Walk, Memory>
    ensures { IfOk result (λ walk. walk ≡ rows.entry) }
{
    let rows = rows.collect(alloc)?;
    Ok(Walk::new(rows))
}

/// The list of these pairs.
pub(crate) fn pairs_of(alloc: Global, pairs: LinePairs<'_>) -> Result<Pairs, Memory>
    ensures { IfOk result (λ list. list ≡ pairs.entry) }
{
    let pairs = pairs.collect(alloc)?;
    Ok(Pairs::new(pairs))
}

impl ShownLemma {
    /// A lemma of which nothing but its rows came.
    pub fn new(alloc: Global, weights: Vec<Pair>) -> ShownLemma
        ensures { result ≡ with_rows weights.items }
    {
        ShownLemma {
            weights,
            least: 0,
            scale: 0,
            walks: Vec::new(alloc),
            cycles: Vec::new(alloc),
            tree: Vec::new(alloc),
        }
    }

    /// Adds what the next line says of the lemma.
    pub(crate) fn add(&mut self, alloc: Global, item: &Item<'_>) -> Result<(), Memory>
        ensures { OnOk result (self.new ≡ shown_by self.old item.now) }
    {
        match item {
            Item::Least(least) => self.least = *least,
            Item::Scale(scale) => self.scale = *scale,
            Item::Walk(rows) => self.walks.push(marked_walk_of(alloc, rows.again())?)?,
            Item::Cycle(rows) => self.cycles.push(walk_of(alloc, rows.again())?)?,
            Item::Slack { row, k } => self.tree.push(TreeLine::Slack { row: *row, k: *k })?,
            Item::Offset { cycle, k } => self.tree.push(TreeLine::Offset {
                cycle: *cycle,
                k: *k,
            })?,
            Item::Bound(pairs) => self
                .tree
                .push(TreeLine::Bound(pairs_of(alloc, pairs.again())?))?,
            Item::Nothing(pairs) => self
                .tree
                .push(TreeLine::Nothing(pairs_of(alloc, pairs.again())?))?,
            Item::Gap(cycle) => self.tree.push(TreeLine::Gap(*cycle))?,
            Item::Propagated => self.tree.push(TreeLine::Propagated)?,
            _ => {}
        }
        Ok(())
    }
}
