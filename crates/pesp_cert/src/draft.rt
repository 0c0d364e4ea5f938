//! The parts of a text while it is read.

ghost use Rattle.std.specs.Prelude.{◌≡◌, OnOk};
ghost use Rattle.pesp_cert.specs.Drafts.{blank, added, added_behind};

use crate::front_draft::FrontDraft;
use crate::shown_lemma::{pairs_of, walk_of};
use pesp_cert_lines::Item;
use pesp_problem::{Memory, Walk};
use pesp_truth::{Answer, TreeLine};
use std::alloc::Global;
use std::marker::Model;

/// What the lines of a text said so far. Lines that were judged may be added in any order; whether they are a whole
/// certificate isn't looked at.
#[derive(Drop)]
pub struct Draft {
    pub version: u32,
    pub period: u32,
    pub answer: Answer,
    pub times: Vec<(i64, u32)>,
    pub cycles: Vec<Walk>,
    pub tree: Vec<TreeLine>,
}

impl Model for Draft {
    ghost use Rattle.pesp_truth.specs.Certificates.{Content};

    ghost Value = { Content };

    ghost view = { λ d. record {
      version = d.version;
      period = d.period;
      answer = d.answer;
      times = d.times.items;
      cycles = d.cycles.items;
      tree = d.tree.items;
    } };
}

impl Draft {
    /// Nothing was said so far.
    pub fn new(alloc: Global) -> Draft
        ensures { result ≡ blank }
    {
        Draft {
            version: 0,
            period: 0,
            answer: Answer::Infeasible,
            times: Vec::new(alloc),
            cycles: Vec::new(alloc),
            tree: Vec::new(alloc),
        }
    }

    /// Adds what the next line says.
    pub fn add(&mut self, alloc: Global, item: Item<'_>) -> Result<(), Memory>
        ensures { OnOk result (self.new ≡ added self.old item.entry) }
    {
        match item {
            Item::Front | Item::Scale(_) | Item::Walk(_) | Item::Lemma(_) | Item::Least(_) => {}
            Item::Version(version) => self.version = version,
            Item::Period(period) => self.period = period,
            Item::Answer(answer) => self.answer = answer,
            Item::Time(label, time) => self.times.push((label, time))?,
            Item::Cycle(rows) => self.cycles.push(walk_of(alloc, rows)?)?,
            Item::Slack { row, k } => self.tree.push(TreeLine::Slack { row, k })?,
            Item::Offset { cycle, k } => self.tree.push(TreeLine::Offset { cycle, k })?,
            Item::Bound(pairs) => self.tree.push(TreeLine::Bound(pairs_of(alloc, pairs)?))?,
            Item::Nothing(pairs) => self.tree.push(TreeLine::Nothing(pairs_of(alloc, pairs)?))?,
            Item::Gap(cycle) => self.tree.push(TreeLine::Gap(cycle))?,
            Item::Propagated => self.tree.push(TreeLine::Propagated)?,
            Item::End => {}
        }
        Ok(())
    }

    /// Adds what the next line says, where it is none that shows a lemma of the front.
    pub(crate) fn add_behind(
        &mut self,
        alloc: Global,
        front: &FrontDraft,
        item: Item<'_>,
    ) -> Result<(), Memory>
        ensures { OnOk result (self.new ≡ added_behind front.now.shown self.old item.entry) }
    {
        if front.shows_lemma() {
            return Ok(());
        }
        self.add(alloc, item)
    }
}
