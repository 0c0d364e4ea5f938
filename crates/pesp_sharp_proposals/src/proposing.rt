//! Searches that go on piece by piece.

ghost use Rattle.std.specs.Prelude.{◌≡◌};

use crate::proposal::proposals_of;
use crate::search::{Chosen, NextTask, SharpSearch};
use pesp_cert::Fronted;
use pesp_forest::TimesFinder;
use pesp_problem::{Instance, Memory, Share};
use pesp_reduce::{Reduced, reduce};
use pesp_search::{Leaves, Pace, Proposals, SharpWatcher};
use pesp_sharp_certificates::is_open;
use pesp_sharp_trees::{Left, scale_for, scale_over};
use pesp_truth::Answer;
use std::alloc::Global;

/// A search that goes on piece by piece, with what is left of the instance. What it proposes is told between the pieces.
#[derive(Drop)]
pub(crate) struct Proposing {
    reduced: Reduced,
    search: SharpSearch,
}

/// How a search goes on from a certificate: from some of its leaves, where these are named; or with a share of regions alone.
#[derive(Clone, Copy)]
pub(crate) struct ChosenLeaves<'a> {
    pub(crate) leaves: Option<Leaves<'a>>,
    pub(crate) share: Option<Share>,
}

/// The same leaves, to be kept.
fn chosen_of(alloc: Global, leaves: Leaves<'_>) -> Result<Chosen, Memory> {
    Ok(Chosen {
        spared: Vec::from_slice(alloc, leaves.spared)?,
        until: leaves.until,
    })
}

/// A search from the root.
fn from_root(left: Left<'_>, plain: &Fronted, pace: Pace) -> Result<SharpSearch, Memory> {
    let mut search = SharpSearch::new(left, scale_for(left.network), NextTask::Root, pace)?;
    match search.begin_with(left, &plain.certificate) {
        Ok(()) => Ok(search),
        Err(refused) => {
            drop(search);
            Err(refused)
        }
    }
}

/// Readies a search that goes on from a certificate, or from some of its leaves; or that of a share of regions.
fn ready_from<F: TimesFinder>(
    left: Left<'_>,
    base: &Fronted,
    beginning: ChosenLeaves<'_>,
    search: &mut SharpSearch,
    finder: &mut F,
) -> Result<(), Memory>
    requires { left.reduced.now.original ≡ left.instance.now }
{
    if let Some(leaves) = beginning.leaves {
        search.chosen = Some(chosen_of(left.alloc, leaves)?);
    }
    search.begin_with(left, &base.certificate)?;
    match beginning.share {
        Some(share) => search.begin_share(left, base, share),
        None => search.begin_times(left, finder),
    }
}

/// A search that goes on from a certificate, or from some of its leaves.
fn from_base<F: TimesFinder>(
    left: Left<'_>,
    base: &Fronted,
    beginning: ChosenLeaves<'_>,
    pace: Pace,
    finder: &mut F,
) -> Result<SharpSearch, Memory>
    requires { left.reduced.now.original ≡ left.instance.now }
{
    let scale = scale_over(base, left.network);
    let mut search = SharpSearch::new(left, scale, NextTask::Base, pace)?;
    match ready_from(left, base, beginning, &mut search, finder) {
        Ok(()) => Ok(search),
        Err(refused) => {
            drop(search);
            Err(refused)
        }
    }
}

/// A search over what is left of an instance, unless it was refused.
fn owning(
    reduced: Reduced,
    search: Result<SharpSearch, Memory>,
) -> Result<Option<Proposing>, Memory> {
    match search {
        Ok(search) => Ok(Some(Proposing { reduced, search })),
        Err(refused) => {
            drop(reduced);
            Err(refused)
        }
    }
}

impl Proposing {
    /// A search that begins at the root, beside a plain answer; None where that isn't open. What is left of the instance is that of
    /// a first look, and the finder that looked for times of it then is to be handed in while this goes on.
    pub(crate) fn begin(
        alloc: Global,
        instance: &Instance,
        plain: &Fronted,
        reduced: Reduced,
        pace: Pace,
    ) -> Result<Option<Proposing>, Memory> {
        if !is_open(plain.certificate.answer()) {
            drop(reduced);
            return Ok(None);
        }
        let left = Left::of(alloc, instance, &reduced);
        let search = from_root(left, plain, pace);
        owning(reduced, search)
    }

    /// A search that goes on from a certificate, from some of its leaves, or with a share of regions; None where its answer isn't open.
    /// From then on a finder looks for times of what is left of the instance, unless regions alone are searched; it is to be handed in
    /// while this goes on.
    pub(crate) fn begin_from<F: TimesFinder>(
        alloc: Global,
        instance: &Instance,
        base: &Fronted,
        beginning: ChosenLeaves<'_>,
        pace: Pace,
        finder: &mut F,
    ) -> Result<Option<Proposing>, Memory> {
        if !is_open(base.certificate.answer()) {
            return Ok(None);
        }
        let reduced = reduce(alloc, instance)?;
        let left = Left::of(alloc, instance, &reduced);
        let search = from_base(left, base, beginning, pace, finder);
        owning(reduced, search)
    }

    /// Goes on, from the certificate with which it began, until as many leaves were split as may be, nothing is left to be done, or
    /// the watcher ends this piece.
    pub(crate) fn go_on<F: TimesFinder, W: SharpWatcher>(
        &mut self,
        alloc: Global,
        instance: &Instance,
        base: &Fronted,
        finder: &mut F,
        watcher: &mut W,
    ) -> Result<(), Memory> {
        let left = Left::of(alloc, instance, &self.reduced);
        self.search.go_on(left, base, finder, watcher)
    }

    /// What it proposes at a pause in the place of an answer. It began with this certificate.
    pub(crate) fn proposals(
        &self,
        alloc: Global,
        instance: &Instance,
        base: &Fronted,
        old: &Fronted,
    ) -> Result<Proposals, Memory> {
        let left = Left::of(alloc, instance, &self.reduced);
        proposals_of(left, &self.search, base, old)
    }

    /// Whether it knows more than an answer tells.
    pub(crate) fn exceeds(&self, answer: Answer) -> bool {
        self.search.exceeds(answer)
    }

    /// Whether nothing is left to be done.
    pub(crate) fn is_over(&self) -> bool {
        self.search.next == NextTask::Nothing
    }
}
