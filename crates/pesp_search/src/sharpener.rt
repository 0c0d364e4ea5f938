//! What proposes certificates that sharpen.

use crate::leaves::Leaves;
use crate::pace::Pace;
use crate::proposals::Proposals;
use crate::standing::SharpWatcher;
use pesp_cert::Fronted;
use pesp_forest::TimesFinder;
use pesp_problem::{Instance, Memory, Share};
use pesp_reduce::Reduced;
use pesp_truth::Answer;
use std::alloc::Global;

/// Somebody who looks for timetables, and proposes certificates whose leaves name marked walks, of one instance at a time. No
/// promise of a search speaks of who proposes: each proposal is judged, and nothing that is done here makes an answer wrong.
pub trait Sharpener: TimesFinder {
    /// From now on it searches from the root, beside a plain answer. What is left of the instance is that of a first look, after
    /// which it looks for times of that.
    fn sharpen_root(
        &mut self,
        alloc: Global,
        instance: &Instance,
        plain: &Fronted,
        reduced: Reduced,
        pace: Pace,
    ) -> Result<(), Memory>;

    /// From now on searches that go on from a certificate search regions alone, those of this share, and look for no times; where
    /// none is named they search all.
    fn take_share(&mut self, share: Option<Share>);

    /// From now on it searches on from a certificate, or from some of its leaves, and looks for times of what is left of the
    /// instance.
    fn sharpen_from(
        &mut self,
        alloc: Global,
        instance: &Instance,
        base: &Fronted,
        leaves: Option<Leaves<'_>>,
        pace: Pace,
    ) -> Result<(), Memory>;

    /// Searches on from the certificate with which it began, until as many leaves were split as may be, nothing is left to be done,
    /// or the watcher ends this piece. Does nothing where no search has begun.
    fn sharpen<W: SharpWatcher>(
        &mut self,
        alloc: Global,
        instance: &Instance,
        base: &Fronted,
        watcher: &mut W,
    ) -> Result<(), Memory>;

    /// What it proposes at a pause in the place of an answer. It began with this certificate.
    fn proposals(
        &self,
        alloc: Global,
        instance: &Instance,
        base: &Fronted,
        old: &Fronted,
    ) -> Result<Proposals, Memory>;

    /// Whether it knows more than an answer tells.
    fn exceeds(&self, answer: Answer) -> bool;

    /// Whether nothing is left to be done: no search has begun, as the answer isn't open, or it is over.
    fn is_sharpened(&self) -> bool;

    /// Forgets the search that has begun.
    fn forget(&mut self);
}
