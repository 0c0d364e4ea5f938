//! Whole searches, from their beginning to what they propose in the place of an answer.

use pesp_cert::Fronted;
use pesp_problem::{Instance, Memory};
use pesp_search::{Proposals, SharpWatcher, Sharpener};
use std::alloc::Global;

/// Goes on to the end, and tells what is proposed then.
fn sharpened<F: Sharpener, W: SharpWatcher>(
    alloc: Global,
    instance: &Instance,
    base: &Fronted,
    sharpener: &mut F,
    watcher: &mut W,
) -> Result<Proposals, Memory> {
    sharpener.sharpen(alloc, instance, base, watcher)?;
    sharpener.proposals(alloc, instance, base, base)
}

/// What a search proposes that has begun with a certificate, goes on to its end, and is forgotten then.
pub(crate) fn proposed<F: Sharpener, W: SharpWatcher>(
    alloc: Global,
    instance: &Instance,
    base: &Fronted,
    sharpener: &mut F,
    watcher: &mut W,
) -> Result<Proposals, Memory> {
    let proposals = sharpened(alloc, instance, base, sharpener, watcher);
    sharpener.forget();
    proposals
}
