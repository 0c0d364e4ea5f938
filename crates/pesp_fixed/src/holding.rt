//! The text of an instance that holds what is wanted.

use crate::clock::clock_of;
use crate::fix_refusal::FixRefusal;
use crate::fixed_events::{Wanted, held_events};
use crate::fixed_lines::add_lines;
use crate::instance_text::text_with;
use pesp_problem::Instance;
use pesp_report::Names;
use std::alloc::Global;

/// The text of an instance, one activity a line behind a heading. Activities in front hold what is wanted: each leads from the
/// clock, with the wanted time for both bounds and weight 0. `times` has a time below the period for each event, in their order. The
/// text is proposed: it may have too many activities, events or bytes for an instance.
///
/// The first word that can't be had is told with its number, events before lines. It is `BadWord`, `NoEvent` or `NotBelowPeriod`
/// for an event, and `NoLine` for a line, also where no names are told. `Memory` where a growth was refused.
pub fn text_that_holds(
    alloc: Global,
    instance: &Instance,
    times: &[u32],
    names: Option<&Names>,
    wanted: Wanted<'_>,
) -> Result<String, FixRefusal> {
    let mut held = held_events(alloc, instance, times, wanted.events)?;
    add_lines(&mut held, instance, times, names, wanted.lines)?;
    let text = text_with(alloc, instance, clock_of(instance, &held), &held)?;
    Ok(text)
}
