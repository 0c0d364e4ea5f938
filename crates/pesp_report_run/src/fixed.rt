//! The text of an instance in which events are fixed.

ghost use Rattle.std.specs.Prelude.{IfOk, string_bytes};
ghost use Rattle.pesp_report_run.specs.Fixed.{IsText};

use crate::judge::is_text;
use pesp_fixed::{FixRefusal, Wanted, text_that_holds};
use pesp_problem::Instance;
use pesp_report::Names;
use std::alloc::Global;

/// The text of an instance, one activity a line, with activities in front that hold what is wanted: each leads from the clock, an
/// event of its own, with the wanted time for both bounds and weight 0. So in each timetable of it such an event stands at
/// that time of the clock, and where the clock stands at 0, at that very time.
///
/// The first word that can't be had is told, events before lines. `TooLarge` where the text is no instance any more, since it
/// has too many activities, events or bytes.
pub fn fixed_text(
    alloc: Global,
    instance: &Instance,
    times: &[u32],
    names: Option<&Names>,
    wanted: Wanted<'_>,
) -> Result<String, FixRefusal>
    ensures { IfOk result (λ text. IsText instance.now (string_bytes text)) }
{
    let text = text_that_holds(alloc, instance, times, names, wanted)?;
    match is_text(alloc, instance, text.as_bytes()) {
        Ok(true) => Ok(text),
        Ok(false) => Err(FixRefusal::TooLarge),
        Err(_) => Err(FixRefusal::Memory),
    }
}
