//! All activities that times violate.

ghost use Rattle.std.specs.Prelude.{◌≡◌, ◌<◌, ◌^◌, ◌↔◌, IsTrue, length, option_copied, IfOk, IfErr, OnOk};
ghost use Rattle.std.specs.Io.KnownBytes.{Appends};
ghost use Rattle.pesp_stream.specs.Counts.{FewerThan, HasWorked, DeviceFailed};
ghost use Rattle.pesp_stream.specs.Writing.{AppendsFront};
ghost use Rattle.pesp_problem.specs.Timetables.{AreTimes, IsTimetable};
ghost use Rattle.pesp_report.specs.Naming.{naming_of};
ghost use Rattle.pesp_report.specs.Violations.{violations_of, violations_text, IfWriteFailed, RefusesViolations, UnlessWriteFailed};

use crate::names::Names;
use crate::refusal::ViolationsRefusal;
use crate::violation::violations_of;
use crate::violation_records::text_of_violations;
use pesp_problem::{Instance, Score, score};
use pesp_stream::{Bytes, Sink, print_to};
use std::alloc::Global;

/// Writes all activities that times violate, as records of csv: a header, and in the order of the rows a record for each row
/// whose slack is above its span, with its duration, its bounds, and by how much the slack is above the span; where names are
/// told, with those of its events behind these, each empty where the event has none. Tells how many they are: none exactly
/// where the times are a timetable.
///
/// `NotTimes` where there isn't one time below the period for each event. An interrupted write is repeated, at most 1000
/// times in all. After `Write` a front of the records is written, and after any other refusal nothing.
pub fn violations<W: Sink>(
    alloc: Global,
    instance: &Instance,
    times: &[u32],
    names: Option<&Names>,
    sink: &mut W,
) -> Result<usize, ViolationsRefusal>
    requires fits { FewerThan (2 ^ 63) (W.calls sink.old) }
    ensures times { OnOk result (AreTimes instance.now times.now) }
    ensures refused { IfErr result (RefusesViolations instance.now times.now) }
    ensures count { IfOk result
        (λ count. count ≡ length (violations_of instance.now times.now)) }
    ensures none { IfOk result (λ count. (count ≡ 0) ↔ IsTimetable instance.now times.now) }

    // All records are written at Ok, a front of them where the writer failed, and else nothing.
    ensures text { OnOk result (Appends (W.contents sink.old) (W.contents sink.new)
        (violations_text (naming_of (option_copied names.entry)) (violations_of instance.now times.now))) }
    ensures counts { OnOk result (HasWorked (W.calls sink.old) (W.calls sink.new)) }
    ensures front { IfErr result
        (λ e. IfWriteFailed e (AppendsFront (W.contents sink.old) (W.contents sink.new)
        (violations_text (naming_of (option_copied names.entry)) (violations_of instance.now times.now)))) }
    ensures fault { IfErr result (λ e. IfWriteFailed e
        (DeviceFailed (W.calls sink.old) (W.calls sink.new))) }
    ensures silent { IfErr result (λ e. UnlessWriteFailed e (sink.new ≡ sink.old)) }
{
    if !are_times(instance, times) {
        return Err(ViolationsRefusal::NotTimes);
    }
    let Ok(found) = violations_of(alloc, instance, times) else {
        return Err(ViolationsRefusal::Memory);
    };
    let text = text_of_violations(alloc, names, &found)?;
    match print_to(sink, &Bytes(text.as_slice())) {
        Ok(()) => Ok(found.len()),
        Err(_) => Err(ViolationsRefusal::Write),
    }
}

/// Whether there is a time below the period for each event.
fn are_times(instance: &Instance, times: &[u32]) -> bool
    ensures { IsTrue result ↔ AreTimes instance.now times.now }
{
    !matches!(score(instance, times), Score::NotTimes)
}
