//! Times to begin with.

ghost use Rattle.std.specs.Prelude.{◌≡◌, ◌↔◌, IsTrue, IfOk, IfErr, IfSome, length};
ghost use Rattle.pesp_problem.specs.Timetables.{AreTimes, IsTimetable};
ghost use Rattle.pesp_old_times.specs.Beginning.{BeginsWith, RefusesOld, TellsTimetable};

use crate::listener::{Listener, ToldOldTimes};
use crate::moves::moves_of;
use crate::old_times::{OldTimes, read_old_times};
use crate::repair::repaired;
use crate::violated::count_violated;
use pesp_problem::{Instance, Memory, Score, score};
use pesp_report::{TimesRefusal, read_times};
use pesp_runs::Fault;
use std::alloc::Global;

/// Whether times are a timetable.
fn is_timetable(instance: &Instance, times: &[u32]) -> bool
    requires { AreTimes instance.now times.now }
    ensures { IsTrue result ↔ IsTimetable instance.now times.now }
{
    match score(instance, times) {
        Score::Feasible { .. } => true,
        Score::Violates { .. } => false,
        Score::NotTimes => false,
    }
}

/// The times that a text tells the events in their order, where they are a timetable.
fn told_timetable(
    alloc: Global,
    instance: &Instance,
    text: &[u8],
) -> Result<Option<Vec<u32>>, Memory>
    ensures { IfOk result (λ found. TellsTimetable instance.now text.now found) }
{
    let times = match read_times(alloc, instance, text) {
        Ok(times) => times,
        Err(TimesRefusal::Memory) => return Err(Memory),
        Err(TimesRefusal::BadLine { .. }) => return Ok(None),
        Err(TimesRefusal::WrongCount) => return Ok(None),
    };
    if is_timetable(instance, &times) {
        Ok(Some(times))
    } else {
        Ok(None)
    }
}

/// What is told of old times, where this was found near to them.
fn told_of(
    alloc: Global,
    instance: &Instance,
    old: &OldTimes,
    found: &Option<Vec<u32>>,
) -> Result<ToldOldTimes, Memory>
    requires same { length old.now.times.items ≡ length instance.now.events }
    requires found { IfSome found.now (λ times. IsTimetable instance.now times.items) }
{
    let violated = count_violated(alloc, instance, &old.times)?;
    let moves = match found {
        Some(times) => Some(moves_of(instance.period(), &old.times, times)),
        None => None,
    };
    Ok(ToldOldTimes {
        events: instance.events().len(),
        missing: old.missing,
        strays: old.strays,
        violated,
        moves,
    })
}

/// Times to begin with, by what a text tells of the events in any order, which a listener is told of: a timetable near to them,
/// or no times where none is found. Where the text tells the events in their order times that are a timetable, these are they,
/// and nothing is told.
pub fn begin_with<L: Listener>(
    alloc: Global,
    instance: &Instance,
    text: &[u8],
    listener: &mut L,
) -> Result<Vec<u32>, Fault>
    ensures begins { IfOk result (λ times. BeginsWith instance.now text.now times.items) }
    ensures refused { IfErr result (λ fault. RefusesOld fault instance.now text.now) }
{
    if let Some(times) = told_timetable(alloc, instance, text)? {
        return Ok(times);
    }
    let old = read_old_times(alloc, instance, text)?;
    let found = repaired(alloc, instance, &old.times)?;
    let told = told_of(alloc, instance, &old, &found)?;
    listener.hears(told);
    match found {
        Some(times) => Ok(times),
        None => Ok(Vec::new(alloc)),
    }
}
