//! What is told of an event, in words.

ghost use Rattle.std.specs.Prelude.{◌≡◌, option_copied, slice_get, string_bytes, IfOk};
ghost use Rattle.pesp_timetable.specs.Timetable.{clock_text};
ghost use Rattle.pesp_timetable.specs.Timetable as spec;

use crate::clock::Clock;
use pesp_problem::Memory;
use pesp_railway::Told;
use std::alloc::Global;

/// What is told of the event with a number, if something is.
pub fn told_at(tolds: &[Told], event: usize) -> Option<&Told>
    ensures { option_copied result ≡ slice_get tolds.now event }
{
    tolds.get(event)
}

/// The line of an event.
pub fn line_of(told: Option<&Told>) -> &str
    ensures { result.now ≡ spec.told_line (option_copied told.entry) }
{
    match told {
        Some(told) => told.line.as_str(),
        None => "",
    }
}

/// The station of an event.
pub fn station_of(told: Option<&Told>) -> &str
    ensures { result.now ≡ spec.station_of (option_copied told.entry) }
{
    match told {
        Some(told) => told.station.as_str(),
        None => "",
    }
}

/// The name of an event.
pub fn name_of(told: Option<&Told>) -> &str
    ensures { result.now ≡ spec.told_name (option_copied told.entry) }
{
    match told {
        Some(told) => told.name.as_str(),
        None => "",
    }
}

/// The changes at an event.
pub fn changes_of(told: Option<&Told>) -> &str
    ensures { result.now ≡ spec.changes_of (option_copied told.entry) }
{
    match told {
        Some(told) => told.changes.as_str(),
        None => "",
    }
}

/// The word for the direction in which the train of an event goes.
pub fn direction_of(told: Option<&Told>) -> &str
    ensures { result.now ≡ spec.direction_of (option_copied told.entry) }
{
    match told {
        Some(told) => told.step.direction.word(),
        None => "",
    }
}

/// The word for what a train does at an event.
pub fn kind_of(told: Option<&Told>) -> &str
    ensures { result.now ≡ spec.told_kind (option_copied told.entry) }
{
    match told {
        Some(told) => told.step.halt.word(),
        None => "",
    }
}

/// Minutes as hours and minutes.
pub fn clock_of(alloc: Global, minutes: u64) -> Result<String, Memory>
    ensures { IfOk result (λ text. string_bytes text ≡ clock_text minutes) }
{
    let clock = Clock(minutes);
    match format!(in alloc; "{clock}") {
        Ok(text) => Ok(text),
        Err(_) => Err(Memory),
    }
}
