//! Times from a text.

ghost use Rattle.std.specs.Prelude.{◌≡◌, ◌⊎◌, ◌<◌, Ok, Err, IfOk, IfErr, IfSome};
ghost use Rattle.pesp_problem.specs.Timetables.{AreTimes};
ghost use Rattle.pesp_stream.specs.Words.{words_of};
ghost use Rattle.pesp_report.specs.TimesText.{TellTimes, time_lines, time_of_words, times_from_text};
ghost use Rattle.pesp_report.specs.TimesText as spec;
ghost use Rattle.pesp_report.specs.declared.refusal.TimesRefusal.TheVariants.{Memory};

use crate::refusal::TimesRefusal;
use pesp_problem::Instance;
use pesp_stream::{Lines, Words, natural, whole};
use std::alloc::Global;

/// Reads one time for each event, in the order of the events. Each line that begins with `time ` is read as
/// `time LABEL TIME`, and all other lines are passed over, so a certificate's text may be handed in.
///
/// The first line of these that does not give the next event a time below the period is told as `BadLine`; `WrongCount`
/// where the text ends before all events have times. `Memory` may come in place of either.
pub fn read_times(alloc: Global, instance: &Instance, text: &[u8]) -> Result<Vec<u32>, TimesRefusal>
    ensures exact { IfOk result (λ times. times_from_text instance.now text.now ≡ Ok times.items) }
    ensures times { IfOk result (λ times. AreTimes instance.now times.items) }

    // The lines that begin with `time ` name the events in order, with these times.
    ensures told { IfOk result
        (λ times. TellTimes instance.now.events times.items (time_lines text.now)) }
    ensures refused { IfErr result (λ e. (e ≡ Memory) ⊎ (times_from_text instance.now text.now ≡ Err e)) }
{
    let period = instance.period();
    let events = instance.events();
    let mut times = Vec::new(alloc);
    let mut n: u64 = 0;
    for line in Lines::new(text) {
        n += 1;
        if names_a_time(line) {
            match time_at(period, events, times.len(), line) {
                Some(time) => times.push(time)?,
                None => return Err(TimesRefusal::BadLine { n }),
            }
        }
    }
    if times.len() < events.len() {
        return Err(TimesRefusal::WrongCount);
    }
    Ok(times)
}

/// Whether a line tells a time.
fn names_a_time(line: &[u8]) -> bool
    ensures { result ≡ spec.names_a_time line.now }
{
    line.starts_with(b"time ")
}

/// The time that a line gives to the event at a place, if it does.
fn time_at(period: u32, events: &[i64], place: usize, line: &[u8]) -> Option<u32>
    ensures time { result ≡ spec.time_at period events.now place line.now }
    ensures below { IfSome result (λ time. time < period) }
{
    match events.get(place) {
        Some(event) => time_of(period, *event, line),
        None => None,
    }
}

/// The time that a line gives to an event, if it does.
fn time_of(period: u32, event: i64, line: &[u8]) -> Option<u32>
    ensures time { result ≡ time_of_words period event (words_of line.now) }
    ensures below { IfSome result (λ time. time < period) }
{
    let mut words = Words::new(line);
    let _first = words.next()?;
    let label = words.next()?;
    let time = words.next()?;
    if words.next().is_some() || !spells_label(event, label) {
        return None;
    }
    time_below(period, time)
}

/// Whether a word spells this label.
fn spells_label(event: i64, word: &[u8]) -> bool
    ensures { result ≡ spec.spells_label event word.now }
{
    whole(word) == Some(event)
}

/// The time that a word spells, where it is below the period.
fn time_below(period: u32, word: &[u8]) -> Option<u32>
    ensures time { result ≡ spec.time_below period word.now }
    ensures below { IfSome result (λ time. time < period) }
{
    match natural(word) {
        Some(time) if time < u64::from(period) => Some(time as u32),
        _ => None,
    }
}
