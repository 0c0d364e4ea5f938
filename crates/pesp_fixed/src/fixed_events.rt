//! Events that are to stand at a time.

use crate::fix_refusal::FixRefusal;
use pesp_problem::Instance;
use std::alloc::Global;

/// What is to be fixed: events, as `LABEL` for one that keeps its time or `LABEL=TIME`, and lines, of which each event keeps its
/// time; both between commas, and empty where nothing is.
#[derive(Clone, Copy)]
pub struct Wanted<'a> {
    pub events: &'a str,
    pub lines: &'a str,
}

/// An event, and the time at which it is held.
#[derive(Clone, Copy)]
pub struct FixedEvent {
    pub event: i64,
    pub time: u32,
}

/// A word between commas: an event's label, and a time where one is named.
#[derive(Clone, Copy)]
struct Word {
    event: i64,
    time: Option<u32>,
}

/// What a word says.
fn word_of(word: &str) -> Option<Word> {
    let mut parts = word.split('=');
    let event = parts.next()?.trim().parse::<i64>().ok()?;
    let time = match parts.next() {
        Some(time) => Some(time.trim().parse::<u32>().ok()?),
        None => None,
    };
    if parts.next().is_some() {
        return None;
    }
    Some(Word { event, time })
}

/// The time that an event has, where the instance has it.
fn time_of(instance: &Instance, times: &[u32], event: i64) -> Option<u32> {
    let place = instance.events().iter().position(|label| *label == event)?;
    times.get(place).copied()
}

/// What the word of a number asks for.
fn held_by(
    instance: &Instance,
    times: &[u32],
    word: &str,
    at: u32,
) -> Result<FixedEvent, FixRefusal> {
    let Some(Word { event, time }) = word_of(word) else {
        return Err(FixRefusal::BadWord { at });
    };
    let Some(has) = time_of(instance, times, event) else {
        return Err(FixRefusal::NoEvent { at });
    };
    let time = time.unwrap_or(has);
    if time >= instance.period() {
        return Err(FixRefusal::NotBelowPeriod { at });
    }
    Ok(FixedEvent { event, time })
}

/// The events that words between commas hold.
pub fn held_events(
    alloc: Global,
    instance: &Instance,
    times: &[u32],
    words: &str,
) -> Result<Vec<FixedEvent>, FixRefusal> {
    let mut held = Vec::new(alloc);
    if words.trim().is_empty() {
        return Ok(held);
    }
    let mut at: u32 = 0;
    for word in words.split(',') {
        at = at.saturating_add(1);
        held.push(held_by(instance, times, word, at)?)?;
    }
    Ok(held)
}
