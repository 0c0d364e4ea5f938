//! Times from a text, in any order.

ghost use Rattle.std.specs.Prelude.{◌≡◌, ◌⊎◌, Err, IfOk, IfErr, ◌≤◌, sum_by};
ghost use Rattle.csv.specs.Reading.{is_bom, strip_bom};
ghost use Rattle.pesp_report.specs.declared.refusal.TimesRefusal.TheVariants.{Memory};
ghost use Rattle.pesp_old_times.specs.OldTimes.{TellsTimes, entries_from_text};
ghost use Rattle.pesp_old_times.specs.OldTimes as spec;

use crate::entry::{entry_of, names_a_time};
use crate::table::Table;
use pesp_problem::Instance;
use pesp_report::TimesRefusal;
use pesp_stream::Lines;
use std::alloc::Global;

/// What a text tells of the events of an instance: for each of them, in their order, its time below the period where one is told;
/// how many have none; and how many times are told of labels that no event has.
#[derive(Drop)]
pub struct OldTimes {
    pub times: Vec<Option<u32>>,
    pub missing: usize,
    pub strays: u64,
}

/// Whether three bytes are a byte order mark.
fn is_mark(first: u8, second: u8, third: u8) -> bool
    ensures { result ≡ is_bom first second third }
{
    first == 0xef && second == 0xbb && third == 0xbf
}

/// A text without a byte order mark at its start.
fn without_mark(text: &[u8]) -> &[u8]
    ensures { result.now ≡ strip_bom text.now }
{
    if text.len() < 3 {
        return text;
    }
    if is_mark(text[0], text[1], text[2]) {
        &text[3..]
    } else {
        text
    }
}

/// 1 where there is no time, else 0.
fn lack(time: &Option<u32>) -> usize
    ensures exact { result ≡ spec.lack time.now }
    ensures small { result ≤ 1 }
{
    match time {
        Some(_) => 0,
        None => 1,
    }
}

/// How many events have no time.
fn count_missing(times: &[Option<u32>]) -> usize
    ensures { result ≡ sum_by spec.lack times.now }
{
    let mut missing = 0usize;
    for time in times {
        missing += lack(time);
    }
    missing
}

/// Reads times of the events of an instance, in any order and by their labels. Each line that begins with `time ` is read as
/// `time LABEL TIME`, and all other lines are passed over, so a certificate's text may be handed in, also that of other activities.
/// A time is taken modulo the period. Where several times are told of an event the last of them counts. A byte order mark in front
/// and a CR at the end of a line are passed over.
///
/// The first line of these that isn't `time LABEL TIME` is told as `BadLine`. `Memory` may come in place of it.
pub fn read_old_times(
    alloc: Global,
    instance: &Instance,
    text: &[u8],
) -> Result<OldTimes, TimesRefusal>
    ensures told { IfOk result (λ old. TellsTimes instance.now text.now old.times.items old.missing old.strays) }
    ensures refused { IfErr result (λ e. (e ≡ Memory) ⊎ (entries_from_text instance.now.period text.now ≡ Err e)) }
{
    let period = instance.period();
    let events = instance.events();
    let mut table = Table::of(alloc, events)?;
    let mut n: u64 = 0;
    for line in Lines::new(without_mark(text)) {
        n += 1;
        if names_a_time(line) {
            match entry_of(period, line) {
                Some((label, time)) => table.note(label, time)?,
                None => return Err(TimesRefusal::BadLine { n }),
            }
        }
    }
    let times = table.times_of(alloc, events)?;
    let missing = count_missing(&times);
    Ok(OldTimes {
        times,
        missing,
        strays: table.strays,
    })
}
