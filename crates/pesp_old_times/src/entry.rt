//! What a line tells of an event.

ghost use Rattle.std.specs.Prelude.{◌≡◌, ◌≤◌, ◌%◌};
ghost use Rattle.pesp_report.specs.TimesText as times;
ghost use Rattle.pesp_old_times.specs.OldTimes as spec;

use pesp_stream::{Words, natural, whole};

/// Whether a line tells a time.
pub(crate) fn names_a_time(line: &[u8]) -> bool
    ensures { result ≡ times.names_a_time line.now }
{
    line.starts_with(b"time ")
}

/// A line without a CR at its end.
fn without_cr(line: &[u8]) -> &[u8]
    ensures { result.now ≡ spec.without_cr line.now }
{
    let end = line.len();
    if end > 0 && line[end - 1] == b'\r' {
        &line[..end - 1]
    } else {
        line
    }
}

/// A time modulo the period.
fn within(period: u32, time: u64) -> u32
    requires { 1 ≤ period }
    ensures { result ≡ time % period }
{
    (time % u64::from(period)) as u32
}

/// The label and the time that words tell, the first of which was looked at.
fn entry_of_words(period: u32, words: &mut Words<'_>) -> Option<(i64, u32)>
    requires { 1 ≤ period }
    ensures { result ≡ spec.entry_of_words period words.old }
{
    let _first = words.next()?;
    let label = words.next()?;
    let time = words.next()?;
    if words.next().is_some() {
        return None;
    }
    let label = whole(label)?;
    let time = natural(time)?;
    Some((label, within(period, time)))
}

/// The label of an event and its time, where a line tells them.
pub(crate) fn entry_of(period: u32, line: &[u8]) -> Option<(i64, u32)>
    requires { 1 ≤ period }
    ensures { result ≡ spec.line_entry period line.now }
{
    let mut words = Words::new(without_cr(line));
    entry_of_words(period, &mut words)
}
