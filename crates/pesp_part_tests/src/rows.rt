//! Instances, networks, cycles and cuts that the lines of a case give.

ghost use Rattle.std.specs.Prelude.{◌≡◌, IfSome, length};

use crate::given::Case;
use crate::words::{cut_of, signed_rows, small, split_word, whole, words_of};
use pesp_instance::read_instance;
use pesp_network::{NetRefusal, NetRow, Network};
use pesp_problem::{Cut, Instance, Side, Walk};
use std::alloc::Global;

/// The event of the word at a place, later by so many events.
fn event_of(words: &[&str], place: usize, by: u32) -> Option<u32> {
    small(words, place)?.checked_add(by)
}

/// The row of the words tail, head, lower bound, span and weight.
/// It is later by so many events.
fn row_of(words: &[&str], by: u32) -> Option<NetRow> {
    Some(NetRow {
        tail: event_of(words, 0, by)?,
        head: event_of(words, 1, by)?,
        lower: whole(words, 2)?,
        span: small(words, 3)?,
        weight: u64::from(small(words, 4)?),
        origin: 1,
    })
}

/// Adds so many rows of the same words.
/// Each is later by the step than the one before.
fn add_rows(rows: &mut Vec<NetRow>, words: &[&str], count: u32, step: u32) -> Option<()> {
    for place in 0..count {
        rows.push(row_of(words, place.checked_mul(step)?)?).ok()?;
    }
    Some(())
}

/// Adds the rows of a line `row ROW` or `rows COUNT STEP ROW`.
fn add_line(alloc: Global, rows: &mut Vec<NetRow>, line: &str) -> Option<()> {
    let (name, rest) = split_word(line);
    let words = words_of(alloc, rest)?;
    match name {
        "row" => add_rows(rows, &words, 1, 0),
        "rows" => add_rows(rows, words.get(2..)?, small(&words, 0)?, small(&words, 1)?),
        _ => Some(()),
    }
}

/// The rows of the lines `row ..` and `rows ..`.
fn rows_of(case: Case<'_>) -> Option<Vec<NetRow>> {
    let mut rows = Vec::new(case.alloc);
    for line in case.lines {
        add_line(case.alloc, &mut rows, line)?;
    }
    Some(rows)
}

/// The instance of a case.
pub fn instance_of(case: Case<'_>) -> Option<Instance> {
    let period = case.period()?;
    read_instance(case.alloc, &case.text("instance")?, period).ok()
}

/// The network of the rows between so many events.
fn network_between(case: Case<'_>, events: u32) -> Option<Result<Network, NetRefusal>> {
    let period = case.period()?;
    Some(Network::new(case.alloc, period, events, rows_of(case)?))
}

/// The network of the instance.
fn network_of_instance(case: Case<'_>) -> Option<Network> {
    let instance = instance_of(case)?;
    let network = Network::of(case.alloc, &instance);
    drop(instance);
    network.ok()
}

/// The network of the rows between the events of the line `events N`.
/// That of the instance, where there is no such line.
pub(crate) fn network_of(case: Case<'_>) -> Option<Result<Network, NetRefusal>> {
    match case.line("events") {
        Some(count) => network_between(case, count.parse().ok()?),
        None => Some(Ok(network_of_instance(case)?)),
    }
}

/// The slacks of the rows, each from 0 to its span.
pub(crate) fn ranges_of(alloc: Global, network: &Network) -> Option<Vec<(u32, u32)>>
    ensures { IfSome result (λ ranges. length ranges.items ≡ length network.now.rows) }
{
    network
        .rows()
        .iter()
        .map(|row| (0, row.span))
        .collect(alloc)
        .ok()
}

/// The cycles of the lines `cycle ..`.
pub fn table_of(case: Case<'_>) -> Option<Vec<Walk>> {
    let mut table = Vec::new(case.alloc);
    for words in &case.all("cycle")? {
        table.push(Walk::new(signed_rows(case.alloc, words)?)).ok()?;
    }
    Some(table)
}

/// The side that a word names.
fn side_of(word: &str) -> Option<Side> {
    match word {
        "low" => Some(Side::Low),
        "high" => Some(Side::High),
        _ => None,
    }
}

/// The cuts of the lines `cut CUT SIDE`.
pub(crate) fn cuts_of(case: Case<'_>) -> Option<Vec<(Cut, Side)>> {
    let mut cuts = Vec::new(case.alloc);
    for words in &case.all("cut")? {
        cuts.push((cut_of(words)?, side_of(words.get(3)?)?)).ok()?;
    }
    Some(cuts)
}
