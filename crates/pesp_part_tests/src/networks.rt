//! Questions to a network.

use crate::given::Case;
use crate::spelling::{tell_list, tell_round, tell_rows};
use crate::words::look_up;
use pesp_network::Network;
use pesp_problem::{SignedRow, Walk};
use std::alloc::Global;

/// What is asked of a network.
#[derive(Clone, Copy)]
enum Asked {
    Size,
    Forest,
    Kept,
    Cycles,
    Walks,
    Lengths,
    Bridges,
    First,
    Way,
    Times,
    Timed,
}

/// The second word of each question.
const ASKED: [(&str, Asked); 11] = [
    ("size", Asked::Size),
    ("forest", Asked::Forest),
    ("kept", Asked::Kept),
    ("cycles", Asked::Cycles),
    ("walks", Asked::Walks),
    ("lengths", Asked::Lengths),
    ("bridges", Asked::Bridges),
    ("first", Asked::First),
    ("way", Asked::Way),
    ("times", Asked::Times),
    ("timed", Asked::Timed),
];

/// Tells the answer to a question to the network.
pub(crate) fn ask_network(case: Case<'_>, network: &Network, told: &mut String) -> Option<()> {
    let alloc = case.alloc;
    let asked = look_up(&ASKED, case.word(0)?)?;
    match asked {
        Asked::Size => tell_size(network, told),
        Asked::Forest => tell_run(&network.forest(alloc).ok()?, told),
        Asked::Kept => tell_kept(alloc, network, told),
        Asked::Bridges => tell_run(&bridges_of(alloc, network)?, told),
        Asked::First => tell_first(network, case.number(1)?, told),
        Asked::Way => tell_way(alloc, network, case.number(1)?, case.number(2)?, told),
        Asked::Times | Asked::Timed => {
            let slacks = case.list("slacks")?;
            tell_times(alloc, network, &slacks, matches!(asked, Asked::Times), told)
        }
        Asked::Cycles | Asked::Walks | Asked::Lengths => tell_table(alloc, network, asked, told),
    }
}

fn tell_size(network: &Network, told: &mut String) -> Option<()> {
    let period = network.period();
    let events = network.events();
    let rows = network.rows().len();
    write!(told, " period {period}, {events} events, {rows} rows").ok()
}

/// Tells how many rows the forest has.
pub(crate) fn tell_kept(alloc: Global, network: &Network, told: &mut String) -> Option<()> {
    write!(told, " {}", network.forest(alloc).ok()?.len()).ok()
}

/// Tells how many numbers there are, and the first and the last.
fn tell_run(numbers: &[u32], told: &mut String) -> Option<()> {
    let count = numbers.len();
    match (numbers.first(), numbers.last()) {
        (Some(first), Some(last)) => write!(told, " {count}, {first} to {last}").ok(),
        _ => told.push_str(" none").ok(),
    }
}

/// Tells what is asked of the table, or why there is none.
fn tell_table(alloc: Global, network: &Network, asked: Asked, told: &mut String) -> Option<()> {
    match network.cycles(alloc) {
        Ok(table) => {
            let done = tell_walks(alloc, &table, asked, told);
            drop(table);
            done
        }
        Err(refusal) => write!(told, " {refusal:?}").ok(),
    }
}

/// Tells how many walks the table has, each of them, or how long they are.
fn tell_walks(alloc: Global, table: &[Walk], asked: Asked, told: &mut String) -> Option<()> {
    match asked {
        Asked::Walks => tell_each(alloc, table, told),
        Asked::Lengths => tell_lengths(table, told),
        _ => write!(told, " {}", table.len()).ok(),
    }
}

/// Tells the walks of the table, each by its rows.
fn tell_each(alloc: Global, table: &[Walk], told: &mut String) -> Option<()> {
    for walk in table {
        tell_round(alloc, walk.rows(), told)?;
        told.push_str(",").ok()?;
    }
    Some(())
}

/// Tells how many walks the table has.
/// Tells how many rows the shortest and the longest have.
fn tell_lengths(table: &[Walk], told: &mut String) -> Option<()> {
    let mut least = usize::MAX;
    let mut most = 0;
    for walk in table {
        least = least.min(walk.rows().len());
        most = most.max(walk.rows().len());
    }
    if table.is_empty() {
        return told.push_str(" no walks").ok();
    }
    write!(told, " {} walks of {least} to {most} rows", table.len()).ok()
}

/// Adds the row at a place where it is a bridge.
fn add_bridge(bridges: &mut Vec<u32>, network: &Network, place: u32) -> Option<()> {
    let row = place.checked_add(1)?;
    if row == 0 || row as usize > network.rows().len() {
        return None;
    }
    if network.is_bridge(row) {
        bridges.push(row).ok()?;
    }
    Some(())
}

/// The rows that are bridges.
fn bridges_of(alloc: Global, network: &Network) -> Option<Vec<u32>> {
    let mut bridges = Vec::new(alloc);
    for place in 0..network.rows().len() {
        add_bridge(&mut bridges, network, u32::try_from(place).ok()?)?;
    }
    Some(bridges)
}

/// Tells the first event that is joined with this one.
fn tell_first(network: &Network, event: u32, told: &mut String) -> Option<()> {
    if event >= network.events() {
        return None;
    }
    write!(told, " {}", network.first_of(event)).ok()
}

fn tell_passed(rows: &[SignedRow], told: &mut String) -> Option<()> {
    if rows.is_empty() {
        return told.push_str(" no rows").ok();
    }
    tell_rows(rows, told)
}

/// Tells the way along the forest.
fn tell_way(alloc: Global, network: &Network, from: u32, to: u32, told: &mut String) -> Option<()> {
    if from >= network.events() || to >= network.events() {
        return None;
    }
    match network.way(alloc, from, to).ok()? {
        Some(rows) => tell_passed(&rows, told),
        None => told.push_str(" none").ok(),
    }
}

/// Tells times, each less the first one.
pub(crate) fn tell_later(times: &[u32], period: u32, told: &mut String) -> Option<()> {
    let first = times.first().copied()?;
    for time in times {
        let by = time.wrapping_add(period).wrapping_sub(first);
        write!(told, " {}", by.checked_rem(period)?).ok()?;
    }
    Some(())
}

/// Tells the times that have these slacks, each less the first one.
/// Or it tells how many there are.
fn tell_times(
    alloc: Global,
    network: &Network,
    slacks: &[u32],
    each: bool,
    told: &mut String,
) -> Option<()> {
    let period = network.period();
    if slacks.len() != network.rows().len() || !slacks.iter().all(|slack| *slack < period) {
        return None;
    }
    let Some(times) = network.timetable_of(alloc, slacks).ok()? else {
        return told.push_str(" none").ok();
    };
    if each {
        tell_later(&times, period, told)
    } else {
        write!(told, " {} times", times.len()).ok()
    }
}
