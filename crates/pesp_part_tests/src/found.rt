//! What is found over a network.

use crate::given::Case;
use crate::rows::ranges_of;
use crate::spelling::tell_list;
use pesp_network::Network;
use pesp_propagate::{Domains, Outcome, dive, propagate};
use pesp_simplex::improve;
use std::alloc::Global;

/// What propagation makes of full sets under slacks from 0 to the span.
fn propagated(alloc: Global, network: &Network) -> Option<(Outcome, Domains)> {
    let ranges = ranges_of(alloc, network)?;
    let mut domains = Domains::full(alloc, network).ok()?;
    match propagate(alloc, network, &ranges, &mut domains) {
        Ok(outcome) => Some((outcome, domains)),
        Err(_) => {
            drop(domains);
            None
        }
    }
}

/// Tells what propagation comes to and which differences it leaves.
/// Behind `left` it tells those of one event, behind `empty` the empty event.
pub(crate) fn ask_domains(case: Case<'_>, network: &Network, told: &mut String) -> Option<()> {
    let (outcome, domains) = propagated(case.alloc, network)?;
    let done = answer(case, outcome, &domains, told);
    drop(domains);
    done
}

fn answer(case: Case<'_>, outcome: Outcome, domains: &Domains, told: &mut String) -> Option<()> {
    match (case.word(0), outcome) {
        (Some("left"), _) => tell_left(domains, case.number(1)?, told),
        (Some("empty"), Outcome::Empty { event }) => write!(told, " {event}").ok(),
        (Some("empty"), Outcome::Stable) => told.push_str(" none").ok(),
        (Some(_), _) => None,
        (None, Outcome::Empty { .. }) => told.push_str(" empty").ok(),
        (None, Outcome::Stable) => tell_all(domains, told),
    }
}

/// Tells the differences that are left of each event.
fn tell_all(domains: &Domains, told: &mut String) -> Option<()> {
    told.push_str(" stable").ok()?;
    for event in 0..domains.events() {
        write!(told, ", {event}:").ok()?;
        tell_left(domains, event, told)?;
    }
    Some(())
}

/// Tells the differences that are left of an event as ranges, or `none`.
fn tell_left(domains: &Domains, event: u32, told: &mut String) -> Option<()> {
    let before = told.len();
    let mut begun = None;
    for difference in 0..10_001u32 {
        let is_left = domains.has(event, difference);
        match begun {
            None if is_left => begun = Some(difference),
            Some(first) if !is_left => {
                begun = None;
                write!(told, " {first}..{}", difference.wrapping_sub(1)).ok()?;
            }
            _ => {}
        }
    }
    told.push_str(if told.len() == before { " none" } else { "" })
        .ok()
}

/// Tells whether a dive finds times in so many tries; behind `times` it tells them.
pub(crate) fn ask_dive(case: Case<'_>, network: &Network, told: &mut String) -> Option<()> {
    let Some(times) = dive(case.alloc, network, case.number(0)?).ok()? else {
        return told.push_str(" none").ok();
    };
    match case.word(1) {
        Some("times") => tell_list(&times, told),
        Some(_) => None,
        None => told.push_str(" found").ok(),
    }
}

/// Tells what an improvement of the times ends with in so many rounds.
pub(crate) fn ask_improvement(case: Case<'_>, network: &Network, told: &mut String) -> Option<()> {
    let times = case.list("times")?;
    match improve(case.alloc, network, &times, case.number(0)?) {
        Ok(found) => {
            let stop = found.stop;
            let rows = found.forest.len();
            write!(told, " {stop:?}, cost {}, {rows} forest rows", found.cost).ok()
        }
        Err(refusal) => write!(told, " {refusal:?}").ok(),
    }
}
