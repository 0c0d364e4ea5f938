//! What is proposed for a search.

use crate::given::Case;
use crate::networks::tell_kept;
use crate::rows::ranges_of;
use crate::spelling::tell_list;
use crate::words::look_up;
use pesp_network::Network;
use pesp_propagate::dive_to;
use pesp_strategy::{Advice, Strategy};
use pesp_timetables::search_forest;
use std::alloc::Global;

/// What is asked of proposals.
#[derive(Clone, Copy)]
enum Asked {
    Forest,
    Rows,
    Search,
    Searched,
    Leaf,
    Cut,
    Times,
    Dive,
}

/// The second word of each question.
const ASKED: [(&str, Asked); 8] = [
    ("forest", Asked::Forest),
    ("rows", Asked::Rows),
    ("search", Asked::Search),
    ("searched", Asked::Searched),
    ("leaf", Asked::Leaf),
    ("cut", Asked::Cut),
    ("times", Asked::Times),
    ("dive", Asked::Dive),
];

/// Tells the answer to a question about proposals.
/// The network has the forest of the line `forest ..`.
/// Asked are that forest and its size, and the forest that exchanges lead to.
/// Asked too are what is advised for the root, and the times of a dive.
pub(crate) fn ask_proposal(case: Case<'_>, network: &Network, told: &mut String) -> Option<()> {
    let forest = case.list("forest")?;
    let planted = network.with_forest(case.alloc, &forest).ok()?;
    let done = answer(case, &planted, told);
    drop(planted);
    done
}

fn answer(case: Case<'_>, network: &Network, told: &mut String) -> Option<()> {
    let asked = look_up(&ASKED, case.word(0)?)?;
    match asked {
        Asked::Forest => tell_list(&network.forest(case.alloc).ok()?, told),
        Asked::Rows => tell_kept(case.alloc, network, told),
        Asked::Search => tell_list(&searched(case, network)?, told),
        Asked::Searched => write!(told, " {}", searched(case, network)?.len()).ok(),
        Asked::Dive => tell_dive(case, network, told),
        _ => tell_advised(case, network, asked, told),
    }
}

/// The forest that exchanges lead to, by a seed and so many of them.
fn searched(case: Case<'_>, network: &Network) -> Option<Vec<u32>> {
    search_forest(case.alloc, network, case.number(1)?, case.number(2)?).ok()
}

/// The offsets of the root's cycles, from 0 to those of the line `offsets ..`.
fn offsets_of(case: Case<'_>) -> Option<Vec<(i64, i64)>> {
    case.list("offsets")?
        .iter()
        .map(|most| (0, i64::from(*most)))
        .collect(case.alloc)
        .ok()
}

fn advice_for(
    alloc: Global,
    network: &Network,
    slacks: &[(u32, u32)],
    offsets: &[(i64, i64)],
) -> Option<Advice> {
    let mut strategy = Strategy::new(alloc, network, offsets).ok()??;
    let advice = strategy.look(alloc, &[], slacks, offsets, &[], None);
    drop(strategy);
    advice.ok()?
}

/// Tells what is asked of the advice for the root.
fn tell_advised(case: Case<'_>, network: &Network, asked: Asked, told: &mut String) -> Option<()> {
    let slacks = ranges_of(case.alloc, network)?;
    let offsets = offsets_of(case)?;
    match advice_for(case.alloc, network, &slacks, &offsets) {
        Some(advice) => {
            let done = tell_advice(asked, &advice, told);
            drop(advice);
            done
        }
        None => None,
    }
}

/// Tells what is asked of an advice.
fn tell_advice(asked: Asked, advice: &Advice, told: &mut String) -> Option<()> {
    match asked {
        Asked::Leaf => {
            let pairs = advice.leaf.pairs.len();
            write!(told, " value {}, {pairs} pairs", advice.leaf.value).ok()
        }
        Asked::Cut => tell_split(advice, told),
        _ => match &advice.times {
            Some(times) => tell_list(times, told),
            None => None,
        },
    }
}

fn tell_split(advice: &Advice, told: &mut String) -> Option<()> {
    let Some(split) = &advice.cut else {
        return told.push_str(" none").ok();
    };
    let low = split.low.value;
    let high = split.high.value;
    write!(
        told,
        " cycle {} at {}, values {low} and {high}",
        split.cycle, split.k
    )
    .ok()
}

/// The prices of the line `prices ..`.
fn prices_of(case: Case<'_>) -> Option<Vec<i64>> {
    case.list("prices")?
        .iter()
        .map(|price| i64::from(*price))
        .collect(case.alloc)
        .ok()
}

/// Tells the times that a dive to the prices finds in so many tries.
fn tell_dive(case: Case<'_>, network: &Network, told: &mut String) -> Option<()> {
    let tries = case.number(1)?;
    match dive_to(case.alloc, network, &prices_of(case)?, tries).ok()? {
        Some(times) => tell_list(&times, told),
        None => told.push_str(" none").ok(),
    }
}
