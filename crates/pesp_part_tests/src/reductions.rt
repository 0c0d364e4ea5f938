//! What is left of an instance, and times and walks that are lowered and lifted.

ghost use Rattle.std.specs.Prelude.{◌≡◌, IfSome};
ghost use Rattle.pesp_problem.specs.Timetables.{IsTimetable};
ghost use Rattle.pesp_problem.specs.NetTimetables.{IsNetTimetable};
ghost use Rattle.pesp_problem.specs.Walks.{IsWalk};
ghost use Rattle.pesp_network.specs.Networks.{arcs_of_network, net_of_network};

use crate::given::Case;
use crate::networks::tell_later;
use crate::rows::instance_of;
use crate::spelling::tell_round;
use crate::words::look_up;
use pesp_network::{NetRow, Network};
use pesp_problem::{Instance, Score, Walk, score};
use pesp_reduce::{Reduced, reduce};
use std::alloc::Global;

/// What is asked of what is left.
#[derive(Clone, Copy)]
enum Asked {
    Size,
    Loop,
    Origin,
    Lifted,
    Lowered,
    Costs,
}

/// The second word of each question.
const ASKED: [(&str, Asked); 6] = [
    ("size", Asked::Size),
    ("loop", Asked::Loop),
    ("origin", Asked::Origin),
    ("walk", Asked::Lifted),
    ("lowered", Asked::Lowered),
    ("costs", Asked::Costs),
];

/// Tells the answer to a question to what is left of the instance.
pub(crate) fn ask_reduced(case: Case<'_>, told: &mut String) -> Option<()> {
    let instance = instance_of(case)?;
    let done = tell_reduced(case, &instance, told);
    drop(instance);
    done
}

fn reduced(alloc: Global, instance: &Instance) -> Option<Reduced>
    ensures { IfSome result (λ left. left.original ≡ instance.now) }
{
    reduce(alloc, instance).ok()
}

fn tell_reduced(case: Case<'_>, instance: &Instance, told: &mut String) -> Option<()> {
    match reduced(case.alloc, instance) {
        Some(left) => {
            let done = answer(case, instance, &left, told);
            drop(left);
            done
        }
        None => None,
    }
}

fn answer(case: Case<'_>, instance: &Instance, left: &Reduced, told: &mut String) -> Option<()>
    requires { left.now.original ≡ instance.now }
{
    let alloc = case.alloc;
    match look_up(&ASKED, case.word(0)?)? {
        Asked::Size => tell_size(left.network(), told),
        Asked::Loop => tell_loop(left.network(), told),
        Asked::Origin => write!(told, " {}", only_row(left.network())?.origin).ok(),
        Asked::Lifted => tell_round(alloc, lifted_walk(alloc, left)?.rows(), told),
        Asked::Lowered => tell_lowered(alloc, instance, left, &case.list("times")?, told),
        Asked::Costs => tell_costs(alloc, instance, left, &case.list("times")?, told),
    }
}

fn tell_size(network: &Network, told: &mut String) -> Option<()> {
    let events = network.events();
    let rows = network.rows().len();
    write!(told, " {events} events, {rows} rows").ok()
}

/// The only row that is left.
fn only_row(network: &Network) -> Option<NetRow> {
    match network.rows() {
        [row] => Some(*row),
        _ => None,
    }
}

/// Tells of the only row that is left, from an event to itself.
/// Told are its span, and what remains of its lower bound.
fn tell_loop(network: &Network, told: &mut String) -> Option<()> {
    let row = only_row(network)?;
    if row.tail != row.head {
        return None;
    }
    let span = row.span;
    let lower = row.lower.checked_rem_euclid(i64::from(network.period()))?;
    write!(told, " lower {lower}, span {span}").ok()
}

/// The cost of times, None where they are no timetable.
fn cost_of(instance: &Instance, times: &[u32]) -> Option<u64>
    ensures { IfSome result (λ _. IsTimetable instance.now times.now) }
{
    match score(instance, times) {
        Score::Feasible { cost } => Some(cost),
        _ => None,
    }
}

fn low_times(alloc: Global, left: &Reduced, times: &[u32]) -> Option<Vec<u32>>
    requires { IsTimetable left.now.original times.now }
    ensures { IfSome result (λ lowered. IsNetTimetable (net_of_network left.now.network)
        left.now.network.events lowered.items) }
{
    left.lower_times(alloc, times).ok()
}

/// Tells the times of what is left, each less the first one.
fn tell_lowered(
    alloc: Global,
    instance: &Instance,
    left: &Reduced,
    times: &[u32],
    told: &mut String,
) -> Option<()>
    requires { left.now.original ≡ instance.now }
{
    cost_of(instance, times)?;
    tell_later(&low_times(alloc, left, times)?, instance.period(), told)
}

/// The cost of the times of what is left, lifted.
fn lifted_cost(alloc: Global, instance: &Instance, left: &Reduced, low: &[u32]) -> Option<u64>
    requires { IsNetTimetable (net_of_network left.now.network) left.now.network.events low.now }
{
    cost_of(instance, &left.lift_times(alloc, low).ok()?)
}

/// Tells the cost of the times, and of the same times lowered and lifted.
fn tell_costs(
    alloc: Global,
    instance: &Instance,
    left: &Reduced,
    times: &[u32],
    told: &mut String,
) -> Option<()>
    requires { left.now.original ≡ instance.now }
{
    let before = cost_of(instance, times)?;
    let after = lifted_cost(alloc, instance, left, &low_times(alloc, left, times)?)?;
    write!(told, " {before}, {after} lowered and lifted").ok()
}

/// A walk of what is left.
fn a_walk(alloc: Global, network: &Network) -> Option<Walk>
    ensures { IfSome result (IsWalk (arcs_of_network network.now.rows)) }
{
    match network.cycles(alloc) {
        Ok(mut table) => table.pop(),
        Err(_) => None,
    }
}

/// A walk of what is left, lifted.
fn lifted_walk(alloc: Global, left: &Reduced) -> Option<Walk> {
    left.lift_walk(alloc, &a_walk(alloc, left.network())?).ok()
}
