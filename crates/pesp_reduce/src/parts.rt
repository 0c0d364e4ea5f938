//! The parts of a reduction, each from those before it.

ghost use Rattle.std.specs.Prelude.{◌≡◌, ℕ, ◌+◌, ◌<◌, ◌≤◌, length, map, IfOk, All, unsigned_abs};
ghost use Rattle.pesp_problem.specs.Arcs.{arcs_of};
ghost use Rattle.pesp_network.specs.Networks.{net_row_at, arcs_of_network};
ghost use Rattle.pesp_reduce.specs.Rows.{row_that_matters};
ghost use Rattle.pesp_reduce.specs.Contracting.{IsContraction};
ghost use Rattle.pesp_reduce.specs.Fates.{mapped_row};
ghost use Rattle.pesp_reduce.specs.Reductions.{IsReduction};
ghost use Rattle.pesp_reduce.specs.Parts.{FatesAreKept};

use crate::contraction::{Contraction, contract};
use crate::fate::Fate;
use crate::fates::{fates_of, kept_rows, mapped_rows};
use crate::rows::{network_of, rows_that_matter};
use pesp_network::{NetRow, Network};
use pesp_problem::{Instance, Memory};
use std::alloc::Global;

/// What becomes of each row, and the rows that are kept.
#[derive(Drop)]
pub struct Kept {
    pub fates: Vec<Fate>,
    pub network: Network,
}

/// The rows that matter, what is contracted of them, what becomes of each row, and the rows that are kept.
#[derive(Drop)]
pub struct Parts {
    pub whole: Network,
    pub contraction: Contraction,
    pub fates: Vec<Fate>,
    pub network: Network,
}

/// The rows that matter, with a loop for each other row.
fn whole_of(alloc: Global, given: &Network) -> Result<Network, Memory>
    ensures period { IfOk result (λ whole. whole.period ≡ given.now.period) }
    ensures events { IfOk result (λ whole. whole.events ≡ given.now.events) }
    ensures rows { IfOk result
        (λ whole. whole.rows ≡ map (row_that_matters given.now.period) given.now.rows) }
{
    let period = given.period();
    let rows = rows_that_matter(alloc, period, given.rows())?;
    let whole = network_of(alloc, period, given.events(), rows)?;
    Ok(whole)
}

/// The rows between the events that their ends become.
fn left_of(alloc: Global, whole: &Network, contraction: &Contraction) -> Result<Network, Memory>
    requires contraction { IsContraction whole.now.period whole.now.events whole.now.rows
        contraction.now }
    requires lowers { All (λ row. unsigned_abs row.lower ≤ 1000000) whole.now.rows }
    ensures period { IfOk result (λ left. left.period ≡ whole.now.period) }
    ensures events { IfOk result (λ left. left.events ≡ length contraction.now.firsts.items) }
    ensures rows { IfOk result (λ left. left.rows ≡ map (mapped_row contraction.now.stands.items
        contraction.now.shifts.items) whole.now.rows) }
{
    let period = whole.period();
    let stands = contraction.stands.as_slice();
    let shifts = contraction.shifts.as_slice();
    let events = contraction.firsts.len() as u32;
    let rows = mapped_rows(alloc, stands, shifts, whole.rows())?;
    let left = network_of(alloc, period, events, rows)?;
    Ok(left)
}

/// What becomes of rows of which these are left.
fn fated(
    alloc: Global,
    period: u32,
    given: &[NetRow],
    contracted: &[bool],
    left: &Network,
) -> Result<Kept, Memory>
    requires period { 0 < period }
    requires flags { length contracted.now ≡ length given.now }
    requires left { length left.now.rows ≡ length given.now }
    ensures period { IfOk result (λ kept. kept.network.period ≡ left.now.period) }
    ensures events { IfOk result (λ kept. kept.network.events ≡ left.now.events) }
    ensures kept { IfOk result (FatesAreKept period given.now contracted.now left.now.rows) }
{
    let rows = left.rows();
    let fates = fates_of(alloc, period, given, contracted, left)?;
    let kept = kept_rows(alloc, rows, fates.as_slice())?;
    let network = network_of(alloc, left.period(), left.events(), kept)?;
    Ok(Kept { fates, network })
}

/// What becomes of rows where the fixed ones among those that matter are contracted.
fn kept_of(
    alloc: Global,
    period: u32,
    given: &[NetRow],
    whole: &Network,
    contraction: &Contraction,
) -> Result<Kept, Memory>
    requires period { 0 < period }
    requires count { length whole.now.rows ≡ length given.now }
    requires contraction { IsContraction whole.now.period whole.now.events whole.now.rows
        contraction.now }
    requires lowers { All (λ row. unsigned_abs row.lower ≤ 1000000) whole.now.rows }
    ensures period { IfOk result (λ kept. kept.network.period ≡ whole.now.period) }
    ensures events { IfOk result
        (λ kept. kept.network.events ≡ length contraction.now.firsts.items) }
    ensures kept { IfOk result (FatesAreKept period given.now contraction.now.contracted.items
        (map (mapped_row contraction.now.stands.items contraction.now.shifts.items) whole.now.rows)) }
{
    let left = left_of(alloc, whole, contraction)?;
    fated(
        alloc,
        period,
        given,
        contraction.contracted.as_slice(),
        &left,
    )
}

/// The parts of the reduction of an instance, from its rows as a network.
pub fn parts_of(alloc: Global, instance: &Instance, given: &Network) -> Result<Parts, Memory>
    requires period { given.now.period ≡ instance.now.period }
    requires events { given.now.events ≡ length instance.now.events }
    requires rows { arcs_of_network given.now.rows ≡ arcs_of instance.now }
    requires origins { (i : ℕ) → i < length given.now.rows
        → (net_row_at given.now.rows i).origin ≡ i + 1 }
    ensures { IfOk result (λ parts. IsReduction instance.now parts.fates.items parts.whole
        parts.contraction parts.network) }
{
    let period = instance.period();
    let whole = whole_of(alloc, given)?;
    let contraction = contract(alloc, &whole)?;
    let Kept { fates, network } = kept_of(alloc, period, given.rows(), &whole, &contraction)?;
    Ok(Parts {
        whole,
        contraction,
        fates,
        network,
    })
}
