//! Problems: a network and a table of walks.

ghost use Rattle.std.specs.Prelude.{◌≡◌, ℕ, ◌-◌, ◌<◌, ◌≤◌, List, map, length, unsigned_abs, All, IfOk, IfErr, OnOk, sum_by};
ghost use Rattle.pesp_problem.specs.declared.limits.TheConstants.{MOST_CYCLES, MOST_ROWS, MOST_SIGNED_ROWS};
ghost use Rattle.pesp_problem.specs.Nodes as spec;
ghost use Rattle.pesp_problem.specs.Walks.{IsWalk};
ghost use Rattle.pesp_network.specs.Networks.{arcs_of_network, net_of_network, KeepsNetLimits};
ghost use Rattle.pesp_problem.specs.declared.row.SignedRow.{SignedRow};
ghost use Rattle.pesp_problem.specs.Nets.{AreNets, AreSmallCounts};
ghost use Rattle.pesp_nodes.specs.Passages.{ArePassages};
ghost use Rattle.pesp_problem.specs.Ranges.{AreSlackEnds};
ghost use Rattle.pesp_nodes.specs.Offsets.{AreArcs, AreOffsetEnds, IsSmallRange};
ghost use Rattle.pesp_nodes.specs.Problems.{problem_net, IsNodeOf, IsProblemRefusal, IsSmallTable};

use crate::closed_walks::first_open;
use crate::node::Node;
use crate::offsets::bounds_of;
use crate::passages::Passages;
use crate::refusal::ProblemRefusal;
use crate::table::{is_small, nets_of_passages, passages_of_table};
use pesp_network::Network;
use pesp_problem::{Arc, Memory, Nets, Walk};
use std::alloc::{AllocError, Global};
use std::marker::Model;

/// A network and a table of closed walks along its rows, within their limits.
#[derive(Drop)]
pub struct Problem {
    alloc: Global,
    network: Network,
    table: Vec<Walk>,
    nets: Vec<Nets>,
    by_row: Vec<Passages>,
    bounds: Vec<(i64, i64)>,
}

impl Model for Problem {
    ghost use Rattle.pesp_nodes.specs.Problems.{ProblemValue};
    ghost use Rattle.pesp_nodes.specs.Prepared.{IsPrepared};

    ghost Value = { ProblemValue };

    ghost view = { λ p. record { network = p.network; table = p.table.items } };

    ghost invariant = { λ p. IsPrepared (record { network = p.network; table = p.table.items })
        p.nets.items p.by_row.items p.bounds.items };
}

/// Whether the walks of a table close, and are few enough.
fn judge(arcs: &[Arc], table: &[Walk]) -> Result<(), ProblemRefusal>
    ensures closed { OnOk result (All (IsWalk arcs.now) table.now) }
    ensures small { OnOk result (IsSmallTable table.now) }
    ensures refused { IfErr result (IsProblemRefusal arcs.now table.now) }
{
    if let Some(cycle) = first_open(arcs, table) {
        return Err(ProblemRefusal::OpenWalk { cycle });
    }
    if !is_small(table) {
        return Err(ProblemRefusal::TableTooLarge);
    }
    Ok(())
}

/// The slack ranges of a root.
fn root_slacks(alloc: Global, arcs: &[Arc]) -> Result<Vec<(u32, u32)>, AllocError>
    requires { AreArcs arcs.now }
    ensures slacks { IfOk result (λ v. v.items ≡ map (λ arc. (0, arc.span)) arcs.now) }
    ensures ends { IfOk result (λ v. AreSlackEnds v.items) }
    ensures long { IfOk result (λ v. length v.items ≡ length arcs.now) }
{
    arcs.iter().map(|arc| (0, arc.span)).collect(alloc)
}

/// The offset ranges that slack ranges allow.
fn root_offsets(
    alloc: Global,
    period: u32,
    arcs: &[Arc],
    slacks: &[(u32, u32)],
    nets: &[Nets],
) -> Result<Vec<(i64, i64)>, AllocError>
    requires period { 0 < period }
    requires arcs { AreArcs arcs.now }
    requires slacks { AreSlackEnds slacks.now }
    requires long { length slacks.now ≡ length arcs.now }
    requires counts { All (AreSmallCounts (length arcs.now)) nets.now }
    ensures ends { IfOk result (λ v. AreOffsetEnds v.items) }
    ensures small { IfOk result (λ v. All (IsSmallRange period) v.items) }
    ensures offsets { (walks : List (List SignedRow)) → AreNets (length arcs.now) walks nets.now
        → IfOk result (λ v. v.items
        ≡ map (spec.odijk_range (record { period = period; arcs = arcs.now }) slacks.now) walks) }
{
    let mut offsets = Vec::new(alloc);
    for counts in nets {
        offsets.push(bounds_of(period, arcs, slacks, counts.counts()))?;
    }
    Ok(offsets)
}

/// The offset ranges of the root of a network, whose cycles have these net counts.
fn root_bounds(
    alloc: Global,
    network: &Network,
    nets: &[Nets],
) -> Result<Vec<(i64, i64)>, AllocError>
    requires { All (AreSmallCounts (length network.now.rows)) nets.now }
    ensures ends { IfOk result (λ v. AreOffsetEnds v.items) }
    ensures small { IfOk result (λ v. All (IsSmallRange network.now.period) v.items) }
    ensures offsets { (walks : List (List SignedRow)) → AreNets (length network.now.rows) walks nets.now
        → IfOk result (λ v. v.items ≡ map (spec.odijk_range (net_of_network network.now)
        (spec.root_slacks (net_of_network network.now))) walks) }
{
    let arcs = network.arcs();
    let slacks = root_slacks(alloc, arcs)?;
    root_offsets(alloc, network.period(), arcs, &slacks, nets)
}

impl Problem {
    /// The problem of a network and a table of walks along its rows. `OpenWalk` names the first walk that doesn't close, by
    /// its number from 1; an empty walk, or one along a row that doesn't exist, doesn't close. `TableTooLarge` where all walks
    /// close and there are more than 100000 of them, or more than 10000000 signed rows in all.
    pub fn new(alloc: Global, network: Network, table: Vec<Walk>) -> Result<Problem, ProblemRefusal>
        ensures network { IfOk result (λ p. p.network ≡ network) }
        ensures table { IfOk result (λ p. p.table ≡ table.items) }
        ensures closed { IfOk result (λ p. All (IsWalk (problem_net p).arcs) p.table) }
        ensures small { IfOk result (λ p. IsSmallTable p.table) }
        ensures refused { IfErr result
            (IsProblemRefusal (arcs_of_network network.rows) table.items) }
    {
        let arcs = network.arcs();
        judge(arcs, &table)?;
        let by_row = passages_of_table(alloc, arcs.len(), &table)?;
        let nets = nets_of_passages(alloc, table.len(), &by_row)?;
        let bounds = root_bounds(alloc, &network, &nets)?;
        Ok(Problem {
            alloc,
            network,
            table,
            nets,
            by_row,
            bounds,
        })
    }

    /// The network.
    pub fn network(&self) -> &Network
        ensures network { result.now ≡ self.now.network }
    {
        &self.network
    }

    /// The walks; cycles are numbered from 1 in this order.
    pub fn table(&self) -> &[Walk]
        ensures table { result.now ≡ self.now.table }
        ensures closed { All (IsWalk (problem_net self.now).arcs) self.now.table }
        ensures small { IsSmallTable self.now.table }
    {
        &self.table
    }

    /// The node in which every timetable lies: slacks from 0 to the span of their row, and for each cycle the offsets that
    /// these slacks allow (Odijk 1996).
    pub fn root(&self, alloc: Global) -> Result<Node, Memory>
        ensures root { IfOk result (λ node. node ≡ spec.root (problem_net self.now) self.now.table) }
        ensures node { IfOk result (IsNodeOf self.now) }
    {
        let slacks = root_slacks(alloc, self.arcs())?;
        let offsets = self.bounds().to_vec(alloc)?;
        Ok(Node::new(slacks, offsets))
    }

    /// Where memory comes from.
    pub(crate) fn alloc(&self) -> Global {
        self.alloc
    }

    /// The period, in the instance's own unit.
    pub(crate) fn period(&self) -> u32
        ensures period { result ≡ self.now.network.period }
        ensures some { 1 ≤ result }
        ensures most { result ≤ 10000 }
    {
        self.network.period()
    }

    /// The rows in order, without their origins.
    pub fn arcs(&self) -> &[Arc]
        ensures arcs { result.now ≡ (problem_net self.now).arcs }
        ensures limits { AreArcs result.now }
        ensures few { length result.now ≤ MOST_ROWS }
        ensures rows { length result.now ≡ length self.now.network.rows }
        ensures table { length self.now.table ≤ MOST_CYCLES }
    {
        self.network.arcs()
    }

    /// The network and the table keep their limits: it does nothing, and a caller that calls it has that within reach.
    pub fn keeps_limits(&self)
        ensures network { KeepsNetLimits self.now.network }
        ensures table { IsSmallTable self.now.table }
    {
        let _ = &self.nets;
    }

    /// The net counts of each cycle.
    pub(crate) fn nets(&self) -> &[Nets]
        ensures nets { AreNets (length self.now.network.rows) self.now.table result.now }
        ensures each { All (AreSmallCounts (length self.now.network.rows)) result.now }
    {
        &self.nets
    }

    /// The offset range of each cycle at the root.
    pub(crate) fn bounds(&self) -> &[(i64, i64)]
        ensures bounds { result.now ≡ map (spec.odijk_range (problem_net self.now)
            (spec.root_slacks (problem_net self.now))) self.now.table }
        ensures ends { AreOffsetEnds result.now }
        ensures small { All (IsSmallRange self.now.network.period) result.now }
    {
        &self.bounds
    }

    /// For each row the cycles that pass it, with how often they do.
    pub fn passages(&self) -> &[Passages]
        ensures passages { ArePassages (length self.now.network.rows) (length self.now.table)
            self.now.table result.now }
        ensures short { All (λ ps. sum_by (λ e. unsigned_abs e.count) ps ≤ MOST_SIGNED_ROWS) result.now }
    {
        &self.by_row
    }
}
