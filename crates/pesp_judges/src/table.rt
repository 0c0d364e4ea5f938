//! The root of the tree.

ghost use Rattle.std.specs.Prelude.{◌≡◌, List, length, All, IfOk, map};
ghost use Rattle.pesp_problem.specs.declared.row.SignedRow.{SignedRow};
ghost use Rattle.pesp_problem.specs.Arcs.{net_of};
ghost use Rattle.pesp_problem.specs.Limits.{KeepsLimits};
ghost use Rattle.pesp_problem.specs.Nodes as nodes;
ghost use Rattle.pesp_problem.specs.Nets.{AreSmallCounts, AreNets};
ghost use Rattle.pesp_leaves.specs.Offsets.{AreSlackRanges};
ghost use Rattle.pesp_leaves.specs.Ranges.{node_of, AreRanges};

use pesp_leaves::{Ranges, duration_sums, odijk_range};
use pesp_problem::{Instance, Nets, arc_of};
use std::alloc::{AllocError, Global};

/// The slack ranges of the root: from 0 to the row's span.
fn root_slacks(alloc: Global, instance: &Instance) -> Result<Vec<(u32, u32)>, AllocError>
    ensures slacks { IfOk result
        (λ slacks. slacks.items ≡ nodes.root_slacks (net_of instance.now)) }
    ensures limits { KeepsLimits instance.now }
{
    let period = instance.period();
    let mut slacks = Vec::new(alloc);
    for row in instance.rows() {
        slacks.push((0, arc_of(period, row).span))?;
    }
    Ok(slacks)
}

/// The offset ranges of the root, by Odijk's bounds.
fn root_offsets(
    alloc: Global,
    instance: &Instance,
    table: &[Nets],
    slacks: &[(u32, u32)],
) -> Result<Vec<(i64, i64)>, AllocError>
    requires table { All (AreSmallCounts (length instance.now.rows)) table.now }
    requires slacks { AreSlackRanges (length instance.now.rows) slacks.now }
    ensures offsets { IfOk result (λ offsets. (walks : List (List SignedRow))
        → AreNets (length instance.now.rows) walks table.now
        → offsets.items ≡ map (nodes.odijk_range (net_of instance.now) slacks.now) walks) }
    ensures long { IfOk result (λ offsets. length offsets.items ≡ length table.now) }
{
    let mut offsets = Vec::new(alloc);
    for nets in table {
        offsets.push(odijk_range(instance, nets.counts(), slacks))?;
    }
    Ok(offsets)
}

/// The ranges of the root: a slack may be 0 to the row's span, an offset as Odijk's bounds allow.
pub fn root(alloc: Global, instance: &Instance, table: &[Nets]) -> Result<Ranges, AllocError>
    requires { All (AreSmallCounts (length instance.now.rows)) table.now }
    ensures ranges { IfOk result (AreRanges instance.now) }
    ensures cycles { IfOk result (λ ranges. length ranges.offsets.items ≡ length table.now) }
    ensures node { IfOk result (λ ranges. (walks : List (List SignedRow))
        → AreNets (length instance.now.rows) walks table.now
        → node_of ranges ≡ nodes.root (net_of instance.now) walks) }
{
    let slacks = root_slacks(alloc, instance)?;
    let offsets = root_offsets(alloc, instance, table, &slacks)?;
    Ok(Ranges {
        slacks,
        offsets,
        idle: 0,
    })
}
