//! What is searched: the instance's network with the lifted cycles of what is left of it.

ghost use Rattle.std.specs.Prelude.{◌≡◌, ◌<◌, ◌≤◌, ◌*◌, ℕ, length, All, IfOk, IfErr};
ghost use Rattle.pesp_problem.specs.Arcs.{arcs_of};
ghost use Rattle.pesp_problem.specs.Walks.{IsWalk};
ghost use Rattle.pesp_problem.specs.Forests.{IsSpanningForest, AreFundamental, IsSimple};
ghost use Rattle.pesp_network.specs.Networks.{arcs_of_network};
ghost use Rattle.pesp_tree.specs.Certificates.{IsProblemOf};
ghost use Rattle.pesp_branching.specs.Lifted.{IsReduced, AreLifted, IsFrugal};
ghost use Rattle.pesp_turns.specs.Settling.{IsSearched};
ghost use Rattle.pesp_search.specs.Refusals.{MeetsLimit};
ghost use Rattle.pesp_search.specs.Solving.{IsSearchRefusal};

use crate::refusal::SolveRefusal;
use pesp_branching::lifts::{lifted_tables_are_frugal, tables_are_small};
use pesp_network::{NetRefusal, Network};
use pesp_nodes::{Problem, ProblemRefusal};
use pesp_problem::{Instance, Memory, Walk};
use pesp_reduce::Reduced;
use std::alloc::Global;

/// The fundamental walks of what is left.
fn walks_of(alloc: Global, reduced: &Reduced) -> Result<Vec<Walk>, SolveRefusal>
    requires reduced { IsReduced reduced.now }
    requires spans { IsSpanningForest
        (arcs_of_network reduced.now.network.rows) reduced.now.network.forest }
    ensures fundamental { IfOk result (λ v. AreFundamental
        (arcs_of_network reduced.now.network.rows) reduced.now.network.forest v.items) }
    ensures simple { IfOk result
        (λ v. All (IsSimple (arcs_of_network reduced.now.network.rows)) v.items) }
    ensures refused { IfErr result (IsSearchRefusal reduced.now.original 0) }
    ensures passed { IfErr result (MeetsLimit reduced.now.original 0) }
{
    tables_are_small();
    match reduced.network().cycles(alloc) {
        Ok(walks) => Ok(walks),
        Err(NetRefusal::TableTooLarge) => Err(SolveRefusal::TableTooLarge),
        Err(_) => Err(SolveRefusal::Memory),
    }
}

/// Walks of what is left, as they are lifted.
fn lifted_table(alloc: Global, reduced: &Reduced, walks: &[Walk]) -> Result<Vec<Walk>, Memory>
    requires { All (IsWalk (arcs_of_network reduced.now.network.rows)) walks.now }
    ensures { IfOk result (λ v. AreLifted reduced.now walks.now v.items) }
{
    let mut table = Vec::new(alloc);
    for walk in walks {
        table.push(reduced.lift_walk(alloc, walk)?)?;
    }
    Ok(table)
}

/// The instance's network with the lifted walks.
fn problem_of(
    alloc: Global,
    instance: &Instance,
    reduced: &Reduced,
    walks: &[Walk],
) -> Result<Problem, SolveRefusal>
    requires original { reduced.now.original ≡ instance.now }
    requires reduced { IsReduced reduced.now }
    requires spans { IsSpanningForest
        (arcs_of_network reduced.now.network.rows) reduced.now.network.forest }
    requires fundamental { AreFundamental (arcs_of_network reduced.now.network.rows)
        reduced.now.network.forest walks.now }
    requires simple { All (IsSimple (arcs_of_network reduced.now.network.rows)) walks.now }
    ensures of { IfOk result (IsProblemOf instance.now) }
    ensures lifted { IfOk result (λ p. AreLifted reduced.now walks.now p.table) }
    ensures frugal { IfOk result (λ p. IsFrugal p.table) }
    ensures refused { IfErr result (IsSearchRefusal instance.now 0) }
    ensures passed { IfErr result (MeetsLimit instance.now 0) }
{
    lifted_tables_are_frugal();
    let _limits = instance.rows();
    let table = lifted_table(alloc, reduced, walks)?;
    let network = Network::of(alloc, instance)?;
    match Problem::new(alloc, network, table) {
        Ok(problem) => Ok(problem),
        Err(ProblemRefusal::Memory) => Err(SolveRefusal::Memory),
        Err(ProblemRefusal::TableTooLarge) => Err(SolveRefusal::TableTooLarge),
        Err(ProblemRefusal::OpenWalk { .. }) => unreachable!(),
    }
}

/// The problem that is searched: the instance's network with the lifted walks of what is left of it.
pub(crate) fn problem_for(
    alloc: Global,
    instance: &Instance,
    reduced: &Reduced,
) -> Result<Problem, SolveRefusal>
    requires original { reduced.now.original ≡ instance.now }
    requires reduced { IsReduced reduced.now }
    ensures of { IfOk result (IsProblemOf instance.now) }
    ensures searched { IfOk result (λ p. IsSearched p reduced.now) }
    ensures frugal { IfOk result (λ p. IsFrugal p.table) }
    ensures few { IfOk result (λ p. length p.table ≤ length instance.now.rows) }
    ensures refused { IfErr result (IsSearchRefusal instance.now 0) }
    ensures passed { IfErr result (MeetsLimit instance.now 0) }
{
    let _limits = instance.rows();
    let _spans = reduced.network().rows();
    let walks = walks_of(alloc, reduced)?;
    problem_of(alloc, instance, reduced, &walks)
}
