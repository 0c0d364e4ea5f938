//! The parts of a board that goes on from a valid certificate.

ghost use Rattle.std.specs.Prelude.{◌≡◌, ◌≤◌, ◌∷◌, [], length, map, sum_by, true, IsSome, IfOk, None};
ghost use Rattle.pesp_problem.specs.declared.limits.TheConstants.{MOST_LINES};
ghost use Rattle.pesp_problem.specs.Limits as instances;
ghost use Rattle.pesp_problem.specs.Nodes as spec;
ghost use Rattle.pesp_truth.specs.Trees.{Bound, Nothing, EndLine, are_trees, line_of};
ghost use Rattle.pesp_truth.specs.Certificates as certificates;
ghost use Rattle.pesp_truth.specs.Certificates.{IsValid, lines_of, shown_times};
ghost use Rattle.pesp_cert.specs.Limits.{ContentKeepsLimits};
ghost use Rattle.pesp_nodes.specs.Problems.{ProblemValue, problem_net, IsNodeOf, ArePairs};
ghost use Rattle.pesp_tree.specs.WorkTrees.{IsWhole};
ghost use Rattle.pesp_tree.specs.Adopting.{shown_best};
ghost use Rattle.pesp_tree.specs.Certificates.{IsProblemOf};
ghost use Rattle.pesp_tree.specs.Limits.{pairs_in, IsLineOf};
ghost use Rattle.pesp_tree.specs.States.{root_of};
ghost use Rattle.pesp_board.specs.Insides as insides;
ghost use Rattle.pesp_board.specs.Insides.{times_of};
ghost use Rattle.pesp_board.specs.Parts.{part_line, part_lines, AreValued};
ghost use Rattle.pesp_board.specs.Grafting.{IsValuedPart};
ghost use Rattle.pesp_board.specs.Adopting.{IsSoundForSome, AreNodesOf, AreSoundLines, AreLinesOf, IsPlantedAlone, IsGrownOf};

use crate::best::Best;
use crate::certification::copy_table;
use crate::give::size_with;
use crate::grafts::pass;
use crate::made_parts::{bound, closed, copy_of};
use crate::part::Part;
use crate::replacement::plant;
use pesp_cert::Certificate;
use pesp_network::Network;
use pesp_nodes::{Node, NodeWalk, Problem, ProblemRefusal, leaf_value};
use pesp_problem::{Cut, Instance, Memory, Pair};
use pesp_tree::{Leaf, Queue, WorkTree};
use pesp_truth::{Answer, TreeLine};
use std::alloc::Global;

/// What a board keeps of a certificate beside its cycles.
#[derive(Drop)]
pub(crate) struct AdoptedTree {
    pub(crate) tree: WorkTree,
    pub(crate) queue: Queue,
    pub(crate) best: Option<Best>,
    pub(crate) pairs: u64,
}

/// An instance and a certificate keep their limits.
pub(crate) fn keep_limits(instance: &Instance, certificate: &Certificate)
    ensures instance { instances.KeepsLimits instance.now }
    ensures certificate { ContentKeepsLimits certificate.now }
{
    instance.period();
    certificate.answer();
}

/// The problem of an instance and the cycles of a valid certificate.
pub(crate) fn problem_of(
    alloc: Global,
    instance: &Instance,
    certificate: &Certificate,
) -> Result<Problem, Memory>
    requires { IsValid None instance.now certificate.now }
    ensures problem { IfOk result (IsProblemOf instance.now) }
    ensures cycles { IfOk result (λ problem. problem.table ≡ certificate.now.cycles) }
{
    let network = Network::of(alloc, instance)?;
    let table = copy_table(alloc, certificate.cycles())?;
    match Problem::new(alloc, network, table) {
        Ok(problem) => Ok(problem),
        Err(ProblemRefusal::Memory) => Err(Memory),
        Err(ProblemRefusal::TableTooLarge) => unreachable!(),
        Err(ProblemRefusal::OpenWalk { .. }) => unreachable!(),
    }
}

/// Times without the labels of their events.
fn unlabelled(alloc: Global, shown: &[(i64, u32)]) -> Result<Vec<u32>, Memory>
    ensures { IfOk result (λ times. times.items ≡ map (λ t. t.1) shown.now) }
{
    let times = shown.iter().map(|time| time.1);
    Ok(times.collect(alloc)?)
}

/// The times that a certificate shows, with their cost; None where its answer has no cost.
fn best_of(alloc: Global, certificate: &Certificate) -> Result<Option<Best>, Memory>
    ensures times { IfOk result
        (λ best. times_of best ≡ shown_best certificate.now.answer (shown_times certificate.now)) }
    ensures cost { IfOk result
        (λ best. insides.best_cost_of best ≡ certificates.cost_of certificate.now.answer) }
{
    let Some(cost) = certificate.answer().cost() else {
        return Ok(None);
    };
    let times = unlabelled(alloc, certificate.times())?;
    Ok(Some(Best { times, cost }))
}

/// A bound leaf of pairs that have a value.
fn valued_bound(
    alloc: Global,
    problem: &Problem,
    node: &Node,
    pairs: &[Pair],
) -> Result<Part, Memory>
    requires node { IsNodeOf problem.now node.now }
    requires pairs { ArePairs (length problem.now.table) pairs.now }
    requires value { IsSome
        (spec.leaf_value (problem_net problem.now) problem.now.table node.now pairs.now true) }
    ensures line { IfOk result (λ part. part_line part ≡ EndLine (Bound pairs.now)) }
    ensures valued { IfOk result (IsValuedPart problem.now node.now) }
{
    let Some(value) = leaf_value(problem, node, pairs, true) else {
        unreachable!();
    };
    Ok(Part::Leaf(bound(copy_of(alloc, pairs)?, value)))
}

/// A leaf of pairs that show that no timetable lies in a node.
fn valued_nothing(alloc: Global, pairs: &[Pair]) -> Result<Part, Memory>
    ensures line { IfOk result (λ part. part_line part ≡ EndLine (Nothing pairs.now)) }
    ensures valued { (p : ProblemValue) (node : spec.Node)
        → IfOk result (IsValuedPart p node) }
{
    let copy = copy_of(alloc, pairs)?;
    Ok(Part::Leaf(closed(Leaf::Nothing(copy))))
}

/// The part of a line that is sound at a node.
fn valued_part(
    alloc: Global,
    problem: &Problem,
    node: &Node,
    line: &TreeLine,
) -> Result<Part, Memory>
    requires node { IsNodeOf problem.now node.now }
    requires sound { IsSoundForSome problem.now node.now (line_of line.now) }
    requires limits { IsLineOf problem.now (line_of line.now) }
    ensures line { IfOk result (λ part. part_line part ≡ line_of line.now) }
    ensures valued { IfOk result (IsValuedPart problem.now node.now) }
{
    match line {
        TreeLine::Slack { row, k } => Ok(Part::Cut(Cut::Slack { row: *row, k: *k })),
        TreeLine::Offset { cycle, k } => Ok(Part::Cut(Cut::Offset {
            cycle: *cycle,
            k: *k,
        })),
        TreeLine::Bound(pairs) => valued_bound(alloc, problem, node, pairs.as_slice()),
        TreeLine::Nothing(pairs) => valued_nothing(alloc, pairs.as_slice()),
        TreeLine::Gap(cycle) => Ok(Part::Leaf(closed(Leaf::Gap(*cycle)))),
        TreeLine::Propagated => Ok(Part::Leaf(closed(Leaf::Propagated))),
    }
}

/// The parts of lines that are sound trees at the nodes of a walk.
fn value_lines(
    alloc: Global,
    problem: &Problem,
    walk: &mut NodeWalk,
    lines: &[TreeLine],
) -> Result<Vec<Part>, Memory>
    requires nodes { AreNodesOf problem.now walk.old }
    requires sound { AreSoundLines problem.now (map line_of lines.now) walk.old }
    requires limits { AreLinesOf problem.now (map line_of lines.now) }
    ensures lines { IfOk result (λ parts. part_lines parts.items ≡ map line_of lines.now) }
    ensures valued { IfOk result (λ parts. AreValued problem.now walk.old parts.items) }
{
    let mut parts = Vec::new(alloc);
    for line in lines {
        let part = valued_part(alloc, problem, walk.node(), line)?;
        pass(walk, &part)?;
        parts.push(part)?;
    }
    Ok(parts)
}

/// The parts of a certificate's tree, which is sound, and how many pairs they have.
fn parts_of_tree(
    alloc: Global,
    problem: &Problem,
    certificate: &Certificate,
) -> Result<(Vec<Part>, u64), Memory>
    requires { AreSoundLines problem.now (lines_of certificate.now) (root_of problem.now ∷ []) }
    ensures lines { IfOk result (λ made. part_lines made.0.items ≡ lines_of certificate.now) }
    ensures valued { IfOk result
        (λ made. AreValued problem.now (root_of problem.now ∷ []) made.0.items) }
    ensures pairs { IfOk result (λ made. made.1 ≡ sum_by pairs_in (lines_of certificate.now)) }
    ensures shape { IfOk result (λ made. are_trees 1 (part_lines made.0.items) ≡ true) }
    ensures few { IfOk result (λ made. length made.0.items ≤ MOST_LINES) }
{
    let mut walk = NodeWalk::new(alloc, problem.root(alloc)?);
    let parts = value_lines(alloc, problem, &mut walk, certificate.tree())?;
    let Some(pairs) = size_with(1, 0, &parts) else {
        unreachable!();
    };
    Ok((parts, pairs))
}

/// The tree of these parts, and the queue of its bound leaves.
fn plant_alone(alloc: Global, parts: Vec<Part>) -> Result<(WorkTree, Queue), Memory>
    requires shape { are_trees 1 (part_lines parts.items) ≡ true }
    requires few { length parts.items ≤ MOST_LINES }
    ensures planted { IfOk result (λ made. IsPlantedAlone parts.items made.0 made.1) }
    ensures whole { IfOk result (λ made. IsWhole made.0) }
{
    let mut turned = parts;
    let lines = turned.len() as u32;
    let mut waiting = Vec::new(alloc);
    waiting.push(0)?;
    waiting.reserve(turned.len())?;
    let mut tree = WorkTree::new(alloc)?;
    tree.reserve(lines - 1)?;
    let mut queue = Queue::new(alloc);
    queue.reserve(lines, lines)?;
    turned.reverse();
    plant(&mut tree, &mut queue, &mut waiting, turned);
    Ok((tree, queue))
}

/// What a board keeps of a certificate whose tree is sound.
pub(crate) fn kept_of(
    alloc: Global,
    problem: &Problem,
    certificate: &Certificate,
) -> Result<AdoptedTree, Memory>
    requires { AreSoundLines problem.now (lines_of certificate.now) (root_of problem.now ∷ []) }
    ensures grown { IfOk result
        (λ kept. IsGrownOf problem.now certificate.now kept.tree kept.queue kept.pairs) }
    ensures times { IfOk result (λ kept. times_of kept.best
        ≡ shown_best certificate.now.answer (shown_times certificate.now)) }
    ensures cost { IfOk result
        (λ kept. insides.best_cost_of kept.best ≡ certificates.cost_of certificate.now.answer) }
{
    let best = best_of(alloc, certificate)?;
    let (parts, pairs) = parts_of_tree(alloc, problem, certificate)?;
    let (tree, queue) = plant_alone(alloc, parts)?;
    Ok(AdoptedTree {
        tree,
        queue,
        best,
        pairs,
    })
}
