//! Boards.

ghost use Rattle.std.specs.Prelude.{◌≡◌, length, IfOk, IfSome, option_map, None};
ghost use Rattle.pesp_nodes.specs.Problems.{ArePairs};
ghost use Rattle.pesp_tree.specs.Entries.{ItemsDiffer};
ghost use Rattle.pesp_tree.specs.Queues.{all_of};
ghost use Rattle.pesp_network.specs.Networks.{KeepsNetLimits};
ghost use Rattle.pesp_tree.specs.States.{opening, best_cost, least, IsAtMost, TellsLeaf};
ghost use Rattle.pesp_tree.specs.Reached.{IsOrderly};
ghost use Rattle.pesp_tree.specs.Events.{Lends, Gives, Recalls, Offers};
ghost use Rattle.pesp_tree.specs.Adopting.{Adopts, LendsAll};
ghost use Rattle.pesp_tree.specs.Certificates.{IsProblemOf, IsCertificateOf};
ghost use Rattle.pesp_truth.specs.Certificates.{IsValid, least_of, cost_of};
ghost use Rattle.pesp_board.specs.Lending.{LendsCuts, LendsFirst};
ghost use Rattle.pesp_board.specs.OpenLeaves.{AreOpen};

use crate::adoption::{keep_limits, kept_of, problem_of};
use crate::best;
use crate::best::Best;
use crate::certification::{answer_of, copy_table, shown_times, version_of};
use crate::give::{lent_with, make_at};
use crate::lend::{bound_pairs, is_cheaper, is_lent, lend_entry};
use crate::lending_all::{lend_nodes, open_nodes, park_open};
use crate::replacement::take;
use crate::slot::{Slot, lent_node};
use crate::timetable::judge;
use pesp_cert::Certificate;
use pesp_nodes::{Pair, Problem};
use pesp_problem::{Instance, Memory};
use pesp_tree::{GiveRefusal, Job, LendRefusal, Queue, Work, WorkTree};
use std::alloc::Global;
use std::marker::Model;

/// The tree under work: open leaves are lent under numbers, and what is given for them is judged before it is taken.
#[derive(Drop)]
pub struct Board {
    problem: Problem,
    tree: WorkTree,
    slots: Vec<Slot>,
    queue: Queue,
    best: Option<Best>,
    pairs: u64,
}

impl Model for Board {
    ghost use Rattle.pesp_tree.specs.EventCodes.{board_code};
    ghost use Rattle.pesp_tree.specs.States.{BoardValue};
    ghost use Rattle.pesp_board.specs.Insides.{times_of, state_of, IsBoard};

    ghost Value = { BoardValue };

    ghost coded = { board_code };

    ghost view = { λ b. record {
      problem = b.problem;
      state = state_of b.tree b.slots.items (times_of b.best);
    } };

    ghost invariant = { λ b. IsBoard b.problem b.tree b.slots.items b.queue b.best b.pairs };
}

/// No item stands in a queue twice.
fn items_differ(queue: &Queue)
    ensures { ItemsDiffer (all_of queue.now) }
{
    queue.first();
}

impl Board {
    /// A board of this problem: one bound leaf without pairs, no number and no times. The one refusal is of memory.
    pub fn new(alloc: Global, problem: Problem) -> Result<Board, Memory>
        ensures { IfOk result (λ board. board ≡ record { problem = problem; state = opening }) }
    {
        problem.keeps_limits();
        let tree = WorkTree::new(alloc)?;
        let mut queue = Queue::new(alloc);
        queue.reserve(1, 1)?;
        queue.insert(0, 0);
        Ok(Board {
            problem,
            tree,
            slots: Vec::new(alloc),
            queue,
            best: None,
            pairs: 0,
        })
    }

    /// A board that goes on from a valid certificate of an instance: it has the certificate's cycles, tree and times, and no
    /// number. The one refusal is of memory.
    pub fn adopt(
        alloc: Global,
        instance: &Instance,
        certificate: &Certificate,
    ) -> Result<Board, Memory>
        requires { IsValid None instance.now certificate.now }
        ensures adopts { IfOk result (λ board. Adopts certificate.now board.state) }
        ensures problem { IfOk result (λ board. IsProblemOf instance.now board.problem) }
        ensures cycles { IfOk result (λ board. board.problem.table ≡ certificate.now.cycles) }
        ensures bound { IfOk result (λ board. IsAtMost (least_of certificate.now.answer)
            (least board.problem board.state)) }
        ensures cost { IfOk result
            (λ board. best_cost board.problem board.state ≡ cost_of certificate.now.answer) }
    {
        keep_limits(instance, certificate);
        let problem = problem_of(alloc, instance, certificate)?;
        problem.keeps_limits();
        let kept = kept_of(alloc, &problem, certificate)?;
        Ok(Board {
            problem,
            tree: kept.tree,
            slots: Vec::new(alloc),
            queue: kept.queue,
            best: kept.best,
            pairs: kept.pairs,
        })
    }

    /// The problem.
    pub fn problem(&self) -> &Problem
        ensures { result.now ≡ self.now.problem }
    {
        &self.problem
    }

    /// The cost of the best times; None where there are none.
    pub fn best(&self) -> Option<u64>
        ensures cost { result ≡ best_cost self.now.problem self.now.state }
        ensures orderly { IsOrderly self.now.problem self.now.state }
        ensures limits { KeepsNetLimits self.now.problem.network }
    {
        best::cost_of(&self.best)
    }

    /// The least value of a bound leaf, lent or not, one above 999999999999999999 told as that number; None where there is
    /// no bound leaf.
    pub fn least(&self) -> Option<u64>
        ensures value { result ≡ least self.now.problem self.now.state }
        ensures orderly { IsOrderly self.now.problem self.now.state }
        ensures limits { KeepsNetLimits self.now.problem.network }
    {
        self.queue.least()
    }

    /// How many leaves are open: bound leaves that aren't lent and whose value is below the best cost, where there is one.
    pub fn open_leaves(&self) -> usize
        ensures { AreOpen self.now.problem self.now.state result }
    {
        items_differ(&self.queue);
        self.queue.waiting_below(best::most_of(&self.best))
    }

    /// Whether the number is lent now; then it is spent, and its leaf isn't lent any more. Takes no memory.
    pub fn recall(&mut self, number: u64) -> bool
        ensures state { Recalls self.old.state number result self.new.state }
        ensures problem { self.new.problem ≡ self.old.problem }
    {
        match lent_node(&self.slots, number) {
            None => false,
            Some(node) => {
                self.queue.unpark(node);
                items_differ(&self.queue);
                self.slots[number as usize] = Slot::Recalled;
                true
            }
        }
    }

    /// Lends an open leaf of least value, as `least` tells values: a bound leaf that isn't lent and whose value is below the
    /// best cost, where there is one. None where no leaf is open. Refused as `NumbersSpent` where a leaf is open, but 1000000
    /// numbers are gone, and as `Memory` where a growth was refused; nothing has changed then. The cuts on the way to the
    /// leaf are cuts of the problem.
    pub fn lend(&mut self, alloc: Global) -> Result<Option<Job>, LendRefusal>
        ensures state { Lends self.old.problem self.old.state result self.new.state }
        ensures first { LendsFirst self.old.problem self.old.state result }
        ensures cuts { LendsCuts self.old.problem result }
        ensures problem { self.new.problem ≡ self.old.problem }
    {
        items_differ(&self.queue);
        let Some(first) = self.queue.park() else {
            return Ok(None);
        };
        let reply = lend_entry(alloc, &self.tree, &self.best, &mut self.slots, first);
        if is_lent(&reply) {
            return reply;
        }
        self.queue.unpark(first.item);
        items_differ(&self.queue);
        reply
    }

    /// Lends each open leaf, numbered in the order of the tree's lines. Refused as `NumbersSpent` where that would be more than
    /// 1000000 numbers in all, and as `Memory` where a growth was refused; nothing is lent then.
    pub fn lend_all(&mut self, alloc: Global) -> Result<Vec<Job>, LendRefusal>
        ensures state { LendsAll self.old.problem self.old.state result self.new.state }
        ensures problem { self.new.problem ≡ self.old.problem }
    {
        items_differ(&self.queue);
        let nodes = open_nodes(alloc, &self.tree, &self.queue, &self.best)?;
        let jobs = lend_nodes(alloc, &self.tree, &nodes, &mut self.slots)?;
        park_open(&mut self.queue, &self.best);
        Ok(jobs)
    }

    /// Takes work on the leaf with which the number is lent, and the number is given: a `Leaf` keeps the pairs of the greater
    /// value, the old ones where both are equal; `Nothing`, `Gap` and `Propagated` close the leaf; a `Split` makes two leaves that keep the
    /// pairs, or are gaps where one of the pairs' cycles has no offset left; the lines of a `Tree`, in preorder, take the leaf's
    /// place.
    ///
    /// Refused as `UnknownJob` where the number was never lent or was recalled, as `AlreadyGiven` where something was taken for
    /// it, as `NotValid` where at the leaf's node the pairs of a `Leaf` have no value, a `Nothing`, a `Gap` or a
    /// `Propagated` isn't sound, or a cut leaves a side of its range no value (and where pairs don't rise or break their limits, or a row or a cycle doesn't
    /// exist), or the lines of a `Tree` aren't one whole tree, or a bound leaf of it has no value at its node or one below that
    /// of the leaf that is replaced; as `TooLarge` where the tree would have more than 1000000 lines or 20000000 pairs, and as
    /// `Memory` where a growth was refused. Then nothing has changed.
    pub fn give(&mut self, alloc: Global, number: u64, work: &Work) -> Result<(), GiveRefusal>
        ensures state { Gives self.old.problem self.old.state number work.now result
            self.new.state }
        ensures problem { self.new.problem ≡ self.old.problem }
    {
        self.problem.keeps_limits();
        let node = lent_with(&self.slots, number)?;
        let (parts, pairs) = make_at(alloc, &self.problem, &self.tree, self.pairs, node, work)?;
        items_differ(&self.queue);
        take(alloc, &mut self.tree, &mut self.queue, node, parts)?;
        self.slots[number as usize] = Slot::Given;
        self.pairs = pairs;
        Ok(())
    }

    /// Takes times, in the order of the network's events, and keeps them where they are a timetable that costs less than the
    /// best one; says whether they are kept. Takes no memory.
    pub fn offer(&mut self, times: Vec<u32>) -> bool
        ensures state { Offers self.old.problem self.old.state times.items result self.new.state }
        ensures problem { self.new.problem ≡ self.old.problem }
    {
        let Some(cost) = judge(&self.problem, &times) else {
            return false;
        };
        if !is_cheaper(cost, &self.best) {
            return false;
        }
        self.best = Some(Best { times, cost });
        true
    }

    /// The value of the leaf with which the number is lent now, as `least` tells values, and its pairs, which are pairs of the
    /// problem; None for any other number.
    pub fn job_leaf(&self, number: u64) -> Option<(u64, &[Pair])>
        ensures told { TellsLeaf self.now.problem self.now.state number
            (option_map (λ leaf. (leaf.0, leaf.1.now)) result) }
        ensures pairs { IfSome result
            (λ leaf. ArePairs (length self.now.problem.table) leaf.1.now) }
    {
        let Some(node) = lent_node(&self.slots, number) else {
            return None;
        };
        let Some(value) = self.queue.parked_value(node) else {
            return None;
        };
        let Some(pairs) = bound_pairs(&self.tree, node) else {
            return None;
        };
        Some((value, pairs))
    }

    /// What is known so far, as a certificate for the instance whose network the board has: optimal where the least value is
    /// at least the best cost, infeasible where there is no bound leaf, else open; with the best times, the walks of the
    /// problem as its cycles, and the tree with its pairs. It has version 2 exactly where propagation shuts a leaf of the tree,
    /// else 1. The one refusal is of memory.
    pub fn certificate(&self, alloc: Global, instance: &Instance) -> Result<Certificate, Memory>
        requires { IsProblemOf instance.now self.now.problem }
        ensures content { IfOk result
            (IsCertificateOf self.now.problem instance.now.events self.now.state) }
        ensures valid { IfOk result (IsValid None instance.now) }
    {
        let answer = answer_of(self.least(), self.best());
        let times = shown_times(alloc, instance.events(), &self.best)?;
        let cycles = copy_table(alloc, self.problem.table())?;
        let tree = self.tree.tree_lines(alloc)?;
        let period = self.problem.network().period();
        let version = version_of(&tree);
        let certificate = Certificate::new(version, period, answer, times, cycles, tree);
        Ok(certificate.unwrap())
    }
}
