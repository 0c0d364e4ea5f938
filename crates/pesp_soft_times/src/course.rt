//! How far the search is: groups of individuals, a merge with the timetable of others, and rounds of reheats, one anneal after
//! another.

use crate::effort::{SoftEffort, may_merge};
use crate::merge::Merge;
use crate::plans::{between, individual, reheat};
use crate::soft_search::{Anneal, Annealed, SoftSearch};
use pesp_network::Network;
use pesp_problem::Memory;
use pesp_soft_annealing::AnnealPlan;
use pesp_timetables::Found;
use std::alloc::Global;
use std::mem::replace;

/// How many anneals there are between the clusters of a merge.
const BETWEEN: u32 = 3;

/// How many pieces there are at most of what was begun.
const MOST_PIECES: u32 = 1_000_000;

/// What a pool is of: individuals; the best of before and a timetable of others; or reheats of a timetable, and that.
#[derive(Clone, Copy)]
enum PoolStage {
    Group,
    Join,
    Round,
}

/// What comes next: an anneal of a whole timetable, one between the clusters of a merge, or nothing.
#[derive(Clone, Copy, PartialEq, Eq)]
enum NextAnneal {
    Anneal,
    Between,
    Nothing,
}

/// How far the search is: from which timetable it anneals, and what has to be undercut; the anneal that isn't over; a pool, and how
/// many anneals it has had; the merge of a pool; how many pools of this stage were merged, and how many in turn led to nothing
/// cheaper.
#[derive(Drop)]
pub(crate) struct Course {
    stage: PoolStage,
    next: NextAnneal,
    effort: SoftEffort,
    from: Vec<u32>,
    before: Option<u64>,
    anneal: Option<Anneal>,
    pool: Vec<Found>,
    made: u32,
    merge: Option<Merge>,
    done: u32,
    quiet: u32,
}

impl Course {
    /// Nothing was begun.
    pub(crate) fn none(alloc: Global) -> Course {
        Course {
            stage: PoolStage::Group,
            next: NextAnneal::Nothing,
            effort: SoftEffort::after(0, 0),
            from: Vec::new(alloc),
            before: None,
            anneal: None,
            pool: Vec::new(alloc),
            made: 0,
            merge: None,
            done: 0,
            quiet: 0,
        }
    }

    /// Begins a stage of so much work, without a pool.
    fn begin(&mut self, stage: PoolStage, effort: &SoftEffort) {
        self.stage = stage;
        self.effort = *effort;
        self.next = NextAnneal::Anneal;
        self.made = 0;
        self.done = 0;
        self.quiet = 0;
    }

    /// How a whole timetable is annealed next, and how often that is for a pool.
    fn plan(&self) -> (AnnealPlan, u32) {
        let effort = &self.effort;
        match self.stage {
            PoolStage::Round => (reheat(effort.again, self.made), effort.reheats),
            _ => (individual(effort.sweeps, effort.prices), effort.individuals),
        }
    }

    /// Counts a pool that led to this, and notes what has to be undercut from now on.
    fn count(&mut self, best: &Option<Found>) {
        let cost = best.as_ref().map_or(u64::MAX, |found| found.cost);
        let is_cheaper = cost < self.before.unwrap_or(u64::MAX);
        self.done = self.done.saturating_add(1);
        self.made = 0;
        self.quiet = self.quiet.saturating_add(1);
        if is_cheaper {
            self.quiet = 0;
            self.before = Some(cost);
        }
    }

    /// Reheats this timetable from now on.
    fn take(&mut self, found: Found) {
        self.before = Some(found.cost);
        self.from = found.slacks;
    }

    /// Goes on with the next pool, unless there were enough, or enough in turn that led to nothing cheaper.
    fn go_again(&mut self) {
        let effort = &self.effort;
        let (most, patience) = match self.stage {
            PoolStage::Round => (effort.rounds, effort.quiet),
            _ => (effort.groups, effort.patience),
        };
        self.next = if self.done < most && self.quiet < patience {
            NextAnneal::Anneal
        } else {
            NextAnneal::Nothing
        };
    }
}

impl SoftSearch {
    /// Begins groups of new individuals from the slacks of a timetable, each to be merged, until some in turn found nothing
    /// cheaper.
    pub fn begin(
        &mut self,
        network: &Network,
        slacks: &[u32],
        effort: &SoftEffort,
    ) -> Result<(), Memory> {
        if !effort.has_groups() {
            return Ok(());
        }
        let Some(lower) = self.descend(network, slacks)? else {
            return Ok(());
        };
        self.course.begin(PoolStage::Group, effort);
        self.course.from = lower;
        self.course.before = self.cheapest.cost();
        Ok(())
    }

    /// Begins a merge with the cheapest timetable of others, where it isn't known, and reheats of the best.
    pub fn go_on(
        &mut self,
        network: &Network,
        other: Option<&Found>,
        effort: &SoftEffort,
    ) -> Result<(), Memory> {
        if self.cheapest.found().is_none() {
            return Ok(());
        }
        if let Some(found) = other
            && self.joined != Some(found.cost)
        {
            self.joined = Some(found.cost);
            self.course.begin(PoolStage::Join, effort);
            self.course.pool = self.parents(found)?;
            return self.open_merge(network);
        }
        self.begin_rounds(effort)
    }

    /// Whether nothing is left of what was begun.
    pub fn is_over(&self) -> bool {
        self.course.next == NextAnneal::Nothing
    }

    /// Whether an anneal has begun that isn't over.
    pub fn is_annealing(&self) -> bool {
        self.course.anneal.is_some()
    }

    /// Makes the next piece of what was begun: an anneal, or some sweeps of it where there are many rows.
    pub fn make_piece(&mut self, network: &Network) -> Result<(), Memory> {
        match self.course.next {
            NextAnneal::Anneal => self.anneal_whole(network),
            NextAnneal::Between => self.anneal_between(network),
            NextAnneal::Nothing => Ok(()),
        }
    }

    /// Makes all that is left of what was begun.
    pub fn end(&mut self, network: &Network) -> Result<(), Memory> {
        for _ in 0..MOST_PIECES {
            if self.is_over() {
                break;
            }
            self.make_piece(network)?;
        }
        Ok(())
    }

    /// Whether another timetable costs at most a 16th more than the cheapest one.
    fn is_near(&self, other: &Found) -> bool {
        match self.cheapest.cost() {
            Some(least) => may_merge(other.cost, least),
            None => true,
        }
    }

    /// What is merged: the best of each group, once, or the cheapest one; and another timetable, unless it is far dearer.
    fn parents(&mut self, other: &Found) -> Result<Vec<Found>, Memory> {
        let mut pool = replace(&mut self.tops, Vec::new(self.alloc));
        if pool.is_empty()
            && let Some(best) = self.cheapest.found()
        {
            pool.push(best.copy(self.alloc)?)?;
        }
        if self.is_near(other) {
            pool.push(other.copy(self.alloc)?)?;
        }
        Ok(pool)
    }

    /// Begins rounds of reheats of the cheapest timetable.
    fn begin_rounds(&mut self, effort: &SoftEffort) -> Result<(), Memory> {
        self.course.next = NextAnneal::Nothing;
        let Some(best) = self.cheapest.found() else {
            return Ok(());
        };
        if effort.rounds == 0 {
            return Ok(());
        }
        let best = best.copy(self.alloc)?;
        self.course.begin(PoolStage::Round, effort);
        self.course.before = Some(best.cost);
        self.course.from = best.slacks;
        Ok(())
    }

    /// Goes on with an anneal, which begins from these slacks by this plan where none has begun.
    fn anneal_some(
        &mut self,
        network: &Network,
        slacks: &[u32],
        plan: AnnealPlan,
    ) -> Result<Annealed, Memory> {
        let begun = match self.course.anneal.take() {
            Some(anneal) => Some(anneal),
            None => self.begin_anneal(network, slacks, plan)?,
        };
        let Some(mut anneal) = begun else {
            return Ok(Annealed::Over(None));
        };
        let done = self.go_on_annealing(network, &mut anneal);
        match done {
            Ok(Annealed::Begun) => {
                self.course.anneal = Some(anneal);
                Ok(Annealed::Begun)
            }
            done => {
                drop(anneal);
                done
            }
        }
    }

    /// Goes on with an individual, or a reheat; then comes their merge, where there are enough.
    fn anneal_whole(&mut self, network: &Network) -> Result<(), Memory> {
        let (plan, most) = self.course.plan();
        let from = replace(&mut self.course.from, Vec::new(self.alloc));
        let done = self.anneal_some(network, &from, plan);
        self.course.from = from;
        let Annealed::Over(found) = done? else {
            return Ok(());
        };
        if let Some(found) = found {
            self.note(network, &found)?;
            self.course.pool.push(found)?;
        }
        self.course.made = self.course.made.saturating_add(1);
        if self.course.made < most {
            return Ok(());
        }
        self.add_reheated()?;
        self.open_merge(network)
    }

    /// Puts what was reheated behind its reheats.
    fn add_reheated(&mut self) -> Result<(), Memory> {
        if let (PoolStage::Round, Some(cost)) = (self.course.stage, self.course.before) {
            let slacks = Vec::from_slice(self.alloc, &self.course.from)?;
            self.course.pool.push(Found { slacks, cost })?;
        }
        Ok(())
    }

    /// Opens the merge of a pool; where there is nothing to search between clusters, it is closed at once.
    fn open_merge(&mut self, network: &Network) -> Result<(), Memory> {
        let pool = &mut self.course.pool;
        if pool.len() > 1 {
            pool.sort_unstable_by_key(|found| found.cost);
            self.course.merge = Merge::of(self.alloc, network, pool)?;
        }
        self.course.made = 0;
        self.course.next = NextAnneal::Between;
        if self.course.merge.is_some() {
            return Ok(());
        }
        self.close_merge(network)
    }

    /// Goes on with an anneal between the clusters of a merge; they begin in turn from the best and the second of the pool.
    fn anneal_between(&mut self, network: &Network) -> Result<(), Memory> {
        let number = self.course.made;
        let mut merge = self.course.merge.take();
        let done = match &mut merge {
            Some(merge) => self.search_between(merge, number),
            None => Ok(true),
        };
        self.course.merge = merge;
        if !done? {
            return Ok(());
        }
        self.course.made = number.saturating_add(1);
        if self.course.made < BETWEEN {
            return Ok(());
        }
        self.close_merge(network)
    }

    /// Goes on with the anneal of this number between clusters; whether it is over.
    fn search_between(&mut self, merge: &mut Merge, number: u32) -> Result<bool, Memory> {
        let pool = &self.course.pool;
        let from = (number as usize % 2).min(pool.len().saturating_sub(1));
        let Some(parent) = pool.get(from) else {
            return Ok(true);
        };
        let slacks = merge.contraction.taken_from(self.alloc, &parent.slacks)?;
        let plan = between(self.course.effort.between, number);
        match self.anneal_some(&merge.contraction.network, &slacks, plan)? {
            Annealed::Begun => Ok(false),
            Annealed::Over(found) => {
                if let Some(found) = found {
                    merge.note(found.cost, &found.slacks);
                }
                Ok(true)
            }
        }
    }

    /// Makes the first of the pool, the cheapest one, what the merge found where that is cheaper; and leaves the others.
    fn close_merge(&mut self, network: &Network) -> Result<(), Memory> {
        let merge = self.course.merge.take();
        let mut pool = replace(&mut self.course.pool, Vec::new(self.alloc));
        if let (Some(merge), Some(first)) = (&merge, pool.first_mut()) {
            merge.put_into(network, first);
        }
        drop(merge);
        pool.truncate(1);
        let best = pool.pop();
        if let Some(best) = &best {
            self.note(network, best)?;
        }
        self.go_behind(best)
    }

    /// Goes on behind the merge of a pool that led to this.
    fn go_behind(&mut self, best: Option<Found>) -> Result<(), Memory> {
        let effort = self.course.effort;
        self.course.count(&best);
        match (self.course.stage, best) {
            (PoolStage::Join, _) => return self.begin_rounds(&effort),
            (PoolStage::Group, Some(top)) => self.tops.push(top)?,
            (PoolStage::Round, Some(found)) => self.course.take(found),
            _ => {}
        }
        self.course.go_again();
        Ok(())
    }
}
