//! Which event is fixed next, and to which of its differences.

ghost use Rattle.std.specs.Prelude.{◌≡◌, ℕ, ◌<◌, ◌≤◌, IfSome};

use crate::chance::Chance;
use pesp_domains::{BLOCK, Domains, Rows};
use pesp_problem::{Arc, Memory};
use std::alloc::Global;

/// The event of a block that is chosen first, and how late it is.
#[derive(Clone, Copy)]
struct Leader {
    rank: u64,
    event: u32,
}

impl Leader {
    /// No event.
    fn none() -> Leader {
        Leader {
            rank: u64::MAX,
            event: 0,
        }
    }
}

/// What one try leaves to the next: how often each event could not take the value that was tried, and chance; and the
/// difference that each event is to have, where such are given. Beside these the leader of each block of events, as it was when
/// the block was looked at.
#[derive(Drop)]
pub struct Experience {
    leaders: Vec<Leader>,
    failures: Vec<u32>,
    costs: Vec<u64>,
    targets: Vec<u32>,
    chance: Chance,
    sixteenths: u32,
}

impl Experience {
    /// Nothing has failed yet. Where targets are given, one for each event, differences near to them cost least; else those
    /// that cost least by the neighbours.
    pub fn new(
        alloc: Global,
        events: u32,
        period: u32,
        targets: Vec<u32>,
    ) -> Result<Experience, Memory> {
        Ok(Experience {
            leaders: vec![in alloc; Leader::none(); events as usize / BLOCK + 1]?,
            failures: vec![in alloc; 0u32; events as usize]?,
            costs: vec![in alloc; 0u64; period as usize]?,
            targets,
            chance: Chance::new(),
            sixteenths: 0,
        })
    }

    /// From here on chance makes each cost greater, by up to so many sixteenths.
    pub fn allow_chance(&mut self, sixteenths: u32) {
        self.sixteenths = sixteenths;
    }

    /// An event could not take the value that was tried.
    pub fn note_failure(&mut self, event: u32) {
        if let Some(count) = self.failures.get_mut(event as usize) {
            *count = count.saturating_add(1);
        }
    }

    /// How late an event is chosen that has so many differences left; never, where it has but one.
    fn rank_of(&self, event: u32, count: u32) -> u64 {
        if count < 2 {
            return u64::MAX;
        }
        match self.failures.get(event as usize).copied() {
            None | Some(0) => 1_000 * u64::from(count),
            Some(failed) => 10_000 * u64::from(count) / (10 + 3 * u64::from(failed)),
        }
    }

    /// The leader of a block, by what is left of its events.
    fn leader_of(&self, domains: &Domains, block: usize) -> Leader {
        let mut leader = Leader::none();
        for step in 0..BLOCK {
            let place = block.saturating_mul(BLOCK).saturating_add(step);
            let event = u32::try_from(place).unwrap_or(u32::MAX);
            let rank = self.rank_of(event, domains.count(event));
            if rank < leader.rank {
                leader = Leader { rank, event };
            }
        }
        leader
    }

    /// The leader of a block, which is looked at where a set of it has changed since it was.
    fn leader_at(&mut self, domains: &mut Domains, block: usize) -> Leader
        ensures { domains.new ≡ domains.old }
    {
        if domains.was_recounted(block) {
            let leader = self.leader_of(domains, block);
            if let Some(kept) = self.leaders.get_mut(block) {
                *kept = leader;
            }
        }
        self.leaders.get(block).copied().unwrap_or(Leader::none())
    }

    /// The event with the fewest differences left among those with at least two. Past failures make an event come sooner. Of the
    /// sets only those of blocks with changes since the last call are looked at.
    pub fn choose_event(&mut self, domains: &mut Domains) -> Option<u32>
        ensures event { IfSome result (λ event. event < domains.old.events) }
        ensures same { domains.new ≡ domains.old }
    {
        let mut best = Leader::none();
        for block in 0..self.leaders.len() {
            let leader = self.leader_at(domains, block);
            if leader.rank < best.rank {
                best = leader;
            }
        }
        if best.rank == u64::MAX || best.event >= domains.events() {
            return None;
        }
        Some(best.event)
    }

    /// The difference of an event that costs least: by what is left of its neighbours, the sum over its rows of weight times
    /// least slack; or by how far it is from the event's target. Chance makes each cost greater, as far as it is allowed.
    pub fn choose_difference(&mut self, domains: &Domains, rows: &Rows, event: u32) -> u32 {
        match self.targets.get(event as usize).copied() {
            Some(target) => measure_distances(&mut self.costs, target),
            None => add_up_costs(&mut self.costs, domains, rows, event),
        }
        let mut best = 0;
        let mut least = None;
        for (difference, cost) in self.costs.iter().enumerate() {
            let difference = u32::try_from(difference).unwrap_or(0);
            if domains.has(event, difference) {
                let more = self.chance.next() % self.sixteenths.saturating_add(1).max(1);
                let cost = cost.saturating_mul(16 + u64::from(more));
                if least.is_none_or(|least| cost < least) {
                    least = Some(cost);
                    best = difference;
                }
            }
        }
        best
    }
}

/// For each difference how far it is from a target round the period, and 1.
fn measure_distances(costs: &mut [u64], target: u32) {
    let period = costs.len() as u64;
    for (difference, cost) in costs.iter_mut().enumerate() {
        let one = (difference as u64).abs_diff(u64::from(target));
        *cost = one.min(period.saturating_sub(one)).saturating_add(1);
    }
}

/// For each difference of an event, the sum over its rows of weight times least slack to what is left at the other end.
fn add_up_costs(costs: &mut [u64], domains: &Domains, rows: &Rows, event: u32) {
    costs.fill(0);
    let mut row = rows.last_at(event);
    for _ in 0..rows.arcs().len() {
        let Some(arc) = rows.arcs().get((row as usize).wrapping_sub(1)) else {
            return
        };
        let is_tail = arc.tail == event;
        if arc.tail != arc.head && arc.weight > 0 {
            add_costs(costs, domains, arc, is_tail);
        }
        row = rows.before(row, is_tail);
    }
}

/// Adds what one arc costs. The other end's set is gone through twice against the arc, so that the way to the nearest
/// difference that is left is known at each place the second time.
fn add_costs(costs: &mut [u64], domains: &Domains, arc: &Arc, is_tail: bool) {
    let period = costs.len();
    let other = if is_tail { arc.head } else { arc.tail };
    let shift = shift_of(arc, domains.period()) as usize;
    let mut slack = 0u64;
    for step in 0..period.saturating_mul(2) {
        let ahead = step % period;
        let place = if is_tail { period - 1 - ahead } else { ahead };
        let is_left = domains.has(other, u32::try_from(place).unwrap_or(0));
        slack = if is_left { 0 } else { slack.saturating_add(1) };
        let own = if is_tail {
            place.wrapping_add(period).wrapping_sub(shift)
        } else {
            place.wrapping_add(shift)
        };
        if step >= period
            && let Some(cost) = costs.get_mut(own % period)
        {
            *cost = cost.saturating_add(arc.weight.saturating_mul(slack));
        }
    }
}

/// A lower bound as a shift round the period.
fn shift_of(arc: &Arc, period: u32) -> u32 {
    let shift = arc.lower.checked_rem_euclid(i64::from(period)).unwrap_or(0);
    u32::try_from(shift).unwrap_or(0)
}
