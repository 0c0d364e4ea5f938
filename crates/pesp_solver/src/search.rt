//! The search for timetables of one network, and the best that it found.

use crate::batch_work::{BatchWork, FEW, may_win};
use crate::pieces::Pieces;
use pesp_forest::{Effort, Frame, Random};
use pesp_network::Network;
use pesp_problem::Memory;
use pesp_soft_times::{Kinds, SoftEffort, SoftSearch, Start, reoptimised};
use pesp_timetables::{Cheapest, Found, Relaxation, cheaper, slacks_of};
use std::alloc::Global;
use std::mem::swap;

/// How many batches, and how many reheats after steps, are left out where the first batch ended early.
const LONG_REST: u32 = 3;

/// How many rounds an anneal has before the first step where little is done.
const SHORT_ROUNDS: u32 = 2;

/// How many timetables that were met elsewhere wait for a batch at most.
const MOST_WAITING: usize = 3;

/// What is looked for once.
#[derive(Drop)]
pub(crate) enum Prepared<T> {
    NotYet,
    Sought(Option<T>),
}

/// The search for timetables of one network: the cheapest of all batches, what later batches go on from, and the search in which
/// spans may be broken.
#[derive(Drop)]
pub(crate) struct TimetableSearch {
    pub(crate) alloc: Global,
    pub(crate) frame: Frame,
    pub(crate) random: Random,
    pub(crate) root: Prepared<Box<Relaxation>>,
    pub(crate) plain: Prepared<Vec<u32>>,
    pub(crate) mean: u64,
    pub(crate) kinds: Kinds,
    pub(crate) waiting: Vec<Found>,
    pub(crate) pieces: Pieces,
    effort: Effort,
    rest: Rest,
    soft_rest: Rest,
    apart: Cheapest,
    hard: Cheapest,
    pub(crate) soft: Box<SoftSearch>,
}

/// How many batches, or how many reheats, in turn found nothing cheaper, and how many are left out for it.
#[derive(Clone, Copy)]
struct Rest {
    misses: u32,
    left: u32,
}

impl Rest {
    /// No batch so far.
    fn none() -> Rest {
        Rest { misses: 0, left: 0 }
    }

    /// As after several batches that found nothing.
    fn long() -> Rest {
        Rest {
            misses: LONG_REST,
            left: LONG_REST,
        }
    }

    /// Whether the next batch is left out.
    fn takes_next(&mut self) -> bool {
        let takes = self.left > 0;
        self.left = self.left.saturating_sub(1);
        takes
    }

    /// After a batch: each that finds nothing has one more of the following ones left out.
    fn note(&mut self, found: bool) {
        self.misses = if found {
            0
        } else {
            self.misses.saturating_add(1)
        };
        self.left = self.misses;
    }
}

/// The cheaper of two timetables, where there are some; the first of two that cost the same.
fn cheaper_times<'a>(
    one: Option<(&'a [u32], u64)>,
    other: Option<(&'a [u32], u64)>,
) -> Option<(&'a [u32], u64)> {
    match (one, other) {
        (Some(one), Some(other)) if other.1 < one.1 => Some(other),
        (None, other) => other,
        (one, _) => one,
    }
}

impl TimetableSearch {
    /// A search that has found nothing yet.
    pub(crate) fn new(alloc: Global, network: &Network) -> Result<TimetableSearch, Memory> {
        let soft = Box::new(alloc, SoftSearch::new(alloc))?;
        let frame = Frame::new(alloc, network)?;
        Ok(TimetableSearch {
            alloc,
            frame,
            random: Random::new(1),
            root: Prepared::NotYet,
            plain: Prepared::NotYet,
            mean: 0,
            kinds: Kinds::new(),
            waiting: Vec::new(alloc),
            pieces: Pieces::new(alloc),
            effort: Effort::Whole,
            rest: Rest::none(),
            soft_rest: Rest::none(),
            apart: Cheapest::none(),
            hard: Cheapest::none(),
            soft,
        })
    }

    /// The same, in a place of its own.
    pub(crate) fn boxed(alloc: Global, network: &Network) -> Result<Box<TimetableSearch>, Memory> {
        let search = TimetableSearch::new(alloc, network)?;
        Ok(Box::new(alloc, search)?)
    }

    /// So much is done before the first step.
    pub(crate) fn set_effort(&mut self, effort: Effort) {
        self.effort = effort;
    }

    /// What is found before the first step of a search. It doesn't depend on any step limit.
    pub(crate) fn begin(&mut self, network: &Network) -> Result<(), Memory> {
        match self.effort {
            Effort::Short => self.begin_short(network),
            Effort::Whole => self.begin_whole(network),
        }
    }

    /// One timetable of a plain dive, annealed a little, of which the first batch knows nothing.
    fn begin_short(&mut self, network: &Network) -> Result<(), Memory> {
        let mut short = TimetableSearch::boxed(self.alloc, network)?;
        let found = short.individual(network, Start::Plain, SHORT_ROUNDS);
        swap(&mut self.plain, &mut short.plain);
        drop(short);
        match found? {
            Some(found) => self.apart.note(self.alloc, network, &found),
            None => Ok(()),
        }
    }

    /// The first batch.
    fn begin_whole(&mut self, network: &Network) -> Result<(), Memory> {
        self.begin_next(network)?;
        self.end_pieces(network)
    }

    /// Whether the first batch has less work: there are many rows, and it is made piece by piece beside the work of others.
    fn is_lighter(&self, network: &Network) -> bool {
        self.effort == Effort::Short && network.rows().len() > FEW
    }

    /// The work of the first batch; no timetable with spans held where it has less.
    pub(crate) fn first_work(&self, network: &Network) -> BatchWork {
        let work = BatchWork::first(network.rows().len());
        if self.is_lighter(network) {
            BatchWork {
                fours: 0,
                close: 0,
                ..work
            }
        } else {
            work
        }
    }

    /// That of the search in which spans may be broken.
    pub(crate) fn first_softly(&self, network: &Network) -> Option<SoftEffort> {
        let effort = SoftEffort::first(network)?;
        if self.is_lighter(network) {
            Some(effort.shorter())
        } else {
            Some(effort)
        }
    }

    /// Whether the first batch is made piece by piece and isn't over.
    pub(crate) fn owes_first(&self) -> bool {
        self.effort == Effort::Short && self.pieces.are_first()
    }

    /// Makes what is left of the first batch, where it is made piece by piece.
    pub(crate) fn end_first(&mut self, network: &Network) -> Result<(), Memory> {
        if !self.owes_first() {
            return Ok(());
        }
        self.make_piece(network)?;
        self.end_pieces(network)
    }

    /// Timetables by the search in which spans may be broken, from a plain dive.
    pub(crate) fn begin_softly(
        &mut self,
        network: &Network,
        effort: &SoftEffort,
    ) -> Result<(), Memory> {
        let Some(times) = self.plain_times(network)? else {
            return Ok(());
        };
        let slacks = slacks_of(self.alloc, network, &times)?;
        self.soft.begin(network, &slacks, effort)
    }

    /// Whether the search in which spans may be broken has the cheapest timetable.
    pub(crate) fn soft_is_ahead(&self) -> bool {
        match (self.hard.cost(), self.soft.cheapest.cost()) {
            (Some(hard), Some(soft)) => soft < hard,
            _ => false,
        }
    }

    /// Leaves out some batches and reheats, as the first batch came to one cost twice.
    pub(crate) fn rest_long(&mut self) {
        self.rest = Rest::long();
        self.soft_rest = Rest::long();
    }

    /// What the cheapest timetable of all batches costs.
    pub(crate) fn least(&self) -> Option<u64> {
        self.hard.cost()
    }

    /// What the cheapest timetable of the search in which spans may be broken costs.
    pub(crate) fn least_softly(&self) -> Option<u64> {
        self.soft.cheapest.cost()
    }

    /// Whether a batch may lead to the cheapest timetable: it does with spans held what the other search does without.
    pub(crate) fn is_worth_a_batch(&self) -> bool {
        match (self.hard.cost(), self.soft.cheapest.cost()) {
            (Some(hard), Some(soft)) => may_win(hard, soft),
            _ => true,
        }
    }

    /// A batch after so many steps, unless batches before it found nothing.
    fn next_batch(&mut self, network: &Network, steps: u32) -> Result<(), Memory> {
        if self.rest.takes_next() || !self.is_worth_a_batch() {
            return Ok(());
        }
        let before = self.least();
        let effort = BatchWork::after(network.rows().len(), steps);
        self.begin_batch(network, effort, None)?;
        self.end_pieces(network)?;
        let is_cheaper = self.least() != before;
        self.rest.note(is_cheaper);
        Ok(())
    }

    /// Reheats of the cheapest timetable in which spans may be broken.
    pub(crate) fn reheat(&mut self, network: &Network, effort: &SoftEffort) -> Result<(), Memory> {
        self.soft.go_on(network, self.hard.found(), effort)
    }

    /// Reheats after so many steps, unless those before them found nothing.
    fn next_reheats(&mut self, network: &Network, steps: u32) -> Result<(), Memory> {
        if self.soft_rest.takes_next() {
            return Ok(());
        }
        let before = self.soft.cheapest.cost();
        let effort = SoftEffort::after(network.rows().len(), steps);
        self.reheat(network, &effort)?;
        self.soft.end(network)?;
        let is_cheaper = self.soft.cheapest.cost() != before;
        self.soft_rest.note(is_cheaper);
        Ok(())
    }

    /// What is found after so many steps (128, 256, 512 and so on).
    pub(crate) fn go_on(&mut self, network: &Network, steps: u32) -> Result<(), Memory> {
        self.note_waiting(network)?;
        self.next_batch(network, steps)?;
        self.next_reheats(network, steps)
    }

    /// Notes the timetables that wait for a batch.
    pub(crate) fn note_waiting(&mut self, network: &Network) -> Result<(), Memory> {
        for found in self.waiting.iter() {
            self.hard.note(self.alloc, network, found)?;
        }
        Ok(())
    }

    /// Takes times that were met elsewhere as an individual of the next batch; does nothing where they are no timetable.
    pub(crate) fn take(&mut self, network: &Network, times: Vec<u32>) -> Result<(), Memory> {
        if !network.is_timetable(&times) {
            return Ok(());
        }
        let slacks = slacks_of(self.alloc, network, &times)?;
        let found = Found::of_slacks(network, slacks);
        if self.owes_first() {
            self.apart.note(self.alloc, network, &found)?;
        } else {
            self.note(network, &found)?;
        }
        self.waiting.push(found)?;
        self.waiting.sort_unstable_by_key(|found| found.cost);
        self.waiting.truncate(MOST_WAITING);
        Ok(())
    }

    /// The cheapest times that were found, and their cost over the network's rows.
    pub(crate) fn best(&self) -> Option<(&[u32], u64)> {
        let own = cheaper_times(self.hard.times(), self.soft.cheapest.times());
        cheaper_times(own, self.apart.times())
    }

    /// The cheapest timetable of all batches.
    pub(crate) fn cheapest(&self) -> Option<&Found> {
        self.hard.found()
    }

    /// Keeps a timetable if it is the cheapest of all batches.
    pub(crate) fn note(&mut self, network: &Network, found: &Found) -> Result<(), Memory> {
        self.hard.note(self.alloc, network, found)
    }

    /// The cheapest timetable with the offsets of another, kept where it is the cheapest of all batches.
    pub(crate) fn reoptimised(&mut self, network: &Network, found: Found) -> Result<Found, Memory> {
        let better = reoptimised(self.alloc, network, &found.slacks)?;
        let best = cheaper(found, better);
        self.note(network, &best)?;
        Ok(best)
    }
}
