//! Batches: individuals are merged by fours, and these with the best of before.

use crate::batch_work::{BatchWork, FEW, MAY_END_EARLY, is_close, is_near, may_join};
use crate::pieces::Piece;
use crate::search::TimetableSearch;
use pesp_network::Network;
use pesp_problem::Memory;
use pesp_soft_times::SoftEffort;
use pesp_timetables::Found;
use std::mem::replace;

/// After how many steps as much is done for a batch as for the first one; for each further one as after twice as many.
const FIRST_STEPS: u32 = 128;

/// How often they are doubled at most.
const MOST_DOUBLED: u32 = 12;

/// How a batch ended: with all fours, with one that costs what the cheapest timetable of before does, or as none would win.
#[derive(Clone, Copy, PartialEq, Eq)]
enum BatchEnd {
    Whole,
    Same,
    Worthless,
}

impl TimetableSearch {
    /// Whether a batch that has begun is worth more of its pieces. With many rows most is won behind the last four.
    fn is_worth_more(&self, network: &Network) -> bool {
        network.rows().len() > FEW || self.is_worth_a_batch()
    }

    /// Whether what a merge led to is worth balls.
    fn is_worth_balls(&self, network: &Network) -> bool {
        match (&self.pieces.found, self.least_softly()) {
            (Some(found), Some(soft)) => may_join(network.rows().len(), found.cost, soft),
            (found, _) => found.is_some(),
        }
    }

    /// Whether a timetable is near the cheapest one, or there is none.
    pub(crate) fn is_near_best(&self, network: &Network, found: &Found) -> bool {
        match self.cheapest() {
            Some(best) => is_near(network.rows().len(), found.cost, best.cost),
            None => true,
        }
    }

    /// The best of before, unless the pool has it.
    fn add_best(&self, pool: &mut Vec<Found>) -> Result<(), Memory> {
        let Some(best) = self.cheapest() else {
            return Ok(());
        };
        if !pool
            .iter()
            .any(|found| found.slacks.as_slice() == best.slacks.as_slice())
        {
            pool.push(best.copy(self.alloc)?)?;
        }
        Ok(())
    }

    /// Begins the next batch: the first one, or one as after twice as many steps as before.
    pub(crate) fn begin_next(&mut self, network: &Network) -> Result<(), Memory> {
        self.note_waiting(network)?;
        let rows = network.rows().len();
        let number = self.pieces.batches;
        self.pieces.batches = number.saturating_add(1);
        if number == 0 {
            let (work, soft) = (self.first_work(network), self.first_softly(network));
            return self.begin_batch(network, work, soft);
        }
        let steps = FIRST_STEPS << number.min(MOST_DOUBLED);
        let soft = Some(SoftEffort::after(rows, steps));
        self.begin_batch(network, BatchWork::after(rows, steps), soft)
    }

    /// Begins a batch of so much work: timetables that were met elsewhere are taken up first. Where it isn't worth its time it is
    /// over at once, but for rounds of the search in which spans may be broken.
    pub(crate) fn begin_batch(
        &mut self,
        network: &Network,
        work: BatchWork,
        soft: Option<SoftEffort>,
    ) -> Result<(), Memory> {
        self.pieces.begin(work, soft);
        self.pieces.piece = if self.is_worth_a_batch() {
            self.pieces.met = replace(&mut self.waiting, Vec::new(self.alloc));
            self.next_met(network)?
        } else {
            self.end_batch(network, BatchEnd::Worthless)?
        };
        Ok(())
    }

    /// What comes next before the fours.
    pub(crate) fn next_met(&mut self, network: &Network) -> Result<Piece, Memory> {
        if self.pieces.met.is_empty() {
            self.next_four(network)
        } else {
            Ok(Piece::Met)
        }
    }

    /// How many fours the batch has at most, by how close it is to the other search.
    fn most_fours(&self) -> u32 {
        let work = self.pieces.work;
        match (self.least(), self.least_softly()) {
            (Some(hard), Some(soft)) if is_close(hard, soft) => work.close,
            _ => work.fours,
        }
    }

    /// What comes next before a four.
    pub(crate) fn next_four(&mut self, network: &Network) -> Result<Piece, Memory> {
        let (fours, work) = (self.pieces.fours, self.pieces.work);
        if fours == work.before_soft
            && let Some(effort) = self.pieces.groups.take()
        {
            return Ok(Piece::Softly(effort));
        }
        if !self.is_worth_more(network) {
            return self.end_batch(network, BatchEnd::Worthless);
        }
        if fours >= self.most_fours() {
            return Ok(Piece::Join);
        }
        self.pieces.before = self.least();
        self.pieces.starts = self.kinds.next_four();
        Ok(Piece::Individual(0))
    }

    /// Merges the four.
    pub(crate) fn merge_four(&mut self, network: &Network) -> Result<Piece, Memory> {
        let pool = replace(&mut self.pieces.four, Vec::new(self.alloc));
        self.merge_pool(network, pool)
    }

    /// Merges what all fours led to, with the best of before.
    pub(crate) fn merge_fours(&mut self, network: &Network) -> Result<Piece, Memory> {
        let mut pool = replace(&mut self.pieces.tops, Vec::new(self.alloc));
        self.add_best(&mut pool)?;
        self.pieces.is_joined = true;
        self.merge_pool(network, pool)
    }

    /// Merges a pool.
    fn merge_pool(&mut self, network: &Network, pool: Vec<Found>) -> Result<Piece, Memory> {
        let rounds = self.pieces.work.rounds;
        self.pieces.found = self.merged(network, pool, rounds)?;
        self.pieces.freed = 0;
        self.pieces.quiet = 0;
        if self.is_worth_balls(network) {
            Ok(Piece::Ball)
        } else {
            self.end_merge(network)
        }
    }

    /// What comes behind a merge: the next four, or the end of the batch.
    pub(crate) fn end_merge(&mut self, network: &Network) -> Result<Piece, Memory> {
        let found = self.pieces.found.take();
        if self.pieces.is_joined {
            return self.end_batch(network, BatchEnd::Whole);
        }
        self.pieces.fours = self.pieces.fours.saturating_add(1);
        let Some(found) = found else {
            return self.next_four(network);
        };
        let is_same = self.pieces.before == Some(found.cost);
        self.pieces.tops.push(found)?;
        if is_same && network.rows().len() > MAY_END_EARLY {
            self.end_batch(network, BatchEnd::Same)
        } else {
            self.next_four(network)
        }
    }

    /// What comes behind the fours: rounds of the search in which spans may be broken, if it goes with the batch. Where two fours
    /// came to one cost it begins first, where it hasn't, and goes on only where it is ahead.
    fn end_batch(&mut self, network: &Network, ended: BatchEnd) -> Result<Piece, Memory> {
        self.pieces.tops.clear();
        let Some(effort) = self.pieces.soft else {
            return Ok(Piece::Nothing);
        };
        if ended != BatchEnd::Same {
            return self.begin_rounds(network);
        }
        self.rest_long();
        self.pieces.is_same = true;
        if self.soft.cheapest.cost().is_none() {
            return Ok(Piece::Softly(effort.after_same()));
        }
        self.begin_rounds(network)
    }

    /// Begins rounds of reheats, where they are worth their time.
    pub(crate) fn begin_rounds(&mut self, network: &Network) -> Result<Piece, Memory> {
        let Some(effort) = self.pieces.soft else {
            return Ok(Piece::Nothing);
        };
        if self.pieces.is_same && !self.soft_is_ahead() {
            return Ok(Piece::Nothing);
        }
        self.reheat(network, &effort)?;
        Ok(Piece::Round)
    }
}
