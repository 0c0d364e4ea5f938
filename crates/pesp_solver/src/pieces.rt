//! Batches piece by piece, so that others can look on in between.

use crate::batch_work::{A_BALL, A_MERGE, A_PAIR, A_ROUND, A_VISIT, BatchWork};
use crate::search::TimetableSearch;
use pesp_network::Network;
use pesp_problem::Memory;
use pesp_soft_times::{MOST_REOPTIMISED, SoftEffort, Start};
use pesp_timetables::Found;
use std::alloc::Global;

/// How many pieces a batch has at most.
const MOST_PIECES: u32 = 1_000_000;

/// What comes next: a timetable that was met elsewhere; the beginning of the search in which spans may be broken, and an anneal of
/// it; an individual of a four; the merge of the four, or of all fours; a ball behind a merge; the best slacks under the offsets;
/// an anneal of the rounds of that search; or nothing.
#[derive(Clone, Copy)]
pub(crate) enum Piece {
    Met,
    Softly(SoftEffort),
    Group,
    Individual(usize),
    Merge,
    Join,
    Ball,
    Polish,
    Round,
    Nothing,
}

/// How far a batch is: what comes next; its work, and that of the search in which spans may be broken, which begins in the middle;
/// what it takes up, the kinds of the four with what was found of them, and what the fours led to; what a merge led to, with how
/// many balls behind it were freed and how many in turn found nothing; the cheapest cost before the four; how many fours
/// there were; whether all fours were merged, and whether two came to one cost. And how many batches were begun, and how many
/// numbers pieces looked at so far.
#[derive(Drop)]
pub(crate) struct Pieces {
    pub(crate) piece: Piece,
    pub(crate) work: BatchWork,
    pub(crate) soft: Option<SoftEffort>,
    pub(crate) groups: Option<SoftEffort>,
    pub(crate) met: Vec<Found>,
    pub(crate) starts: [Start; 4],
    pub(crate) four: Vec<Found>,
    pub(crate) tops: Vec<Found>,
    pub(crate) found: Option<Found>,
    pub(crate) freed: u32,
    pub(crate) quiet: u32,
    pub(crate) before: Option<u64>,
    pub(crate) fours: u32,
    pub(crate) is_joined: bool,
    pub(crate) is_same: bool,
    pub(crate) batches: u32,
    pub(crate) looked_at: u64,
}

impl Pieces {
    /// No batch has begun.
    pub(crate) fn new(alloc: Global) -> Pieces {
        Pieces {
            piece: Piece::Nothing,
            work: BatchWork::first(0),
            soft: None,
            groups: None,
            met: Vec::new(alloc),
            starts: [Start::Plain; 4],
            four: Vec::new(alloc),
            tops: Vec::new(alloc),
            found: None,
            freed: 0,
            quiet: 0,
            before: None,
            fours: 0,
            is_joined: false,
            is_same: false,
            batches: 0,
            looked_at: 0,
        }
    }

    /// Whether nothing is left of the batch that was begun last.
    pub(crate) fn is_over(&self) -> bool {
        matches!(self.piece, Piece::Nothing)
    }

    /// Whether the first batch isn't over.
    pub(crate) fn are_first(&self) -> bool {
        self.batches == 0 || (self.batches == 1 && !self.is_over())
    }

    /// Begins a batch of so much work, in the middle of which the search begins in which spans may be broken, where it is new.
    pub(crate) fn begin(&mut self, work: BatchWork, soft: Option<SoftEffort>) {
        self.work = work;
        self.soft = soft;
        self.groups = match soft {
            Some(effort) if effort.has_groups() => soft,
            _ => None,
        };
        self.fours = 0;
        self.is_joined = false;
        self.is_same = false;
    }

    /// About how many numbers the next piece looks at, over so many rows; 0 where visits are counted, as spans may be broken.
    fn work_of_piece(&self, rows: usize) -> u64 {
        let rows = u64::try_from(rows).unwrap_or(0);
        let rounds = u64::from(self.work.rounds);
        let each = match self.piece {
            Piece::Met | Piece::Individual(_) => rounds.saturating_mul(A_ROUND),
            Piece::Merge | Piece::Join => rounds.saturating_mul(A_MERGE),
            Piece::Ball => rounds.min(30).saturating_mul(A_BALL),
            Piece::Polish => rows.saturating_mul(A_PAIR),
            _ => 0,
        };
        rows.saturating_mul(each)
    }

    /// Counts a ball that was freed, and whether it found something cheaper; what is next.
    fn count_ball(&mut self, is_cheaper: bool) -> Piece {
        self.freed = self.freed.saturating_add(1);
        self.quiet = self.quiet.saturating_add(1);
        if is_cheaper {
            self.quiet = 0;
        }
        let balls = self.work.balls;
        if self.quiet < balls && self.freed < balls.saturating_mul(8) {
            Piece::Ball
        } else {
            Piece::Polish
        }
    }
}

impl TimetableSearch {
    /// Takes up a timetable that was met elsewhere and is near the cheapest one, annealed.
    fn take_up(&mut self, network: &Network) -> Result<Piece, Memory> {
        if let Some(met) = self.pieces.met.pop()
            && self.is_near_best(network, &met)
        {
            let rounds = self.pieces.work.rounds;
            if let Some(found) = self.adopted(network, met, rounds)? {
                self.pieces.tops.push(found)?;
            }
        }
        self.next_met(network)
    }

    /// Makes an individual of the four.
    fn make_individual(&mut self, network: &Network, place: usize) -> Result<Piece, Memory> {
        let start = self.pieces.starts.get(place).copied();
        let start = start.unwrap_or(Start::Plain);
        let rounds = self.pieces.work.rounds;
        if let Some(found) = self.individual(network, start, rounds)? {
            self.pieces.four.push(found)?;
        }
        Ok(if place < 3 {
            Piece::Individual(place.wrapping_add(1))
        } else {
            Piece::Merge
        })
    }

    /// Frees a ball of what a merge led to.
    fn free_ball(&mut self, network: &Network) -> Result<Piece, Memory> {
        let Some(mut found) = self.pieces.found.take() else {
            return Ok(Piece::Polish);
        };
        let before = found.cost;
        self.try_ball(network, &mut found, self.pieces.work.rounds.min(30))?;
        let next = self.pieces.count_ball(found.cost < before);
        if let Piece::Polish = next {
            self.note(network, &found)?;
        }
        self.pieces.found = Some(found);
        Ok(next)
    }

    /// Finds the best slacks under the offsets of what a merge led to, unless there are very many rows.
    fn polish(&mut self, network: &Network) -> Result<Piece, Memory> {
        if network.rows().len() <= MOST_REOPTIMISED
            && let Some(found) = self.pieces.found.take()
        {
            self.pieces.found = Some(self.reoptimised(network, found)?);
        }
        self.end_merge(network)
    }

    /// Makes an anneal of the first ones in which spans may be broken.
    fn anneal_group(&mut self, network: &Network) -> Result<Piece, Memory> {
        self.soft.make_piece(network)?;
        if !self.soft.is_over() {
            return Ok(Piece::Group);
        }
        if self.pieces.is_same {
            self.begin_rounds(network)
        } else {
            self.next_four(network)
        }
    }

    /// Makes an anneal of the rounds.
    fn anneal_round(&mut self, network: &Network) -> Result<Piece, Memory> {
        self.soft.make_piece(network)?;
        Ok(if self.soft.is_over() {
            Piece::Nothing
        } else {
            Piece::Round
        })
    }

    /// How many numbers were looked at so far, about: a measure of work that needs no clock.
    pub(crate) fn work(&self) -> u64 {
        let visits = self.soft.visits().saturating_mul(A_VISIT);
        self.pieces.looked_at.saturating_add(visits)
    }

    /// Makes what comes next of the batch.
    fn make_next(&mut self, network: &Network) -> Result<(), Memory> {
        let work = self.pieces.work_of_piece(network.rows().len());
        self.pieces.looked_at = self.pieces.looked_at.saturating_add(work);
        self.pieces.piece = match self.pieces.piece {
            Piece::Met => self.take_up(network)?,
            Piece::Softly(effort) => {
                self.begin_softly(network, &effort)?;
                Piece::Group
            }
            Piece::Group => self.anneal_group(network)?,
            Piece::Individual(place) => self.make_individual(network, place)?,
            Piece::Merge => self.merge_four(network)?,
            Piece::Join => self.merge_fours(network)?,
            Piece::Ball => self.free_ball(network)?,
            Piece::Polish => self.polish(network)?,
            Piece::Round => self.anneal_round(network)?,
            Piece::Nothing => Piece::Nothing,
        };
        Ok(())
    }

    /// Whether an anneal has begun that isn't over.
    pub(crate) fn is_annealing(&self) -> bool {
        self.soft.is_annealing()
    }

    /// Makes the next piece of a batch; where a batch is over, of the next one.
    pub(crate) fn make_piece(&mut self, network: &Network) -> Result<(), Memory> {
        if self.pieces.is_over() {
            self.begin_next(network)?;
        }
        self.make_next(network)
    }

    /// Makes all that is left of the batch.
    pub(crate) fn end_pieces(&mut self, network: &Network) -> Result<(), Memory> {
        for _ in 0..MOST_PIECES {
            if self.pieces.is_over() {
                break;
            }
            self.make_next(network)?;
        }
        Ok(())
    }
}
