//! Timetables by anneals in which spans may be broken.

use crate::course::Course;
use crate::fixed_offsets::{MOST_REOPTIMISED, reoptimised};
use pesp_forest::Random;
use pesp_network::Network;
use pesp_problem::Memory;
use pesp_propagate::dive_to;
use pesp_soft_annealing::{AnnealPlan, SoftAnnealer};
use pesp_timetables::{Cheapest, Found, cheaper, slacks_of, times_of};
use std::alloc::{AllocError, Global};

/// How many tries a dive has towards the times of what wasn't mended.
const TRIES: u32 = 50;

/// How many activities the sweeps of a piece visit at most, one in each sweep counted anew.
const VISITS_A_PIECE: u32 = 1_000_000;

/// The search, with the mean cost of a row after a descent, what the timetable of others cost that was merged last, the best of
/// each group until it is merged, how far it is, and the cheapest timetable that it found.
#[derive(Drop)]
pub struct SoftSearch {
    pub(crate) alloc: Global,
    random: Random,
    mean: u64,
    pub(crate) joined: Option<u64>,
    pub(crate) tops: Vec<Found>,
    pub(crate) course: Course,
    visits: u64,
    pub cheapest: Cheapest,
}

/// Times as prices.
fn prices_of(alloc: Global, times: &[u32]) -> Result<Vec<i64>, AllocError> {
    let mut prices = Vec::with_capacity(alloc, times.len())?;
    for time in times {
        prices.push(i64::from(*time))?;
    }
    Ok(prices)
}

/// How many sweeps a piece of an anneal has over a network.
fn sweeps_a_piece(network: &Network) -> u32 {
    let rows = u32::try_from(network.rows().len()).unwrap_or(u32::MAX);
    (VISITS_A_PIECE / rows.max(1)).max(1)
}

/// An anneal, its plan, and how many sweeps it has had, soft and hard ones.
#[derive(Drop)]
pub(crate) struct Anneal {
    annealer: SoftAnnealer,
    plan: AnnealPlan,
    sweeps: u32,
}

/// How far an anneal is: sweeps are left; or it is over, with what it found.
#[derive(Drop)]
pub(crate) enum Annealed {
    Begun,
    Over(Option<Found>),
}

impl SoftSearch {
    /// A search that has found nothing yet.
    pub fn new(alloc: Global) -> SoftSearch {
        SoftSearch {
            alloc,
            random: Random::new(1),
            mean: 1,
            joined: None,
            tops: Vec::new(alloc),
            course: Course::none(alloc),
            visits: 0,
            cheapest: Cheapest::none(),
        }
    }

    /// An annealer from these slacks.
    fn annealer(
        &mut self,
        network: &Network,
        slacks: &[u32],
    ) -> Result<Option<SoftAnnealer>, Memory> {
        let seed = self.random.next() >> 40;
        SoftAnnealer::new(self.alloc, network, slacks, seed)
    }

    /// Times near those of an annealer, which break nothing; None where none are found.
    fn whole_times(
        &self,
        network: &Network,
        annealer: &SoftAnnealer,
    ) -> Result<Option<Vec<u32>>, Memory> {
        let Some(times) = times_of(self.alloc, network, annealer.slacks())? else {
            return Ok(None);
        };
        let prices = prices_of(self.alloc, &times)?;
        dive_to(self.alloc, network, &prices, TRIES)
    }

    /// Lets an annealer go on from times near its own that break nothing; whether there are some.
    fn make_whole(&self, network: &Network, annealer: &mut SoftAnnealer) -> Result<bool, Memory> {
        let Some(times) = self.whole_times(network, annealer)? else {
            return Ok(false);
        };
        let slacks = slacks_of(self.alloc, network, &times)?;
        annealer.set(&slacks);
        Ok(true)
    }

    /// The timetable of an annealer, made cheaper under its offsets unless there are very many rows.
    fn found_by(&self, network: &Network, annealer: &SoftAnnealer) -> Result<Found, Memory> {
        let slacks = Vec::from_slice(self.alloc, annealer.slacks())?;
        let found = Found::of_slacks(network, slacks);
        if network.rows().len() > MOST_REOPTIMISED {
            return Ok(found);
        }
        let better = reoptimised(self.alloc, network, &found.slacks)?;
        Ok(cheaper(found, better))
    }

    /// Counts what so many sweeps over a network visit.
    fn count(&mut self, network: &Network, sweeps: u32) {
        let rows = u64::try_from(network.rows().len()).unwrap_or(0);
        let visits = rows.saturating_mul(u64::from(sweeps));
        self.visits = self.visits.saturating_add(visits);
    }

    /// Begins an anneal from these slacks by a plan; None where there is no annealer for them.
    pub(crate) fn begin_anneal(
        &mut self,
        network: &Network,
        slacks: &[u32],
        plan: AnnealPlan,
    ) -> Result<Option<Anneal>, Memory> {
        match self.annealer(network, slacks)? {
            Some(annealer) => Ok(Some(Anneal {
                annealer,
                plan,
                sweeps: 0,
            })),
            None => Ok(None),
        }
    }

    /// How many activities were visited so far, one in each sweep counted anew.
    pub fn visits(&self) -> u64 {
        self.visits
    }

    /// Goes on with an anneal by some sweeps.
    pub(crate) fn go_on_annealing(
        &mut self,
        network: &Network,
        anneal: &mut Anneal,
    ) -> Result<Annealed, Memory> {
        let Anneal {
            annealer,
            plan,
            sweeps,
        } = anneal;
        let (soft, hard) = (plan.soft.sweeps, plan.hard.sweeps);
        let from = *sweeps;
        let to = from
            .saturating_add(sweeps_a_piece(network))
            .min(soft.saturating_add(hard));
        *sweeps = to;
        self.count(network, to.saturating_sub(from));
        if from < soft {
            annealer.soften(self.mean, plan, from, to.min(soft))?;
            if to < soft {
                return Ok(Annealed::Begun);
            }
            if !annealer.mend()? && !self.make_whole(network, annealer)? {
                return Ok(Annealed::Over(None));
            }
        }
        annealer.harden(
            self.mean,
            &plan.hard,
            from.saturating_sub(soft),
            to.saturating_sub(soft),
        )?;
        if to < soft.saturating_add(hard) {
            return Ok(Annealed::Begun);
        }
        annealer.descend()?;
        Ok(Annealed::Over(Some(self.found_by(network, annealer)?)))
    }

    /// Keeps a timetable if it is the cheapest so far.
    pub(crate) fn note(&mut self, network: &Network, found: &Found) -> Result<(), Memory> {
        self.cheapest.note(self.alloc, network, found)
    }

    /// Makes slacks cheaper by a descent; sets the mean cost of a row.
    pub(crate) fn descend(
        &mut self,
        network: &Network,
        slacks: &[u32],
    ) -> Result<Option<Vec<u32>>, Memory> {
        let Some(mut annealer) = self.annealer(network, slacks)? else {
            return Ok(None);
        };
        let done = annealer.descend();
        let rows = u64::try_from(slacks.len()).unwrap_or(1).max(1);
        self.mean = (annealer.cost() / rows).max(1);
        let lower = Vec::from_slice(self.alloc, annealer.slacks());
        drop(annealer);
        done?;
        Ok(Some(lower?))
    }
}
