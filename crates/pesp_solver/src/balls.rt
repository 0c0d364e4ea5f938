//! Balls: a connected part of the events is freed, and the rest moves as one cluster.

use crate::batch_work::FEW;
use crate::search::TimetableSearch;
use pesp_annealing::Annealer;
use pesp_network::Network;
use pesp_problem::Memory;
use pesp_soft_times::{ClusterContraction, EventClusters, ball_around};
use pesp_timetables::{Found, Keys, Relaxation, cost_of};

impl TimetableSearch {
    /// The dearest of three rows that are drawn.
    fn dear_row(&mut self, found: &Found) -> Option<u32> {
        let rows = u64::try_from(found.slacks.len()).ok()?;
        let mut best = None;
        let mut most = 0u64;
        for _ in 0..3 {
            let place = u32::try_from(self.random.below(rows)).ok()?;
            let slack = found.slacks.get(place as usize).copied()?;
            let weight = self.frame.row(place)?.weight;
            let cost = weight.saturating_mul(u64::from(slack));
            if best.is_none() || cost > most {
                best = Some(place);
                most = cost;
            }
        }
        best
    }

    /// A ball around a dear row, of 20 to 60 of 100 rows.
    fn ball(&mut self, found: &Found) -> Result<Option<EventClusters>, Memory> {
        let Some(place) = self.dear_row(found) else {
            return Ok(None);
        };
        let Some(row) = self.frame.row(place) else {
            return Ok(None);
        };
        let most = u64::try_from(found.slacks.len().min(FEW)).unwrap_or(0);
        let drawn = self.random.below((most * 2 / 5).saturating_add(1));
        let ends = (row.tail, row.head);
        let size = (most / 5).saturating_add(drawn);
        let ball = ball_around(self.alloc, &self.frame, ends, size, &mut self.random)?;
        Ok(Some(ball))
    }

    /// What a low anneal finds.
    fn low_annealed(
        &mut self,
        network: &Network,
        annealer: &mut Annealer,
        rounds: u32,
    ) -> Result<Option<Found>, Memory> {
        annealer.anneal(network, rounds, self.mean.max(1))?;
        let slacks = Vec::from_slice(self.alloc, annealer.slacks())?;
        Ok(Some(Found::of_slacks(network, slacks)))
    }

    /// What a dive of a relaxation and a low anneal find.
    fn dived_low(
        &mut self,
        network: &Network,
        relaxation: &mut Relaxation,
        rounds: u32,
    ) -> Result<Option<Found>, Memory> {
        let Some(mut annealer) = self.dived(network, relaxation)? else {
            return Ok(None);
        };
        let found = self.low_annealed(network, &mut annealer, rounds);
        drop(annealer);
        found
    }

    /// Slacks that a dive of the relaxation and a low anneal find in a ball, with their cost.
    fn solved(&mut self, network: &Network, rounds: u32) -> Result<Option<Found>, Memory> {
        let relaxed = Relaxation::new(self.alloc, network, Keys::Plain, &mut self.random)?;
        let Some(mut relaxation) = relaxed else {
            return Ok(None);
        };
        relaxation.is_drawn = true;
        let found = self.dived_low(network, &mut relaxation, rounds);
        drop(relaxation);
        found
    }

    /// A network in which all but a ball is contracted; None where there is none.
    fn freed(
        &mut self,
        network: &Network,
        found: &Found,
    ) -> Result<Option<ClusterContraction>, Memory> {
        let Some(clusters) = self.ball(found)? else {
            return Ok(None);
        };
        let made = ClusterContraction::new(self.alloc, network, &found.slacks, &clusters);
        drop(clusters);
        Ok(made?)
    }

    /// Takes what is found in a ball if it isn't dearer.
    fn take_solved(
        &mut self,
        network: &Network,
        contraction: &ClusterContraction,
        found: &mut Found,
        rounds: u32,
    ) -> Result<(), Memory> {
        let Some(solved) = self.solved(&contraction.network, rounds)? else {
            return Ok(());
        };
        if solved.cost <= contraction.cost {
            contraction.put_into(&mut found.slacks, &solved.slacks);
            found.cost = cost_of(network, &found.slacks);
        }
        Ok(())
    }

    /// Frees a ball, and takes what is found if it isn't dearer.
    pub(crate) fn try_ball(
        &mut self,
        network: &Network,
        found: &mut Found,
        rounds: u32,
    ) -> Result<(), Memory> {
        let Some(contraction) = self.freed(network, found)? else {
            return Ok(());
        };
        let taken = self.take_solved(network, &contraction, found, rounds);
        drop(contraction);
        taken
    }
}
