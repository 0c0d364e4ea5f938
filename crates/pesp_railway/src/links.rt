//! The activities by which trains go on from event to event.

use crate::duration::is_free;
use crate::kind::direction_of;
use crate::network::RailwayNetwork;
use crate::step::{Direction, Halt};
use pesp_problem::{Instance, Row};
use std::alloc::{AllocError, Global};

/// How many ranks there are of activities by which a train may go on.
const RANKS: u32 = 4;

/// For each event the place of the activity by which its train goes on, and of the one by which it came.
#[derive(Drop)]
pub struct TrainLinks {
    ahead: Vec<Option<usize>>,
    behind: Vec<Option<usize>>,
}

/// The rank of an activity by which a train may go on, those of the least rank first: what runs before what stands, and what
/// weighs something before what weighs nothing. None of what isn't on one line, or may have any slack at a station.
fn rank_of(network: &RailwayNetwork<'_>, period: u32, row: &Row) -> Option<u32> {
    let (tail, head) = (network.at(row.tail)?, network.at(row.head)?);
    if tail.line != head.line || row.tail == row.head {
        return None;
    }
    let light = if row.weight == 0 { 1 } else { 0 };
    if tail.station != head.station {
        Some(light)
    } else if is_free(period, row) {
        None
    } else {
        Some(light + 2)
    }
}

impl TrainLinks {
    /// The links of an instance: each event has at most one ahead and one behind, those of the least rank. A train that turns
    /// round at a station doesn't go on there.
    pub fn of(
        alloc: Global,
        instance: &Instance,
        network: &RailwayNetwork<'_>,
    ) -> Result<TrainLinks, AllocError> {
        let events = instance.events().len();
        let mut links = TrainLinks {
            ahead: vec![in alloc; None; events]?,
            behind: vec![in alloc; None; events]?,
        };
        for rank in 0..RANKS {
            links.add_rank(instance, network, rank);
        }
        links.cut_turns(instance, network);
        Ok(links)
    }

    /// The activity by which the train of an event goes on.
    pub fn row_ahead<'a>(&self, instance: &'a Instance, event: u32) -> Option<&'a Row> {
        let place = self.ahead.get(event as usize).copied()??;
        instance.rows().get(place)
    }

    /// The activity by which the train of an event came.
    fn row_behind<'a>(&self, instance: &'a Instance, event: u32) -> Option<&'a Row> {
        let place = self.behind.get(event as usize).copied()??;
        instance.rows().get(place)
    }

    /// Whether a train begins its way at an event.
    pub fn begins_at(&self, event: u32) -> bool {
        matches!(self.behind.get(event as usize), Some(None))
    }

    /// Adds the activities of a rank whose events are free.
    fn add_rank(&mut self, instance: &Instance, network: &RailwayNetwork<'_>, rank: u32) {
        for (place, row) in instance.rows().iter().enumerate() {
            if rank_of(network, instance.period(), row) == Some(rank) {
                self.link(place, row);
            }
        }
    }

    /// Links the events of an activity, where both are free.
    fn link(&mut self, place: usize, row: &Row) {
        let Some(ahead) = self.ahead.get_mut(row.tail as usize) else {
            return;
        };
        let Some(behind) = self.behind.get_mut(row.head as usize) else {
            return;
        };
        if ahead.is_none() && behind.is_none() {
            *ahead = Some(place);
            *behind = Some(place);
        }
    }

    /// Takes the link away that leads to an event.
    pub fn cut_before(&mut self, instance: &Instance, event: u32) {
        let tail = match self.row_behind(instance, event) {
            Some(row) => row.tail,
            None => return,
        };
        if let Some(ahead) = self.ahead.get_mut(tail as usize) {
            *ahead = None;
        }
        if let Some(behind) = self.behind.get_mut(event as usize) {
            *behind = None;
        }
    }

    /// Takes the links away at which trains turn round.
    fn cut_turns(&mut self, instance: &Instance, network: &RailwayNetwork<'_>) {
        for row in instance.rows() {
            if self.turns_at(instance, network, row) {
                self.cut_before(instance, row.head);
            }
        }
    }

    /// Whether an activity is a link at a station, from a train of one direction to one of another.
    fn turns_at(&self, instance: &Instance, network: &RailwayNetwork<'_>, row: &Row) -> bool {
        let is_link = match self.row_behind(instance, row.head) {
            Some(other) => other.tail == row.tail,
            None => false,
        };
        if !is_link || direction_of(network, row) != Direction::Nowhere {
            return false;
        }
        let before = self.direction_behind(instance, network, row.tail);
        let after = self.direction_ahead(instance, network, row.head);
        before != Direction::Nowhere && after != Direction::Nowhere && before != after
    }

    /// In which direction the train of an event goes on next.
    pub fn direction_ahead(
        &self,
        instance: &Instance,
        network: &RailwayNetwork<'_>,
        event: u32,
    ) -> Direction {
        match self.row_ahead(instance, event) {
            Some(row) => direction_of(network, row),
            None => Direction::Nowhere,
        }
    }

    /// In which direction the train of an event came last.
    fn direction_behind(
        &self,
        instance: &Instance,
        network: &RailwayNetwork<'_>,
        event: u32,
    ) -> Direction {
        match self.row_behind(instance, event) {
            Some(row) => direction_of(network, row),
            None => Direction::Nowhere,
        }
    }

    /// What the train does at an event.
    pub fn halt_at(&self, instance: &Instance, network: &RailwayNetwork<'_>, event: u32) -> Halt {
        let comes = self.direction_behind(instance, network, event) != Direction::Nowhere;
        let leaves = self.direction_ahead(instance, network, event) != Direction::Nowhere;
        match (comes, leaves) {
            (true, true) => Halt::Pass,
            (true, false) => Halt::Arrival,
            (false, true) => Halt::Departure,
            (false, false) => Halt::Other,
        }
    }
}
