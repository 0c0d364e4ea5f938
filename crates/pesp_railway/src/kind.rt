//! What activities are on a railway.

use crate::duration::is_free;
use crate::network::{RailwayNetwork, StationPlace};
use crate::step::Direction;
use pesp_problem::Row;

/// What an activity is to a line.
#[derive(Clone, Copy, PartialEq, Eq)]
pub enum ActivityKind {
    /// A train between two stations.
    Run,
    /// A train at a station.
    Stand,
    /// What waits at a station for as long as it may be: passengers who change to another train of the line.
    Wait,
    /// A change at a station from this line to another one.
    Leave,
    /// A change at a station from another line to this one.
    Join,
    /// What keeps two trains of a corridor apart at a station.
    Apart,
}

/// What an activity between two places is to a line. What weighs nothing at a station keeps trains apart, and is something
/// to a corridor alone.
pub fn kind_on(
    network: &RailwayNetwork<'_>,
    line: usize,
    period: u32,
    row: &Row,
    tail: StationPlace,
    head: StationPlace,
) -> Option<ActivityKind> {
    if tail.line == line && head.line == line && tail.station != head.station {
        return Some(ActivityKind::Run);
    }
    if network.station(tail) != network.station(head) {
        return None;
    }
    if row.weight == 0 {
        let is_apart = network.is_corridor && !is_free(period, row);
        return if is_apart {
            Some(ActivityKind::Apart)
        } else {
            None
        };
    }
    match (tail.line == line, head.line == line) {
        (true, true) if is_free(period, row) => Some(ActivityKind::Wait),
        (true, true) => Some(ActivityKind::Stand),
        (true, false) => Some(ActivityKind::Leave),
        (false, true) => Some(ActivityKind::Join),
        (false, false) => None,
    }
}

/// In which direction of a line an activity leads.
pub fn direction_of(network: &RailwayNetwork<'_>, row: &Row) -> Direction {
    let (Some(tail), Some(head)) = (network.at(row.tail), network.at(row.head)) else {
        return Direction::Nowhere;
    };
    if tail.line != head.line || tail.station == head.station {
        Direction::Nowhere
    } else if tail.station < head.station {
        Direction::Out
    } else {
        Direction::Back
    }
}

/// Whether an activity is a change of passengers from one train to another one, at one station.
pub fn is_change(network: &RailwayNetwork<'_>, period: u32, row: &Row) -> bool {
    let (Some(tail), Some(head)) = (network.at(row.tail), network.at(row.head)) else {
        return false;
    };
    let kind = kind_on(network, tail.line, period, row, tail, head);
    matches!(kind, Some(ActivityKind::Wait | ActivityKind::Leave))
}
