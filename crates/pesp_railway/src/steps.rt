//! The events along the ways of trains.

use crate::duration::duration_of;
use crate::links::TrainLinks;
use crate::network::RailwayNetwork;
use crate::step::{Direction, Halt, WayEvent};
use crate::ways::{Way, cut_rings, numbers_of, ways_of};
use pesp_problem::Instance;
use std::alloc::{AllocError, Global};

/// What is known of the ways.
#[derive(Clone, Copy)]
struct WayProgress<'a> {
    links: &'a TrainLinks,
    instance: &'a Instance,
    times: &'a [u32],
    network: &'a RailwayNetwork<'a>,
}

/// How many periods lie before a time.
fn laps_at(period: u32, running: i64) -> u32 {
    let laps = running.div_euclid(i64::from(period.max(1)));
    u32::try_from(laps.max(0)).unwrap_or(u32::MAX)
}

/// An event for which no way is known: it stands behind all ways, at its own number.
fn step_without_way(ways: usize, event: usize) -> WayEvent {
    WayEvent {
        way: u32::try_from(ways).unwrap_or(u32::MAX).saturating_add(1),
        stop: u32::try_from(event).unwrap_or(u32::MAX).saturating_add(1),
        laps: 0,
        direction: Direction::Nowhere,
        halt: Halt::Other,
    }
}

/// No way for each event.
fn steps_without_ways(
    alloc: Global,
    instance: &Instance,
    ways: usize,
) -> Result<Vec<WayEvent>, AllocError> {
    let mut steps = Vec::new(alloc);
    for event in 0..instance.events().len() {
        steps.push(step_without_way(ways, event))?;
    }
    Ok(steps)
}

/// Puts the events of a way into their places.
fn go_along(steps: &mut [WayEvent], going: WayProgress<'_>, number: u32, way: Way) {
    let WayProgress {
        links,
        instance,
        times,
        network,
    } = going;
    let mut event = way.first;
    let mut running = i64::from(way.time);
    for stop in 1..numbers_of(instance).saturating_add(1) {
        if let Some(step) = steps.get_mut(event as usize) {
            *step = WayEvent {
                way: number,
                stop,
                laps: laps_at(instance.period(), running),
                direction: way.direction,
                halt: links.halt_at(instance, network, event),
            };
        }
        let Some(row) = links.row_ahead(instance, event) else {
            return;
        };
        running = running.saturating_add(duration_of(instance, times, row).unwrap_or(0));
        event = row.head;
    }
}

/// Where each event stands on the ways of trains, by its number in the instance. A train goes on by the activities of its line
/// between stations, and by those at one station that may not have every slack; where it turns round another way begins.
/// Events without a line and a station stand behind all ways, in the order of the instance.
pub fn steps_of(
    alloc: Global,
    instance: &Instance,
    times: &[u32],
    network: Option<&RailwayNetwork<'_>>,
) -> Result<Vec<WayEvent>, AllocError> {
    let Some(network) = network else {
        return steps_without_ways(alloc, instance, 0);
    };
    let mut links = TrainLinks::of(alloc, instance, network)?;
    cut_rings(alloc, &mut links, instance)?;
    let ways = ways_of(alloc, &links, instance, times, network)?;
    let mut steps = steps_without_ways(alloc, instance, ways.len())?;
    let going = WayProgress {
        links: &links,
        instance,
        times,
        network,
    };
    for (place, way) in ways.iter().enumerate() {
        let number = u32::try_from(place).unwrap_or(u32::MAX).saturating_add(1);
        go_along(&mut steps, going, number, *way);
    }
    Ok(steps)
}
