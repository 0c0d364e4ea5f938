//! The ways of trains, in their order.

use crate::links::TrainLinks;
use crate::network::RailwayNetwork;
use crate::step::Direction;
use pesp_problem::Instance;
use std::alloc::{AllocError, Global};

/// The way of a train: its line and direction, its first event, and when it begins there.
#[derive(Clone, Copy)]
pub struct Way {
    pub line: usize,
    pub direction: Direction,
    pub time: u32,
    pub first: u32,
}

/// The numbers of the events.
pub fn numbers_of(instance: &Instance) -> u32 {
    u32::try_from(instance.events().len()).unwrap_or(u32::MAX)
}

/// Marks the events of a train's way from an event on, up to one that is marked.
fn mark_from(reached: &mut [bool], links: &TrainLinks, instance: &Instance, first: u32) {
    let mut event = first;
    for _ in 0..numbers_of(instance) {
        match reached.get_mut(event as usize) {
            Some(mark) if !*mark => *mark = true,
            _ => return,
        }
        match links.row_ahead(instance, event) {
            Some(row) => event = row.head,
            None => return,
        }
    }
}

/// The events that a train reaches from where it begins.
fn reached_of(
    alloc: Global,
    links: &TrainLinks,
    instance: &Instance,
) -> Result<Vec<bool>, AllocError> {
    let mut reached = vec![in alloc; false; instance.events().len()]?;
    for event in 0..numbers_of(instance) {
        if links.begins_at(event) {
            mark_from(&mut reached, links, instance, event);
        }
    }
    Ok(reached)
}

/// Cuts the ways that lead back to where they begin, each before its first event.
pub fn cut_rings(
    alloc: Global,
    links: &mut TrainLinks,
    instance: &Instance,
) -> Result<(), AllocError> {
    let mut reached = reached_of(alloc, links, instance)?;
    for event in 0..numbers_of(instance) {
        if reached.get(event as usize).copied() == Some(false) {
            links.cut_before(instance, event);
            mark_from(&mut reached, links, instance, event);
        }
    }
    Ok(())
}

/// In which direction a train goes that begins at an event.
fn direction_from(
    links: &TrainLinks,
    instance: &Instance,
    network: &RailwayNetwork<'_>,
    first: u32,
) -> Direction {
    let mut event = first;
    for _ in 0..numbers_of(instance) {
        let direction = links.direction_ahead(instance, network, event);
        if direction != Direction::Nowhere {
            return direction;
        }
        match links.row_ahead(instance, event) {
            Some(row) => event = row.head,
            None => return Direction::Nowhere,
        }
    }
    Direction::Nowhere
}

/// The way that begins at an event, if one does.
fn way_from(
    links: &TrainLinks,
    instance: &Instance,
    times: &[u32],
    network: &RailwayNetwork<'_>,
    first: u32,
) -> Option<Way> {
    let place = network.at(first)?;
    if !links.begins_at(first) {
        return None;
    }
    Some(Way {
        line: place.line,
        direction: direction_from(links, instance, network, first),
        time: times.get(first as usize).copied()?,
        first,
    })
}

/// The ways of all trains: by line, then those outward before those back, then by the time at which they begin.
pub fn ways_of(
    alloc: Global,
    links: &TrainLinks,
    instance: &Instance,
    times: &[u32],
    network: &RailwayNetwork<'_>,
) -> Result<Vec<Way>, AllocError> {
    let mut ways = Vec::new(alloc);
    for event in 0..numbers_of(instance) {
        if let Some(way) = way_from(links, instance, times, network, event) {
            ways.push(way)?;
        }
    }
    ways.sort_unstable_by_key(|way| (way.line, way.direction.place(), way.time, way.first));
    Ok(ways)
}
