//! What is told of events beside their times.

use crate::changes::add_changes;
use crate::network::RailwayNetwork;
use crate::step::WayEvent;
use crate::steps::steps_of;
use pesp_problem::Instance;
use pesp_report::{Name, Names};
use std::alloc::{AllocError, Global};

/// What is told of an event: where it stands on the way of a train, its name, its line and its station, each empty where it
/// isn't told, and the changes there.
#[derive(Drop)]
pub struct Told {
    pub step: WayEvent,
    pub name: String,
    pub line: String,
    pub station: String,
    pub changes: String,
}

/// What is told of an event, without its changes.
fn told_of(alloc: Global, step: WayEvent, name: Option<&Name>) -> Result<Told, AllocError> {
    let (event, line, station) = match name {
        Some(name) => (
            name.name.as_str(),
            name.line.as_str(),
            name.station.as_str(),
        ),
        None => ("", "", ""),
    };
    Ok(Told {
        step,
        name: String::from_str(alloc, event)?,
        line: String::from_str(alloc, line)?,
        station: String::from_str(alloc, station)?,
        changes: String::new(alloc),
    })
}

/// What is told of the events at these steps, without changes, by their numbers in the instance.
fn told_at_steps(
    alloc: Global,
    instance: &Instance,
    steps: &[WayEvent],
    names: Option<&Names>,
) -> Result<Vec<Told>, AllocError> {
    let mut tolds = Vec::new(alloc);
    for (label, step) in instance.events().iter().zip(steps) {
        let name = match names {
            Some(names) => names.find(*label),
            None => None,
        };
        tolds.push(told_of(alloc, *step, name)?)?;
    }
    Ok(tolds)
}

/// What is told of the events, by their numbers in the instance: without names, that they stand in the order of the instance.
pub fn told_of_events(
    alloc: Global,
    instance: &Instance,
    times: &[u32],
    names: Option<&Names>,
) -> Result<Vec<Told>, AllocError> {
    let Some(names) = names else {
        let steps = steps_of(alloc, instance, times, None)?;
        return told_at_steps(alloc, instance, &steps, None);
    };
    let network = RailwayNetwork::of(alloc, instance, names)?;
    let steps = steps_of(alloc, instance, times, Some(&network))?;
    let mut tolds = told_at_steps(alloc, instance, &steps, Some(names))?;
    add_changes(&mut tolds, instance, times, &network)?;
    Ok(tolds)
}
