//! What is drawn.

use crate::backs::Backs;
use crate::heights::Heights;
use pesp_problem::Instance;
use pesp_railway::RailwayNetwork;
use std::alloc::{AllocError, Global};

/// A timetable of an instance, with its lines, the events of trains that go back, and where the stations of each line stand.
#[derive(Drop)]
pub struct Scene<'i, 't, 'n> {
    pub instance: &'i Instance,
    pub times: &'t [u32],
    pub network: RailwayNetwork<'n>,
    pub backs: Backs,
    pub heights: Vec<Heights>,
}

impl<'i, 't, 'n> Scene<'i, 't, 'n> {
    /// What is drawn of a timetable over these lines.
    pub fn of(
        alloc: Global,
        instance: &'i Instance,
        times: &'t [u32],
        network: RailwayNetwork<'n>,
    ) -> Result<Scene<'i, 't, 'n>, AllocError> {
        let backs = Backs::of(alloc, instance, &network)?;
        let heights = Heights::of_all(alloc, &network.lines)?;
        Ok(Scene {
            instance,
            times,
            network,
            backs,
            heights,
        })
    }
}
