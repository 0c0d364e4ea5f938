//! The search of a region: a tree of its own, which finds its least timetable or bounds it.

use pesp_network::Network;
use pesp_offset_tree::Sharpened;
use pesp_partition::Region;
use pesp_problem::Memory;
use pesp_sharpening::{Sharpening, Step};
use std::alloc::Global;
use std::mem::replace;

/// How many units of a multiplier make up one unit of a weight in a region's leaves.
const SCALE: u32 = 8;

/// The seed by which inequalities are drawn.
const SEED: u64 = 1;

/// A region is closed by a bound that is below its least known cost by such a part of one.
const ENOUGH: u64 = 32;

/// While no timetable is known leaves close by such a part of the root's bound above it.
const HEADROOM: u64 = 8;

/// A region with its tree and its root's bound, and the least known cost of its timetables.
#[derive(Drop)]
pub(crate) struct RegionSearch {
    pub(crate) region: Region,
    sharpening: Box<Sharpening>,
    unit: u32,
    best: Option<u64>,
    /// The times of the least known cost, where the tree met with them and nobody has taken them yet.
    found: Option<Vec<u32>>,
    root: u64,
    is_begun: bool,
    is_over: bool,
}

/// The tree of a network whose weights are in units of which so many make up one.
fn sharpening_of(alloc: Global, network: &Network, unit: u32) -> Result<Box<Sharpening>, Memory> {
    let sharpening = Sharpening::in_units(alloc, network, SEED, SCALE, unit)?;
    Ok(Box::new(alloc, sharpening)?)
}

impl RegionSearch {
    /// A region whose weights are in units of which so many make up one.
    pub(crate) fn new(alloc: Global, region: Region, unit: u32) -> Result<RegionSearch, Memory> {
        match sharpening_of(alloc, &region.network, unit) {
            Ok(sharpening) => Ok(RegionSearch {
                region,
                sharpening,
                unit,
                best: None,
                found: None,
                root: 0,
                is_begun: false,
                is_over: false,
            }),
            Err(refused) => {
                drop(region);
                Err(refused)
            }
        }
    }

    /// Notes the cost of times of the region, where they are a timetable; whether they are the cheapest so far.
    fn note(&mut self, times: &[u32]) -> bool {
        let network = &self.region.network;
        if !network.is_timetable(times) {
            return false;
        }
        let cost = network.cost_of(times);
        let is_cheaper = self.best.is_none_or(|best| cost < best);
        if is_cheaper {
            self.best = Some(cost);
        }
        is_cheaper
    }

    /// Notes the cost of times of the whole network.
    pub(crate) fn offer(&mut self, alloc: Global, times: &[u32]) -> Result<(), Memory> {
        let own = self.region.times(alloc, times)?;
        self.note(&own);
        Ok(())
    }

    /// Notes the times that were met.
    fn note_met(&mut self, alloc: Global) -> Result<(), Memory> {
        for place in 0..self.sharpening.times_met().len() {
            let Some(met) = self.sharpening.times_met().get(place) else {
                return Ok(());
            };
            let times = Vec::from_slice(alloc, met)?;
            if self.note(&times) {
                self.found = Some(times);
            }
        }
        Ok(())
    }

    /// Whether the tree met with times of the least known cost that nobody has taken.
    pub(crate) fn has_found(&self) -> bool {
        self.found.is_some()
    }

    /// Takes the times of the least known cost, where the tree met with them since they were taken last.
    pub(crate) fn take_found(&mut self) -> Option<Vec<u32>> {
        replace(&mut self.found, None)
    }

    /// The cost at which leaves close.
    fn limit(&self) -> u64 {
        match self.best {
            Some(best) => best.saturating_sub(u64::from(self.unit) / ENOUGH),
            None => self.root.saturating_add(self.root / HEADROOM),
        }
    }

    /// Looks at the root.
    fn begin(&mut self, alloc: Global) -> Result<(), Memory> {
        self.is_begun = true;
        let best = self.best;
        self.sharpening.look_at_root_from(&self.region.walks, best)?;
        self.root = self.sharpening.bound();
        self.note_met(alloc)
    }

    /// Looks at the root, or makes a step.
    pub(crate) fn advance(&mut self, alloc: Global) -> Result<(), Memory> {
        if !self.is_begun {
            return self.begin(alloc);
        }
        let limit = self.limit();
        if self.sharpening.step(Some(limit))? == Step::Over {
            self.is_over = true;
            return Ok(());
        }
        self.note_met(alloc)
    }

    /// Leaves the region to others.
    pub(crate) fn leave(&mut self) {
        self.is_over = true;
    }

    /// Whether nothing is left to be done.
    pub(crate) fn is_over(&self) -> bool {
        self.is_over
    }

    /// What no timetable of the region costs less than, in units, and no more than the least known cost.
    pub(crate) fn bound(&self) -> u64 {
        let bound = self.sharpening.bound();
        bound.min(self.best.unwrap_or(bound))
    }

    /// What the tree shows, in units.
    pub(crate) fn shown(&self) -> u64 {
        self.sharpening.bound()
    }

    /// How much work was done.
    pub(crate) fn work(&self) -> u64 {
        self.sharpening.work()
    }

    /// How many lines, pairs and passes of walks are told of the tree.
    pub(crate) fn size(&self) -> usize {
        self.sharpening.size()
    }

    /// What is told of the tree.
    pub(crate) fn sharpened(&self) -> Result<Sharpened, Memory> {
        self.sharpening.sharpened()
    }

    /// The scale of the tree's leaves.
    pub(crate) fn scale(&self) -> u32 {
        self.sharpening.scale()
    }
}
