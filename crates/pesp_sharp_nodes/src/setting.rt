//! What is searched.

use crate::cycles::{Cycle, Range, cycles_of};
use crate::limit::Limit;
use pesp_forest::Frame;
use pesp_inequalities::Pass;
use pesp_network::{NetRow, Network};
use std::alloc::{AllocError, Global};
use std::mem::swap;

/// A network, the cycles whose offsets are branched on, what the greatest slacks of all rows cost, how many units of a
/// multiplier that is told make up one, and how many of a weight and of a cost.
#[derive(Drop)]
pub struct Setting {
    pub frame: Frame,
    pub cycles: Vec<Cycle>,
    pub dearest: u64,
    pub scale: u32,
    pub unit: u32,
}

/// What the greatest slacks of all rows cost.
fn dearest_of(rows: &[NetRow]) -> u64 {
    let mut sum = 0u64;
    for row in rows {
        sum = sum.saturating_add(row.weight.saturating_mul(u64::from(row.span)));
    }
    sum
}

impl Setting {
    /// The setting of a network, with multipliers that are told by a scale, and weights in units of which so many make up one.
    pub fn new(
        alloc: Global,
        network: &Network,
        scale: u32,
        unit: u32,
    ) -> Result<Setting, AllocError> {
        let frame = Frame::new(alloc, network)?;
        let cycles = cycles_of(alloc, &frame, unit)?;
        let dearest = dearest_of(frame.rows());
        Ok(Setting {
            frame,
            cycles,
            dearest,
            scale,
            unit,
        })
    }

    /// Puts cycles in front of the others, by the rows that they pass; those that were there already go from behind. One that
    /// passes no row, or one that isn't there, has one offset.
    pub fn put_first(&mut self, alloc: Global, lists: &[Vec<Pass>]) -> Result<(), AllocError> {
        let mut cycles = Vec::with_capacity(alloc, lists.len())?;
        for passes in lists {
            let passes = Vec::from_slice(alloc, passes)?;
            let cycle = Cycle::given(alloc, &self.frame, passes, self.unit);
            cycles.push(cycle)?;
        }
        let mut own = Vec::new(alloc);
        swap(&mut own, &mut self.cycles);
        for cycle in own {
            if !lists.iter().any(|passes| *passes == cycle.passes) {
                cycles.push(cycle)?;
            }
        }
        self.cycles = cycles;
        Ok(())
    }

    /// How many units of a whole multiplier make up one.
    pub fn fine_scale(&self) -> i64 {
        i64::from(self.scale).saturating_mul(i64::from(self.unit))
    }

    /// The period.
    pub fn period(&self) -> i64 {
        i64::from(self.frame.period())
    }

    /// The cycle of a number, from 0.
    pub fn cycle(&self, number: u32) -> Option<&Cycle> {
        self.cycles.get(number as usize)
    }

    /// What closes a leaf where the best timetable costs so much. Without one a leaf is closed that shows more than any
    /// timetable costs.
    pub fn limit(&self, best: Option<u64>) -> Limit {
        Limit::at(best.unwrap_or(self.dearest.saturating_add(1)))
    }

    /// Whether a leaf of this bound shows that there is no timetable in it.
    pub fn is_shut_by(&self, bound: u64) -> bool {
        bound > self.dearest
    }

    /// The offsets that slacks leave to each cycle.
    pub fn ranges(&self, alloc: Global) -> Result<Vec<Range>, AllocError> {
        let mut ranges = Vec::with_capacity(alloc, self.cycles.len())?;
        for cycle in &self.cycles {
            ranges.push(cycle.range)?;
        }
        Ok(ranges)
    }

    /// The first cycle to which slacks leave no offset.
    pub fn first_gap(&self) -> Option<u32> {
        let place = self
            .cycles
            .iter()
            .position(|cycle| cycle.range.least > cycle.range.most)?;
        u32::try_from(place).ok()
    }
}
