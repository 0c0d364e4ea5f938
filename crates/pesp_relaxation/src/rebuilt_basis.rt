//! The basis of a leaf, from its ranges and its pairs.

use crate::basis::Basis;
use crate::row::slopes_of;
use pesp_forest::guarded::{amount, set_amount};
use pesp_forest::{Cycles, Frame};
use pesp_problem::Pair;
use std::alloc::{AllocError, Global};

/// Adds to the amount at a place.
fn add_at(amounts: &mut [i64], place: u32, more: i64) -> Option<()> {
    let sum = amount(amounts, place)?.checked_add(more)?;
    set_amount(amounts, place, sum)
}

impl Basis {
    /// What flow on each row costs by its slack range, as though it were in the forest.
    fn set_slacks(&mut self, frame: &Frame, slacks: &[(u32, u32)]) -> Option<()> {
        for (place, row) in frame.rows().iter().enumerate() {
            let range = slacks.get(place).copied()?;
            let slopes = slopes_of(frame.period(), row, range, (0, 0))?;
            self.set_slopes(u32::try_from(place).ok()?, slopes)?;
        }
        Some(())
    }

    /// What flow on the row of a cycle costs.
    fn set_cycle(
        &mut self,
        frame: &Frame,
        place: u32,
        slacks: &[(u32, u32)],
        offsets: (i64, i64),
    ) -> Option<()> {
        let row = frame.row(place)?;
        let range = slacks.get(place as usize).copied()?;
        let slopes = slopes_of(frame.period(), row, range, offsets)?;
        self.set_slopes(place, slopes)
    }

    /// What flow on each row costs by its slack range, and by the offset range of its cycle.
    pub fn set_ranges(
        &mut self,
        frame: &Frame,
        cycles: &Cycles,
        slacks: &[(u32, u32)],
        offsets: &[(i64, i64)],
    ) -> Option<()> {
        self.set_slacks(frame, slacks)?;
        for (place, row) in cycles.outside().iter().enumerate() {
            let range = offsets.get(place).copied()?;
            self.set_cycle(frame, *row, slacks, range)?;
        }
        Some(())
    }

    /// Sets the flow on a row; `start` then makes the basis of all flows.
    pub fn set_flow(&mut self, row: u32, flow: i64) -> Option<()> {
        self.rows.get_mut(row as usize)?.flow = flow;
        Some(())
    }

    /// No flow on any row.
    pub fn clear_flows(&mut self) {
        for row in self.rows.iter_mut() {
            row.flow = 0;
        }
    }

    /// The flow of a pair on its cycle's row, which arrives at one event and leaves another.
    fn put_pair(&mut self, cycles: &Cycles, arriving: &mut [i64], pair: &Pair) -> Option<()> {
        let place = cycles.row(pair.cycle)?;
        self.set_flow(place, pair.mult)?;
        let row = self.rows.get(place as usize)?;
        add_at(arriving, row.head, pair.mult)?;
        add_at(arriving, row.tail, pair.mult.checked_neg()?)
    }

    /// Sends what arrives at an event on by the row of the forest upwards.
    fn send_on(&mut self, cycles: &Cycles, arriving: &mut [i64], event: u32) -> Option<()> {
        let place = cycles.forest().tree().place(event)?;
        let units = amount(arriving, event)?;
        let row = self.rows.get_mut(place.by as usize)?;
        row.flow = if row.tail == event {
            units
        } else {
            units.checked_neg()?
        };
        add_at(arriving, place.up, units)
    }

    /// The flow that pairs have on the rows of the forest.
    fn fill_forest(&mut self, cycles: &Cycles, arriving: &mut [i64]) -> Option<()> {
        for event in cycles.downwards().iter().rev() {
            if !cycles.forest().tree().is_root(*event) {
                self.send_on(cycles, arriving, *event)?;
            }
        }
        Some(())
    }

    /// The flow of pairs on each row.
    fn fill(&mut self, cycles: &Cycles, arriving: &mut [i64], pairs: &[Pair]) -> Option<()> {
        self.clear_flows();
        for pair in pairs {
            self.put_pair(cycles, arriving, pair)?;
        }
        self.fill_forest(cycles, arriving)
    }

    /// The circulation of these pairs, with a tree and its prices; of no pairs where a flow would pass 64 bits. Rows cost what
    /// they did.
    pub fn rebuild(
        &mut self,
        alloc: Global,
        frame: &Frame,
        cycles: &Cycles,
        pairs: &[Pair],
    ) -> Result<Option<()>, AllocError> {
        let mut arriving = vec![in alloc; 0i64; frame.events()]?;
        if self.fill(cycles, &mut arriving, pairs).is_some() {
            let found = self.start(alloc, frame, cycles.order())?;
            if found.is_some() {
                return Ok(found);
            }
        }
        self.clear_flows();
        self.start(alloc, frame, cycles.order())
    }

    /// The pairs whose flow this is: the flow on each cycle's row, where there is any.
    pub fn pairs(&self, alloc: Global, cycles: &Cycles) -> Result<Vec<Pair>, AllocError> {
        let mut pairs = Vec::new(alloc);
        self.put_pairs(cycles, &mut pairs)?;
        Ok(pairs)
    }

    /// The same pairs in place of those of a list.
    pub fn put_pairs(&self, cycles: &Cycles, pairs: &mut Vec<Pair>) -> Result<(), AllocError> {
        pairs.clear();
        for (place, row) in cycles.outside().iter().enumerate() {
            let mult = self.flow(*row).unwrap_or(0);
            let cycle = u32::try_from(place).unwrap_or(0).saturating_add(1);
            if mult != 0 {
                pairs.push(Pair { cycle, mult })?;
            }
        }
        Ok(())
    }
}
