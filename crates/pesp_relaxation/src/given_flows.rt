//! A basis of given flows.

use crate::basis::Basis;
use crate::row::Bend;
use pesp_forest::{Frame, Groups, grow_all};
use std::alloc::{AllocError, Global};

impl Basis {
    /// Takes in a row that closes no cycle; whether it is one.
    fn take_in(&self, groups: &mut Groups, chosen: &mut [bool], place: u32) -> Option<bool> {
        let row = self.rows.get(place as usize)?;
        let joins = groups.join(row.tail, row.head)?;
        if joins {
            *chosen.get_mut(place as usize)? = true;
        }
        Some(joins)
    }

    /// Takes in each row, in order, whose flow is at no bend, unless it closes a cycle.
    fn choose_between(
        &self,
        groups: &mut Groups,
        chosen: &mut [bool],
        order: &[u32],
    ) -> Option<()> {
        for place in order {
            if self.rows.get(*place as usize)?.bend_of_flow() == Bend::Neither {
                self.take_in(groups, chosen, *place)?;
            }
        }
        Some(())
    }

    /// Takes in each row, in order, that closes no cycle.
    fn choose_rest(&self, groups: &mut Groups, chosen: &mut [bool], order: &[u32]) -> Option<()> {
        for place in order {
            self.take_in(groups, chosen, *place)?;
        }
        Some(())
    }

    /// Marks the rows of the tree, and gives the others the bend of their flow, and its part.
    fn mark(&mut self, chosen: &[bool]) {
        for (row, is_chosen) in self.rows.iter_mut().zip(chosen.iter()) {
            row.is_basic = *is_chosen;
            row.bend = row.bend_of_flow();
            row.part = row.part_upwards(true);
        }
    }

    /// Gives the row upwards from an event its part.
    fn set_part(&mut self, event: u32) -> Option<()> {
        let place = self.tree.place(event)?;
        let row = self.rows.get_mut(place.by as usize)?;
        row.part = row.part_upwards(row.tail == event);
        Some(())
    }

    /// Gives each row of the tree its part.
    fn set_parts(&mut self) -> Option<()> {
        for place in 0..self.tree.events() {
            let event = u32::try_from(place).ok()?;
            if !self.tree.is_root(event) {
                self.set_part(event)?;
            }
        }
        Some(())
    }

    /// A spanning tree of the rows, those whose flow is at no bend first.
    fn choose(&self, groups: &mut Groups, chosen: &mut [bool], order: &[u32]) -> Option<()> {
        self.choose_between(groups, chosen, order)?;
        self.choose_rest(groups, chosen, order)
    }

    /// Makes the tree of the chosen rows, with its prices.
    fn plant(&mut self, frame: &Frame, chosen: &[bool]) -> Option<()> {
        self.mark(chosen);
        self.tree.clear();
        grow_all(frame, chosen, &mut self.tree)?;
        self.set_parts()?;
        self.forget_violated()?;
        self.reprice()
    }

    /// A tree of these rows and prices for the flows as they are: rows whose flow is at no bend are taken first, and of those
    /// and of the others the earlier ones. A row whose flow is at no bend and would close a cycle stays outside the tree;
    /// the first pivot of a step along it brings its flow to a bend, or it into the tree. Rows that aren't listed are in no
    /// tree.
    pub fn start(
        &mut self,
        alloc: Global,
        frame: &Frame,
        order: &[u32],
    ) -> Result<Option<()>, AllocError> {
        let events = u32::try_from(frame.events()).unwrap_or(u32::MAX);
        let mut groups = Groups::apart(alloc, events)?;
        let mut chosen = vec![in alloc; false; self.rows.len()]?;
        if self.choose(&mut groups, &mut chosen, order).is_none() {
            return Ok(None);
        }
        Ok(self.plant(frame, &chosen))
    }
}
