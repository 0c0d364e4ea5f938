//! Bases written down in half a byte a row, and read again: so the leaf of a node that was looked at before needs no pivot.

use crate::basis::Basis;
use crate::row::{Bend, CostPiece, FlowRow};
use pesp_forest::guarded::{amount, set_amount};
use pesp_forest::{Frame, NONE, grow_all};
use std::alloc::{AllocError, Global};

/// Half a byte for a row: for one of the basis the part of its flow, for another one the bend; None where its flow is at none.
fn code_of(row: &FlowRow) -> Option<u8> {
    if !row.is_basic {
        return match row.bend {
            Bend::Zero => Some(3),
            Bend::Weight => Some(4),
            Bend::Neither => None,
        };
    }
    match row.part {
        CostPiece::Below => Some(0),
        CostPiece::Between => Some(1),
        CostPiece::Above => Some(2),
    }
}

/// The part of a row of the basis.
fn part_of(code: u8) -> CostPiece {
    match code {
        0 => CostPiece::Below,
        1 => CostPiece::Between,
        _ => CostPiece::Above,
    }
}

/// The half byte of the row at a place.
fn code_at(codes: &[u8], place: usize) -> Option<u8> {
    let both = codes.get(place / 2).copied()?;
    if place % 2 == 0 {
        Some(both % 16)
    } else {
        Some(both / 16)
    }
}

/// Adds an amount of flow that arrives at an event.
fn arrive(arriving: &mut [i64], event: u32, units: i64) -> Option<()> {
    let sum = amount(arriving, event)?.checked_add(units)?;
    set_amount(arriving, event, sum)
}

/// Adds what the flow on a row brings to its ends.
fn bring(arriving: &mut [i64], row: &FlowRow) -> Option<()> {
    if row.flow == 0 {
        return Some(());
    }
    arrive(arriving, row.head, row.flow)?;
    arrive(arriving, row.tail, row.flow.checked_neg()?)
}

impl Basis {
    /// Writes the basis down, where each row outside the tree has its flow at a bend; whether it was written.
    pub fn save(&self, codes: &mut Vec<u8>) -> Result<bool, AllocError> {
        codes.clear();
        let mut first = 0u8;
        for (place, row) in self.rows.iter().enumerate() {
            let Some(code) = code_of(row) else {
                return Ok(false);
            };
            if place % 2 == 0 {
                first = code;
            } else {
                codes.push(first.wrapping_add(code.wrapping_mul(16)))?;
            }
        }
        codes.push(first)?;
        Ok(true)
    }

    /// Sets a row as it was written, with the flow of its bend, which arrives at its ends.
    fn set_row(
        &mut self,
        chosen: &mut [bool],
        arriving: &mut [i64],
        place: usize,
        code: u8,
    ) -> Option<()> {
        let row = self.row_mut(u32::try_from(place).ok()?)?;
        row.is_basic = code < 3;
        row.flow = if code == 4 { row.weight } else { 0 };
        row.bend = if code == 4 { Bend::Weight } else { Bend::Zero };
        row.part = part_of(code);
        *chosen.get_mut(place)? = code < 3;
        bring(arriving, row)
    }

    /// Sets all rows as they were written.
    fn set_rows(&mut self, chosen: &mut [bool], arriving: &mut [i64], codes: &[u8]) -> Option<()> {
        for place in 0..self.rows.len() {
            let code = code_at(codes, place)?;
            self.set_row(chosen, arriving, place, code)?;
        }
        Some(())
    }

    /// Sends what arrives at an event on by the row of the tree upwards.
    fn send_up(&mut self, arriving: &mut [i64], event: u32) -> Option<()> {
        let place = self.tree.place(event)?;
        if place.up == NONE {
            return Some(());
        }
        let units = amount(arriving, event)?;
        let row = self.row_mut(place.by)?;
        row.flow = if row.tail == event {
            units
        } else {
            units.checked_neg()?
        };
        arrive(arriving, place.up, units)
    }

    /// The events below a root, each before those below it.
    fn list_below(&self, list: &mut Vec<u32>, root: u32) -> Result<(), AllocError> {
        let mut event = root;
        for _ in 0..self.tree.events() {
            list.push(event)?;
            event = self.tree.following(event, root);
            if event == NONE {
                return Ok(());
            }
        }
        Ok(())
    }

    /// All events, each before those below it.
    fn list_down(&self, alloc: Global) -> Result<Vec<u32>, AllocError> {
        let mut list = Vec::with_capacity(alloc, self.tree.events())?;
        for place in 0..self.tree.events() {
            let event = u32::try_from(place).unwrap_or(NONE);
            if self.tree.is_root(event) {
                self.list_below(&mut list, event)?;
            }
        }
        Ok(list)
    }

    /// The flows on the rows of the tree, from those at bends.
    fn send_all(&mut self, arriving: &mut [i64], downwards: &[u32]) -> Option<()> {
        for event in downwards.iter().rev() {
            self.send_up(arriving, *event)?;
        }
        Some(())
    }

    /// The prices of all events, each listed behind the one above it, where no step along any row pays.
    fn price_all(&mut self, downwards: &[u32]) -> Option<()> {
        for event in downwards {
            self.price_below(*event)?;
        }
        self.forget_violated()?;
        self.set_fresh();
        Some(())
    }

    /// The tree of the chosen rows.
    fn grow(&mut self, frame: &Frame, chosen: &[bool]) -> Option<()> {
        self.tree.clear();
        grow_all(frame, chosen, &mut self.tree)
    }

    /// The basis that was written down, where rows cost what they did then: no step along any row pays. None where it can't be
    /// one.
    pub fn restore(
        &mut self,
        alloc: Global,
        frame: &Frame,
        codes: &[u8],
    ) -> Result<Option<()>, AllocError> {
        let mut chosen = vec![in alloc; false; self.rows.len()]?;
        let mut arriving = vec![in alloc; 0i64; frame.events()]?;
        let rows = self.set_rows(&mut chosen, &mut arriving, codes);
        if rows.is_none() || self.grow(frame, &chosen).is_none() {
            return Ok(None);
        }
        let downwards = self.list_down(alloc)?;
        if self.send_all(&mut arriving, &downwards).is_none() {
            return Ok(None);
        }
        Ok(self.price_all(&downwards))
    }
}
