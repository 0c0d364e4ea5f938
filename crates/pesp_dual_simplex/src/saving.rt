//! Going back to where a simplex stood.

use crate::simplex::Simplex;
use pesp_basis::{Member, State, VACANT, drop_column, make_changes, widen};
use std::alloc::AllocError;

/// How many changes of the inverse are still to be made at most where the simplex is gone back to.
const FEW_UPDATES: usize = 16;

/// Whether no slack or line stands at a place any longer.
fn is_vacant(numbers: &[u32], place: usize) -> bool {
    match numbers.get(place) {
        Some(number) => *number == VACANT,
        None => false,
    }
}

/// Takes out what stands at a place; the last one takes its place, and is returned where it has moved.
fn take_out(numbers: &mut Vec<u32>, place: usize) -> Option<u32> {
    let last = numbers.pop()?;
    *numbers.get_mut(place)? = last;
    Some(last)
}

/// Takes out the row at a place; the last one takes its place.
fn take_row(rows: &mut Vec<Vec<i64>>, place: usize) {
    let Some(last) = rows.pop() else {
        return;
    };
    if let Some(slot) = rows.get_mut(place) {
        *slot = last;
    }
}

impl Simplex {
    /// Vacant places of basic slacks go.
    fn close_rows(&mut self) {
        for place in (0..self.state.basic.len()).rev() {
            if is_vacant(&self.state.basic, place) {
                take_row(&mut self.inverse, place);
                if let Some(moved) = take_out(&mut self.state.basic, place) {
                    let number = u32::try_from(place).unwrap_or(VACANT);
                    self.state.set_place(Member::Slack(moved), Some(number));
                }
            }
        }
    }

    /// Vacant places of tight lines go.
    fn close_columns(&mut self) {
        for place in (0..self.state.tight.len()).rev() {
            if is_vacant(&self.state.tight, place) {
                let number = u32::try_from(place).unwrap_or(VACANT);
                drop_column(&mut self.inverse, number);
                if let Some(moved) = take_out(&mut self.state.tight, place) {
                    self.state.set_place(Member::Line(moved), Some(number));
                }
            }
        }
    }

    /// The inverse is another one from now on, of which no change is to be made.
    pub(crate) fn forget_changes(&mut self) {
        self.state.updates.clear();
        self.state.inverse = self.state.inverse.wrapping_add(1);
    }

    /// Makes the changes of the inverse, where there are at least so many.
    pub fn settle(&mut self, least: usize) -> Result<(), AllocError> {
        if self.state.updates.len() < least {
            return Ok(());
        }
        let rows = self.state.basic.len();
        widen(self.alloc, &mut self.inverse, rows, self.state.tight.len())?;
        make_changes(&self.state.updates, &mut self.inverse);
        self.forget_changes();
        self.close_rows();
        self.close_columns();
        Ok(())
    }

    /// Copies where the simplex stands.
    pub fn save(&mut self, into: &mut State) -> Result<(), AllocError> {
        self.settle(FEW_UPDATES)?;
        into.copy(&self.state)?;
        into.updates.clear();
        into.kept = self.state.updates.len();
        Ok(())
    }

    /// Copies where the simplex stands, and hands over its changes since an earlier state. It goes back to that one next.
    pub fn hand_over(&mut self, earlier: &State, into: &mut State) -> Result<(), AllocError> {
        into.copy(&self.state)?;
        into.updates.clear();
        into.kept = earlier.kept.min(self.state.updates.len());
        for _ in into.kept..self.state.updates.len() {
            if let Some(update) = self.state.updates.pop() {
                into.updates.push(update)?;
            }
        }
        Ok(())
    }

    /// Takes over the changes that were handed over.
    fn take_over(&mut self, from: &mut State) -> Result<(), AllocError> {
        self.state.updates.truncate(from.kept);
        for _ in 0..from.updates.len() {
            if let Some(update) = from.updates.pop() {
                self.state.updates.push(update)?;
            }
        }
        Ok(())
    }

    /// Goes back to where it stood. Nothing is tight where the lines aren't those of then. Another inverse is built anew, and the
    /// state is of that one from then on.
    pub fn load(&mut self, from: &mut State) -> Result<(), AllocError> {
        if from.sums.len() != self.lines.len() {
            return self.reset();
        }
        let inverse = self.state.inverse;
        self.state.copy(from)?;
        if from.inverse == inverse && from.kept <= self.state.updates.len() {
            return self.take_over(from);
        }
        self.state.inverse = inverse;
        self.rebuild()?;
        self.save(from)
    }
}
