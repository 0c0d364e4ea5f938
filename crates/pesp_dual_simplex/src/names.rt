//! Bases by names.

use crate::simplex::Simplex;
use pesp_basis::{State, VACANT};
use std::alloc::{AllocError, Global};

/// A basis: the basic slacks, the tight lines, each with whether it is at its greatest value, and the slacks at their span.
#[derive(Drop)]
pub struct BasisNames {
    pub basic: Vec<u32>,
    pub tight: Vec<(u32, bool)>,
    pub up: Vec<u32>,
}

impl BasisNames {
    /// No basis.
    pub fn new(alloc: Global) -> BasisNames {
        BasisNames {
            basic: Vec::new(alloc),
            tight: Vec::new(alloc),
            up: Vec::new(alloc),
        }
    }
}

/// The slacks that aren't basic and stand at their span.
fn list_up(state: &State, up: &mut Vec<u32>) -> Result<(), AllocError> {
    up.clear();
    let mut number = 0u32;
    for slack in &state.slacks {
        if slack.is_up && slack.place.is_none() {
            up.push(number)?;
        }
        number = number.wrapping_add(1);
    }
    Ok(())
}

/// The slacks that are basic.
fn list_basic(state: &State, basic: &mut Vec<u32>) -> Result<(), AllocError> {
    basic.clear();
    for number in &state.basic {
        if *number != VACANT {
            basic.push(*number)?;
        }
    }
    Ok(())
}

/// The lines that are tight, each with whether it is at its greatest value.
fn list_tight(state: &State, tight: &mut Vec<(u32, bool)>) -> Result<(), AllocError> {
    tight.clear();
    for number in &state.tight {
        if let Some(sum) = state.sums.get(*number as usize) {
            tight.push((*number, sum.is_up))?;
        }
    }
    Ok(())
}

/// The slacks that are named stand at their span, and no others.
fn set_up(state: &mut State, up: &[u32]) {
    state.clear_up();
    for number in up {
        if let Some(slack) = state.slacks.get_mut(*number as usize) {
            slack.is_up = true;
        }
    }
}

/// The lines that are named are tight, at these ends.
fn set_tight(state: &mut State, tight: &[(u32, bool)]) -> Result<(), AllocError> {
    state.tight.clear();
    for (number, is_up) in tight {
        state.tight.push(*number)?;
        if let Some(sum) = state.sums.get_mut(*number as usize) {
            sum.is_up = *is_up;
        }
    }
    Ok(())
}

impl Simplex {
    /// Writes down the basis.
    pub fn name(&self, names: &mut BasisNames) -> Result<(), AllocError> {
        list_basic(&self.state, &mut names.basic)?;
        list_tight(&self.state, &mut names.tight)?;
        list_up(&self.state, &mut names.up)
    }

    /// Goes to a basis that is named.
    pub fn take_names(&mut self, names: &BasisNames) -> Result<(), AllocError> {
        self.state.basic.clear();
        self.state.basic.extend_from_slice(&names.basic)?;
        set_up(&mut self.state, &names.up);
        set_tight(&mut self.state, &names.tight)?;
        self.rebuild()
    }
}
