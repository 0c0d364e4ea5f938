//! Lists of numbers of which few are not 0.

use crate::fixed::{by_whole, is_nothing, times};
use crate::state::Standing;
use pesp_dual::Term;
use std::alloc::{AllocError, Global};

/// Numbers by place, 0 but at the places that are listed.
#[derive(Drop)]
pub struct Sparse {
    values: Vec<i64>,
    is_listed: Vec<bool>,
    places: Vec<u32>,
}

impl Sparse {
    /// No numbers.
    pub fn new(alloc: Global) -> Sparse {
        Sparse {
            values: Vec::new(alloc),
            is_listed: Vec::new(alloc),
            places: Vec::new(alloc),
        }
    }

    /// Makes numbers so many; those that are new are 0.
    pub fn make_room(&mut self, count: usize) -> Result<(), AllocError> {
        self.values.resize(count, 0)?;
        self.is_listed.resize(count, false)
    }

    /// Adds to a number.
    pub fn add(&mut self, place: u32, number: i64) -> Result<(), AllocError> {
        let Some(value) = self.values.get_mut(place as usize) else {
            return Ok(());
        };
        *value = value.wrapping_add(number);
        if let Some(is_listed) = self.is_listed.get_mut(place as usize)
            && !*is_listed
        {
            *is_listed = true;
            self.places.push(place)?;
        }
        Ok(())
    }

    /// Adds a step times factors to the numbers at places.
    pub fn add_times(
        &mut self,
        places: &[u32],
        factors: &[i64],
        step: i64,
    ) -> Result<(), AllocError> {
        for (place, factor) in places.iter().zip(factors.iter()) {
            let part = times(step, *factor);
            if !is_nothing(part) {
                self.add(*place, part)?;
            }
        }
        Ok(())
    }

    /// Takes a line times a weight away from numbers that are listed later.
    pub fn take(&mut self, terms: &[Term], weight: i64) {
        for term in terms {
            let part = by_whole(weight, term.coefficient);
            self.gather(term.row, part.wrapping_neg());
        }
    }

    /// Adds to a number that is listed later.
    pub fn gather(&mut self, place: u32, number: i64) {
        if let Some(value) = self.values.get_mut(place as usize) {
            *value = value.wrapping_add(number);
        }
    }

    /// Lists the numbers of slacks that aren't basic; the others become 0.
    pub fn list(&mut self, slacks: &[Standing]) -> Result<(), AllocError> {
        self.places.clear();
        let mut place = 0u32;
        for (value, slack) in self.values.iter_mut().zip(slacks.iter()) {
            *value = if slack.place.is_some() { 0 } else { *value };
            if *value != 0 {
                self.places.push(place)?;
            }
            place = place.wrapping_add(1);
        }
        Ok(())
    }

    /// All numbers are 0, listed or not.
    pub fn wipe(&mut self) {
        self.values.fill(0);
        self.places.clear();
    }

    /// A number.
    pub fn get(&self, place: u32) -> i64 {
        self.values.get(place as usize).copied().unwrap_or(0)
    }

    /// The places that are listed.
    pub fn places(&self) -> &[u32] {
        &self.places
    }

    /// All numbers are 0.
    pub fn clear(&mut self) {
        for place in &self.places {
            if let Some(value) = self.values.get_mut(*place as usize) {
                *value = 0;
            }
            if let Some(is_listed) = self.is_listed.get_mut(*place as usize) {
                *is_listed = false;
            }
        }
        self.places.clear();
    }
}
