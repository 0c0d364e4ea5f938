//! Points from which steps go on.

use crate::inequality::Multiplier;
use crate::program::Program;
use std::alloc::{AllocError, Global};

/// Slacks, in 1/65536, and the weight of the multipliers' side against theirs, in 1/65536 (the primal weight: Applegate and
/// others 2021): where steps go on.
#[derive(Drop)]
pub struct Point {
    pub slacks: Vec<i64>,
    pub balance: i64,
}

/// Multipliers and a point to go back to.
#[derive(Drop)]
pub struct Save {
    multipliers: Vec<Multiplier>,
    point: Point,
}

impl Program {
    /// Where steps go on.
    pub fn point(&self, alloc: Global) -> Result<Point, AllocError> {
        Ok(Point {
            slacks: Vec::from_slice(alloc, self.slacks())?,
            balance: self.balance(),
        })
    }

    /// Sets where steps go on.
    pub fn set_point(&mut self, point: &Point) {
        self.set_slacks(&point.slacks);
        self.set_balance(point.balance);
    }

    /// The multipliers of all inequalities.
    fn all_multipliers(&self, alloc: Global) -> Result<Vec<Multiplier>, AllocError> {
        let mut multipliers = Vec::with_capacity(alloc, self.count())?;
        for (inequality, moved) in self.inequalities.iter().zip(self.multipliers.iter()) {
            multipliers.push(Multiplier {
                current: moved.at,
                best: inequality.best,
            })?;
        }
        Ok(multipliers)
    }

    /// The multipliers and the point, but not the inequalities.
    pub fn save(&self, alloc: Global) -> Result<Save, AllocError> {
        Ok(Save {
            multipliers: self.all_multipliers(alloc)?,
            point: self.point(alloc)?,
        })
    }

    /// Sets the multipliers in use.
    fn set_current(&mut self, multipliers: &[Multiplier]) {
        for (moved, multiplier) in self.multipliers.iter_mut().zip(multipliers.iter()) {
            moved.at = multiplier.current.max(0).min(moved.most);
        }
    }

    /// Sets the best multipliers.
    fn set_best(&mut self, multipliers: &[Multiplier]) {
        let numbers = self.multipliers.iter().zip(multipliers.iter());
        for (inequality, (moved, multiplier)) in self.inequalities.iter_mut().zip(numbers) {
            inequality.best = multiplier.best.max(0).min(moved.most);
        }
    }

    /// Goes back to multipliers and a point that were saved over the same inequalities.
    pub fn restore(&mut self, save: &Save) {
        self.set_current(&save.multipliers);
        self.set_best(&save.multipliers);
        self.set_point(&save.point);
    }
}
