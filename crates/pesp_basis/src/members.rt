//! What leaves and what enters a basis.

use crate::fixed::over;

/// A slack, or a line, by its number from 0.
#[derive(Clone, Copy)]
pub enum Member {
    Slack(u32),
    Line(u32),
}

/// What leaves, and by how much it has to rise: below 0 where it has to fall.
#[derive(Clone, Copy)]
pub struct Leaving {
    pub member: Member,
    pub missing: i64,
}

/// What may enter: its price, and the amount of its coefficient.
#[derive(Clone, Copy)]
pub struct EnteringCandidate {
    pub member: Member,
    pub price: i64,
    pub size: i64,
}

/// A candidate with its ratio.
#[derive(Clone, Copy)]
pub struct First {
    pub candidate: EnteringCandidate,
    pub ratio: i64,
}

/// What enters, at which ratio, how many candidates before it go to their other end, and what the value gains.
#[derive(Clone, Copy)]
pub struct Entering {
    pub member: Member,
    pub ratio: i64,
    pub flips: usize,
    pub gain: i64,
}

impl Leaving {
    /// A number with the sign of what is missing.
    pub fn signed(&self, number: i64) -> i64 {
        if self.missing < 0 {
            number.wrapping_neg()
        } else {
            number
        }
    }
}

impl EnteringCandidate {
    /// It with its ratio.
    pub fn with_ratio(&self) -> First {
        First {
            candidate: *self,
            ratio: over(self.price, self.size),
        }
    }
}

impl First {
    /// Whether a candidate's ratio is above this one, which needs no division.
    fn is_below(&self, other: &EnteringCandidate) -> bool {
        let price = i128::from(other.price) << 36;
        let ratio = i128::from(self.ratio).wrapping_add(1);
        price >= ratio.wrapping_mul(i128::from(other.size))
    }

    /// A candidate that comes before it: of a lesser ratio, or of the same one and a greater coefficient.
    pub fn before(&self, other: &EnteringCandidate) -> Option<First> {
        if self.is_below(other) {
            return None;
        }
        let first = other.with_ratio();
        let is_less = first.ratio < self.ratio;
        let is_greater = first.ratio == self.ratio && other.size > self.candidate.size;
        (is_less || is_greater).then_some(first)
    }
}
