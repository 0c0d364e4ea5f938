//! The scale in which the leaves of two certificates can be told exactly.

use pesp_cert::Front;

/// A scale, and by what the multipliers of leaves that name a marked walk grow.
#[derive(Clone, Copy)]
pub(crate) struct Factors {
    pub(crate) scale: u32,
    pub(crate) own: i64,
    pub(crate) other: i64,
}

/// The scale of a front, 1 where there is none.
fn scale_of(front: &Option<Front>) -> u32 {
    match front {
        Some(front) => front.marks().scale().max(1),
        None => 1,
    }
}

/// The greatest common divisor of two numbers.
fn common_divisor(a: u32, b: u32) -> u32 {
    let (mut a, mut b) = (a, b);
    for _ in 0..64 {
        match a.checked_rem(b) {
            Some(rest) => (a, b) = (b, rest),
            None => return a.max(1),
        }
    }
    1
}

/// The least common multiple of the scales of two fronts.
pub(crate) fn factors_of(own: &Option<Front>, other: &Option<Front>) -> Factors {
    let (own, other) = (scale_of(own), scale_of(other));
    let divisor = common_divisor(own, other);
    let grown = other.checked_div(divisor).unwrap_or(1);
    Factors {
        scale: own.saturating_mul(grown),
        own: i64::from(grown),
        other: i64::from(own.checked_div(divisor).unwrap_or(1)),
    }
}
