//! Sets of the places 0 to 63.

ghost use Rattle.std.specs.Iterator.{at_most};

/// The places in a set, from the least.
#[derive(Drop)]
pub(crate) struct Places(pub(crate) u64);

impl Iterator for Places {
    type Item = u32;

    ghost remaining = { λ s. at_most s.0 };

    fn next(&mut self) -> Option<u32> {
        if self.0 == 0 {
            return None;
        }
        let place = self.0.trailing_zeros();
        self.0 &= self.0 - 1;
        Some(place)
    }
}

/// The set of the places below a number.
pub(crate) fn below(number: u32) -> u64 {
    if number >= 64 {
        u64::MAX
    } else {
        1u64.wrapping_shl(number).wrapping_sub(1)
    }
}

/// The places of a set that are so many higher or lower by turns in a cycle of so many places, which has at most 64.
pub(crate) fn turned(set: u64, by: u32, cycle: u32) -> u64 {
    let past = set.wrapping_shr(cycle.wrapping_sub(by));
    (set.wrapping_shl(by) | past) & below(cycle)
}
