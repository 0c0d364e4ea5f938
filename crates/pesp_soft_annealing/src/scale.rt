//! Costs by the heat.

/// How many units of cost make a shift half as likely.
const OCTAVE: u64 = 16;

/// The greatest cost in units.
pub(crate) const MOST: u16 = 32_767;

/// The greatest cost that is multiplied.
const MOST_FACTOR: u64 = 1 << 31;

/// How many units a cost has at a heat: those of a cost that is halved so many times are its product with a factor over 2^24.
#[derive(Clone, Copy)]
pub(crate) struct Scale {
    halvings: u32,
    factor: u64,
}

impl Scale {
    /// The scale at a heat.
    pub(crate) fn of(heat: u64) -> Scale {
        let bits = 64u32.saturating_sub(heat.leading_zeros());
        let halvings = bits.saturating_sub(24);
        let rest = heat.wrapping_shr(halvings).max(1);
        Scale {
            halvings,
            factor: (OCTAVE << 24) / rest,
        }
    }

    /// A cost in units.
    pub(crate) fn units(&self, cost: u64) -> u16 {
        let shorter = cost.wrapping_shr(self.halvings).min(MOST_FACTOR);
        let product = (shorter & 0xffff_ffff).wrapping_mul(self.factor & 0xffff_ffff);
        let scaled = product.wrapping_add(1 << 23) >> 24;
        u16::try_from(scaled).unwrap_or(MOST).min(MOST)
    }
}
