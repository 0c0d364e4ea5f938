//! Weights of choices by their cost.

/// Two to the powers 28, 28 - 1/16, 28 - 2/16 and so on.
static PARTS: [u64; 16] = [
    268_435_456,
    257_054_720,
    246_158_336,
    235_719_680,
    225_726_208,
    216_156_160,
    206_991_616,
    198_215_936,
    189_812_480,
    181_765_120,
    174_058_752,
    166_679_296,
    159_612_672,
    152_845_568,
    146_365_440,
    140_160_000,
];

/// A cost that is halved so many sixteenths of once, and 1 at least.
pub fn halved(cost: u64, sixteenths: u64) -> u64 {
    let part = PARTS.get((sixteenths % 16) as usize).copied().unwrap_or(0);
    let whole = (sixteenths / 16).min(63) as u32;
    let less = (u128::from(cost).wrapping_mul(u128::from(part)) >> 28) >> whole;
    u64::try_from(less).unwrap_or(u64::MAX).max(1)
}

/// By what cost a choice is dearer when it is half as likely, and from what cost on it has no weight.
#[derive(Clone, Copy)]
pub struct Heat {
    halvings: u32,
    factor: u64,
    reach: u64,
}

/// Twenty-eight octaves in sixteenths: what is dearer has no weight.
const MOST_SIXTEENTHS: u64 = 28 * 16;

impl Heat {
    /// The heat of so much cost, at least 1.
    pub fn of(cost: u64) -> Heat {
        let bits = 64u32.saturating_sub(cost.leading_zeros());
        let halvings = bits.saturating_sub(24);
        let rest = cost.wrapping_shr(halvings).max(1);
        let factor = ((16 << 28) / rest).max(1);
        let least = ((MOST_SIXTEENTHS << 28) / factor).saturating_add(1);
        Heat {
            halvings,
            factor,
            reach: least.saturating_mul(1u64.wrapping_shl(halvings)),
        }
    }

    /// The heat of a round of so many that begin at `top`, halved in five octaves.
    pub(crate) fn in_round(top: u64, round: u32, rounds: u32) -> Heat {
        let sixteenths = u64::from(round).wrapping_mul(80) / u64::from(rounds.max(1));
        Heat::of(halved(top, sixteenths))
    }

    /// The weight of a choice that is dearer by so much than another of weight 2^28: a half for each time that the heat goes
    /// into it, rounded to sixteenths of an octave.
    pub fn weight(&self, dearer: u64) -> u64 {
        if dearer >= self.reach {
            return 0;
        }
        let sixteenths = dearer
            .wrapping_shr(self.halvings)
            .saturating_mul(self.factor)
            >> 28;
        if sixteenths >= MOST_SIXTEENTHS {
            return 0;
        }
        let part = PARTS.get((sixteenths % 16) as usize).copied().unwrap_or(0);
        part.wrapping_shr((sixteenths / 16) as u32)
    }
}
