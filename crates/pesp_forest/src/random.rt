//! Numbers that look random, the same in each run.

/// A xorshift generator (Marsaglia 2003).
#[derive(Drop)]
pub struct Random {
    state: u64,
}

impl Random {
    /// The generator of a seed.
    pub fn new(seed: u64) -> Random {
        let mixed = seed.wrapping_mul(0x9e37_79b9_7f4a_7c15);
        let mut random = Random {
            state: (88_172_645_463_325_252 ^ mixed).max(1),
        };
        for _ in 0..5 {
            random.next();
        }
        random
    }

    /// The next number of 64 bits.
    pub fn next(&mut self) -> u64 {
        let mut state = self.state;
        state ^= state << 13;
        state ^= state >> 7;
        state ^= state << 17;
        self.state = state;
        state
    }

    /// A number below a limit, or 0 where that is 0.
    pub fn below(&mut self, limit: u64) -> u64 {
        let scaled = u128::from(self.next()).wrapping_mul(u128::from(limit));
        u64::try_from(scaled >> 64).unwrap_or(0)
    }

    /// How often a fraction that is drawn evenly can be doubled until it is 1, in units of 1/1024: a number that is
    /// exponentially distributed, but for a factor.
    pub fn halvings(&mut self) -> u64 {
        let drawn = self.next() | 1;
        let doublings = drawn.leading_zeros();
        let rest = (drawn.wrapping_shl(doublings) >> 53) % 1024;
        let whole = u64::from(doublings).saturating_mul(1024);
        whole.saturating_add(1023).saturating_sub(rest)
    }
}
