//! How much a cycle inequality is violated.

/// One, in the unit of slacks, which is 1/65536.
pub(crate) const WHOLE: i64 = 65_536;

/// Inequalities that are violated by no more than this part of their right side count as not violated.
const LEAST_PART: i64 = 512;

/// Passes of one direction: their distances added up, in 1/65536, and how many there are.
#[derive(Clone, Copy)]
pub(crate) struct DirectionSums {
    pub(crate) distance: i64,
    pub(crate) count: i64,
}

/// What decides how much the inequality of a walk is violated: its rest, and the passes whose direction is plus or minus.
#[derive(Clone, Copy)]
pub(crate) struct Sums {
    pub(crate) rest: i64,
    pub(crate) rising: DirectionSums,
    pub(crate) falling: DirectionSums,
}

/// No passes.
pub(crate) const NO_SUMS: Sums = Sums {
    rest: 0,
    rising: NO_SIDE,
    falling: NO_SIDE,
};

const NO_SIDE: DirectionSums = DirectionSums {
    distance: 0,
    count: 0,
};

/// Judges violations at a period: `shift` is how many bits are cut off so that squares fit 64 bits.
#[derive(Clone, Copy)]
pub(crate) struct EfficacyMeasure {
    period: i64,
    shift: u32,
}

impl DirectionSums {
    /// One pass more.
    pub(crate) fn with(self, distance: i64) -> DirectionSums {
        DirectionSums {
            distance: self.distance.wrapping_add(distance),
            count: self.count.wrapping_add(1),
        }
    }

    /// One pass less.
    pub(crate) fn without(self, distance: i64) -> DirectionSums {
        DirectionSums {
            distance: self.distance.wrapping_sub(distance),
            count: self.count.wrapping_sub(1),
        }
    }

    /// The part of these passes in the square of the coefficients' norm.
    fn norm(self, rate: i64) -> i64 {
        rate.wrapping_mul(rate).wrapping_mul(self.count)
    }
}

impl EfficacyMeasure {
    /// The judge of a period.
    pub(crate) fn new(period: u32) -> EfficacyMeasure {
        let most = u64::from(period).wrapping_mul(u64::from(period)) << 14;
        let bits = 64u32.saturating_sub(most.leading_zeros());
        EfficacyMeasure {
            period: i64::from(period),
            shift: bits.saturating_sub(32),
        }
    }

    /// The period.
    pub(crate) fn period(self) -> i64 {
        self.period
    }

    /// The sum of all distances of a walk from which on no inequality of it is violated.
    pub(crate) fn bound(self) -> i64 {
        self.period.wrapping_mul(WHOLE)
    }

    /// By how much the left side of an inequality is too small, in 1/65536; 0 where that is next to nothing.
    fn violation(self, sums: &Sums) -> i64 {
        let distance = sums.rising.distance.wrapping_add(sums.falling.distance);
        if distance >= self.bound() || sums.rest == 0 {
            return 0;
        }
        let rate = self.period.wrapping_sub(sums.rest);
        let least = rate.wrapping_mul(sums.rest).wrapping_mul(WHOLE);
        let rising = rate.wrapping_mul(sums.rising.distance);
        let falling = sums.rest.wrapping_mul(sums.falling.distance);
        let violation = least.wrapping_sub(rising).wrapping_sub(falling);
        if violation <= least / LEAST_PART {
            return 0;
        }
        violation
    }

    /// The square of violation, in a unit that depends on the period alone; 0 where an inequality isn't violated.
    fn square(self, sums: &Sums) -> u64 {
        let violation = self.violation(sums).unsigned_abs();
        let short = violation.wrapping_shr(self.shift);
        short.wrapping_mul(short)
    }

    /// The square of the coefficients' norm.
    fn norm(self, sums: &Sums) -> u64 {
        let rate = self.period.wrapping_sub(sums.rest);
        let rising = sums.rising.norm(rate);
        let norm = rising.wrapping_add(sums.falling.norm(sums.rest));
        norm.unsigned_abs().max(1)
    }

    /// The square of violation by norm of the coefficients, in a unit that depends on the period alone; 0 where an inequality
    /// isn't violated.
    pub(crate) fn efficacy(self, sums: &Sums) -> u64 {
        self.square(sums) / self.norm(sums).max(1)
    }

    /// Whether the efficacy is above another one, which needs no division.
    pub(crate) fn exceeds(self, sums: &Sums, efficacy: u64) -> bool {
        let square = self.square(sums);
        if square == 0 {
            return false;
        }
        let next = u128::from(efficacy).wrapping_add(1);
        u128::from(square) >= next.wrapping_mul(u128::from(self.norm(sums)))
    }
}
