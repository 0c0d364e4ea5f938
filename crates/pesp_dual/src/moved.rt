//! Numbers that steps move: the slacks, and the multipliers.

/// The longest step of a unit.
const MOST_STEP: u128 = 1 << 62;

/// The greatest distance that is told apart.
const FAR: u64 = 1 << 40;

/// A number from 0 to `most` that steps move: where it is, where the last step proper led, and where it was at the last
/// restart. A step proper goes by `step` times what it is drawn by, and the square of a distance counts `norm` times.
#[derive(Clone, Copy)]
pub(crate) struct Moved {
    pub(crate) at: i64,
    pub(crate) next: i64,
    pub(crate) anchor: i64,
    pub(crate) most: i64,
    pub(crate) step: i64,
    pub(crate) norm: u64,
}

/// The square of a distance, of which so many binary digits are left out.
fn square(one: i64, other: i64, digits: u32) -> u128 {
    let distance = u128::from(one.abs_diff(other).wrapping_shr(digits).min(FAR));
    distance.wrapping_mul(distance)
}

impl Moved {
    /// A number within its limits.
    pub(crate) fn new(at: i64, most: i64) -> Moved {
        let most = most.max(0);
        let at = at.max(0).min(most);
        Moved {
            at,
            next: at,
            anchor: at,
            most,
            step: 0,
            norm: 0,
        }
    }

    /// A step proper: by so much, but not beyond the limits.
    pub(crate) fn go(&mut self, change: i128) {
        let target = i128::from(self.at).wrapping_add(change);
        let within = target.max(0).min(i128::from(self.most));
        self.next = i64::try_from(within).unwrap_or(0);
    }

    /// As far again as the last step proper led.
    pub(crate) fn beyond(&self) -> i64 {
        self.next.wrapping_mul(2).wrapping_sub(self.at)
    }

    /// Goes as far again, and from there a part of the way back to the last restart, in 1/2^20.
    fn reflect(&mut self, part: i64) {
        let beyond = self.beyond();
        let way = i128::from(self.anchor.wrapping_sub(beyond));
        let back = way.wrapping_mul(i128::from(part)) >> 20;
        self.at = beyond.wrapping_add(i64::try_from(back).unwrap_or(0));
    }

    /// Sets the step to a factor of the norm's inverse, of which so many binary digits are left out.
    fn set_step(&mut self, factor: u64, digits: u32) {
        let inverse = (1u64 << 62) / self.norm.max(1);
        let step = u128::from(inverse)
            .wrapping_mul(u128::from(factor))
            .wrapping_shr(digits)
            .min(MOST_STEP);
        self.step = i64::try_from(step).unwrap_or(0);
    }
}

/// As though the last steps proper had led nowhere.
pub(crate) fn stay(all: &mut [Moved]) {
    for moved in all.iter_mut() {
        *moved = Moved::new(moved.at, moved.most);
    }
}

/// Begins anew from where the last steps proper led.
pub(crate) fn restart(all: &mut [Moved]) {
    for moved in all.iter_mut() {
        moved.at = moved.next;
        moved.anchor = moved.next;
    }
}

/// Goes on from the last steps proper, drawn back to the last restart by a part in 1/2^20.
pub(crate) fn reflect(all: &mut [Moved], part: i64) {
    for moved in all.iter_mut() {
        moved.reflect(part);
    }
}

/// Sets all steps to a factor of the norms' inverses.
pub(crate) fn set_steps(all: &mut [Moved], factor: u64, digits: u32) {
    for moved in all.iter_mut() {
        moved.set_step(factor, digits);
    }
}

/// The square of how far the last steps proper led.
pub(crate) fn length_of_step(all: &[Moved], digits: u32) -> u128 {
    let mut sum = 0u128;
    for moved in all {
        let square = square(moved.next, moved.at, digits);
        sum = sum.wrapping_add(square.wrapping_mul(u128::from(moved.norm)));
    }
    sum
}

/// The square of how far the way has led since the last restart.
pub(crate) fn length_of_way(all: &[Moved], digits: u32) -> u128 {
    let mut sum = 0u128;
    for moved in all {
        let square = square(moved.next, moved.anchor, digits);
        sum = sum.wrapping_add(square.wrapping_mul(u128::from(moved.norm)));
    }
    sum
}
