//! How long steps go on before they begin anew.

/// The course since the last restart: how many steps were made, and the lengths of the first and of the last one that was
/// measured.
#[derive(Clone, Copy)]
pub(crate) struct StepCourse {
    pub(crate) steps: u32,
    first: u128,
    last: u128,
}

/// A course that begins.
pub(crate) const BEGUN: StepCourse = StepCourse {
    steps: 0,
    first: 0,
    last: 0,
};

impl StepCourse {
    /// Whether the next step is measured.
    pub(crate) fn is_measured(&self) -> bool {
        self.steps < 2 || self.steps % 4 == 3
    }

    /// Takes in the length of a step; whether it has become so short, or grows so, that a restart pays.
    pub(crate) fn measure(&mut self, length: u128) -> bool {
        if self.steps == 0 {
            self.first = length;
            self.last = length;
            return false;
        }
        let is_short = length.saturating_mul(25) < self.first;
        let is_less = length.saturating_mul(100) < self.first.saturating_mul(64);
        let grows = length > self.last;
        self.last = length;
        is_short || (is_less && grows)
    }
}
