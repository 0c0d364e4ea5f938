//! Numbers that look like chance, and are the same in every run.

/// A linear congruential generator.
#[derive(Drop)]
pub struct Chance {
    state: u64,
}

impl Chance {
    /// The generator as every run begins with it.
    pub fn new() -> Chance {
        Chance {
            state: 1442695040888963407,
        }
    }

    /// The next number.
    pub fn next(&mut self) -> u32 {
        self.state = self
            .state
            .wrapping_mul(6364136223846793005)
            .wrapping_add(1442695040888963407);
        (self.state >> 32) as u32
    }
}
