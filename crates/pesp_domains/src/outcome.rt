//! What propagation tells.

/// Sets that all rows support and of which none is empty, or an event that has no possible difference left.
#[derive(Clone, Copy, PartialEq, Eq)]
pub enum Outcome {
    Stable,
    Empty { event: u32 },
}
