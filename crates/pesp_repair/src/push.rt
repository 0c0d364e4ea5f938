//! Moves of an event, and of those that it drags along.

/// An event moves by so much, later or earlier, and what it drags along moves as far as it must; one event has to stay.
#[derive(Clone, Copy)]
pub(crate) struct Push {
    pub(crate) event: u32,
    pub(crate) by: i64,
    pub(crate) later: bool,
    pub(crate) stays: u32,
}
