//! What a queue holds.

/// An item by its number, with its value.
#[derive(Clone, Copy, PartialEq, Eq)]
pub struct Entry {
    pub item: u32,
    pub value: u64,
}
