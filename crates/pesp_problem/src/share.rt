//! A share of the work that regions are.

/// One of several shares, by its number from 0 on, and how many there are.
#[derive(Clone, Copy, PartialEq, Eq)]
pub struct Share {
    pub number: u32,
    pub of: u32,
}
