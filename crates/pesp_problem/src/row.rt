//! Rows of an instance, and rows with a sign.

/// An activity: it leads from its tail event to its head event, which are named by their places in the list of events,
/// from 0. Its duration may be `lower` to `upper`, and each unit above `lower` costs `weight` (Serafini and Ukovich 1989).
#[derive(Clone, Copy, PartialEq, Eq)]
pub struct Row {
    pub label: i64,
    pub tail: u32,
    pub head: u32,
    pub lower: i64,
    pub upper: i64,
    pub weight: u64,
}

/// A row, numbered from 1, that a walk passes from tail to head under a plus sign and from head to tail under a minus sign.
#[derive(Clone, Copy, PartialEq, Eq)]
pub struct SignedRow {
    pub row: u32,
    pub plus: bool,
}
