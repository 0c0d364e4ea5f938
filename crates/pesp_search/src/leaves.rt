//! Some leaves of a tree.

/// Some leaves of a certificate's tree: all but those of which the cost is told that they show; and the bound from which on none is
/// split, where one is named.
#[derive(Clone, Copy)]
pub struct Leaves<'a> {
    pub spared: &'a [Option<u64>],
    pub until: Option<u64>,
}
