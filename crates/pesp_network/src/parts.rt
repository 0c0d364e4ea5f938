//! What a forest is grown from, and what it is.

ghost use Rattle.std.specs.Prelude.{◌≡◌, vec_len};

/// A forest that grows: the event above an event and the row that joins them (0 at a root), the event's place in the
/// order in which events were seen (from 1, 0 where it isn't seen), the last place below it (the greatest number while
/// the event is open), the root of its tree, the last row at it that wasn't looked at, and that order.
#[derive(Drop)]
pub struct Growth {
    pub up: Vec<usize>,
    pub by: Vec<usize>,
    pub place: Vec<usize>,
    pub last: Vec<usize>,
    pub root: Vec<usize>,
    pub left: Vec<usize>,
    pub order: Vec<usize>,
    ghost sized: { (vec_len by ≡ vec_len up) × (vec_len place ≡ vec_len up)
        × (vec_len last ≡ vec_len up) × (vec_len root ≡ vec_len up)
        × (vec_len left ≡ vec_len up) },
}

/// A rooted spanning forest: for each event the event above it and the row that joins them (0 at a root), its place in
/// preorder, from 1, the last place below it, and the root of its tree; and the events in preorder.
#[derive(Drop)]
pub struct Forest {
    pub up: Vec<usize>,
    pub by: Vec<usize>,
    pub place: Vec<usize>,
    pub last: Vec<usize>,
    pub root: Vec<usize>,
    pub order: Vec<usize>,
    ghost sized: { (vec_len by ≡ vec_len up) × (vec_len place ≡ vec_len up)
        × (vec_len last ≡ vec_len up) × (vec_len root ≡ vec_len up) },
}

/// The first and the last place that are reached from each event or below it, by a row other than the event's own.
#[derive(Drop)]
pub struct Reaches {
    pub low: Vec<usize>,
    pub high: Vec<usize>,
    ghost sized: { vec_len high ≡ vec_len low },
}
