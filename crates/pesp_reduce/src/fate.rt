//! What becomes of rows.

/// What becomes of a row of an instance: it is free and of weight 0, so that it never matters; it is fixed and the event
/// at its one end becomes that at its other end; it is a bridge of what is left, so that it can always have slack 0; or it
/// is kept.
#[derive(Clone, Copy, PartialEq, Eq)]
pub enum Fate {
    Free,
    Contracted,
    Bridge,
    Kept,
}
