//! Numbers that tune the search. None of them is promised; each was found by trying.

/// Below so many cuts a leaf is near the root.
pub(crate) const SHALLOW: usize = 6;

/// How many cuts of a leaf near the root are looked at.
pub(crate) const CUTS_NEAR_ROOT: usize = 32;

/// Before so many cuts were looked at, a leaf is taken as one near the root: a search that goes on from a certificate has to
/// learn anew what cuts gain.
pub(crate) const FIRST_CUTS: u64 = 1_024;

/// How many cuts of another leaf are looked at.
pub(crate) const CUTS: usize = 2;

/// How many where there are many rows.
pub(crate) const CUTS_OF_MANY_ROWS: usize = 3;

/// How many rows aren't many.
pub(crate) const FEW_ROWS: usize = 1_000;

/// How many bytes of bases are kept at most for leaves that are still to be looked at.
pub(crate) const KEPT_BYTES: usize = 268_435_456;
