//! The numbers that tune what is proposed for a leaf. No promise rests on any of them.

/// How many jobs are lent before slacks aren't cut any more by choice.
pub(crate) const NARROWED_JOBS: u64 = 64;

/// After how many splits times are looked for again where few rows are left.
pub(crate) const BATCHES: [u32; 14] = [
    128, 256, 512, 1_024, 2_048, 4_096, 8_192, 16_384, 32_768, 65_536, 131_072, 262_144, 524_288,
    1_048_576,
];

/// Up to how many rows they are few.
pub(crate) const FEW_ROWS: usize = 700;

/// The same with more rows, where one search for times takes as long as hundreds of steps.
pub(crate) const BATCHES_OF_MORE_ROWS: [u32; 6] = [128, 256, 512, 4_096, 32_768, 262_144];

/// Up to how many rows they aren't many.
pub(crate) const MORE_ROWS: usize = 2_500;

/// The same with many rows.
pub(crate) const BATCHES_OF_MANY_ROWS: [u32; 4] = [512, 4_096, 32_768, 262_144];

/// How many rounds make times cheaper that were met with at a leaf, before a search for times takes them up.
pub(crate) const MET_ROUNDS: u32 = 20;
