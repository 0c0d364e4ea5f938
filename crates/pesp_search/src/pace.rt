//! How far a search that sharpens goes.

/// How far a search goes, and when times are looked for: by so many splits at most of a tree that had so many branches before, and
/// after 128 branches, 256, and so on; or without a limit, where the tree and the search for times take turns by what each brings.
/// With a limit they take turns by their parts of the work while that search has its first batch to make.
#[derive(Clone, Copy)]
pub enum Pace {
    Steps { before: u32, most: u32 },
    Turns,
}
