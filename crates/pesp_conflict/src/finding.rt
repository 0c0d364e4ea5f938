//! What is found.

/// Activities that together have no timetable, by the numbers of their rows from 1, which rise. Where `each_needed` says so,
/// without any one of them the others have times that keep them.
#[derive(Drop)]
pub struct Conflict {
    pub rows: Vec<u32>,
    pub each_needed: bool,
}

/// What is found of an instance: activities that together have no timetable; that it has a timetable; or neither.
#[derive(Drop)]
pub enum Finding {
    Conflict(Conflict),
    Timetable,
    Undecided,
}
