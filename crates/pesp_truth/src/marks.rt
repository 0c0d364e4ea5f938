//! The scale and the marked walks of a certificate.

ghost use Rattle.std.specs.Prelude.{◌≡◌, true, ◌&&◌, nat_le, length, IfOk, OnErr};
ghost use Rattle.std.specs.List.{list_all};
ghost use Rattle.pesp_truth.specs.FrontLimits.{is_row_number, are_numbered, is_scale, is_walk, total_rows, marks_keep_limits, MarksKeepLimits};

use pesp_problem::{MOST_CYCLES, MOST_ROWS, MOST_SCALE, MOST_SIGNED_ROWS, MarkedRow, MarkedWalk};
use std::marker::Model;

/// The scale of the leaves that name marked walks, and these walks. A leaf names them by numbers that go on from those of
/// the cycles.
#[derive(Drop)]
pub struct Marks {
    scale: u32,
    walks: Vec<MarkedWalk>,
}

impl Model for Marks {
    ghost use Rattle.std.specs.Prelude.{◌≡◌, true};
    ghost use Rattle.pesp_truth.specs.Marks.{Marks as SpecMarks};
    ghost use Rattle.pesp_truth.specs.FrontLimits.{marks_keep_limits};

    ghost Value = { SpecMarks };

    ghost view = { λ m. record { scale = m.scale; walks = m.walks.items } };

    ghost invariant = { λ m. marks_keep_limits (record { scale = m.scale; walks = m.walks.items }) ≡ true };
}

/// The parts are no front's: the scale is not 1 to 1,000,000, there are more than 100,000 walks or 10,000,000 marked rows, a
/// walk has none, or a row's number is not 1 to 100,000.
#[derive(Clone, Copy, PartialEq, Eq)]
pub struct NotMarks;

/// Whether a row may have this number.
pub fn is_row_number(number: u64) -> bool
    ensures { result ≡ is_row_number number }
{
    1 <= number && number <= MOST_ROWS as u64
}

fn are_numbered(walk: &[MarkedRow]) -> bool
    ensures { result ≡ are_numbered walk.now }
{
    walk.iter().all(|s| is_row_number(u64::from(s.signed.row)))
}

fn is_walk(walk: &MarkedWalk) -> bool
    ensures { result ≡ is_walk walk.now }
{
    1 <= walk.rows().len() && are_numbered(walk.rows())
}

fn each_is_walk(walks: &[MarkedWalk]) -> bool
    ensures { result ≡ list_all is_walk walks.now }
{
    walks.iter().all(|walk| is_walk(walk))
}

/// Whether the walks have at most 10,000,000 marked rows.
fn has_few_rows(walks: &[MarkedWalk]) -> bool
    ensures { result ≡ nat_le (total_rows walks.now) MOST_SIGNED_ROWS }
{
    let mut left = MOST_SIGNED_ROWS;
    for walk in walks {
        match left.checked_sub(walk.rows().len()) {
            None => return false,
            Some(others) => left = others,
        }
    }
    true
}

/// Whether a front may have this scale.
pub fn is_scale(scale: u64) -> bool
    ensures { result ≡ is_scale scale }
{
    1 <= scale && scale <= u64::from(MOST_SCALE)
}

/// Whether these parts may be a front's.
fn keep_limits(scale: u32, walks: &[MarkedWalk]) -> bool
    ensures { result ≡ marks_keep_limits (record { scale = scale; walks = walks.now }) }
{
    is_scale(u64::from(scale))
        && (walks.len() <= MOST_CYCLES && has_few_rows(walks))
        && each_is_walk(walks)
}

impl Marks {
    /// The front of these parts, where they keep its limits.
    pub fn new(scale: u32, walks: Vec<MarkedWalk>) -> Result<Marks, NotMarks>
        ensures parts { IfOk result (λ m. m ≡ record { scale = scale; walks = walks.items }) }
        ensures refused { OnErr result (¬ MarksKeepLimits (record {
          scale = scale;
          walks = walks.items;
        })) }
    {
        if !keep_limits(scale, &walks) {
            return Err(NotMarks);
        }
        Ok(Marks { scale, walks })
    }

    /// The front of parts that keep its limits.
    pub fn of(scale: u32, walks: Vec<MarkedWalk>) -> Marks
        requires { marks_keep_limits (record { scale = scale; walks = walks.items }) ≡ true }
        ensures { result ≡ record { scale = scale; walks = walks.items } }
    {
        Marks { scale, walks }
    }

    /// What the multipliers of leaves that name marked walks are divided by.
    pub fn scale(&self) -> u32
        ensures value { result ≡ self.now.scale }
        ensures limits { MarksKeepLimits self.now }
    {
        self.scale
    }

    /// The marked walks in the order of their numbers.
    pub fn walks(&self) -> &[MarkedWalk]
        ensures value { result.now ≡ self.now.walks }
        ensures limits { MarksKeepLimits self.now }
    {
        &self.walks
    }
}
