//! The rows of a table: which cycles pass a row, and how often.

ghost use Rattle.std.specs.Prelude.{◌≡◌, ℕ, ℤ, ◌+ℤ◌, ◌<◌, ◌≤◌, [], List, All, OnOk, length, vec_len, unsigned_abs};
ghost use Rattle.pesp_problem.specs.declared.limits.TheConstants.{MOST_SIGNED_ROWS};
ghost use Rattle.pesp_problem.specs.Walks.{Names, sign, net_count};
ghost use Rattle.pesp_nodes.specs.declared.passages.Passage as declared;
ghost use Rattle.pesp_nodes.specs.Passages.{AreBefore, IsPassed, passages_at};

use crate::nets::with_sign;
use pesp_problem::SignedRow;
use std::alloc::{AllocError, Global};
use std::marker::Model;

/// How often a cycle, numbered from 1, passes a row: plus signs less minus signs.
#[derive(Clone, Copy, PartialEq, Eq)]
pub struct Passage {
    pub cycle: u32,
    pub count: i64,
}

/// The passages of one row, by rising cycle.
#[derive(Drop)]
pub struct Passages {
    passages: Vec<Passage>,
}

impl Model for Passages {
    ghost use Rattle.std.specs.Prelude.{List};
    ghost use Rattle.pesp_nodes.specs.declared.passages.Passage.{Passage};

    ghost Value = { List Passage };

    ghost view = { λ p. p.passages.items };
}

impl Passages {
    /// No passages.
    pub fn new(alloc: Global) -> Passages
        ensures { result ≡ [] }
    {
        Passages {
            passages: Vec::new(alloc),
        }
    }

    /// The passages in order.
    pub fn as_slice(&self) -> &[Passage]
        ensures { result.now ≡ self.now }
    {
        &self.passages
    }

    /// One signed row more of a cycle; no passage but the last is of it.
    pub(crate) fn pass(&mut self, cycle: u32, s: &SignedRow) -> Result<(), AllocError>
        requires { All (λ e. unsigned_abs e.count ≤ MOST_SIGNED_ROWS) self.old }
        ensures { (before : List declared.Passage) (count : ℤ) → AreBefore cycle before
            → IsPassed cycle count before self.old
            → OnOk result (IsPassed cycle (count +ℤ sign s.now) before self.new) }
    {
        let count = with_sign(take_last(&mut self.passages, cycle), s);
        if count != 0 {
            self.passages.push(Passage { cycle, count })?;
        }
        Ok(())
    }
}

/// Takes off the last passage where it is of this cycle; its count, or 0.
fn take_last(passages: &mut Vec<Passage>, cycle: u32) -> i64
    requires { All (λ e. unsigned_abs e.count ≤ MOST_SIGNED_ROWS) passages.old.items }
    ensures value { (before : List declared.Passage) (count : ℤ) → AreBefore cycle before
        → IsPassed cycle count before passages.old.items → result ≡ count }
    ensures rest { (before : List declared.Passage) (count : ℤ) → AreBefore cycle before
        → IsPassed cycle count before passages.old.items → passages.new.items ≡ before }
    ensures size { unsigned_abs result ≤ MOST_SIGNED_ROWS }
{
    if passages.is_empty() {
        return 0;
    }
    let end = passages.len() - 1;
    let last = passages[end];
    if last.cycle != cycle {
        return 0;
    }
    passages.truncate(end);
    last.count
}

/// Adds the passages of a walk, the next cycle, to those of the cycles before it.
pub fn add_walk(
    by_row: &mut Vec<Passages>,
    cycle: u32,
    walk: &[SignedRow],
) -> Result<(), AllocError>
    requires exist { All (λ s. Names (vec_len by_row.old) s.row) walk.now }
    requires short { length walk.now ≤ MOST_SIGNED_ROWS }
    requires before { All (AreBefore cycle) by_row.old.items }
    ensures long { OnOk result (length by_row.new.items ≡ length by_row.old.items) }
    ensures passed { OnOk result ((i : ℕ) → i < length by_row.old.items
        → IsPassed cycle (net_count walk.now i) (passages_at by_row.old.items i)
        (passages_at by_row.new.items i)) }
{
    for s in walk {
        by_row[s.row as usize - 1].pass(cycle, s)?;
    }
    Ok(())
}
