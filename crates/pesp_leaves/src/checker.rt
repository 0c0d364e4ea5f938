//! What the lines of a tree are judged by.

ghost use Rattle.std.specs.Prelude.{◌≡◌, ◌≤◌, length, All};
ghost use Rattle.pesp_problem.specs.declared.limits.TheConstants.{MOST_CYCLES};
ghost use Rattle.pesp_problem.specs.Nets.{AreSmallCounts};
ghost use Rattle.pesp_leaves.specs.Claims.{FitsClaim};

use pesp_problem::{Arc, Instance, Nets};
use pesp_truth::{Lemma, Marks};

/// What a tree behind a front is to show, and what its leaves may name beside cycles: marked walks and lemmas; the arcs of the
/// instance, the weights of its rows in the sum of weight times slack, whether these are the instance's own, so that the sum is
/// the cost, and what the sum is to be at least; none where the tree has to show that there is no timetable.
#[derive(Clone, Copy)]
pub struct Shown<'a> {
    pub marks: &'a Marks,
    pub facts: &'a [Lemma],
    pub arcs: &'a [Arc],
    pub weights: &'a [i64],
    pub is_cost: bool,
    pub least: Option<i64>,
}

/// What a tree is to show.
///
/// `Plain`: that each timetable costs at least this, or, where nothing stands, that there is none; its leaves name cycles alone.
/// `Behind`: what is said behind a front.
#[derive(Clone, Copy)]
pub enum Claim<'a> {
    Plain(Option<u64>),
    Behind(Shown<'a>),
}

/// What the lines of a tree are judged by: the instance, the net counts of the tree's cycles, and what it is to show.
#[derive(Clone, Copy)]
pub struct Checker<'a> {
    pub instance: &'a Instance,
    pub table: &'a [Nets],
    pub claim: Claim<'a>,
    ghost few: { length table.now ≤ MOST_CYCLES },
    ghost small: { All (AreSmallCounts (length instance.now.rows)) table.now },
    ghost fits: { FitsClaim instance.now claim },
}

impl<'a> Checker<'a> {
    /// A checker over the net counts of these cycles, for a tree that is to show this.
    pub fn new(instance: &'a Instance, table: &'a [Nets], claim: Claim<'a>) -> Checker<'a>
        requires few { length table.now ≤ MOST_CYCLES }
        requires small { All (AreSmallCounts (length instance.now.rows)) table.now }
        requires fits { FitsClaim instance.now claim }
        ensures instance { result.instance.now ≡ instance.now }
        ensures table { result.table.now ≡ table.now }
        ensures claim { result.claim ≡ claim.entry }
    {
        Checker {
            instance,
            table,
            claim,
        }
    }
}
