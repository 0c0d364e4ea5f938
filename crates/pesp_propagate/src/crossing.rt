//! Rows that cross a cut.

ghost use Rattle.std.specs.Prelude.{◌≡◌, ◌<◌, IfSome, IsSome};
ghost use Rattle.pesp_propagate.specs.Shifts.{IsCrossing};
ghost use Rattle.pesp_propagate.specs.Entries as spec;

use pesp_problem::{Arc, MOST_WEIGHT};

/// A row that crosses a cut, with its slack. Its head is on the side that is shifted (`inward`), or else its tail.
#[derive(Clone, Copy)]
pub struct Crossing {
    pub slack: u32,
    pub span: u32,
    pub weight: u64,
    pub inward: bool,
}

/// An entry of a cut's list: the place of a row that crosses it, and whether its head is on the side that is shifted.
#[derive(Clone, Copy)]
pub struct Entry {
    pub row: u32,
    pub inward: bool,
}

/// The row of an entry with its slack, where these are within their limits.
pub fn crossing_of(period: u32, arcs: &[Arc], slacks: &[u32], entry: Entry) -> Option<Crossing>
    ensures value { IfSome result (λ row. row ≡ spec.crossing_of arcs.now slacks.now entry) }
    ensures limits { IfSome result (IsCrossing period) }
    ensures found { spec.IsEntry period arcs.now slacks.now entry → IsSome result }
{
    let at = entry.row as usize;
    if at >= arcs.len() || at >= slacks.len() {
        return None;
    }
    let arc = arcs[at];
    let slack = slacks[at];
    if slack > arc.span || arc.span >= period || arc.weight > MOST_WEIGHT {
        return None;
    }
    Some(Crossing {
        slack,
        span: arc.span,
        weight: arc.weight,
        inward: entry.inward,
    })
}
