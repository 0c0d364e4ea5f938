//! What is known of a conflict while rows are left out.

ghost use Rattle.std.specs.Prelude.{◌≡◌, ◌↔◌, ◌++◌, All, Contains, IsTrue, OnOk};
ghost use Rattle.pesp_problem.specs.Timetables.{Pesp};
ghost use Rattle.pesp_conflict.specs.Findings.{IsConflict};
ghost use Rattle.pesp_conflict.specs.Insides.{ConflictIsKnown, IsShown, IsTrial};

use crate::attempts::Trial;
use crate::finding::Conflict;
use crate::lists::are_found;
use crate::settings::TRIED_ROWS;
use std::alloc::{AllocError, Global};

/// Rows that are in conflict, and those of them that are known to be needed; rows that need no further trial; and how many
/// rows may still be searched.
#[derive(Drop)]
pub struct Known {
    pub listed: Vec<u32>,
    pub needed: Vec<u32>,
    pub tried: Vec<u32>,
    pub left: usize,
}

/// What is known before any trial.
pub fn known_of(alloc: Global, rows: Vec<u32>) -> Known
    ensures { (p : Pesp) → IsConflict p rows.items → ConflictIsKnown p result }
{
    Known {
        listed: rows,
        needed: Vec::new(alloc),
        tried: Vec::new(alloc),
        left: TRIED_ROWS,
    }
}

/// Takes up what a trial has shown.
pub fn take(known: &mut Known, trial: Trial) -> Result<(), AllocError>
    ensures { (p : Pesp) → ConflictIsKnown p known.old → IsTrial p known.old.listed.items trial
        → OnOk result (ConflictIsKnown p known.new) }
{
    match trial {
        Trial::Needed(row) => known.needed.push(row)?,
        Trial::Fewer(rows) => known.listed = rows,
        Trial::Unknown => {}
    }
    Ok(())
}

/// The group needs no further trial.
pub fn mark(known: &mut Known, group: &[u32]) -> Result<(), AllocError>
    ensures known { (p : Pesp) → ConflictIsKnown p known.old → OnOk result (ConflictIsKnown p known.new) }
    ensures tried { OnOk result (known.new.tried.items ≡ known.old.tried.items ++ group.now) }
{
    for row in group {
        known.tried.push(*row)?;
    }
    Ok(())
}

/// The conflict, once no further trial is made.
pub fn conflict_of(known: Known) -> Conflict
    ensures shown { (p : Pesp) → ConflictIsKnown p known → IsShown p result }
    ensures rows { result.rows ≡ known.listed }
    ensures needed { IsTrue result.each_needed ↔ All (Contains known.needed.items) known.listed.items }
{
    let each_needed = are_found(&known.needed, &known.listed);
    let Known { listed, .. } = known;
    Conflict {
        rows: listed,
        each_needed,
    }
}
