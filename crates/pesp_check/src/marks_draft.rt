//! What the lines of a front say of its own scale and marked walks.

ghost use Rattle.std.specs.Prelude.{◌≡◌, IfOk, IfSome, OnOk};
ghost use Rattle.pesp_truth.specs.FrontLimits.{MarksKeepLimits};
ghost use Rattle.pesp_check.specs.Judging.{no_marks, marks_noted, marks_said};
ghost use Rattle.pesp_cert_items.specs.Lent.{marked_in, item_said};

use pesp_cert_items::{MarkedRows, TextLine};
use pesp_problem::{MarkedWalk, Memory};
use pesp_truth::Marks;
use std::alloc::Global;
use std::marker::Model;

/// The marked walk along the rows of a line.
pub(crate) fn walk_of(alloc: Global, rows: MarkedRows<'_>) -> Result<MarkedWalk, Memory>
    ensures { IfOk result (λ walk. walk ≡ marked_in rows.entry) }
{
    let rows = rows.collect(alloc)?;
    Ok(MarkedWalk::new(rows))
}

/// What the lines of a front said of its own scale and walks so far: whether one began, its scale, and its marked walks.
#[derive(Drop)]
pub(crate) struct MarksDraft {
    pub begun: bool,
    pub scale: u32,
    pub walks: Vec<MarkedWalk>,
}

impl Model for MarksDraft {
    ghost use Rattle.pesp_check.specs.Judging.{MarksSaid};

    ghost Value = { MarksSaid };

    ghost view = { λ d. record { begun = d.begun; scale = d.scale; walks = d.walks.items } };
}

impl MarksDraft {
    /// No front began so far.
    pub(crate) fn new(alloc: Global) -> MarksDraft
        ensures { result ≡ no_marks }
    {
        MarksDraft {
            begun: false,
            scale: 0,
            walks: Vec::new(alloc),
        }
    }
}

/// Notes what a line says of a front's own scale and walks.
#[tactic(auto, using(crate::proofs::Fronts::own_noted))]
pub(crate) fn note_line(
    alloc: Global,
    draft: &mut MarksDraft,
    line: &TextLine<'_>,
) -> Result<(), Memory>
    ensures { OnOk result (draft.new ≡ marks_noted draft.old (item_said line.now)) }
{
    match line {
        TextLine::Front => draft.begun = true,
        TextLine::Scale(scale) => draft.scale = *scale,
        TextLine::Walk(rows) => draft.walks.push(walk_of(alloc, *rows)?)?,
        TextLine::Lemma(_) | TextLine::Least(_) | TextLine::Own(_) => {}
    }
    Ok(())
}

/// The marks that lines said, where a front began and they keep their limits, as those of each text do.
pub(crate) fn front_of(draft: MarksDraft) -> Option<Marks>
    ensures { IfSome (marks_said draft) MarksKeepLimits → result ≡ marks_said draft }
{
    let MarksDraft {
        begun,
        scale,
        walks,
    } = draft;
    if begun {
        Marks::new(scale, walks).ok()
    } else {
        drop(walks);
        None
    }
}
