//! The choice of a cut by looking at both its parts (strong branching: Applegate et al. 1995).

use crate::branchings::Written;
use crate::candidates::Candidate;
use crate::experience::SideGains;
use crate::kept::Incumbent;
use crate::weights::{LeafRanges, Weight, score};
use pesp_forest::{Cycles, Frame};
use pesp_problem::Pair;
use pesp_relaxation::{Basis, PivotEnd, RowChange};
use std::alloc::{AllocError, Global};
use std::mem::swap;

/// What was found for a part of a cut: the rows that differ from the leaf's, and whether the basis is a best one. Of the best cut
/// also pairs, and the basis as it is written down, where it is a best one.
#[derive(Drop)]
pub(crate) struct FoundPart {
    changes: Vec<RowChange>,
    is_best: bool,
    pub(crate) pairs: Vec<Pair>,
    codes: Vec<u8>,
    is_written: bool,
}

/// What was found for both parts of a cut.
#[derive(Drop)]
pub(crate) struct FoundParts {
    pub(crate) low: FoundPart,
    pub(crate) high: FoundPart,
}

/// The basis of a leaf, and the same one, which goes on to parts and back; what was found for the cut that is looked at, and
/// for the best cut so far.
#[derive(Drop)]
pub(crate) struct Bases {
    pub(crate) leaf: Basis,
    tried: Basis,
    looked_at: FoundParts,
    pub(crate) best: FoundParts,
}

/// What cuts have gained on either side.
#[derive(Drop)]
pub(crate) struct SidePseudoCosts {
    pub(crate) low: SideGains,
    pub(crate) high: SideGains,
}

/// A cut that was looked at, and what its parts are worth.
#[derive(Clone, Copy)]
pub(crate) struct Looked {
    pub(crate) cut: Candidate,
    pub(crate) low: Weight,
    pub(crate) high: Weight,
}

impl FoundPart {
    /// Nothing yet.
    fn nothing(alloc: Global) -> FoundPart {
        FoundPart {
            changes: Vec::new(alloc),
            is_best: false,
            pairs: Vec::new(alloc),
            codes: Vec::new(alloc),
            is_written: false,
        }
    }

    /// The basis as it is written down, where there is one, for a part of this value.
    pub(crate) fn basis(&self, value: i128) -> Option<Written<'_>> {
        if self.is_written {
            Some(Written {
                codes: &self.codes,
                value,
            })
        } else {
            None
        }
    }

    /// Notes how a basis differs from the leaf's.
    fn note(&mut self, basis: &Basis, ended: PivotEnd) -> Result<(), AllocError> {
        self.is_best = ended == PivotEnd::Best;
        basis.put_changes(&mut self.changes)
    }

    /// Writes down the pairs, and the basis where it is a best one, from the leaf's basis, which becomes this one; None where it
    /// can't.
    fn write(&mut self, cycles: &Cycles, basis: &mut Basis) -> Result<Option<()>, AllocError> {
        if basis.change_rows(&self.changes).is_none() {
            return Ok(None);
        }
        basis.put_pairs(cycles, &mut self.pairs)?;
        self.is_written = self.is_best && basis.save(&mut self.codes)?;
        Ok(Some(()))
    }
}

impl FoundParts {
    /// Nothing yet.
    fn nothing(alloc: Global) -> FoundParts {
        FoundParts {
            low: FoundPart::nothing(alloc),
            high: FoundPart::nothing(alloc),
        }
    }
}

impl Bases {
    /// Without flows.
    pub(crate) fn idle(alloc: Global, frame: &Frame) -> Result<Bases, AllocError> {
        let leaf = Basis::idle(alloc, frame)?;
        match Basis::idle(alloc, frame) {
            Ok(tried) => Ok(Bases {
                leaf,
                tried,
                looked_at: FoundParts::nothing(alloc),
                best: FoundParts::nothing(alloc),
            }),
            Err(refused) => {
                drop(leaf);
                Err(refused)
            }
        }
    }

    /// Notes what was found for a part, and offers its prices as times where it doesn't close.
    fn note(
        &mut self,
        alloc: Global,
        leaf: &LeafRanges<'_>,
        kept: &mut Incumbent,
        weight: Weight,
        is_high: bool,
    ) -> Result<(), AllocError> {
        if !weight.is_closed(kept) {
            kept.offer(alloc, leaf.frame, &self.tried)?;
        }
        if is_high {
            self.looked_at.high.note(&self.tried, weight.ended)
        } else {
            self.looked_at.low.note(&self.tried, weight.ended)
        }
    }

    /// Writes down what was found for the parts of the best cut; None where it can't.
    fn write_best(&mut self, cycles: &Cycles) -> Result<Option<()>, AllocError> {
        let FoundParts { low, high } = &mut self.best;
        let is_low_written = low.write(cycles, &mut self.tried)?.is_some();
        if !is_low_written || self.tried.go_back(&self.leaf).is_none() {
            return Ok(None);
        }
        high.write(cycles, &mut self.tried)
    }

    /// Looks at a part of a cut, and goes back to the leaf.
    fn look_at_part(
        &mut self,
        alloc: Global,
        leaf: &LeafRanges<'_>,
        kept: &mut Incumbent,
        cut: &Candidate,
        is_high: bool,
    ) -> Result<Option<Weight>, AllocError> {
        let weighed = leaf.weigh(kept, &mut self.tried, cut, is_high);
        if let Some(weight) = weighed {
            self.note(alloc, leaf, kept, weight, is_high)?;
        }
        if self.tried.go_back(&self.leaf).is_none() {
            return Ok(None);
        }
        Ok(weighed)
    }

    /// Looks at both parts of a cut.
    fn look_at(
        &mut self,
        alloc: Global,
        leaf: &LeafRanges<'_>,
        kept: &mut Incumbent,
        cut: &Candidate,
    ) -> Result<Option<Looked>, AllocError> {
        let Some(low) = self.look_at_part(alloc, leaf, kept, cut, false)? else {
            return Ok(None);
        };
        let Some(high) = self.look_at_part(alloc, leaf, kept, cut, true)? else {
            return Ok(None);
        };
        Ok(Some(Looked {
            cut: *cut,
            low,
            high,
        }))
    }
}

impl SidePseudoCosts {
    /// No gains for so many cycles.
    pub(crate) fn new(alloc: Global, cycles: usize) -> Result<SidePseudoCosts, AllocError> {
        Ok(SidePseudoCosts {
            low: SideGains::new(alloc, cycles)?,
            high: SideGains::new(alloc, cycles)?,
        })
    }

    /// Notes what the parts of a cut have gained.
    fn note(&mut self, looked: &Looked) {
        let Looked { cut, low, high } = looked;
        self.low.note(cut.cycle, cut.weight, cut.low, low.gain);
        self.high.note(cut.cycle, cut.weight, cut.high, high.gain);
    }
}

/// The best of these cuts, or the first that closes both parts. How its parts differ from the leaf is kept, and so is what was
/// gained and a timetable that costs less, where one was met with.
fn best_of(
    alloc: Global,
    leaf: &LeafRanges<'_>,
    kept: &mut Incumbent,
    bases: &mut Bases,
    experience: &mut SidePseudoCosts,
    cuts: &[Candidate],
) -> Result<Option<Looked>, AllocError> {
    let mut best = None;
    let mut greatest = 0;
    for cut in cuts {
        let Some(looked) = bases.look_at(alloc, leaf, kept, cut)? else {
            continue;
        };
        experience.note(&looked);
        let score = score(kept, leaf.value, looked.low, looked.high);
        if score > greatest {
            greatest = score;
            best = Some(looked);
            swap(&mut bases.looked_at, &mut bases.best);
        }
        if looked.low.is_closed(kept) && looked.high.is_closed(kept) {
            return Ok(best);
        }
    }
    Ok(best)
}

/// The best of these cuts, with what was found for its parts.
pub(crate) fn best_cut(
    alloc: Global,
    leaf: &LeafRanges<'_>,
    kept: &mut Incumbent,
    bases: &mut Bases,
    experience: &mut SidePseudoCosts,
    cuts: &[Candidate],
) -> Result<Option<Looked>, AllocError> {
    if bases.tried.copy_from(&bases.leaf).is_none() {
        return Ok(None);
    }
    let best = best_of(alloc, leaf, kept, bases, experience, cuts)?;
    if best.is_some() && bases.write_best(leaf.cycles)?.is_none() {
        return Ok(None);
    }
    Ok(best)
}
