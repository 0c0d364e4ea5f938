//! Steps by exchanges over the program that all leaves share.

use crate::opens::{LeafStart, Open};
use crate::sharpening::{Sharpening, Step};
use pesp_offset_tree::{Candidate, Knot, LeafMultipliers, open_cut, times_near};
use pesp_sharp_nodes::{BoundSense, Limit, NodeProgram, UNIT};
use pesp_warm_nodes::{NodeBasis, Shared, ShownBound, SolveStatus, note};
use std::alloc::{AllocError, Global};
use std::mem::replace;

/// Down to which depth inequalities are sought, and down to which where there are many rows.
const NEAR_ROOT: u32 = 6;

const NEARER_ROOT: u32 = 3;

/// How many rows aren't many.
const FEW_ROWS: usize = 1_200;

/// A part of a leaf is gone on with at once within one such part of what is left to the limit.
const WINDOW: u64 = 50;

/// The leaf that is split: its place, what it shows, and how many branches lead to it.
#[derive(Clone, Copy)]
struct Above {
    place: u32,
    bound: u64,
    depth: u32,
}

/// Inequalities of the pool, and behind them those of walks that have one.
fn with_walks(
    alloc: Global,
    common: &[u32],
    walks: &[Option<u32>],
) -> Result<Vec<u32>, AllocError> {
    let mut numbers = Vec::from_slice(alloc, common)?;
    for walk in walks {
        if let Some(number) = *walk {
            numbers.push(number)?;
        }
    }
    Ok(numbers)
}

/// A leaf of what is shown.
fn leaf_of(shown: ShownBound) -> (LeafMultipliers, u64) {
    let ShownBound {
        bound,
        pairs,
        walks,
    } = shown;
    (LeafMultipliers { pairs, walks }, bound)
}

impl Sharpening {
    /// How many units of a multiplier that is told make up one.
    pub fn scale(&self) -> u32 {
        self.sharpener.setting.scale
    }

    /// Goes on from the root by exchanges, where they are for it; whether they are.
    pub(crate) fn share(
        &mut self,
        relaxation: &NodeProgram,
        limit: Limit,
    ) -> Result<bool, AllocError> {
        if !self.tree.is_leaf() {
            return Ok(false);
        }
        let Some(mut shared) = Shared::of(&mut self.sharpener, relaxation)? else {
            return Ok(false);
        };
        let begun = self.begin_shared(&mut shared, limit);
        self.share_if(shared, begun)
    }

    /// Leaves share a program, where it is for them; else it goes.
    fn share_if(
        &mut self,
        shared: Shared,
        suits: Result<bool, AllocError>,
    ) -> Result<bool, AllocError> {
        if let Ok(true) = suits {
            let shared = Box::new(self.alloc, shared)?;
            self.put_shared(shared);
        } else {
            shared.leave(&mut self.sharpener.pool);
            drop(shared);
        }
        suits
    }

    /// Leaves share this program.
    fn put_shared(&mut self, shared: Box<Shared>) {
        drop(replace(&mut self.shared, Some(shared)));
    }

    /// Goes on from the root by exchanges over inequalities that were taken in, where they are for it; whether they are.
    pub(crate) fn share_walks(
        &mut self,
        walks: &[Option<u32>],
        limit: Limit,
    ) -> Result<bool, AllocError> {
        if !self.tree.is_leaf() {
            return Ok(false);
        }
        let numbers = with_walks(self.alloc, &[], walks)?;
        let Some(mut shared) = Shared::given(&mut self.sharpener, &numbers)? else {
            return Ok(false);
        };
        let begun = self.begin_part(&mut shared, limit);
        self.share_if(shared, begun)
    }

    /// A tree that is given goes on by exchanges over these inequalities of the pool and those of walks, where they are for it.
    pub(crate) fn share_given(
        &mut self,
        common: &[u32],
        walks: &[Option<u32>],
        limit: Limit,
    ) -> Result<(), AllocError> {
        let numbers = with_walks(self.alloc, common, walks)?;
        let Some(mut shared) = Shared::given(&mut self.sharpener, &numbers)? else {
            return Ok(());
        };
        let suits = shared.suits(limit);
        self.share_if(shared, suits)?;
        Ok(())
    }

    /// Solves the root, and makes it the leaf of the tree.
    fn begin_shared(&mut self, shared: &mut Shared, limit: Limit) -> Result<bool, AllocError> {
        if !shared.suits(limit)? {
            return Ok(false);
        }
        self.begin_solved(shared, limit)?;
        Ok(true)
    }

    /// The same of a part of an instance, whose inequalities are few at first.
    fn begin_part(&mut self, shared: &mut Shared, limit: Limit) -> Result<bool, AllocError> {
        if !shared.suits_in_the_end(limit)? {
            return Ok(false);
        }
        self.begin_solved(shared, limit)?;
        Ok(true)
    }

    /// Makes the root, which is solved, the leaf of the tree.
    fn begin_solved(&mut self, shared: &mut Shared, limit: Limit) -> Result<(), AllocError> {
        shared.look_at_root(&mut self.sharpener, limit)?;
        self.renew_warm(shared, 0, 0, limit)?;
        let basis = shared.basis(0)?;
        let bound = self.bound_at(0);
        self.open_warm(0, bound, basis, limit)?;
        self.meet_slacks(shared)
    }

    /// The bound of the leaf at a place.
    fn bound_at(&self, place: u32) -> u64 {
        match self.tree.knots.get(place as usize) {
            Some(Knot::Leaf { bound, .. }) => *bound,
            _ => 0,
        }
    }

    /// Keeps times near the slacks.
    fn meet_slacks(&mut self, shared: &mut Shared) -> Result<(), AllocError> {
        let setting = &self.sharpener.setting;
        shared.read_slacks(setting)?;
        if let Some(times) = times_near(self.alloc, &setting.frame, shared.slacks())? {
            self.met.push(times)?;
        }
        Ok(())
    }

    /// Puts what is shown in the place of a leaf, unless that showed more; what it shows then.
    fn renew_warm(
        &mut self,
        shared: &mut Shared,
        place: u32,
        bound: u64,
        limit: Limit,
    ) -> Result<u64, AllocError> {
        let shown = shared.shown(&self.sharpener.setting, limit)?;
        if shown.bound < bound {
            return Ok(bound);
        }
        let (leaf, bound) = leaf_of(shown);
        let pool = &mut self.sharpener.pool;
        self.tree
            .replace_leaf(self.alloc, pool, place, leaf, bound)?;
        Ok(bound)
    }

    /// Puts a leaf among those that may be split, unless its bound reaches the limit.
    fn open_warm(
        &mut self,
        place: u32,
        bound: u64,
        basis: NodeBasis,
        limit: Limit,
    ) -> Result<(), AllocError> {
        if bound >= limit.cost {
            drop(basis);
            return Ok(());
        }
        basis.keep_in(&mut self.sharpener.pool);
        self.put_open(Open {
            place,
            bound,
            start: LeafStart::Exchanges(basis),
        })
    }

    /// Works on an open leaf by exchanges.
    pub(crate) fn work_warm(
        &mut self,
        open: &Open,
        basis: &NodeBasis,
        limit: Limit,
    ) -> Result<Step, AllocError> {
        let Some(mut shared) = replace(&mut self.shared, None) else {
            return Ok(Step::Readied);
        };
        let worked = self.work_shared(&mut shared, open, basis, limit);
        self.put_shared(shared);
        worked
    }

    /// Whether inequalities are sought at a depth.
    fn seeks_at(&self, depth: u32) -> bool {
        let rows = self.sharpener.setting.frame.rows().len();
        let deepest = if rows > FEW_ROWS {
            NEARER_ROOT
        } else {
            NEAR_ROOT
        };
        depth <= deepest
    }

    /// Goes to a leaf that isn't the last one's part.
    fn enter_other(&mut self, shared: &mut Shared, basis: &NodeBasis) -> Result<(), AllocError> {
        if basis.is_given() {
            shared.enter_here(&self.sharpener.setting, basis)
        } else {
            shared.enter(&mut self.sharpener, basis)
        }
    }

    /// Goes to an open leaf, and solves it.
    fn enter(
        &mut self,
        shared: &mut Shared,
        place: u32,
        basis: &NodeBasis,
        limit: Limit,
    ) -> Result<SolveStatus, AllocError> {
        if self.carried == Some(place) {
            self.carried = None;
            shared.enter_carried(&self.sharpener.setting, basis)?;
        } else {
            shared.drop_old(&mut self.sharpener.pool)?;
            self.enter_other(shared, basis)?;
        }
        let end = shared.solve_out(&self.sharpener.setting, limit)?;
        if end == SolveStatus::Best && self.seeks_at(basis.depth) {
            return shared.sharpen(&mut self.sharpener, limit);
        }
        Ok(end)
    }

    /// Puts in the place of a leaf that nothing is left in it, where that is shown; whether it is.
    fn shut_warm(&mut self, shared: &mut Shared, place: u32) -> Result<bool, AllocError> {
        let Some(shown) = shared.shown_by_ray(&self.sharpener.setting)? else {
            return Ok(false);
        };
        let (leaf, _) = leaf_of(shown);
        let pool = &mut self.sharpener.pool;
        self.tree.shut(self.alloc, pool, place, leaf)?;
        Ok(true)
    }

    /// Works on an open leaf.
    fn work_shared(
        &mut self,
        shared: &mut Shared,
        open: &Open,
        basis: &NodeBasis,
        limit: Limit,
    ) -> Result<Step, AllocError> {
        let end = self.enter(shared, open.place, basis, limit)?;
        if end == SolveStatus::Ray && self.shut_warm(shared, open.place)? {
            return Ok(Step::Readied);
        }
        let bound = self.renew_warm(shared, open.place, open.bound, limit)?;
        if bound >= limit.cost {
            return Ok(Step::Readied);
        }
        if shared.wants_times() {
            self.meet_slacks(shared)?;
        }
        self.split_warm(shared, open.place, bound, basis, limit)
    }

    /// The cut by which a leaf is split; None where all its offsets look whole.
    fn choose_warm(
        &mut self,
        shared: &mut Shared,
        basis: &NodeBasis,
        limit: Limit,
    ) -> Result<Option<Candidate>, AllocError> {
        let setting = &self.sharpener.setting;
        let experience = &mut self.experience;
        shared.choose(setting, experience, basis.depth, limit)
    }

    /// Splits a leaf by the cut that is chosen. Where all offsets look whole, it is solved from an inverse that is built anew
    /// first, and times near the slacks are met; then any range is cut that is open.
    fn split_warm(
        &mut self,
        shared: &mut Shared,
        place: u32,
        bound: u64,
        basis: &NodeBasis,
        limit: Limit,
    ) -> Result<Step, AllocError> {
        let found = self.choose_warm(shared, basis, limit)?;
        if let Some(found) = found {
            return self.split_by(shared, place, bound, basis, found, limit);
        }
        if !basis.is_solved_out {
            return self.solve_anew(shared, place, bound, basis, limit);
        }
        let Some(cut) = open_cut(shared.ranges()) else {
            return Ok(Step::Readied);
        };
        shared.keep_line(&self.sharpener.setting, cut.cycle)?;
        shared.keep_here()?;
        let found = Candidate::of(cut, UNIT / 2);
        self.split_by(shared, place, bound, basis, found, limit)
    }

    /// Solves a leaf from an inverse that is built anew, and meets times near its slacks.
    fn solve_anew(
        &mut self,
        shared: &mut Shared,
        place: u32,
        bound: u64,
        basis: &NodeBasis,
        limit: Limit,
    ) -> Result<Step, AllocError> {
        shared.solve_anew(&self.sharpener.setting, limit)?;
        let bound = self.renew_warm(shared, place, bound, limit)?;
        self.meet_slacks(shared)?;
        let mut basis = shared.basis(basis.depth)?;
        basis.is_solved_out = true;
        self.open_warm(place, bound, basis, limit)?;
        Ok(Step::Readied)
    }

    /// Splits a leaf by a cut.
    fn split_by(
        &mut self,
        shared: &mut Shared,
        place: u32,
        bound: u64,
        basis: &NodeBasis,
        found: Candidate,
        limit: Limit,
    ) -> Result<Step, AllocError> {
        self.steps = self.steps.saturating_add(1);
        let above = Above {
            place,
            bound,
            depth: basis.depth,
        };
        let low = self.part_warm(shared, above, found, BoundSense::AtMost, limit)?;
        let high = self.part_warm(shared, above, found, BoundSense::AtLeast, limit)?;
        let cut = found.cut;
        let pool = &mut self.sharpener.pool;
        let knot = Knot::Split { cut, low, high };
        self.tree.replace(self.alloc, pool, place, knot)?;
        self.put_next()?;
        Ok(Step::Made)
    }

    /// Goes to a part of a leaf and makes it a leaf of the tree; its place.
    fn part_warm(
        &mut self,
        shared: &mut Shared,
        above: Above,
        found: Candidate,
        side: BoundSense,
        limit: Limit,
    ) -> Result<u32, AllocError> {
        let before = shared.value();
        let entered = shared.enter_part(&self.sharpener.setting, found.cut, side)?;
        let Some(old) = entered else {
            return self.add_copy(above);
        };
        let end = shared.solve_part(limit)?;
        let gain = shared.gain_since(before, end, limit);
        let setting = &self.sharpener.setting;
        note(setting, &mut self.experience, found, side, gain);
        let number = self.tell_part(shared, above, end, limit)?;
        shared.leave_part(&self.sharpener.setting, found.cut, old)?;
        Ok(number)
    }

    /// A leaf more that shows what the one above it shows.
    fn add_copy(&mut self, above: Above) -> Result<u32, AllocError> {
        let leaf = self.tree.copied(self.alloc, above.place)?;
        let pool = &mut self.sharpener.pool;
        self.tree.add_leaf(pool, leaf, above.bound)
    }

    /// Makes a part a leaf of the tree; its place.
    fn tell_part(
        &mut self,
        shared: &mut Shared,
        above: Above,
        end: SolveStatus,
        limit: Limit,
    ) -> Result<u32, AllocError> {
        if end == SolveStatus::Ray
            && let Some(shown) = shared.shown_by_ray(&self.sharpener.setting)?
        {
            let (leaf, _) = leaf_of(shown);
            return self.tree.add_shut(&mut self.sharpener.pool, leaf);
        }
        let shown = shared.shown(&self.sharpener.setting, limit)?;
        let (leaf, bound) = if shown.bound < above.bound {
            drop(shown);
            (self.tree.copied(self.alloc, above.place)?, above.bound)
        } else {
            leaf_of(shown)
        };
        let pool = &mut self.sharpener.pool;
        let place = self.tree.add_leaf(pool, leaf, bound)?;
        if bound < limit.cost {
            let basis = shared.basis(above.depth.saturating_add(1))?;
            basis.keep_in(&mut self.sharpener.pool);
            let open = Open {
                place,
                bound,
                start: LeafStart::Exchanges(basis),
            };
            self.put_part(shared, open, above, limit)?;
        }
        Ok(place)
    }

    /// The least bound of an open leaf, or of the one above.
    fn least_bound(&self, above: Above) -> u64 {
        match self.leaves.last() {
            Some(open) => open.bound.min(above.bound),
            None => above.bound,
        }
    }

    /// Whether a part of this bound is gone on with at once.
    fn is_next(&self, bound: u64, above: Above, limit: Limit) -> bool {
        let least = self.least_bound(above);
        let left = limit
            .cost
            .min(least.saturating_mul(2))
            .saturating_sub(least);
        let within = least.saturating_add(left / WINDOW);
        let is_less = match &self.next {
            Some(open) => bound < open.bound,
            None => true,
        };
        is_less && bound < within
    }

    /// Puts a part among the leaves that may be split, or keeps it as the next one.
    fn put_part(
        &mut self,
        shared: &mut Shared,
        open: Open,
        above: Above,
        limit: Limit,
    ) -> Result<(), AllocError> {
        if !self.is_next(open.bound, above, limit) {
            return self.put_open(open);
        }
        if let Some(other) = replace(&mut self.next, Some(open)) {
            self.put_open(other)?;
        }
        shared.carry()
    }

    /// Puts the part that is gone on with behind all other leaves.
    fn put_next(&mut self) -> Result<(), AllocError> {
        self.carried = None;
        if let Some(open) = replace(&mut self.next, None) {
            self.carried = Some(open.place);
            self.leaves.push(open)?;
        }
        Ok(())
    }
}
