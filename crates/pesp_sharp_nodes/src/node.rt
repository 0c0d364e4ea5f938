//! Open leaves, as they are kept until they are split.

use crate::branch::OffsetBound;
use crate::cycles::Range;
use crate::pool::Pool;
use crate::relaxation::{NO_MULTIPLIER, NodeProgram, Origin, filled};
use crate::setting::Setting;
use pesp_dual::{Multiplier, Point};
use std::alloc::{AllocError, Global};

/// By how much an inequality may be passed and still count as tight, in 1/65536.
const TIGHT: i64 = 1 << 12;

/// An inequality of a node, and its multiplier.
#[derive(Clone, Copy)]
struct HeldInequality {
    origin: Origin,
    multiplier: Multiplier,
}

/// What a node goes on from: its inequalities, its slacks, in 1/65536, and the weight of the two sides; whether it was solved
/// out; and whether its slacks are still to be found.
#[derive(Drop)]
pub struct ProgramNode {
    held: Vec<HeldInequality>,
    slacks: Vec<u32>,
    balance: i64,
    pub is_solved_out: bool,
    pub is_cold: bool,
}

/// Slacks as they are kept.
fn packed(alloc: Global, slacks: &[i64]) -> Result<Vec<u32>, AllocError> {
    let mut packed = Vec::with_capacity(alloc, slacks.len())?;
    for slack in slacks {
        packed.push(u32::try_from(*slack).unwrap_or(0))?;
    }
    Ok(packed)
}

/// Slacks as a program takes them.
fn unpacked(alloc: Global, slacks: &[u32]) -> Result<Vec<i64>, AllocError> {
    let mut unpacked = Vec::with_capacity(alloc, slacks.len())?;
    for slack in slacks {
        unpacked.push(i64::from(*slack))?;
    }
    Ok(unpacked)
}

/// The sum of multipliers.
fn sum_of(one: Multiplier, other: Multiplier) -> Multiplier {
    Multiplier {
        current: one.current.saturating_add(other.current),
        best: one.best.saturating_add(other.best),
    }
}

impl HeldInequality {
    /// Whether it bounds the same offset on the same side.
    fn is_weaker(&self, branch: OffsetBound) -> bool {
        match self.origin {
            Origin::Pooled(_) => false,
            Origin::Offset(own) => own.is_of(branch.cycle, branch.side),
        }
    }
}

/// The inequality of a program at a place, where it is worth keeping: it has a multiplier, is tight, or bounds an offset.
fn held_at(relaxation: &NodeProgram, place: usize, origin: Origin) -> Option<HeldInequality> {
    let multiplier = relaxation.program.multiplier(place);
    let is_used = multiplier.best > 0 || multiplier.current > 0;
    let is_kept = match origin {
        Origin::Offset(_) => true,
        Origin::Pooled(_) => is_used || relaxation.program.excess(place) < TIGHT,
    };
    if is_kept {
        Some(HeldInequality { origin, multiplier })
    } else {
        None
    }
}

/// All inequalities of a program.
fn all_held(alloc: Global, relaxation: &NodeProgram) -> Result<Vec<HeldInequality>, AllocError> {
    let mut held = Vec::with_capacity(alloc, relaxation.members.len())?;
    for (place, member) in relaxation.members.iter().enumerate() {
        held.push(HeldInequality {
            origin: member.origin,
            multiplier: relaxation.program.multiplier(place),
        })?;
    }
    Ok(held)
}

/// Takes in inequalities of the pool whose multipliers aren't sought yet.
fn add_common(held: &mut Vec<HeldInequality>, common: &[u32]) -> Result<(), AllocError> {
    for number in common {
        held.push(HeldInequality {
            origin: Origin::Pooled(*number),
            multiplier: NO_MULTIPLIER,
        })?;
    }
    Ok(())
}

impl ProgramNode {
    /// What is kept of a program.
    pub fn of(alloc: Global, relaxation: &NodeProgram) -> Result<ProgramNode, AllocError> {
        let mut held = Vec::new(alloc);
        for (place, member) in relaxation.members.iter().enumerate() {
            if let Some(found) = held_at(relaxation, place, member.origin) {
                held.push(found)?;
            }
        }
        let point = relaxation.program.point(alloc)?;
        Ok(ProgramNode {
            held,
            slacks: packed(alloc, &point.slacks)?,
            balance: point.balance,
            is_solved_out: false,
            is_cold: false,
        })
    }

    /// What is kept of a program that has no slacks yet. Where no inequality of the pool is in it, these are taken in.
    pub fn cold(
        alloc: Global,
        relaxation: &NodeProgram,
        common: &[u32],
    ) -> Result<ProgramNode, AllocError> {
        let mut held = all_held(alloc, relaxation)?;
        if !relaxation.has_pooled() {
            add_common(&mut held, common)?;
        }
        Ok(ProgramNode {
            held,
            slacks: Vec::new(alloc),
            balance: relaxation.program.point(alloc)?.balance,
            is_solved_out: false,
            is_cold: true,
        })
    }

    /// The inequalities of the pool that it has.
    pub fn pooled(&self, alloc: Global) -> Result<Vec<u32>, AllocError> {
        let mut numbers = Vec::new(alloc);
        for held in &self.held {
            if let Origin::Pooled(number) = held.origin {
                numbers.push(number)?;
            }
        }
        Ok(numbers)
    }

    /// How many inequalities it has.
    pub fn count(&self) -> usize {
        self.held.len()
    }

    /// The slacks and the weight of the two sides.
    fn point(&self, alloc: Global) -> Result<Point, AllocError> {
        Ok(Point {
            slacks: unpacked(alloc, &self.slacks)?,
            balance: self.balance,
        })
    }

    /// The program of the node.
    pub(crate) fn loaded(
        &self,
        alloc: Global,
        setting: &Setting,
        pool: &Pool,
    ) -> Result<NodeProgram, AllocError> {
        let mut relaxation = NodeProgram::new(alloc, setting)?;
        let outcome = self.load(alloc, setting, pool, &mut relaxation);
        filled(relaxation, outcome)
    }

    /// Puts the inequalities into a program, and its slacks.
    fn load(
        &self,
        alloc: Global,
        setting: &Setting,
        pool: &Pool,
        relaxation: &mut NodeProgram,
    ) -> Result<(), AllocError> {
        for held in &self.held {
            relaxation.add(alloc, setting, pool, held.origin, held.multiplier)?;
        }
        self.place(alloc, relaxation)
    }

    /// Puts the slacks into a program.
    fn place(&self, alloc: Global, relaxation: &mut NodeProgram) -> Result<(), AllocError> {
        relaxation.program.set_point(&self.point(alloc)?);
        relaxation.program.settle_counts();
        Ok(())
    }

    /// The program of a part of the node. A weaker bound of the same side goes, and leaves its multiplier.
    pub(crate) fn part(
        &self,
        alloc: Global,
        setting: &Setting,
        pool: &Pool,
        branch: OffsetBound,
    ) -> Result<NodeProgram, AllocError> {
        let mut relaxation = NodeProgram::new(alloc, setting)?;
        let outcome = self.load_part(alloc, setting, pool, branch, &mut relaxation);
        filled(relaxation, outcome)
    }

    /// Puts the inequalities of a part into a program, and its slacks.
    fn load_part(
        &self,
        alloc: Global,
        setting: &Setting,
        pool: &Pool,
        branch: OffsetBound,
        relaxation: &mut NodeProgram,
    ) -> Result<(), AllocError> {
        let mut left = NO_MULTIPLIER;
        for held in &self.held {
            if held.is_weaker(branch) {
                left = sum_of(left, held.multiplier);
            } else {
                relaxation.add(alloc, setting, pool, held.origin, held.multiplier)?;
            }
        }
        relaxation.add_offset(alloc, setting, branch, left)?;
        self.place(alloc, relaxation)
    }

    /// The offsets that are left to each cycle.
    pub fn ranges(&self, alloc: Global, setting: &Setting) -> Result<Vec<Range>, AllocError> {
        let mut ranges = setting.ranges(alloc)?;
        for held in &self.held {
            if let Origin::Offset(branch) = held.origin
                && let Some(range) = ranges.get_mut(branch.cycle as usize)
            {
                *range = range.narrowed(branch);
            }
        }
        Ok(ranges)
    }

    /// The node keeps its inequalities in the pool.
    pub fn keep_in(&self, pool: &mut Pool) {
        for held in &self.held {
            if let Origin::Pooled(number) = held.origin {
                pool.keep(number);
            }
        }
    }

    /// The node keeps them no longer.
    pub fn leave(&self, alloc: Global, pool: &mut Pool) -> Result<(), AllocError> {
        for held in &self.held {
            if let Origin::Pooled(number) = held.origin {
                pool.leave(number);
                pool.sweep(alloc, number)?;
            }
        }
        Ok(())
    }
}
