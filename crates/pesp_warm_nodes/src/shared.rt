//! The linear program that all nodes share.

use crate::basis::{LineName, NodeBasis};
use pesp_basis::{MOST, State, whole};
use pesp_dual_simplex::{BasisNames, Simplex};
use pesp_inequalities::Seen;
use pesp_sharp_nodes::{
    BoundSense, Cycle, NodeProgram, NodeSharpener, OffsetBound, Origin, Pool, Range, Setting,
};
use std::alloc::{AllocError, Global};

/// With fewer rows primal-dual steps are soon done.
const LEAST_ROWS: usize = 100;

/// The greatest cost of all slacks at their spans for which numbers are long enough.
const MOST_DEAREST: u64 = 1 << 26;

/// The longest period for which they are.
const MOST_PERIOD: i64 = 512;

/// How many inequalities count as too many for an inverse.
const MOST_TIGHT: usize = 1_500;

/// How many given inequalities count as too many for a program.
const MOST_GIVEN: usize = 20_000;

/// By how much an inequality may be passed and still count as tight, in 1/65536.
const TIGHT: i64 = 1 << 12;

/// How many units of a cost make up one; the simplex; what its lines are, and at which solve each was last tight; the line of each inequality of the pool, and what that is at
/// least, and of each cycle, where there is one; the offsets that are left to each cycle, and the cycles of fewer than at first; the keys of
/// inequalities; how often it was solved; and where it stood before a trial and at the leaf that is next.
#[derive(Drop)]
pub struct Shared {
    pub(crate) alloc: Global,
    pub(crate) unit: u32,
    pub(crate) simplex: Simplex,
    pub(crate) names: Vec<LineName>,
    pub(crate) tight_at: Vec<u64>,
    pub(crate) pooled: Vec<Option<u32>>,
    pub(crate) leasts: Vec<i64>,
    pub(crate) offsets: Vec<Option<u32>>,
    pub(crate) ranges: Vec<Range>,
    pub(crate) narrowed: Vec<u32>,
    pub(crate) seen: Seen,
    pub(crate) solves: u64,
    pub(crate) dropped_at: u64,
    pub(crate) here: State,
    pub(crate) carried: State,
    pub(crate) basis: BasisNames,
    pub(crate) slacks: Vec<i64>,
    pub(crate) weights: Vec<i128>,
}

/// How many rows are enough: those of a part of an instance, whose weights are in finer units, may be few.
fn least_rows(setting: &Setting) -> usize {
    if setting.unit > 1 { 1 } else { LEAST_ROWS }
}

/// Whether a setting has enough rows, and numbers are long enough for it.
fn is_fit(setting: &Setting) -> bool {
    let rows = setting.frame.rows().len();
    let dearest = setting.dearest.checked_div(u64::from(setting.unit));
    rows >= least_rows(setting)
        && dearest.is_some_and(|dearest| dearest <= MOST_DEAREST)
        && setting.period() <= MOST_PERIOD
}

/// Whether something comes of the inequality of a program at a place.
fn is_used(relaxation: &NodeProgram, place: usize) -> bool {
    let multiplier = relaxation.program.multiplier(place);
    multiplier.best > 0 || multiplier.current > 0 || relaxation.program.excess(place) < TIGHT
}

/// How many inequalities of a program have a multiplier.
fn used_count(relaxation: &NodeProgram) -> usize {
    (0..relaxation.members.len())
        .filter(|place| relaxation.program.multiplier(*place).best > 0)
        .count()
}

/// The least and the greatest sum of slacks along a cycle by a range of its offset, in fixed point.
pub(crate) fn ends_of(cycle: &Cycle, number: u32, period: i64, range: Range) -> (i64, i64) {
    let low = OffsetBound {
        cycle: number,
        side: BoundSense::AtLeast,
        offset: range.least,
    };
    let high = OffsetBound {
        cycle: number,
        side: BoundSense::AtMost,
        offset: range.most,
    };
    let least = whole(cycle.least(period, low));
    let most = whole(cycle.least(period, high).wrapping_neg());
    (least, most)
}

impl Shared {
    /// The program of a root after its rounds; None where a dual simplex isn't for it: where rows are few, numbers too great
    /// or lines too many.
    pub fn of(
        sharpener: &mut NodeSharpener,
        relaxation: &NodeProgram,
    ) -> Result<Option<Shared>, AllocError> {
        let setting = &sharpener.setting;
        if !is_fit(setting) || used_count(relaxation) > MOST_TIGHT {
            return Ok(None);
        }
        let mut shared = Shared::empty(sharpener.alloc, setting)?;
        let taken = shared.take_used(sharpener, relaxation);
        if taken.is_err() {
            drop(shared);
            return Err(AllocError);
        }
        Ok(Some(shared))
    }

    /// The program of inequalities of the pool, for a tree that is given; None where a dual simplex isn't for it.
    pub fn given(
        sharpener: &mut NodeSharpener,
        numbers: &[u32],
    ) -> Result<Option<Shared>, AllocError> {
        if !is_fit(&sharpener.setting) || numbers.len() > MOST_GIVEN {
            return Ok(None);
        }
        let mut shared = Shared::empty(sharpener.alloc, &sharpener.setting)?;
        let taken = shared.add_all(&mut sharpener.pool, numbers);
        if taken.is_err() {
            drop(shared);
            return Err(AllocError);
        }
        Ok(Some(shared))
    }

    /// Takes in inequalities of the pool.
    fn add_all(&mut self, pool: &mut Pool, numbers: &[u32]) -> Result<(), AllocError> {
        for number in numbers {
            self.add_pooled(pool, *number)?;
        }
        Ok(())
    }

    /// The program without a line.
    fn empty(alloc: Global, setting: &Setting) -> Result<Shared, AllocError> {
        let simplex = Simplex::new(alloc, setting.frame.rows(), setting.unit)?;
        Ok(Shared {
            alloc,
            unit: setting.unit,
            simplex,
            names: Vec::new(alloc),
            tight_at: Vec::new(alloc),
            pooled: Vec::new(alloc),
            leasts: Vec::new(alloc),
            offsets: vec![in alloc; None; setting.cycles.len()]?,
            ranges: setting.ranges(alloc)?,
            narrowed: Vec::new(alloc),
            seen: Seen::new(alloc),
            solves: 0,
            dropped_at: 0,
            here: State::new(alloc),
            carried: State::new(alloc),
            basis: BasisNames::new(alloc),
            slacks: Vec::new(alloc),
            weights: Vec::new(alloc),
        })
    }

    /// Takes in the inequalities of a program of which something comes.
    fn take_used(
        &mut self,
        sharpener: &mut NodeSharpener,
        relaxation: &NodeProgram,
    ) -> Result<(), AllocError> {
        for (place, member) in relaxation.members.iter().enumerate() {
            if let Origin::Pooled(number) = member.origin
                && is_used(relaxation, place)
            {
                self.add_pooled(&mut sharpener.pool, number)?;
            }
        }
        Ok(())
    }

    /// The pool keeps its inequalities no longer.
    pub fn leave(&self, pool: &mut Pool) {
        for name in &self.names {
            if let LineName::Pooled(number) = *name {
                pool.leave(number);
            }
        }
    }

    /// Room for the number of an inequality of the pool.
    fn make_room(&mut self, number: u32) -> Result<(), AllocError> {
        let count = (number as usize).saturating_add(1);
        if self.pooled.len() < count {
            self.pooled.resize(count, None)?;
            self.leasts.resize(count, 0)?;
        }
        Ok(())
    }

    /// The line of an inequality of the pool, which is kept there; it is put in where it isn't there.
    pub(crate) fn add_pooled(&mut self, pool: &mut Pool, number: u32) -> Result<u32, AllocError> {
        self.make_room(number)?;
        if let Some(Some(line)) = self.pooled.get(number as usize).copied() {
            return Ok(line);
        }
        pool.keep(number);
        if let Some(slot) = self.leasts.get_mut(number as usize) {
            *slot = pool.least(number);
        }
        let least = whole(pool.least(number));
        let line = self.simplex.add(pool.terms(number), least, MOST)?;
        self.names.push(LineName::Pooled(number))?;
        self.tight_at.push(self.solves)?;
        if let Some(slot) = self.pooled.get_mut(number as usize) {
            *slot = Some(line);
        }
        if let Some(key) = pool.key(number) {
            self.seen.insert(key)?;
        }
        Ok(line)
    }

    /// What the terms of an inequality are at least.
    pub(crate) fn least_of(&self, number: u32) -> Option<i64> {
        self.leasts.get(number as usize).copied()
    }

    /// The line of a cycle's offset; it is put in where it isn't there.
    pub(crate) fn add_offset(
        &mut self,
        setting: &Setting,
        number: u32,
    ) -> Result<Option<u32>, AllocError> {
        if let Some(Some(line)) = self.offsets.get(number as usize).copied() {
            return Ok(Some(line));
        }
        let (Some(cycle), Some(range)) = (
            setting.cycle(number),
            self.ranges.get(number as usize).copied(),
        ) else {
            return Ok(None);
        };
        let (least, most) = ends_of(cycle, number, setting.period(), range);
        let terms = cycle.terms(self.alloc, BoundSense::AtLeast)?;
        let added = self.simplex.add(&terms, least, most);
        drop(terms);
        let line = added?;
        self.names.push(LineName::Offset(number))?;
        self.tight_at.push(self.solves)?;
        if let Some(slot) = self.offsets.get_mut(number as usize) {
            *slot = Some(line);
        }
        Ok(Some(line))
    }

    /// How many lines are tight.
    pub fn count(&self) -> usize {
        self.simplex.tight_count()
    }

    /// How many numbers were looked at so far.
    pub fn work(&self) -> u64 {
        self.simplex.work()
    }

    /// The slacks, in 1/65536.
    pub fn slacks(&self) -> &[i64] {
        &self.slacks
    }

    /// Whether times near the slacks are due to be looked at.
    pub fn wants_times(&self) -> bool {
        self.solves % 20 == 0
    }

    /// The basis as it stands, by names.
    pub fn basis(&mut self, depth: u32) -> Result<NodeBasis, AllocError> {
        self.simplex.name(&mut self.basis)?;
        let mut basis = NodeBasis::new(self.alloc);
        let written = self.write(&mut basis);
        if written.is_err() {
            drop(basis);
            return Err(AllocError);
        }
        basis.depth = depth;
        Ok(basis)
    }

    /// Writes the basis down.
    fn write(&self, basis: &mut NodeBasis) -> Result<(), AllocError> {
        basis.basic.extend_from_slice(&self.basis.basic)?;
        basis.up.extend_from_slice(&self.basis.up)?;
        for (line, is_up) in &self.basis.tight {
            if let Some(name) = self.names.get(*line as usize).copied() {
                basis.tight.push((name, *is_up))?;
            }
        }
        self.write_ranges(basis)
    }
}
