//! What is tried next at a leaf.

use crate::branchings::{Branchings, Written};
use crate::candidates::{Candidate, Judges, candidates};
use crate::kept::Incumbent;
use crate::looks::{Bases, FoundPart, Looked, SidePseudoCosts, best_cut};
use crate::settings::{
    CUTS, CUTS_NEAR_ROOT, CUTS_OF_MANY_ROWS, FEW_ROWS, FIRST_CUTS, KEPT_BYTES, SHALLOW,
};
use crate::weights::{LeafRanges, Weight};
use pesp_forest::{Cycles, Frame};
use pesp_network::Network;
use pesp_problem::{Cut, Memory, Pair, Side};
use pesp_relaxation::{Basis, MOST_PIVOTS, PivotEnd, Root};
use std::alloc::{AllocError, Global};
use std::mem::swap;

/// Pairs for a leaf, with the value that they should have there; or, where it is endless, pairs whose value with all weights 0
/// should be above 0, so that no timetable is there.
#[derive(Drop)]
pub struct PartPairs {
    pub pairs: Vec<Pair>,
    pub value: i128,
    pub is_endless: bool,
}

/// A cut of the offsets of a cycle, numbered from 1, into those up to `k` and those above, with pairs for both parts.
#[derive(Drop)]
pub struct Split {
    pub cycle: u32,
    pub k: i64,
    pub low: PartPairs,
    pub high: PartPairs,
}

/// What is proposed for a leaf: pairs for the leaf itself; a cut, where one is to be found by its prices; and times of the
/// network's events that may be a timetable which costs less than the best so far, where such were met with.
#[derive(Drop)]
pub struct Advice {
    pub leaf: PartPairs,
    pub cut: Option<Split>,
    pub times: Option<Vec<u32>>,
}

/// A network with its forest, and by how much offsets are named above those of its own cycles.
#[derive(Drop)]
struct StrategySetting {
    frame: Frame,
    cycles: Cycles,
    shifts: Vec<i64>,
}

/// The bases of the leaf that is looked at and of its parts, what cuts have gained so far, and the leaves so far.
#[derive(Drop)]
struct StrategyWork {
    bases: Bases,
    experience: SidePseudoCosts,
    branchings: Branchings,
}

/// A leaf that is looked at: its ranges, its pairs, its place among those so far, and how many cuts lead there.
#[derive(Clone, Copy)]
struct LeafAtWork<'a> {
    slacks: &'a [(u32, u32)],
    offsets: &'a [(i64, i64)],
    pairs: &'a [Pair],
    place: u32,
    depth: usize,
}

/// A network with its forest, and what was learned from the cuts so far.
#[derive(Drop)]
pub struct Strategy {
    setting: StrategySetting,
    work: StrategyWork,
}

/// By how much offsets are named above those of the network's own cycles.
fn shifts_of(
    alloc: Global,
    own: &[(i64, i64)],
    named: &[(i64, i64)],
) -> Result<Vec<i64>, AllocError> {
    let mut shifts = Vec::with_capacity(alloc, own.len())?;
    for (here, there) in own.iter().zip(named.iter()) {
        shifts.push(there.0.saturating_sub(here.0))?;
    }
    Ok(shifts)
}

/// The offsets of the network's own cycles.
fn own_offsets(
    alloc: Global,
    offsets: &[(i64, i64)],
    shifts: &[i64],
) -> Result<Vec<(i64, i64)>, AllocError> {
    let mut own = Vec::with_capacity(alloc, offsets.len())?;
    for (range, shift) in offsets.iter().zip(shifts.iter()) {
        own.push((
            range.0.saturating_sub(*shift),
            range.1.saturating_sub(*shift),
        ))?;
    }
    Ok(own)
}

/// What the rows cost by their least slacks.
fn base_cost(frame: &Frame, slacks: &[(u32, u32)]) -> i128 {
    let mut sum = 0i128;
    for (row, range) in frame.rows().iter().zip(slacks.iter()) {
        let cost = u128::from(row.weight).saturating_mul(u128::from(range.0));
        sum = sum.saturating_add(i128::try_from(cost).unwrap_or(i128::MAX));
    }
    sum
}

/// How many cuts of a leaf are looked at, of a network of so many rows, below so many cuts, where so many were looked at so
/// far.
fn cuts_for(rows: usize, depth: usize, so_far: u64) -> usize {
    if depth < SHALLOW || so_far < FIRST_CUTS {
        CUTS_NEAR_ROOT
    } else if rows <= FEW_ROWS {
        CUTS
    } else {
        CUTS_OF_MANY_ROWS
    }
}

/// How the search for a leaf's best basis ended, and the leaf's value where it was written down with the basis.
#[derive(Clone, Copy)]
struct Settled {
    ended: PivotEnd,
    value: Option<i128>,
}

/// What the leaf of a best basis is worth.
fn value_of(setting: &StrategySetting, work: &StrategyWork, looking: &LeafAtWork<'_>) -> i128 {
    base_cost(&setting.frame, looking.slacks).saturating_sub(work.bases.leaf.cost())
}

/// The cuts of a leaf that are looked at, the likeliest first.
fn cuts(
    alloc: Global,
    setting: &StrategySetting,
    work: &StrategyWork,
    looking: &LeafAtWork<'_>,
    cap: u128,
) -> Result<Vec<Candidate>, AllocError> {
    let SidePseudoCosts { low, high } = &work.experience;
    let judges = Judges {
        low,
        high,
        cap: u64::try_from(cap).unwrap_or(u64::MAX),
    };
    candidates(
        alloc,
        &setting.frame,
        &setting.cycles,
        &work.bases.leaf,
        looking.slacks,
        &judges,
        cuts_for(setting.frame.rows().len(), looking.depth, low.count()),
    )
}

/// What is proposed for a part that was looked at; its pairs are taken out of what was found.
fn part_of(alloc: Global, found: &mut FoundPart, weight: Weight) -> PartPairs {
    let mut pairs = Vec::new(alloc);
    swap(&mut pairs, &mut found.pairs);
    PartPairs {
        pairs,
        value: weight.value,
        is_endless: weight.is_endless(),
    }
}

/// The split of a cut that was looked at.
fn split_of(alloc: Global, setting: &StrategySetting, bases: &mut Bases, looked: &Looked) -> Split {
    let cycle = looked.cut.cycle;
    let place = (cycle as usize).wrapping_sub(1);
    let shift = setting.shifts.get(place).copied().unwrap_or(0);
    let best = &mut bases.best;
    Split {
        cycle,
        k: looked.cut.k.saturating_add(shift),
        low: part_of(alloc, &mut best.low, looked.low),
        high: part_of(alloc, &mut best.high, looked.high),
    }
}

/// Keeps the bases of both parts of a split, and proposes it.
fn proposed(
    alloc: Global,
    setting: &StrategySetting,
    work: &mut StrategyWork,
    place: u32,
    looked: &Looked,
) -> Result<Split, AllocError> {
    let StrategyWork {
        bases,
        branchings,
        ..
    } = work;
    let split = split_of(alloc, setting, bases, looked);
    let cut = Cut::Offset {
        cycle: split.cycle,
        k: split.k,
    };
    let low = bases.best.low.basis(looked.low.value);
    let high = bases.best.high.basis(looked.high.value);
    match branchings.keep(alloc, place, cut, low, high) {
        Ok(()) => Ok(split),
        Err(refused) => {
            drop(split);
            Err(refused)
        }
    }
}

/// The best cut of a leaf of this value, whose basis is a best one.
fn choose(
    alloc: Global,
    setting: &StrategySetting,
    work: &mut StrategyWork,
    looking: &LeafAtWork<'_>,
    kept: &mut Incumbent,
    value: i128,
) -> Result<Option<Split>, AllocError> {
    if kept.closes(value) {
        return Ok(None);
    }
    let leaf = LeafRanges {
        frame: &setting.frame,
        cycles: &setting.cycles,
        slacks: looking.slacks,
        offsets: looking.offsets,
        value,
    };
    let found = cuts(alloc, setting, work, looking, kept.cap(value))?;
    let StrategyWork {
        bases,
        experience,
        ..
    } = work;
    match best_cut(alloc, &leaf, kept, bases, experience, &found)? {
        Some(looked) => Ok(Some(proposed(alloc, setting, work, looking.place, &looked)?)),
        None => Ok(None),
    }
}

/// Makes a basis the best one of a leaf, from the one that was written down for it where there is one, else from its pairs;
/// None where that has no ranges for some row or cycle.
fn settle(
    alloc: Global,
    setting: &StrategySetting,
    basis: &mut Basis,
    looking: &LeafAtWork<'_>,
    written: Written<'_>,
) -> Result<Option<Settled>, AllocError> {
    let StrategySetting { frame, cycles, .. } = setting;
    let ranges = basis.set_ranges(frame, cycles, looking.slacks, looking.offsets);
    if ranges.is_none() {
        return Ok(None);
    }
    let Written { codes, value } = written;
    if !codes.is_empty() && basis.restore(alloc, frame, codes)?.is_some() {
        return Ok(Some(Settled {
            ended: PivotEnd::Best,
            value: Some(value),
        }));
    }
    if basis
        .rebuild(alloc, frame, cycles, looking.pairs)?
        .is_none()
    {
        return Ok(None);
    }
    Ok(Some(Settled {
        ended: basis.solve(frame, MOST_PIVOTS),
        value: None,
    }))
}

/// The value of a leaf whose search for a best basis ended so, and its best cut, where that basis was found.
fn value_and_cut(
    alloc: Global,
    setting: &StrategySetting,
    work: &mut StrategyWork,
    looking: &LeafAtWork<'_>,
    kept: &mut Incumbent,
    settled: Settled,
) -> Result<(i128, Option<Split>), AllocError> {
    if settled.ended != PivotEnd::Best {
        return Ok((0, None));
    }
    kept.offer(alloc, &setting.frame, &work.bases.leaf)?;
    let value = match settled.value {
        Some(value) => value,
        None => value_of(setting, work, looking),
    };
    let cut = choose(alloc, setting, work, looking, kept, value)?;
    Ok((value, cut))
}

/// What is proposed for a leaf whose search for a best basis ended so.
fn advise(
    alloc: Global,
    setting: &StrategySetting,
    work: &mut StrategyWork,
    looking: &LeafAtWork<'_>,
    settled: Settled,
    best: Option<i128>,
) -> Result<Advice, AllocError> {
    let mut kept = Incumbent::new(&setting.frame, best);
    let (value, cut) = value_and_cut(alloc, setting, work, looking, &mut kept, settled)?;
    match work.bases.leaf.pairs(alloc, &setting.cycles) {
        Ok(pairs) => {
            let leaf = PartPairs {
                pairs,
                value,
                is_endless: settled.ended == PivotEnd::Endless,
            };
            let Incumbent { times, .. } = kept;
            Ok(Advice { leaf, cut, times })
        }
        Err(refused) => {
            drop(cut);
            Err(refused)
        }
    }
}

/// The root of a network by its own forest; None where it has a cycle without an offset.
fn root_of(alloc: Global, network: &Network, frame: &Frame) -> Result<Option<Root>, Memory> {
    let numbers = network.forest(alloc)?;
    let root = Root::new(alloc, frame, &numbers)?;
    Ok(root)
}

/// The cycles of a network's own forest, and by how much their offsets are named above those of its root. None where the root
/// has a cycle without an offset.
fn cycles_and_shifts(
    alloc: Global,
    network: &Network,
    frame: &Frame,
    named: &[(i64, i64)],
) -> Result<Option<(Cycles, Vec<i64>)>, Memory> {
    let Some(root) = root_of(alloc, network, frame)? else {
        return Ok(None);
    };
    let shifts = shifts_of(alloc, &root.offsets, named);
    let Root {
        cycles,
        spans,
        offsets,
    } = root;
    drop(spans);
    drop(offsets);
    match shifts {
        Ok(shifts) => Ok(Some((cycles, shifts))),
        Err(_) => {
            drop(cycles);
            Err(Memory)
        }
    }
}

impl StrategySetting {
    /// The setting of a network, where the root's offsets are named so. None where the root has a cycle without an offset.
    fn new(
        alloc: Global,
        network: &Network,
        named: &[(i64, i64)],
    ) -> Result<Option<StrategySetting>, Memory> {
        let frame = Frame::new(alloc, network)?;
        match cycles_and_shifts(alloc, network, &frame, named) {
            Ok(Some((cycles, shifts))) => Ok(Some(StrategySetting {
                frame,
                cycles,
                shifts,
            })),
            Ok(None) => {
                drop(frame);
                Ok(None)
            }
            Err(refused) => {
                drop(frame);
                Err(refused)
            }
        }
    }
}

/// No gains for so many cycles, and no leaves but the root.
fn nothing_learned(
    alloc: Global,
    cycles: usize,
) -> Result<(SidePseudoCosts, Branchings), AllocError> {
    let experience = SidePseudoCosts::new(alloc, cycles)?;
    match Branchings::new(alloc, KEPT_BYTES) {
        Ok(branchings) => Ok((experience, branchings)),
        Err(refused) => {
            drop(experience);
            Err(refused)
        }
    }
}

impl StrategyWork {
    /// No flows, and no gains.
    fn new(alloc: Global, setting: &StrategySetting) -> Result<StrategyWork, AllocError> {
        let (experience, branchings) = nothing_learned(alloc, setting.cycles.count())?;
        match Bases::idle(alloc, &setting.frame) {
            Ok(bases) => Ok(StrategyWork {
                bases,
                experience,
                branchings,
            }),
            Err(refused) => {
                drop(experience);
                drop(branchings);
                Err(refused)
            }
        }
    }
}

impl Strategy {
    /// The strategy for a network with its forest, where the root's offsets are named so. None where the network's root has a
    /// cycle without an offset.
    pub fn new(
        alloc: Global,
        network: &Network,
        root: &[(i64, i64)],
    ) -> Result<Option<Strategy>, Memory> {
        let Some(setting) = StrategySetting::new(alloc, network, root)? else {
            return Ok(None);
        };
        match StrategyWork::new(alloc, &setting) {
            Ok(work) => Ok(Some(Strategy { setting, work })),
            Err(_) => {
                drop(setting);
                Err(Memory)
            }
        }
    }

    /// A price for each event of the network, from the last leaf that was looked at: along each row of a spanning tree prices
    /// rise by a duration that is best there, were offsets no whole numbers. Times near to them tend to be good.
    pub fn prices(&self) -> &[i64] {
        self.work.bases.leaf.prices()
    }

    /// What is proposed for a leaf: of these parts of cuts, from the root on, by the names of the cycles; of these slack ranges,
    /// one for each row of the network, these offset ranges, one for each cycle as they are named, and these pairs, where the
    /// best timetable so far costs so much. None where nothing is to be said, as of a leaf that has no ranges for some row or
    /// cycle, or numbers beyond 64 bits.
    pub fn look(
        &mut self,
        alloc: Global,
        path: &[(Cut, Side)],
        slacks: &[(u32, u32)],
        offsets: &[(i64, i64)],
        pairs: &[Pair],
        best: Option<i128>,
    ) -> Result<Option<Advice>, Memory> {
        let Strategy { setting, work } = self;
        let own = own_offsets(alloc, offsets, &setting.shifts)?;
        let looking = LeafAtWork {
            slacks,
            offsets: &own,
            pairs,
            place: work.branchings.reach(alloc, path)?,
            depth: path.len(),
        };
        let codes = work.branchings.take(alloc, looking.place);
        let written = Written {
            codes: &codes,
            value: work.branchings.value(looking.place),
        };
        let basis = &mut work.bases.leaf;
        match settle(alloc, setting, basis, &looking, written)? {
            Some(settled) => Ok(Some(advise(alloc, setting, work, &looking, settled, best)?)),
            None => Ok(None),
        }
    }
}
