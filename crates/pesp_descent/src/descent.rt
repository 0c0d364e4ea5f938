//! Shifts of cuts that make times cheaper, tried over forests drawn at random.

use crate::moves::shift_side;
use crate::planting::PlantedForest;
use crate::stars::stars_of;
use pesp_forest::Random;
use pesp_problem::{Arc, Memory};
use pesp_propagate::{Cuts, Entry, Numbers, Rooted, list};
use std::alloc::Global;

/// How many forests in turn may show no cheaper shift before the descent ends.
const QUIET: u32 = 4;

/// The seed of the numbers that choose forests and shifts.
const SEED: u64 = 1;

/// A set of events that is shifted: all that hang below an event of the forest, or an event alone.
#[derive(Clone, Copy)]
enum ShiftedSet {
    Below(u32),
    Alone(u32),
}

/// Slacks and their cost, the best that were met, the forest in use with its cuts, and the rows at each event.
#[derive(Drop)]
pub struct Descent {
    period: u32,
    rounds: u32,
    slacks: Vec<u32>,
    cost: i64,
    best: Vec<u32>,
    best_cost: i64,
    planting: PlantedForest,
    stars: Cuts,
    sides: Vec<ShiftedSet>,
    numbers: Numbers,
    random: Random,
}

/// The sides that are tried in each round.
fn sides_of(alloc: Global, events: u32) -> Result<Vec<ShiftedSet>, Memory> {
    let mut sides = Vec::new(alloc);
    for event in 0..events {
        sides.push(ShiftedSet::Below(event))?;
        sides.push(ShiftedSet::Alone(event))?;
    }
    Ok(sides)
}

/// The rows that cross between a side and the rest.
fn entries_at<'a>(cuts: &'a Cuts, stars: &'a Cuts, side: ShiftedSet) -> Option<&'a [Entry]> {
    match side {
        ShiftedSet::Below(event) => list(cuts, event),
        ShiftedSet::Alone(event) => list(stars, event),
    }
}

/// Copies numbers over as many others.
fn copy(from: &[u32], to: &mut [u32]) {
    if from.len() == to.len() {
        to.copy_from_slice(from);
    }
}

/// Room for the costs of all shifts of a cut.
pub fn numbers_for(alloc: Global, period: u32) -> Result<Numbers, Memory> {
    Ok(Numbers {
        costs: vec![in alloc; 0i64; period as usize + 1]?,
        bars: vec![in alloc; 0i64; period as usize + 1]?,
    })
}

/// The heat in a round of a cycle that begins at `top` and falls by so many halves.
fn heat_at(top: u64, halves: u32, round: u32, rounds: u32) -> u64 {
    let sixteenths = u64::from(round)
        .wrapping_mul(u64::from(halves))
        .wrapping_mul(16)
        / u64::from(rounds.max(1));
    let whole = (sixteenths / 16).min(63) as u32;
    let full = top >> whole;
    let rest = (full / 2).wrapping_mul(sixteenths % 16) / 16;
    full.wrapping_sub(rest).max(1)
}

impl Descent {
    /// A descent from these slacks, which cost so much, in so many rounds.
    pub fn new(
        alloc: Global,
        period: u32,
        events: u32,
        arcs: &[Arc],
        slacks: Vec<u32>,
        cost: i64,
        rounds: u32,
    ) -> Result<Descent, Memory> {
        Ok(Descent {
            period,
            rounds,
            best: slacks.clone()?,
            slacks,
            cost,
            best_cost: cost,
            numbers: numbers_for(alloc, period)?,
            sides: sides_of(alloc, events)?,
            stars: stars_of(alloc, events as usize, arcs)?,
            planting: PlantedForest::new(alloc, events, arcs)?,
            random: Random::new(SEED),
        })
    }

    /// The forest in use.
    pub fn rooted(&self) -> &Rooted {
        &self.planting.drawing.rooted
    }

    /// The times of the slacks, along the forest in use.
    pub fn times(&self, alloc: Global, arcs: &[Arc]) -> Result<Option<Vec<u32>>, Memory> {
        self.planting
            .drawing
            .times_of(alloc, self.period, arcs, &self.slacks)
    }

    /// Draws a forest and lists its cuts. False where it gave up.
    fn plant(&mut self, arcs: &[Arc]) -> Result<bool, Memory> {
        self.planting.plant(arcs, &self.slacks, &mut self.random)
    }

    /// Tries the shifts of a side, and gives by how much the one that was taken is dearer.
    fn try_side(&mut self, arcs: &[Arc], side: ShiftedSet, heat: u64) -> Option<i64> {
        let entries = entries_at(&self.planting.cuts, &self.stars, side)?;
        if entries.is_empty() {
            return Some(0);
        }
        let dearer = shift_side(
            self.period,
            arcs,
            &mut self.slacks,
            entries,
            &mut self.numbers,
            heat,
            &mut self.random,
        )?;
        self.cost = self.cost.wrapping_add(dearer);
        Some(dearer)
    }

    /// Puts the sides into a random order.
    fn shuffle(&mut self) {
        let count = self.sides.len();
        for at in 0..count {
            let other = self.random.below(at as u64 + 1) as usize;
            if other < count {
                self.sides.swap(at, other);
            }
        }
    }

    /// Tries all sides in a random order, and tells whether one became cheaper.
    fn sweep(&mut self, arcs: &[Arc], heat: u64) -> Option<bool> {
        self.shuffle();
        let mut gained = false;
        for at in 0..self.sides.len() {
            let side = *self.sides.get(at)?;
            gained |= self.try_side(arcs, side, heat)? < 0;
        }
        if self.cost < self.best_cost {
            self.best_cost = self.cost;
            copy(&self.slacks, &mut self.best);
        }
        Some(gained)
    }

    /// Goes back to the best slacks.
    fn recall(&mut self) {
        if self.best_cost < self.cost {
            self.cost = self.best_cost;
            copy(&self.best, &mut self.slacks);
        }
    }

    /// The mean cost of a row.
    fn mean(&self) -> u64 {
        let rows = (self.slacks.len() as u64).max(1);
        (self.cost.unsigned_abs() / rows).max(1)
    }

    /// Takes shifts at random by a heat that falls, a forest a round, in cycles of which the first begins the hottest. False
    /// where it gave up.
    fn anneal(&mut self, arcs: &[Arc], rounds: u32) -> Result<bool, Memory> {
        let cycle = rounds.clamp(1, 2000);
        let mut top: u64 = 0;
        for round in 0..rounds {
            let place = round % cycle;
            let first = round < cycle;
            if place == 0 {
                top = self.mean().saturating_mul(if first { 8 } else { 1 });
            }
            if self.best_cost == 0 {
                return Ok(true);
            }
            let heat = heat_at(top, if first { 8 } else { 5 }, place, cycle);
            if !self.plant(arcs)? || self.sweep(arcs, heat).is_none() {
                return Ok(false);
            }
        }
        Ok(true)
    }

    /// Takes the cheapest shifts until some forests in turn show none, or the rounds are spent. False where it gave up.
    fn cool(&mut self, arcs: &[Arc], rounds: u32) -> Result<bool, Memory> {
        let mut quiet: u32 = 0;
        let mut is_planted = self.plant(arcs)?;
        for round in 0..rounds {
            if !is_planted || self.cost == 0 {
                break;
            }
            let Some(gained) = self.sweep(arcs, 0) else {
                return Ok(false);
            };
            if gained {
                quiet = 0;
                continue;
            }
            quiet = quiet.wrapping_add(1);
            if quiet >= QUIET || round >= rounds / 2 {
                break;
            }
            is_planted = self.plant(arcs)?;
        }
        Ok(is_planted)
    }

    /// Makes the slacks cheaper in its rounds: first by cheaper shifts alone, then by heat, and then by cheaper shifts
    /// again. It may give up before.
    pub fn run(&mut self, arcs: &[Arc]) -> Result<(), Memory> {
        let rounds = self.rounds;
        let reserve = (rounds / 4).clamp(16, 400);
        let first = rounds.min(16);
        let cooled = self.cool(arcs, first)?;
        let rest = rounds.wrapping_sub(first);
        if !cooled || rest == 0 || self.cost == 0 {
            return Ok(());
        }
        let annealed = self.anneal(arcs, rest.saturating_sub(reserve))?;
        self.recall();
        if annealed {
            self.cool(arcs, rest.min(reserve))?;
        }
        Ok(())
    }
}
