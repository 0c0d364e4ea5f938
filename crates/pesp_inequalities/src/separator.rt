//! The search for violated inequalities.

use crate::efficacy::EfficacyMeasure;
use crate::finds::Finds;
use crate::inequality::Inequality;
use crate::keys::{BY_SPAN, KeyRule, RULES};
use crate::marking::{DistanceOrigin, Marking};
use crate::seen::Seen;
use crate::spanning::Spanning;
use crate::ways::TreeWalk;
use pesp_forest::{Frame, Random};
use std::alloc::{AllocError, Global};

/// How many passes of a walk are flipped at most, one after another, from the nearer ends on.
const MOST_FLIPS: u32 = 6;

/// How many passes the walks along a forest may have in all; those of further rows are left out.
const MOST_PASSES: usize = 4_000_000;

/// Looks for violated cycle inequalities along the fundamental cycles of forests whose rows have slacks near an end of their
/// range. It keeps what it works with: the forest and a walk along it, the inequalities of the walk, and all that were found.
#[derive(Drop)]
pub struct Separator {
    alloc: Global,
    judge: EfficacyMeasure,
    random: Random,
    keys: Vec<i64>,
    spanning: Spanning,
    way: TreeWalk,
    marking: Marking,
    offers: Finds,
    finds: Finds,
}

impl Separator {
    /// A separator for a network's rows; the seed is that of the numbers by which forests are drawn.
    pub fn new(alloc: Global, frame: &Frame, seed: u64) -> Result<Separator, AllocError> {
        Ok(Separator {
            alloc,
            judge: EfficacyMeasure::new(frame.period()),
            random: Random::new(seed),
            keys: vec![in alloc; 0i64; frame.rows().len()]?,
            spanning: Spanning::new(alloc, frame)?,
            way: TreeWalk::new(alloc),
            marking: Marking::new(alloc),
            offers: Finds::new(alloc),
            finds: Finds::new(alloc),
        })
    }

    /// Notes the walk's inequality as it is flipped now, where it is violated.
    fn offer(&mut self) -> Result<(), AllocError> {
        let efficacy = self.marking.efficacy(self.judge);
        self.offers.put(efficacy, self.marking.passes())
    }

    /// Notes the inequality of the walk with its slacks measured from these ends, where it may be violated.
    fn offer_from(&mut self, ends: DistanceOrigin) -> Result<(), AllocError> {
        if !self.marking.is_near(self.judge, ends) {
            return Ok(());
        }
        self.marking.turn_to(self.judge, ends);
        self.offer()
    }

    /// Notes the inequalities that come of flips, each of which makes the one before more violated.
    fn offer_flips(&mut self) -> Result<(), AllocError> {
        self.offer_from(DistanceOrigin::Nearer)?;
        for _ in 0..MOST_FLIPS {
            if self.marking.improve(self.judge).is_none() {
                break;
            }
            self.offer()?;
        }
        Ok(())
    }

    /// Looks at the walk: the best so many of its inequalities are found.
    fn look_at_walk(
        &mut self,
        frame: &Frame,
        slacks: &[i64],
        each: usize,
    ) -> Result<(), AllocError> {
        let walk = self.way.passes();
        if !self.marking.load(frame, self.judge, slacks, walk)? {
            return Ok(());
        }
        self.offers.clear();
        self.offer_flips()?;
        self.offer_from(DistanceOrigin::Rising)?;
        self.offer_from(DistanceOrigin::Falling)?;
        self.finds.put_best(&mut self.offers, each)
    }

    /// Looks at the walk that a row closes, unless it is in the forest; how many passes it has.
    fn look_at_row(
        &mut self,
        frame: &Frame,
        slacks: &[i64],
        row: u32,
        each: usize,
    ) -> Result<usize, AllocError> {
        if self.spanning.has(row) {
            return Ok(0);
        }
        if self.way.close(frame, self.spanning.tree(), row)? {
            self.look_at_walk(frame, slacks, each)?;
        }
        Ok(self.way.passes().len())
    }

    /// Looks along the forest of a rule.
    fn look_along(
        &mut self,
        frame: &Frame,
        slacks: &[i64],
        rule: &KeyRule,
        each: usize,
    ) -> Result<(), AllocError> {
        rule.give(&mut self.keys, frame, slacks, &mut self.random);
        self.spanning.draw(frame, &self.keys);
        let mut left = MOST_PASSES;
        for place in 0..self.keys.len() {
            let row = u32::try_from(place).unwrap_or(u32::MAX);
            left = left.saturating_sub(self.look_at_row(frame, slacks, row, each)?);
            if left == 0 {
                break;
            }
        }
        Ok(())
    }

    /// The first so many new ones of the inequalities that were found.
    fn choose(
        &self,
        frame: &Frame,
        most: usize,
        seen: &mut Seen,
    ) -> Result<Vec<Inequality>, AllocError> {
        let mut chosen = Vec::new(self.alloc);
        for find in self.finds.list() {
            if chosen.len() >= most {
                break;
            }
            let passes = Vec::from_slice(self.alloc, self.finds.passes(find))?;
            if let Some(inequality) = Inequality::of(self.alloc, frame, passes)? {
                if seen.insert(inequality.key())? {
                    chosen.push(inequality)?;
                }
            }
        }
        Ok(chosen)
    }

    /// The most violated new inequalities of the rows that it was made for, at slacks in 1/65536, the most violated first: along the fundamental cycles of six
    /// forests, and of the forest of small spans where `wide`; at most `each` a cycle, and at most `most` in all. New is one
    /// whose key isn't in `seen`, into which it is put.
    pub fn look(
        &mut self,
        frame: &Frame,
        slacks: &[i64],
        wide: bool,
        each: usize,
        most: usize,
        seen: &mut Seen,
    ) -> Result<Vec<Inequality>, AllocError> {
        self.finds.clear();
        for rule in &RULES {
            self.look_along(frame, slacks, rule, each)?;
        }
        if wide {
            self.look_along(frame, slacks, &BY_SPAN, each)?;
        }
        self.finds.sort();
        self.choose(frame, most, seen)
    }
}
