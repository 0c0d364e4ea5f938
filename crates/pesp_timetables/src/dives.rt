//! Dives of the relaxation: offsets are fixed one after another, and the prices of the rest are renewed each time.

use crate::forests::Keyed;
use crate::found::times_at;
use crate::relaxation::Relaxation;
use pesp_forest::Random;
use pesp_network::Network;
use pesp_problem::Memory;
use pesp_propagate::dive_to;
use pesp_relaxation::{MOST_PIVOTS, PivotEnd, Slopes};
use std::alloc::{AllocError, Global};

/// How many tries a dive to the prices has.
const TRIES: u32 = 20;

/// An offset between two whole numbers, by the prices: the lower one, and what is left above it, in units of time.
#[derive(Clone, Copy)]
struct Broken {
    floor: i64,
    rest: i64,
}

/// How many thousandths of the offsets are fixed between two looks at all of them, but one at least.
fn thousandths_for(rows: usize) -> usize {
    if rows <= 2_500 { 0 } else { 3 }
}

/// The one with the least key, and of these the one with the first row.
fn least_of(list: &[Keyed]) -> Option<Keyed> {
    let mut least = None;
    for keyed in list {
        least = match least {
            Some(best) if !keyed.is_before(&best) => Some(best),
            _ => Some(*keyed),
        };
    }
    least
}

impl Relaxation {
    /// The offset of a row outside the forest, where it is no whole number and not one that its slopes hold.
    fn broken(&self, row: u32) -> Option<Broken> {
        let slopes = self.dived.slopes(row)?;
        let rise = self.dived.rise(row)?;
        if rise <= slopes.below || rise >= slopes.between {
            return None;
        }
        let period = i64::from(self.frame.period());
        let whole = self.frame.row(row)?.lower.checked_sub(rise)?;
        let rest = whole.checked_rem_euclid(period)?;
        if rest == 0 {
            return None;
        }
        Some(Broken {
            floor: whole.checked_div_euclid(period)?,
            rest,
        })
    }

    /// How late an offset is fixed: the earlier, the nearer it is to a whole number and the greater its row's weight.
    fn lateness(&self, row: u32, broken: Broken, drawn: u64) -> Option<u64> {
        let period = i64::from(self.frame.period());
        let near = broken.rest.min(period.checked_sub(broken.rest)?);
        let scaled = u64::try_from(near).ok()?.checked_mul(100_000)?;
        let key = scaled / self.frame.row(row)?.weight.saturating_add(1);
        let more = key.checked_add(1)?.checked_mul(drawn)?;
        key.checked_mul(64)?.checked_add(more)
    }

    /// The offsets that are no whole numbers, with keys that are the less, the sooner they are to be fixed; the order of a first
    /// dive isn't drawn.
    fn candidates(&self, alloc: Global, random: &mut Random) -> Result<Vec<Keyed>, AllocError> {
        let mut list = Vec::new(alloc);
        for row in self.root.cycles.outside() {
            let Some(broken) = self.broken(*row) else {
                continue;
            };
            let drawn = if self.is_drawn { random.below(256) } else { 0 };
            if let Some(key) = self.lateness(*row, broken, drawn) {
                list.push(Keyed { key, row: *row })?;
            }
        }
        Ok(list)
    }

    /// What flow on a row costs with its offset at most the lower number, and with at least the upper one.
    fn sides(&self, row: u32, broken: Broken) -> Option<(Slopes, Slopes)> {
        let before = self.dived.slopes(row)?;
        let lower = self.frame.row(row)?.lower;
        let span = i64::from(self.frame.row(row)?.span);
        let period = i64::from(self.frame.period());
        let low = lower.checked_sub(broken.floor.checked_mul(period)?)?;
        let high = low.checked_sub(period)?;
        let at_most = Slopes {
            below: low,
            ..before
        };
        let at_least = Slopes {
            below: before.below,
            between: high,
            above: high.checked_add(span)?,
        };
        Some((at_most, at_least))
    }

    /// Takes one side of an offset, and the best prices there; where there are none takes the side back.
    fn take_side(&mut self, row: u32, side: Slopes) -> Option<bool> {
        let before = self.dived.slopes(row)?;
        self.dived.change_slopes(&self.frame, row, side)?;
        if self.dived.approach(&self.frame, MOST_PIVOTS) == PivotEnd::Best {
            return Some(true);
        }
        self.dived.change_slopes(&self.frame, row, before)?;
        self.dived.approach(&self.frame, MOST_PIVOTS);
        Some(false)
    }

    /// Fixes an offset, if it is still no whole number, to the nearer side, or else to the other one; None where neither has
    /// prices.
    fn fix(&mut self, row: u32) -> Option<()> {
        let Some(broken) = self.broken(row) else {
            return Some(());
        };
        let (low, high) = self.sides(row, broken)?;
        let period = i64::from(self.frame.period());
        let (near, far) = if broken.rest > period.checked_sub(broken.rest)? {
            (high, low)
        } else {
            (low, high)
        };
        if self.take_side(row, near)? || self.take_side(row, far)? {
            return Some(());
        }
        None
    }

    /// Fixes those of these offsets that are to be fixed first.
    fn fix_first(&mut self, list: &mut [Keyed]) -> Option<()> {
        let thousandths = thousandths_for(self.frame.rows().len());
        let count = list.len().saturating_mul(thousandths) / 1000;
        if count <= 1 {
            return self.fix(least_of(list)?.row);
        }
        list.sort_unstable_by_key(|keyed| (keyed.key, keyed.row));
        for keyed in list.iter().take(count) {
            self.fix(keyed.row)?;
        }
        Some(())
    }

    /// Fixes offsets until all are whole numbers, or one has no side left.
    fn dive(&mut self, alloc: Global, random: &mut Random) -> Result<(), Memory> {
        if self.dived.copy_from(&self.best).is_none() {
            return Ok(());
        }
        for _ in 0..self.frame.rows().len().saturating_mul(4) {
            let mut list = self.candidates(alloc, random)?;
            if list.is_empty() || self.fix_first(&mut list).is_none() {
                return Ok(());
            }
        }
        Ok(())
    }

    /// The times to which a dive leads, or some near its prices; None where none were found.
    pub fn times(
        &mut self,
        alloc: Global,
        network: &Network,
        random: &mut Random,
    ) -> Result<Option<Vec<u32>>, Memory> {
        self.dive(alloc, random)?;
        self.is_drawn = true;
        let times = times_at(alloc, network.period(), self.dived.prices())?;
        if network.is_timetable(&times) {
            return Ok(Some(times));
        }
        dive_to(alloc, network, self.dived.prices(), TRIES)
    }
}
