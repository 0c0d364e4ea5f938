//! What multipliers show, in whole numbers.

use crate::basis::LineName;
use crate::shared::Shared;
use pesp_basis::rounded;
use pesp_sharp_nodes::{BoundSense, Limit, OffsetBound, Setting, cost_shown};
use std::alloc::AllocError;

/// What a leaf shows: a cost, by multipliers of cycles and of inequalities of the pool, in units of the scale.
#[derive(Drop)]
pub struct ShownBound {
    pub bound: u64,
    pub pairs: Vec<(u32, i64)>,
    pub walks: Vec<(u32, i64)>,
}

/// The bound on an offset that a multiplier of a cycle is of.
fn end_of(shared: &Shared, cycle: u32, multiplier: i64) -> Option<OffsetBound> {
    let range = shared.ranges.get(cycle as usize).copied()?;
    let (side, offset) = if multiplier < 0 {
        (BoundSense::AtMost, range.most)
    } else {
        (BoundSense::AtLeast, range.least)
    };
    Some(OffsetBound {
        cycle,
        side,
        offset,
    })
}

impl Shared {
    /// The weights of rows times a factor.
    fn weigh(&mut self, setting: &Setting, factor: i128) -> Result<(), AllocError> {
        self.weights.clear();
        for row in setting.frame.rows() {
            self.weights
                .push(i128::from(row.weight).wrapping_mul(factor))?;
        }
        Ok(())
    }

    /// Takes a line times a multiplier away from the weights.
    fn take(&mut self, line: u32, multiplier: i64) {
        for term in self.simplex.terms(line) {
            if let Some(weight) = self.weights.get_mut(term.row as usize) {
                let part = i128::from(term.coefficient).wrapping_mul(i128::from(multiplier));
                *weight = weight.wrapping_sub(part);
            }
        }
    }

    /// What weights below 0 take from the value.
    fn loss(&self, setting: &Setting) -> i128 {
        let mut sum = 0i128;
        for (weight, row) in self.weights.iter().zip(setting.frame.rows().iter()) {
            if *weight < 0 {
                sum = sum.wrapping_add(weight.wrapping_mul(i128::from(row.span)));
            }
        }
        sum
    }

    /// What a unit of a line's multiplier adds to the value, where its multiplier may have this sign.
    fn worth(&self, setting: &Setting, line: u32, multiplier: i64) -> Option<i128> {
        match self.names.get(line as usize).copied()? {
            LineName::Pooled(_) if multiplier < 0 => None,
            LineName::Pooled(number) => Some(i128::from(self.least_of(number)?)),
            LineName::Offset(number) => {
                let end = end_of(self, number, multiplier)?;
                let cycle = setting.cycle(number)?;
                let least = cycle.least(setting.period(), end);
                Some(i128::from(end.side.signed(least)))
            }
        }
    }

    /// The value of a list of multipliers, by line, in units of the scale. Those that may not be told are left out.
    fn sum_up(&mut self, setting: &Setting, list: &[(u32, i64)]) -> i128 {
        let mut value = 0i128;
        for (line, multiplier) in list {
            if let Some(worth) = self.worth(setting, *line, *multiplier) {
                self.take(*line, *multiplier);
                let part = worth.wrapping_mul(i128::from(*multiplier));
                value = value.wrapping_add(part);
            }
        }
        value.wrapping_add(self.loss(setting))
    }

    /// The multipliers of tight lines, in units of the scale.
    fn list_multipliers(&self, setting: &Setting) -> Result<Vec<(u32, i64)>, AllocError> {
        let scale = setting.fine_scale();
        let mut list = Vec::new(self.alloc);
        for line in self.simplex.tight() {
            let multiplier = rounded(self.simplex.multiplier(*line), scale);
            if multiplier != 0 {
                list.push((*line, multiplier))?;
            }
        }
        Ok(list)
    }

    /// The multipliers of the last ray, in units of the scale.
    fn list_ray(&self, setting: &Setting) -> Result<Vec<(u32, i64)>, AllocError> {
        let scale = setting.fine_scale();
        let mut list = Vec::new(self.alloc);
        for (line, multiplier) in self.simplex.ray() {
            let multiplier = rounded(*multiplier, scale);
            if multiplier != 0 {
                list.push((*line, multiplier))?;
            }
        }
        Ok(list)
    }

    /// The whole cost that the multipliers show.
    pub(crate) fn cost_shown(&mut self, setting: &Setting) -> Result<u64, AllocError> {
        self.weigh(setting, i128::from(setting.scale))?;
        let list = self.list_multipliers(setting)?;
        let value = self.sum_up(setting, &list);
        Ok(cost_shown(value, setting.scale))
    }

    /// What the last ray is worth with weights 0: nothing is left where that is above 0.
    pub(crate) fn ray_value(&mut self, setting: &Setting) -> Result<i128, AllocError> {
        self.weigh(setting, 0)?;
        let list = self.list_ray(setting)?;
        Ok(self.sum_up(setting, &list))
    }

    /// Notes which lines were tight now.
    pub(crate) fn note_tight(&mut self) {
        for line in self.simplex.tight() {
            if let Some(slot) = self.tight_at.get_mut(*line as usize) {
                *slot = self.solves;
            }
        }
    }

    /// A leaf of a list of multipliers.
    fn leaf(
        &self,
        setting: &Setting,
        list: &[(u32, i64)],
        bound: u64,
    ) -> Result<ShownBound, AllocError> {
        let mut shown = ShownBound {
            bound,
            pairs: Vec::new(self.alloc),
            walks: Vec::new(self.alloc),
        };
        let mut written = Ok(());
        for (line, multiplier) in list {
            let is_told = *multiplier != 0 && self.worth(setting, *line, *multiplier).is_some();
            if written.is_ok() && is_told {
                written = self.tell(&mut shown, *line, *multiplier);
            }
        }
        if written.is_err() {
            drop(shown);
            return Err(AllocError);
        }
        shown.pairs.sort_unstable_by_key(|pair| pair.0);
        shown.walks.sort_unstable_by_key(|walk| walk.0);
        Ok(shown)
    }

    /// Puts a multiplier into a leaf.
    fn tell(&self, shown: &mut ShownBound, line: u32, multiplier: i64) -> Result<(), AllocError> {
        match self.names.get(line as usize).copied() {
            Some(LineName::Pooled(number)) => shown.walks.push((number, multiplier))?,
            Some(LineName::Offset(number)) => shown.pairs.push((number, multiplier))?,
            None => {}
        }
        Ok(())
    }

    /// What the value changes by where a multiplier goes.
    fn change_without(&self, setting: &Setting, line: u32, multiplier: i64) -> i128 {
        let worth = self.worth(setting, line, multiplier).unwrap_or(0);
        let mut change = worth.wrapping_mul(i128::from(multiplier)).wrapping_neg();
        for term in self.simplex.terms(line) {
            let weight = self.weights.get(term.row as usize).copied().unwrap_or(0);
            let part = i128::from(term.coefficient).wrapping_mul(i128::from(multiplier));
            let span = setting.frame.row(term.row).map_or(0, |row| row.span);
            let fall = weight.wrapping_add(part).min(0).wrapping_sub(weight.min(0));
            change = change.wrapping_add(fall.wrapping_mul(i128::from(span)));
        }
        change
    }

    /// Leaves out multipliers that a value doesn't need to stay above another one, the least first; what is left of the value.
    fn thin_out(
        &mut self,
        setting: &Setting,
        list: &mut [(u32, i64)],
        value: i128,
        least: i128,
    ) -> i128 {
        list.sort_unstable_by_key(|pair| pair.1.unsigned_abs());
        let mut left = value;
        for pair in list.iter_mut() {
            let (line, multiplier) = *pair;
            let change = self.change_without(setting, line, multiplier);
            if left.wrapping_add(change) > least {
                self.take(line, multiplier.wrapping_neg());
                left = left.wrapping_add(change);
                *pair = (line, 0);
            }
        }
        left
    }

    /// What the multipliers show. Where that closes a leaf, it has none that this doesn't need.
    pub fn shown(&mut self, setting: &Setting, limit: Limit) -> Result<ShownBound, AllocError> {
        self.note_tight();
        self.weigh(setting, i128::from(setting.scale))?;
        let mut list = self.list_multipliers(setting)?;
        let mut value = self.sum_up(setting, &list);
        let below = i128::from(limit.cost.saturating_sub(1));
        let least = below.saturating_mul(i128::from(setting.scale));
        if value > least {
            value = self.thin_out(setting, &mut list, value, least);
        }
        self.leaf(setting, &list, cost_shown(value, setting.scale))
    }

    /// What the last ray shows: that nothing is left; None where it doesn't in whole numbers.
    pub fn shown_by_ray(&mut self, setting: &Setting) -> Result<Option<ShownBound>, AllocError> {
        self.weigh(setting, 0)?;
        let list = self.list_ray(setting)?;
        if self.sum_up(setting, &list) <= 0 {
            return Ok(None);
        }
        Ok(Some(self.leaf(setting, &list, u64::MAX)?))
    }
}
