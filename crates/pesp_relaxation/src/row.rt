//! Rows whose cost bends twice.

use pesp_network::NetRow;

/// What a unit of flow on a row costs: below 0, from 0 to the row's weight, and above it.
#[derive(Clone, Copy, PartialEq, Eq)]
pub struct Slopes {
    pub below: i64,
    pub between: i64,
    pub above: i64,
}

/// What a unit of flow on a row costs where its slack is within a range, and the offset of its cycle too: the least
/// duration up to the row's weight and the greatest above it, less the period times the least offset, or times the greatest
/// for flow below 0. A row of the forest has offsets 0 and 0.
pub fn slopes_of(
    period: u32,
    row: &NetRow,
    slacks: (u32, u32),
    offsets: (i64, i64),
) -> Option<Slopes> {
    let period = i64::from(period);
    let least = row.lower.checked_add(i64::from(slacks.0))?;
    let greatest = row.lower.checked_add(i64::from(slacks.1))?;
    let low = offsets.0.checked_mul(period)?;
    let high = offsets.1.checked_mul(period)?;
    Some(Slopes {
        below: least.checked_sub(high)?,
        between: least.checked_sub(low)?,
        above: greatest.checked_sub(low)?,
    })
}

/// The room of a part without an end.
pub(crate) const FREE: i64 = i64::MAX;

/// A part of a row's cost between its bends.
#[derive(Clone, Copy)]
pub(crate) enum CostPiece {
    Below,
    Between,
    Above,
}

/// The bend of a row's cost at which its flow is; neither where it lies between bends.
#[derive(Clone, Copy)]
pub(crate) enum Bend {
    Zero,
    Weight,
    Neither,
}

/// A row with its flow from tail to head. A row of the basis has the part that its flow lies in, another one the bend at
/// which its flow is, or, where that is neither, the part too.
#[derive(Clone, Copy)]
pub(crate) struct FlowRow {
    pub(crate) slopes: Slopes,
    pub(crate) weight: i64,
    pub(crate) flow: i64,
    pub(crate) tail: u32,
    pub(crate) head: u32,
    pub(crate) part: CostPiece,
    pub(crate) bend: Bend,
    pub(crate) is_basic: bool,
}

/// More flow along a row that isn't in the basis, or less, and what a unit costs.
#[derive(Clone, Copy)]
pub(crate) struct PivotStep {
    pub(crate) row: u32,
    pub(crate) forward: bool,
    pub(crate) cost: i64,
}

impl Slopes {
    /// The slope of a part.
    pub(crate) fn of(&self, part: CostPiece) -> i64 {
        match part {
            CostPiece::Below => self.below,
            CostPiece::Between => self.between,
            CostPiece::Above => self.above,
        }
    }
}

impl FlowRow {
    /// The part into which more flow leads from the row's bend.
    pub(crate) fn part_ahead(&self) -> CostPiece {
        match self.bend {
            Bend::Neither => self.part,
            Bend::Zero if self.weight > 0 => CostPiece::Between,
            _ => CostPiece::Above,
        }
    }

    /// The part into which less flow leads from the row's bend.
    pub(crate) fn part_behind(&self) -> CostPiece {
        match self.bend {
            Bend::Neither => self.part,
            Bend::Weight if self.weight > 0 => CostPiece::Between,
            _ => CostPiece::Below,
        }
    }

    /// The part into which a step leads.
    pub(crate) fn part_of(&self, forward: bool) -> CostPiece {
        if forward {
            self.part_ahead()
        } else {
            self.part_behind()
        }
    }

    /// How much more flow, or less, the row's part takes.
    pub(crate) fn room(&self, more: bool) -> i64 {
        match (self.part, more) {
            (CostPiece::Below, true) => 0i64.saturating_sub(self.flow),
            (CostPiece::Between, true) => self.weight.saturating_sub(self.flow),
            (CostPiece::Between, false) => self.flow,
            (CostPiece::Above, false) => self.flow.saturating_sub(self.weight),
            _ => FREE,
        }
    }

    /// The bend to which the flow comes in its part as it grows, or as it falls.
    pub(crate) fn bend_at(&self, more: bool) -> Bend {
        match (self.part, more) {
            (CostPiece::Below, true) => Bend::Zero,
            (CostPiece::Between, false) => Bend::Zero,
            _ => Bend::Weight,
        }
    }

    /// The cheaper of more flow and less, and what a unit costs by the prices: less than 0 where it pays.
    pub(crate) fn cheaper(&self, tail_price: i64, head_price: i64) -> (i64, bool) {
        let difference = tail_price.saturating_sub(head_price);
        let ahead = self.slopes.of(self.part_ahead()).saturating_add(difference);
        let behind = self
            .slopes
            .of(self.part_behind())
            .saturating_add(difference);
        let back = 0i64.saturating_sub(behind);
        if ahead <= back {
            (ahead, true)
        } else {
            (back, false)
        }
    }

    /// The bend at which the flow is.
    pub(crate) fn bend_of_flow(&self) -> Bend {
        if self.flow == 0 {
            Bend::Zero
        } else if self.flow == self.weight {
            Bend::Weight
        } else {
            Bend::Neither
        }
    }

    /// The part of a row of the basis whose flow may also be at a bend; then the part in which the flow can grow upwards.
    pub(crate) fn part_upwards(&self, leads_up: bool) -> CostPiece {
        if self.flow < 0 {
            return CostPiece::Below;
        }
        if self.flow > self.weight {
            return CostPiece::Above;
        }
        match (leads_up, self.flow == 0, self.flow == self.weight) {
            (true, _, true) => CostPiece::Above,
            (false, true, _) => CostPiece::Below,
            _ => CostPiece::Between,
        }
    }

    /// What the flow costs.
    pub(crate) fn cost(&self) -> i128 {
        let flow = i128::from(self.flow);
        let weight = i128::from(self.weight);
        let (low, middle, high) = if flow < 0 {
            (flow, 0, 0)
        } else if flow <= weight {
            (0, flow, 0)
        } else {
            (0, weight, flow.saturating_sub(weight))
        };
        let below = low.saturating_mul(i128::from(self.slopes.below));
        let between = middle.saturating_mul(i128::from(self.slopes.between));
        let above = high.saturating_mul(i128::from(self.slopes.above));
        below.saturating_add(between).saturating_add(above)
    }
}
