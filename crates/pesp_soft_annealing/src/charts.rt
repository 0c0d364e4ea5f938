//! What each slack of each row costs, where a period has at most 64 shifts.

use crate::scale::Scale;
use crate::tent::Tent;
use pesp_clusters::Activity;
use std::alloc::{AllocError, Global};

/// How long a chart is: it has the costs of 64 slacks from any one on.
const LENGTH: usize = 128;

/// For each row the costs of its slacks in units, from 0 on, again and again. There are none where a period is longer than 64.
#[derive(Drop)]
pub(crate) struct Charts {
    period: u32,
    charts: Vec<[u16; LENGTH]>,
}

/// Writes costs in units into the first places of a chart.
fn draw(chart: &mut [u16], costs: &[u64; 64], scale: &Scale) {
    for (slot, cost) in chart.iter_mut().zip(costs.iter()) {
        *slot = scale.units(*cost);
    }
}

/// Writes as many costs as there are places.
fn copy(places: &mut [u16], costs: &[u16]) {
    for (slot, cost) in places.iter_mut().zip(costs.iter()) {
        *slot = *cost;
    }
}

/// Writes the first costs again into the other places.
fn repeat(chart: &mut [u16; LENGTH], period: usize) {
    let (costs, rest) = chart.split_at_mut(period.min(LENGTH));
    for places in rest.chunks_mut(period.max(1)) {
        copy(places, costs);
    }
}

impl Charts {
    /// Charts of so many rows, in which nothing costs anything.
    pub(crate) fn new(alloc: Global, period: u32, rows: usize) -> Result<Charts, AllocError> {
        let count = if period <= 64 { rows } else { 0 };
        Ok(Charts {
            period,
            charts: vec![in alloc; [0; LENGTH]; count]?,
        })
    }

    /// Draws the chart of a row.
    pub(crate) fn set(&mut self, place: u32, row: &Activity, tent: &Tent, scale: &Scale) {
        if let Some(chart) = self.charts.get_mut(place as usize) {
            let mut costs = [0u64; 64];
            tent.write(self.period, row, &mut costs);
            draw(chart, &costs, scale);
            repeat(chart, self.period as usize);
        }
    }

    /// What 64 slacks of a row cost, from one of them on.
    pub(crate) fn from(&self, row: u32, slack: u32) -> Option<&[u16; 64]> {
        let first = slack as usize;
        let costs = self
            .charts
            .get(row as usize)?
            .get(first..first.wrapping_add(64))?;
        let (whole, _) = costs.as_chunks::<64>();
        whole.first()
    }
}
