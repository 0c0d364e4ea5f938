//! The shifts of a cluster of a forest.

use crate::choices::Choices;
use crate::heat::Heat;

/// Tables of a cluster: for each of its shifts, and for each difference of the shift of the cluster above from its own, from
/// -64, a weight, or where there is no heat a cost. `allowed`, `behind` and `ahead` are the shifts and the differences, below
/// 0 and from there on, that are allowed.
#[derive(Clone, Copy)]
pub(crate) struct ClusterTable {
    pub(crate) allowed: u64,
    pub(crate) behind: u64,
    pub(crate) ahead: u64,
    pub(crate) shifts: [u64; 64],
    pub(crate) pairs: [u64; 128],
}

/// How often the weights of pairs are halved, so that sums of products fit.
const HALVINGS: u32 = 8;

/// Writes weights, or costs where there is no heat; which aren't 0, or which are allowed.
fn write(
    choices: &Choices,
    least: i64,
    heat: Option<Heat>,
    halvings: u32,
    table: &mut [u64],
) -> u64 {
    match heat {
        Some(heat) => choices.write_weights(least, &heat, halvings, table),
        None => choices.write_costs(least, table),
    }
}

/// Writes 0 everywhere.
fn clear(table: &mut [u64]) {
    for entry in table.iter_mut() {
        *entry = 0;
    }
}

impl ClusterTable {
    /// Tables of no shifts.
    pub(crate) fn empty() -> ClusterTable {
        ClusterTable {
            allowed: 0,
            behind: 0,
            ahead: 0,
            shifts: [0; 64],
            pairs: [0; 128],
        }
    }

    /// Takes over the choices of the cluster's shifts.
    pub(crate) fn set_shifts(&mut self, choices: &Choices, heat: Option<Heat>) {
        let least = choices.least();
        self.allowed = write(choices, least, heat, 0, &mut self.shifts);
    }

    /// Takes over the choices of the differences, where these are all shifts, of which there are so many.
    pub(crate) fn set_all_pairs(
        &mut self,
        choices: &Choices,
        count: u32,
        heat: Option<Heat>,
    ) -> Option<()> {
        let start = 64u32.checked_sub(count)?;
        let (low, high) = self.pairs.split_at_mut(64);
        clear(high);
        self.ahead = write(choices, choices.least(), heat, HALVINGS, high);
        self.behind = self.ahead.wrapping_shl(start);
        for (behind, ahead) in low.iter_mut().skip(start as usize).zip(high.iter()) {
            *behind = *ahead;
        }
        Some(())
    }

    /// Takes over the choices of 64 differences below 0 and of 64 from there on.
    pub(crate) fn set_pairs(
        &mut self,
        backwards: &Choices,
        forwards: &Choices,
        heat: Option<Heat>,
    ) {
        self.pairs = [0; 128];
        let least = backwards.least().min(forwards.least());
        let (low, high) = self.pairs.split_at_mut(64);
        self.behind = write(backwards, least, heat, HALVINGS, low);
        self.ahead = write(forwards, least, heat, HALVINGS, high);
    }

    /// The shifts of the cluster above that go with a shift of this one.
    pub(crate) fn around(&self, place: u32) -> u64 {
        let behind = self
            .behind
            .wrapping_shr(1)
            .wrapping_shr(63u32.wrapping_sub(place));
        behind | self.ahead.wrapping_shl(place)
    }

    /// The entry of this cluster's shift.
    pub(crate) fn shift(&self, place: u32) -> u64 {
        self.shifts.get(place as usize).copied().unwrap_or(0)
    }

    /// The entry of a shift of the cluster above and one of this cluster.
    pub(crate) fn pair(&self, above: u32, place: u32) -> u64 {
        let index = above.wrapping_add(64).wrapping_sub(place);
        self.pairs.get(index as usize).copied().unwrap_or(0)
    }
}
