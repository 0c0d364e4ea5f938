//! What a cluster tells the one above it, and how it answers that one's shift.

use crate::choices::draw;
use crate::heat::Heat;
use crate::node::ClusterTable;
use crate::places::Places;
use pesp_forest::Random;

/// Up to how many shifts are looked at one by one.
const FEW: u32 = 16;

/// Entries for the shifts of the cluster above.
pub(crate) type Message = [u64; 64];

/// Adds the products of a weight with those of pairs of some shifts.
fn add_few(sums: &mut Message, node: &ClusterTable, place: u32, near: u64, weight: u64) {
    for above in Places(near) {
        if let Some(sum) = sums.get_mut(above as usize) {
            *sum = sum.wrapping_add(weight.wrapping_mul(node.pair(above, place)));
        }
    }
}

/// Adds the products of a weight with those of pairs of all shifts.
fn add_all(sums: &mut Message, node: &ClusterTable, place: u32, weight: u64) {
    let start = 64usize.saturating_sub(place as usize);
    let narrow = weight & 0xffff_ffff;
    for (sum, pair) in sums.iter_mut().zip(node.pairs[start..].iter()) {
        *sum = sum.wrapping_add(narrow.wrapping_mul(*pair & 0xffff_ffff));
    }
}

/// For each shift of the cluster above the sum, over the shifts of this one, of the products of their weights.
fn sums_of(node: &ClusterTable, wanted: u64, sums: &mut Message) {
    *sums = [0; 64];
    for place in Places(node.allowed) {
        let near = node.around(place) & wanted;
        if near.count_ones() <= FEW {
            add_few(sums, node, place, near, node.shift(place));
        } else {
            add_all(sums, node, place, node.shift(place));
        }
    }
}

/// For each shift of the cluster above the least, over the shifts of this one, of the sums of their costs.
fn least_of(node: &ClusterTable, wanted: u64, least: &mut Message) {
    *least = [u64::MAX; 64];
    for place in Places(node.allowed) {
        let cost = node.shift(place);
        for above in Places(node.around(place) & wanted) {
            if let Some(entry) = least.get_mut(above as usize) {
                *entry = (*entry).min(cost.saturating_add(node.pair(above, place)));
            }
        }
    }
}

/// By how many bits the greatest of some numbers is to be shortened to have 28.
fn excess(numbers: &Message, set: u64) -> u32 {
    let mut all = 0u64;
    for place in Places(set) {
        all |= numbers.get(place as usize).copied().unwrap_or(0);
    }
    36u32.saturating_sub(all.leading_zeros())
}

impl ClusterTable {
    /// Multiplies the weights by a message.
    fn multiply(&mut self, sums: &mut Message) {
        let shorter = excess(sums, self.allowed);
        for place in Places(self.allowed) {
            if let Some(sum) = sums.get_mut(place as usize) {
                *sum = sum.wrapping_shr(shorter).wrapping_mul(self.shift(place));
            }
        }
        self.take(sums);
    }

    /// Takes over products as weights.
    fn take(&mut self, products: &Message) {
        let shorter = excess(products, self.allowed);
        let mut allowed = 0u64;
        for place in Places(self.allowed) {
            let product = products.get(place as usize).copied().unwrap_or(0);
            let weight = product.wrapping_shr(shorter);
            if let Some(entry) = self.shifts.get_mut(place as usize)
                && weight != 0
            {
                *entry = weight;
                allowed |= 1u64.wrapping_shl(place);
            }
        }
        self.allowed = allowed;
    }

    /// Adds a message to the costs.
    fn add(&mut self, least: &Message) {
        let mut allowed = 0u64;
        for place in Places(self.allowed) {
            let more = least.get(place as usize).copied().unwrap_or(u64::MAX);
            if let Some(entry) = self.shifts.get_mut(place as usize)
                && more != u64::MAX
            {
                *entry = entry.saturating_add(more);
                allowed |= 1u64.wrapping_shl(place);
            }
        }
        self.allowed = allowed;
    }

    /// What this cluster tells the one above it, of which these shifts are allowed.
    pub(crate) fn tell(&self, heat: Option<Heat>, wanted: u64, message: &mut Message) {
        if heat.is_some() {
            sums_of(self, wanted, message);
        } else {
            least_of(self, wanted, message);
        }
    }

    /// Takes in what a cluster below tells.
    pub(crate) fn hear(&mut self, heat: Option<Heat>, message: &mut Message) {
        if heat.is_some() {
            self.multiply(message);
        } else {
            self.add(message);
        }
    }

    /// The shift of a root: drawn by weight, or the cheapest.
    pub(crate) fn begin(&self, heat: Option<Heat>, random: &mut Random) -> Option<u32> {
        match heat {
            Some(_) => draw(&self.shifts, self.allowed, random),
            None => cheapest(&self.shifts, self.allowed),
        }
    }

    /// The shift that goes with that of the cluster above: drawn by weight, or the cheapest.
    pub(crate) fn answer(
        &self,
        heat: Option<Heat>,
        above: u32,
        random: &mut Random,
    ) -> Option<u32> {
        let mut entries = [0u64; 64];
        let mut set = 0u64;
        for place in Places(self.allowed) {
            if self.around(place).wrapping_shr(above) & 1 == 1 {
                let pair = self.pair(above, place);
                let shift = self.shift(place);
                *entries.get_mut(place as usize)? = match heat {
                    Some(_) => shift.wrapping_mul(pair),
                    None => shift.saturating_add(pair),
                };
                set |= 1u64.wrapping_shl(place);
            }
        }
        match heat {
            Some(_) => draw(&entries, set, random),
            None => cheapest(&entries, set),
        }
    }
}

/// The place of a set with the least cost.
fn cheapest(costs: &Message, set: u64) -> Option<u32> {
    let mut best = None;
    let mut least = u64::MAX;
    for place in Places(set) {
        let cost = *costs.get(place as usize)?;
        if cost < least {
            best = Some(place);
            least = cost;
        }
    }
    best
}
