//! All regions of a network, and the bound that they show together.

use crate::nested::{Level, Nested, Nesting, Parted};
use crate::patching::Patch;
use crate::region_search::RegionSearch;
use crate::selection::{Worth, selected, worths_of};
use crate::sharing::{share_of, size_of, with_inner};
use pesp_network::Network;
use pesp_offset_tree::Sharpened;
use pesp_partition::{
    Crossing, Division, Multiplied, ToldRegion, ToldRegions, Units, divisions_of, inequalities_of,
    shift_multipliers, units_for,
};
use pesp_problem::{Memory, Share};
use std::alloc::{AllocError, Global};

/// Nested regions, and which of them aren't inside another one. What is outside of these is added to their bounds. The
/// inequalities are those of the root.
#[derive(Drop)]
pub struct Regions {
    alloc: Global,
    nested: Vec<Nested>,
    outer: Vec<u32>,
    outside: i128,
    inequalities: Vec<Multiplied>,
    units: Units,
}

/// No step is made where the trees of all regions have so many lines, pairs and passes of walks in all, so that a certificate of
/// them is read whole.
const MOST_SIZE: usize = 16_000_000;

/// Nested regions, what is to be added to the bounds of the outer ones, and the units.
#[derive(Drop)]
struct NestedRegions {
    nesting: Nesting,
    outside: i128,
    units: Units,
}

/// What is to be added to the bounds of the regions of a division.
fn outside_of(alloc: Global, parted: Parted<'_>, last: &Option<Level<'_>>) -> Result<i128, Memory> {
    let Some(level) = last else {
        return Ok(0);
    };
    let extras = level.extras(alloc, parted, None)?;
    Ok(extras.first().copied().unwrap_or(0))
}

/// Puts in the regions of divisions, those of the finest first; what is to be added to the bounds of the outer ones. None where
/// one is no network.
fn nest(
    alloc: Global,
    parted: Parted<'_>,
    divisions: &[Division],
    nesting: &mut Nesting,
) -> Result<Option<i128>, Memory> {
    let mut last: Option<Level<'_>> = None;
    for division in divisions {
        let level = Level::of(alloc, parted, division)?;
        if !nesting.add(alloc, parted, &last, &level)? {
            return Ok(None);
        }
        last = Some(level);
    }
    Ok(Some(outside_of(alloc, parted, &last)?))
}

/// Nested regions of divisions, in these units; None where one is no network.
fn nested_of(
    alloc: Global,
    parted: Parted<'_>,
    divisions: &[Division],
) -> Result<Option<NestedRegions>, Memory> {
    let mut nesting = Nesting::new(alloc);
    match nest(alloc, parted, divisions, &mut nesting) {
        Ok(Some(outside)) => Ok(Some(NestedRegions {
            nesting,
            outside,
            units: parted.units,
        })),
        Ok(None) => {
            drop(nesting);
            Ok(None)
        }
        Err(refused) => {
            drop(nesting);
            Err(refused)
        }
    }
}

/// The regions of divisions; None where one is no network.
fn divided(
    alloc: Global,
    network: &Network,
    divisions: &[Division],
    inequalities: &[Multiplied],
    scale: u32,
) -> Result<Option<NestedRegions>, Memory> {
    let units = units_for(alloc, network.rows(), divisions, inequalities, scale)?;
    let parted = Parted {
        network,
        inequalities,
        units,
    };
    nested_of(alloc, parted, divisions)
}

/// The regions of divisions by multipliers that are sought anew; None where there are no two regions.
fn shifted(
    alloc: Global,
    network: &Network,
    divisions: &[Division],
    inequalities: &mut [Multiplied],
    slacks: &[i64],
    scale: u32,
) -> Result<Option<NestedRegions>, Memory> {
    if divisions.first().map_or(0, |division| division.count()) < 2 {
        return Ok(None);
    }
    shift_multipliers(alloc, network, divisions, inequalities, slacks, scale)?;
    divided(alloc, network, divisions, inequalities, scale)
}

/// The regions of a network by the inequalities of its root; None where there are no two of them.
fn found_of(
    alloc: Global,
    network: &Network,
    inequalities: &mut [Multiplied],
    slacks: &[i64],
    scale: u32,
    least: u32,
    most: u32,
) -> Result<Option<NestedRegions>, Memory> {
    let divisions = divisions_of(alloc, network, inequalities, least, most)?;
    let found = shifted(alloc, network, &divisions, inequalities, slacks, scale);
    drop(divisions);
    found
}

/// The work of a region for its part, which is its size.
fn part_of(region: &Nested) -> u128 {
    let work = u128::from(region.search.work()).saturating_mul(1 << 40);
    work.checked_div(size_of(region)).unwrap_or(work)
}

impl Regions {
    /// The regions of a network by the multipliers of its root, which are told by the scale, and by its slacks, in 1/65536: the
    /// smallest have at most `least` events, the greatest at most `most`. None where there are no two of them.
    pub fn new(
        alloc: Global,
        network: &Network,
        root: &Sharpened,
        slacks: &[i64],
        scale: u32,
        least: u32,
        most: u32,
    ) -> Result<Option<Regions>, Memory> {
        let mut inequalities = inequalities_of(alloc, network, root)?;
        match found_of(
            alloc,
            network,
            &mut inequalities,
            slacks,
            scale,
            least,
            most,
        ) {
            Ok(Some(found)) => Ok(Some(Regions::with(alloc, found, inequalities))),
            Ok(None) => {
                drop(inequalities);
                Ok(None)
            }
            Err(refused) => {
                drop(inequalities);
                Err(refused)
            }
        }
    }

    /// The regions that were found by inequalities.
    fn with(alloc: Global, found: NestedRegions, inequalities: Vec<Multiplied>) -> Regions {
        let NestedRegions {
            nesting,
            outside,
            units,
        } = found;
        let Nesting { all, outer } = nesting;
        Regions {
            alloc,
            nested: all,
            outer,
            outside,
            inequalities,
            units,
        }
    }

    /// Leaves all regions but these, and those inside them, to others.
    fn leave_others(&mut self, own: &[u32]) -> Result<(), AllocError> {
        let are_own = with_inner(self.alloc, &self.nested, own)?;
        for (place, region) in self.nested.iter_mut().enumerate() {
            if let Some(false) = are_own.get(place) {
                region.search.leave();
            }
        }
        Ok(())
    }

    /// What is to be added to the bounds of these regions, where the others show what the inequalities of the root do.
    fn outside_of_these(&self, network: &Network, own: &[u32]) -> Result<i128, Memory> {
        let division = Division {
            regions: self.homes(own)?,
            sizes: Vec::new(self.alloc),
        };
        let parted = Parted {
            network,
            inequalities: &self.inequalities,
            units: self.units,
        };
        let level = Level::of(self.alloc, parted, &division)?;
        outside_of(self.alloc, parted, &Some(level))
    }

    /// Keeps the regions of a share, of those that are dealt to all shares, and leaves the others to other searches. What these have
    /// shows what the inequalities of the root do. The network is that of the regions.
    pub fn keep_share(&mut self, network: &Network, share: Share) -> Result<(), Memory> {
        let own = share_of(self.alloc, &self.nested, &self.outer, share)?;
        self.outside = self.outside_of_these(network, &own)?;
        self.leave_others(&own)?;
        self.outer = own;
        Ok(())
    }

    /// Notes what a timetable of the whole network costs in each region.
    pub fn offer(&mut self, times: &[u32]) -> Result<(), Memory> {
        for region in self.nested.iter_mut() {
            region.search.offer(self.alloc, times)?;
        }
        Ok(())
    }

    /// Whether nothing is left to be done in all regions inside one.
    fn is_ready(&self, region: &Nested) -> bool {
        for number in &region.inner {
            let inner = self.nested.get(*number as usize);
            if !inner.is_some_and(|inner| inner.search.is_over()) {
                return false;
            }
        }
        true
    }

    /// The region that is next: the one of the least work for its part.
    fn next(&self) -> Option<usize> {
        let mut next = None;
        let mut least = 0u128;
        for (place, region) in self.nested.iter().enumerate() {
            let part = part_of(region);
            let is_open = !region.search.is_over() && self.is_ready(region);
            if is_open && (next.is_none() || part < least) {
                next = Some(place);
                least = part;
            }
        }
        next
    }

    /// How many lines, pairs and passes of walks the trees of all regions have.
    fn size(&self) -> usize {
        let mut sum = 0usize;
        for region in &self.nested {
            sum = sum.saturating_add(region.search.size());
        }
        sum
    }

    /// Makes a step in the region that is next; whether there was one, and trees weren't as large as they may be.
    pub fn step(&mut self) -> Result<bool, Memory> {
        if self.size() >= MOST_SIZE {
            return Ok(false);
        }
        let Some(next) = self.next() else {
            return Ok(false);
        };
        if let Some(region) = self.nested.get_mut(next) {
            region.search.advance(self.alloc)?;
        }
        Ok(true)
    }

    /// Whether a region's tree met with times that are the cheapest of the region so far, and nobody has taken them.
    pub fn has_found(&self) -> bool {
        self.nested.iter().any(|region| region.search.has_found())
    }

    /// The times of a timetable of the whole network, in which the cheapest times that a region's tree met with stand in the place of its
    /// own, later by as much as is cheapest. They are taken by that. None where no tree has any, or no such times keep the rows that
    /// lead into the region.
    pub fn patched(
        &mut self,
        network: &Network,
        times: &[u32],
    ) -> Result<Option<Vec<u32>>, Memory> {
        for region in self.nested.iter_mut() {
            if let Some(own) = region.search.take_found() {
                let patch = Patch {
                    network,
                    times,
                    events: &region.search.region.events,
                    own: &own,
                };
                return Ok(patch.cheapest(self.alloc)?);
            }
        }
        Ok(None)
    }

    /// How much work was done.
    pub fn work(&self) -> u64 {
        let mut sum = 0u64;
        for region in &self.nested {
            sum = sum.saturating_add(region.search.work());
        }
        sum
    }

    /// What no timetable costs less than, in units, by what each region is worth.
    fn sum_of(&self, worths: &[Worth]) -> i128 {
        let mut sum = self.outside;
        for number in &self.outer {
            let worth = worths.get(*number as usize).map_or(0, |it| it.best());
            sum = sum.saturating_add(worth);
        }
        sum
    }

    /// What no timetable costs less than.
    pub fn bound(&self) -> Result<u64, Memory> {
        let worths = worths_of(self.alloc, &self.nested)?;
        let unit = i128::from(self.units.unit).max(1);
        let raised = self.sum_of(&worths).saturating_add(unit.saturating_sub(1));
        let bound = raised.max(0).checked_div(unit).unwrap_or(0);
        Ok(u64::try_from(bound).unwrap_or(u64::MAX))
    }

    /// The numbers of the regions that show the bound.
    fn selected(&self) -> Result<Vec<u32>, Memory> {
        let worths = worths_of(self.alloc, &self.nested)?;
        Ok(selected(self.alloc, &self.nested, &worths, &self.outer)?)
    }

    /// Notes the region of its rows.
    fn note_rows(&self, number: u32, homes: &mut [Option<u32>]) {
        let Some(region) = self.nested.get(number as usize) else {
            return;
        };
        for row in &region.search.region.rows {
            if let Some(slot) = homes.get_mut(*row as usize) {
                *slot = Some(number);
            }
        }
    }

    /// For each row which one of some regions it is in.
    fn homes(&self, chosen: &[u32]) -> Result<Vec<Option<u32>>, AllocError> {
        let mut homes = vec![in self.alloc; None; self.row_count()]?;
        for number in chosen {
            self.note_rows(*number, &mut homes);
        }
        Ok(homes)
    }

    /// The multipliers of the inequalities that cross some regions, in units of the scale.
    fn crossing(&self, chosen: &[u32]) -> Result<Vec<Crossing>, AllocError> {
        let division = Division {
            regions: self.homes(chosen)?,
            sizes: Vec::new(self.alloc),
        };
        let mut crossing = Vec::new(self.alloc);
        for inequality in &self.inequalities {
            let multiplier = self.units.converted(inequality.multiplier);
            if multiplier > 0 && division.home(inequality).is_none() {
                crossing.push(Crossing {
                    walk: inequality.walk,
                    multiplier: multiplier.saturating_mul(i64::from(self.units.factor)),
                })?;
            }
        }
        Ok(crossing)
    }

    /// One more than the last row of a region.
    fn row_count(&self) -> usize {
        let mut count = 0u32;
        for region in &self.nested {
            let last = region.search.region.rows.last().copied().unwrap_or(0);
            count = count.max(last.saturating_add(1));
        }
        count as usize
    }

    /// What is told of a region.
    fn told_region(&self, search: &RegionSearch) -> Result<ToldRegion, Memory> {
        let rows = Vec::from_slice(self.alloc, &search.region.rows)?;
        let turned = Vec::from_slice(self.alloc, &search.region.turned)?;
        let mut weights = Vec::with_capacity(self.alloc, rows.len())?;
        for row in search.region.network.rows() {
            weights.push(row.weight)?;
        }
        Ok(ToldRegion {
            rows,
            turned,
            weights,
            least: search.shown(),
            constant: search.region.constant,
            scale: search.scale(),
            tree: search.sharpened()?,
        })
    }

    /// Puts what is told of regions into a list.
    fn tell(&self, chosen: &[u32], told: &mut Vec<ToldRegion>) -> Result<(), Memory> {
        for number in chosen {
            if let Some(region) = self.nested.get(*number as usize) {
                told.push(self.told_region(&region.search)?)?;
            }
        }
        Ok(())
    }

    /// What is told of some regions.
    fn told_regions(&self, chosen: &[u32]) -> Result<Vec<ToldRegion>, Memory> {
        let mut told = Vec::with_capacity(self.alloc, chosen.len())?;
        match self.tell(chosen, &mut told) {
            Ok(()) => Ok(told),
            Err(refused) => {
                drop(told);
                Err(refused)
            }
        }
    }

    /// What is told of the regions that show the bound.
    pub fn told(&self) -> Result<ToldRegions, Memory> {
        let chosen = self.selected()?;
        let bound = self.bound()?;
        let crossing = self.crossing(&chosen)?;
        Ok(ToldRegions {
            bound,
            scale: self.units.unit.saturating_mul(self.units.factor),
            factor: self.units.factor,
            crossing,
            regions: self.told_regions(&chosen)?,
        })
    }
}
