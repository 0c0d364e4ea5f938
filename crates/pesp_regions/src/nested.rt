//! Regions of all divisions, each with the regions of the finer one that are inside it.

use crate::region_search::RegionSearch;
use pesp_network::Network;
use pesp_partition::{Division, Multiplied, Region, Units, Weights, WholeNetwork};
use pesp_problem::Memory;
use std::alloc::{AllocError, Global};

/// A region with its search, and the regions inside it. The extra is added to the sum of their bounds: what inequalities inside
/// it show that cross them, and what rows outside of them take.
#[derive(Drop)]
pub(crate) struct Nested {
    pub(crate) search: RegionSearch,
    pub(crate) inner: Vec<u32>,
    pub(crate) extra: i128,
}

/// What nested regions are made from: the network, the inequalities, and the units.
#[derive(Clone, Copy)]
pub(crate) struct Parted<'a> {
    pub(crate) network: &'a Network,
    pub(crate) inequalities: &'a [Multiplied],
    pub(crate) units: Units,
}

/// A division with the weights that it leaves to its regions.
#[derive(Drop)]
pub(crate) struct Level<'a> {
    pub(crate) division: &'a Division,
    pub(crate) weights: Weights,
}

/// Nested regions: all of them, and the number among them of each region of the coarsest division so far.
#[derive(Drop)]
pub(crate) struct Nesting {
    pub(crate) all: Vec<Nested>,
    pub(crate) outer: Vec<u32>,
}

/// Adds to a sum at a place.
fn add_at(sums: &mut [i128], place: u32, part: i128) {
    if let Some(sum) = sums.get_mut(place as usize) {
        *sum = sum.saturating_add(part);
    }
}

/// So many lists without a number.
fn empty_lists(alloc: Global, count: usize) -> Result<Vec<Vec<u32>>, AllocError> {
    let mut lists = Vec::with_capacity(alloc, count)?;
    for _ in 0..count {
        lists.push(Vec::new(alloc))?;
    }
    Ok(lists)
}

/// The region of a coarser division that has all rows of an inequality; 0 where there is no coarser division.
fn home_in(coarser: Option<&Division>, inequality: &Multiplied) -> Option<u32> {
    match coarser {
        Some(division) => division.home(inequality),
        None => Some(0),
    }
}

/// The region of a coarser division that has a row; 0 where there is no coarser division.
fn row_in(coarser: Option<&Division>, row: u32) -> Option<u32> {
    match coarser {
        Some(division) => division.of_row(row),
        None => Some(0),
    }
}

impl<'a> Level<'a> {
    /// A division with the weights that it leaves.
    pub(crate) fn of(
        alloc: Global,
        parted: Parted<'_>,
        division: &'a Division,
    ) -> Result<Level<'a>, AllocError> {
        let rows = parted.network.rows();
        let weights = Weights::of(alloc, rows, division, parted.inequalities, parted.units)?;
        Ok(Level { division, weights })
    }

    /// Adds what inequalities show that cross its regions, by the regions of a coarser division.
    fn add_crossing(&self, parted: Parted<'_>, coarser: Option<&Division>, sums: &mut [i128]) {
        for inequality in parted.inequalities {
            if self.division.home(inequality).is_none()
                && let Some(place) = home_in(coarser, inequality)
            {
                let multiplier = i128::from(parted.units.converted(inequality.multiplier));
                let least = i128::from(inequality.inequality.least);
                add_at(sums, place, least.saturating_mul(multiplier));
            }
        }
    }

    /// Adds what rows outside of its regions take, by the regions of a coarser division.
    fn add_rows(&self, parted: Parted<'_>, coarser: Option<&Division>, sums: &mut [i128]) {
        for (place, row) in parted.network.rows().iter().enumerate() {
            let number = u32::try_from(place).unwrap_or(u32::MAX);
            if self.division.of_row(number).is_none()
                && let Some(weight) = self.weights.rows.get(place)
                && *weight < 0
                && let Some(region) = row_in(coarser, number)
            {
                add_at(sums, region, weight.saturating_mul(i128::from(row.span)));
            }
        }
    }

    /// What is to be added to the bounds of its regions, for each region of a coarser division. Without one that is for the whole.
    pub(crate) fn extras(
        &self,
        alloc: Global,
        parted: Parted<'_>,
        coarser: Option<&Division>,
    ) -> Result<Vec<i128>, AllocError> {
        let count = coarser.map_or(1, |division| division.sizes.len());
        let mut sums = vec![in alloc; 0i128; count]?;
        self.add_crossing(parted, coarser, &mut sums);
        self.add_rows(parted, coarser, &mut sums);
        Ok(sums)
    }

    /// For each region of a coarser division the regions inside it.
    fn inner(&self, alloc: Global, coarser: &Division) -> Result<Vec<Vec<u32>>, AllocError> {
        let mut inner = empty_lists(alloc, coarser.sizes.len())?;
        match self.list_inner(coarser, &mut inner) {
            Ok(()) => Ok(inner),
            Err(refused) => {
                drop(inner);
                Err(refused)
            }
        }
    }

    /// Puts each region into the list of the region of a coarser division that it is inside of.
    fn list_inner(&self, coarser: &Division, inner: &mut [Vec<u32>]) -> Result<(), AllocError> {
        for (row, own) in self.division.regions.iter().enumerate() {
            if let Some(own) = own
                && let Some(Some(other)) = coarser.regions.get(row)
                && let Some(list) = inner.get_mut(*other as usize)
                && !list.contains(own)
            {
                list.push(*own)?;
            }
        }
        Ok(())
    }
}

/// The size of a region.
fn size_of(division: &Division, region: u32) -> u32 {
    division.sizes.get(region as usize).copied().unwrap_or(0)
}

/// The search of a region; None where it is no network.
fn search_of(
    alloc: Global,
    parted: Parted<'_>,
    level: &Level<'_>,
    region: u32,
) -> Result<Option<RegionSearch>, Memory> {
    let whole = WholeNetwork {
        network: parted.network,
        division: level.division,
        inequalities: parted.inequalities,
        weights: &level.weights,
    };
    match Region::of(alloc, whole, region)? {
        Some(region) => Ok(Some(RegionSearch::new(alloc, region, parted.units.unit)?)),
        None => Ok(None),
    }
}

impl Nesting {
    /// No region yet.
    pub(crate) fn new(alloc: Global) -> Nesting {
        Nesting {
            all: Vec::new(alloc),
            outer: Vec::new(alloc),
        }
    }

    /// Puts in a region with those inside it; its number. None where it is no network.
    fn put(
        &mut self,
        alloc: Global,
        parted: Parted<'_>,
        level: &Level<'_>,
        region: u32,
        inner: Vec<u32>,
        extra: i128,
    ) -> Result<Option<u32>, Memory> {
        let Some(search) = search_of(alloc, parted, level, region)? else {
            return Ok(None);
        };
        let number = u32::try_from(self.all.len()).unwrap_or(u32::MAX);
        self.all.push(Nested {
            search,
            inner,
            extra,
        })?;
        Ok(Some(number))
    }

    /// The numbers of regions of the coarsest division.
    fn numbers(&self, alloc: Global, regions: &[u32]) -> Result<Vec<u32>, AllocError> {
        let mut numbers = Vec::with_capacity(alloc, regions.len())?;
        for region in regions {
            numbers.push(self.outer.get(*region as usize).copied().unwrap_or(0))?;
        }
        Ok(numbers)
    }

    /// Puts in the regions of the finest division; whether all are networks.
    fn begin(
        &mut self,
        alloc: Global,
        parted: Parted<'_>,
        level: &Level<'_>,
    ) -> Result<bool, Memory> {
        for region in 0..level.division.count() {
            let inner = Vec::new(alloc);
            let Some(number) = self.put(alloc, parted, level, region, inner, 0)? else {
                return Ok(false);
            };
            self.outer.push(number)?;
        }
        Ok(true)
    }

    /// The region of a coarser division that has these of the finer one inside it: a new one, or the only one that is inside it
    /// and as large. None where it is no network.
    fn outer_of(
        &mut self,
        alloc: Global,
        parted: Parted<'_>,
        finer: &Level<'_>,
        level: &Level<'_>,
        region: u32,
        regions: &[u32],
        extra: i128,
    ) -> Result<Option<u32>, Memory> {
        let numbers = self.numbers(alloc, regions)?;
        let first = regions.first().copied().unwrap_or(0);
        let size = size_of(level.division, region);
        if regions.len() == 1 && size_of(finer.division, first) == size {
            return Ok(numbers.first().copied());
        }
        self.put(alloc, parted, level, region, numbers, extra)
    }

    /// Puts in the regions of the next coarser division; whether all are networks. One that is as large as the only one inside it
    /// is that one.
    fn coarsen(
        &mut self,
        alloc: Global,
        parted: Parted<'_>,
        finer: &Level<'_>,
        level: &Level<'_>,
    ) -> Result<bool, Memory> {
        let extras = finer.extras(alloc, parted, Some(level.division))?;
        let inner = finer.inner(alloc, level.division)?;
        let mut outer = Vec::new(alloc);
        let is_network = self.take_outer(alloc, parted, finer, level, &inner, &extras, &mut outer);
        drop(inner);
        self.outer = outer;
        is_network
    }

    /// Puts in the regions of the next coarser division, each with those inside it; their numbers are put into a list.
    fn take_outer(
        &mut self,
        alloc: Global,
        parted: Parted<'_>,
        finer: &Level<'_>,
        level: &Level<'_>,
        inner: &[Vec<u32>],
        extras: &[i128],
        outer: &mut Vec<u32>,
    ) -> Result<bool, Memory> {
        for (place, regions) in inner.iter().enumerate() {
            let region = u32::try_from(place).unwrap_or(u32::MAX);
            let extra = extras.get(place).copied().unwrap_or(0);
            let number = self.outer_of(alloc, parted, finer, level, region, regions, extra)?;
            let Some(number) = number else {
                return Ok(false);
            };
            outer.push(number)?;
        }
        Ok(true)
    }

    /// Puts in the regions of a division behind those of a finer one, or of the finest one; whether all are networks.
    pub(crate) fn add(
        &mut self,
        alloc: Global,
        parted: Parted<'_>,
        finer: &Option<Level<'_>>,
        level: &Level<'_>,
    ) -> Result<bool, Memory> {
        match finer {
            Some(finer) => self.coarsen(alloc, parted, finer, level),
            None => self.begin(alloc, parted, level),
        }
    }
}
