//! The cuts below which leaves were looked at, with the bases of those that are still to be looked at.

use pesp_problem::{Cut, Side};
use std::alloc::{AllocError, Global};

/// A leaf: the cut that it was split by, by the places of its parts; and its basis as it is written down, empty where it
/// isn't known, with the leaf's value by it.
#[derive(Drop)]
struct SplitRecord {
    split: Option<Split>,
    codes: Vec<u8>,
    value: i128,
}

/// A best basis as it is written down, and the leaf's value by it.
#[derive(Clone, Copy)]
pub(crate) struct Written<'a> {
    pub(crate) codes: &'a [u8],
    pub(crate) value: i128,
}

/// A cut, and the places of its parts.
#[derive(Clone, Copy)]
struct Split {
    cut: Cut,
    low: u32,
    high: u32,
}

/// The leaves below the root, by their places, and how many bytes of bases may still be kept.
#[derive(Drop)]
pub(crate) struct Branchings {
    places: Vec<SplitRecord>,
    room: usize,
}

impl Split {
    /// The place of a part.
    fn part(self, side: Side) -> u32 {
        match side {
            Side::Low => self.low,
            Side::High => self.high,
        }
    }
}

impl Branchings {
    /// The root alone, with room for so many bytes.
    pub(crate) fn new(alloc: Global, room: usize) -> Result<Branchings, AllocError> {
        let mut branchings = Branchings {
            places: Vec::new(alloc),
            room,
        };
        branchings.add(alloc)?;
        Ok(branchings)
    }

    /// A leaf more; its place.
    fn add(&mut self, alloc: Global) -> Result<u32, AllocError> {
        let place = u32::try_from(self.places.len()).unwrap_or(u32::MAX);
        self.places.push(SplitRecord {
            split: None,
            codes: Vec::new(alloc),
            value: 0,
        })?;
        Ok(place)
    }

    /// The split of a leaf by this cut, where it was split by it.
    fn split_by(&self, place: u32, cut: Cut) -> Option<Split> {
        let split = self.places.get(place as usize)?.split?;
        if split.cut == cut { Some(split) } else { None }
    }

    /// Splits a leaf, in place of what it was split by.
    fn split(&mut self, alloc: Global, place: u32, cut: Cut) -> Result<Split, AllocError> {
        let low = self.add(alloc)?;
        let high = self.add(alloc)?;
        let split = Split { cut, low, high };
        if let Some(leaf) = self.places.get_mut(place as usize) {
            leaf.split = Some(split);
        }
        Ok(split)
    }

    /// The place of the leaf to which parts of cuts lead from the root.
    pub(crate) fn reach(&mut self, alloc: Global, path: &[(Cut, Side)]) -> Result<u32, AllocError> {
        let mut place = 0;
        for (cut, side) in path.iter().copied() {
            let split = match self.split_by(place, cut) {
                Some(split) => split,
                None => self.split(alloc, place, cut)?,
            };
            place = split.part(side);
        }
        Ok(place)
    }

    /// The value of a leaf whose basis is or was kept.
    pub(crate) fn value(&self, place: u32) -> i128 {
        self.places.get(place as usize).map_or(0, |leaf| leaf.value)
    }

    /// Takes out the basis of a leaf; nothing where none is kept.
    pub(crate) fn take(&mut self, alloc: Global, place: u32) -> Vec<u8> {
        let mut codes = Vec::new(alloc);
        if let Some(leaf) = self.places.get_mut(place as usize) {
            std::mem::swap(&mut codes, &mut leaf.codes);
        }
        self.room = self.room.saturating_add(codes.len());
        codes
    }

    /// Keeps the basis of a leaf where there is room.
    fn put(
        &mut self,
        alloc: Global,
        place: u32,
        written: Option<Written<'_>>,
    ) -> Result<(), AllocError> {
        let Some(Written { codes, value }) = written else {
            return Ok(());
        };
        if self.room < codes.len() {
            return Ok(());
        }
        let kept = Vec::from_slice(alloc, codes)?;
        if let Some(leaf) = self.places.get_mut(place as usize) {
            leaf.codes = kept;
            leaf.value = value;
            self.room = self.room.saturating_sub(codes.len());
        }
        Ok(())
    }

    /// Splits a leaf, with the bases of both parts where they are known.
    pub(crate) fn keep(
        &mut self,
        alloc: Global,
        place: u32,
        cut: Cut,
        low: Option<Written<'_>>,
        high: Option<Written<'_>>,
    ) -> Result<(), AllocError> {
        let split = self.split(alloc, place, cut)?;
        self.put(alloc, split.low, low)?;
        self.put(alloc, split.high, high)
    }
}
