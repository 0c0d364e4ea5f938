//! Which of a certificate's walks another certificate has too.

use pesp_problem::Memory;
use std::alloc::Global;

/// By what a walk is looked up: equal walks have equal keys.
fn key_of(codes: &[u32]) -> u64 {
    let mut key = 14_695_981_039_346_656_037u64;
    for code in codes {
        key = (key ^ u64::from(*code)).wrapping_mul(1_099_511_628_211);
    }
    key
}

/// The keys of walks with their places, in rising order.
fn keys_of(alloc: Global, walks: &[Vec<u32>]) -> Result<Vec<(u64, u32)>, Memory> {
    let mut keys = Vec::with_capacity(alloc, walks.len())?;
    for (place, codes) in walks.iter().enumerate() {
        keys.push((key_of(codes), u32::try_from(place).unwrap_or(u32::MAX)))?;
    }
    keys.sort_unstable();
    Ok(keys)
}

/// Walks of ours, their keys, and which of them are matched already.
#[derive(Drop)]
struct Ours<'a> {
    walks: &'a [Vec<u32>],
    keys: Vec<(u64, u32)>,
    matched: Vec<bool>,
}

impl Ours<'_> {
    /// Whether the walk at a place isn't matched yet and has these rows.
    fn is_free(&self, place: u32, codes: &[u32]) -> bool {
        let place = place as usize;
        match (self.walks.get(place), self.matched.get(place)) {
            (Some(walk), Some(false)) => walk.as_slice() == codes,
            _ => false,
        }
    }

    /// The place of a walk that isn't matched yet and has these rows; it is matched then.
    fn take(&mut self, place: u32, codes: &[u32]) -> Option<u32> {
        if !self.is_free(place, codes) {
            return None;
        }
        if let Some(slot) = self.matched.get_mut(place as usize) {
            *slot = true;
        }
        Some(place)
    }

    /// Where the keys begin that are no less.
    fn first(&self, key: u64) -> usize {
        let (mut low, mut high) = (0usize, self.keys.len());
        for _ in 0..64 {
            if low >= high {
                return low;
            }
            let middle = low.saturating_add(high) / 2;
            match self.keys.get(middle) {
                Some(found) if found.0 < key => low = middle.saturating_add(1),
                _ => high = middle,
            }
        }
        low
    }

    /// A walk with these rows that isn't matched yet, by its place.
    fn find(&self, codes: &[u32]) -> Option<u32> {
        let key = key_of(codes);
        let from = self.keys.get(self.first(key)..)?;
        for (found, place) in from {
            if *found != key {
                return None;
            }
            if self.is_free(*place, codes) {
                return Some(*place);
            }
        }
        None
    }
}

/// Those of the others that stand at the same place as one of ours.
fn at_their_places(
    alloc: Global,
    ours: &mut Ours<'_>,
    others: &[Vec<u32>],
) -> Result<Vec<Option<u32>>, Memory> {
    let mut places = Vec::with_capacity(alloc, others.len())?;
    for (place, codes) in others.iter().enumerate() {
        let number = u32::try_from(place).unwrap_or(u32::MAX);
        places.push(ours.take(number, codes))?;
    }
    Ok(places)
}

/// For each of the other walks the place of one of ours with the same rows, each of ours at most once; None where there is none.
pub(crate) fn matched(
    alloc: Global,
    walks: &[Vec<u32>],
    others: &[Vec<u32>],
) -> Result<Vec<Option<u32>>, Memory> {
    let mut ours = Ours {
        walks,
        keys: keys_of(alloc, walks)?,
        matched: vec![in alloc; false; walks.len()]?,
    };
    let mut places = at_their_places(alloc, &mut ours, others)?;
    for (place, slot) in places.iter_mut().enumerate() {
        if slot.is_none()
            && let Some(codes) = others.get(place)
            && let Some(found) = ours.find(codes)
        {
            *slot = ours.take(found, codes);
        }
    }
    Ok(places)
}
