//! The times that were read so far.

ghost use Rattle.std.specs.Prelude.{◌≡◌, ◌<◌, ◌++◌, ◌∷◌, [], ℤ, ℕ, List, map, IfOk, OnOk};
ghost use Rattle.pesp_old_times.specs.Tables.{HoldsTimes};
ghost use Rattle.pesp_old_times.specs.Tables as spec;

use indexmap::IndexMap;
use std::alloc::{AllocFailed, Global};

/// For each event the time that was told of it last, by its label, and how many times were told of no event.
#[derive(Drop)]
pub(crate) struct Table {
    pub(crate) slots: IndexMap<i64, Option<u32>>,
    pub(crate) strays: u64,
}

/// A map of these events without times.
fn slots_of(
    alloc: Global,
    events: &[i64],
) -> Result<IndexMap<i64, Option<u32>>, AllocFailed<(i64, Option<u32>)>>
    ensures { IfOk result (spec.AreBare events.now) }
{
    let mut slots = IndexMap::new(alloc);
    for event in events {
        slots.insert(*event, None)?;
    }
    Ok(slots)
}

impl Table {
    /// A table of these events, of which nothing is told.
    pub(crate) fn of(
        alloc: Global,
        events: &[i64],
    ) -> Result<Table, AllocFailed<(i64, Option<u32>)>>
        ensures { IfOk result (HoldsTimes events.now []) }
    {
        let slots = slots_of(alloc, events)?;
        Ok(Table { slots, strays: 0 })
    }

    /// Takes a time of the event with this label.
    pub(crate) fn note(
        &mut self,
        label: i64,
        time: u32,
    ) -> Result<(), AllocFailed<(i64, Option<u32>)>>
        requires { self.old.strays < u64.MAX }
        ensures { (events : List ℤ) → (entries : List (ℤ × ℕ)) → HoldsTimes events entries self.old
            → OnOk result (HoldsTimes events (entries ++ (label, time) ∷ []) self.new) }
    {
        if !self.slots.contains_key(&label) {
            self.strays += 1;
            return Ok(());
        }
        self.slots.insert(label, Some(time))?;
        Ok(())
    }

    /// The time that was told last of the event with this label, if one was told.
    fn time_of(&self, event: &i64) -> Option<u32>
        ensures { result ≡ spec.time_of self.now event.now }
    {
        match self.slots.get(event) {
            Some(slot) => *slot,
            None => None,
        }
    }

    /// The times of these events.
    pub(crate) fn times_of(
        &self,
        alloc: Global,
        events: &[i64],
    ) -> Result<Vec<Option<u32>>, AllocFailed<Option<u32>>>
        ensures { IfOk result
            (λ times. times.items ≡ map (spec.time_of self.now) events.now) }
    {
        let mut times = Vec::new(alloc);
        for event in events {
            times.push(self.time_of(event))?;
        }
        Ok(times)
    }
}
