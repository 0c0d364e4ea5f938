//! The names of events.

ghost use Rattle.std.specs.Prelude.{◌≡◌, option_copied};
ghost use Rattle.pesp_report.specs.Naming.{entry_told_of, distance_by, distance_among};
ghost use Rattle.pesp_report.specs.Naming as spec;

use indexmap::IndexMap;
use std::alloc::{AllocError, Global};

/// What is told of an event: its name, and the line and the station to which it belongs, each empty where it isn't told; how
/// far the station is along the way, where that is told; and the number of the record that tells it.
#[derive(Drop)]
pub struct Name {
    pub event: i64,
    pub name: String,
    pub line: String,
    pub station: String,
    pub distance: Option<u32>,
    pub record: u32,
}

impl Name {
    /// How far a station is, where this record tells it.
    fn distance_of(&self, station: &str) -> Option<u32>
        ensures { result ≡ distance_by station.now self.now }
    {
        if self.station.as_str() == station {
            self.distance
        } else {
            None
        }
    }
}

/// How far a station is, by the first record that tells it.
fn first_distance(entries: &[Name], station: &str) -> Option<u32>
    ensures { result ≡ distance_among station.now entries.now }
{
    for entry in entries {
        if let Some(distance) = entry.distance_of(station) {
            return Some(distance);
        }
    }
    None
}

/// The names of events. Where several records name an event, the first of them counts.
#[derive(Drop)]
pub struct Names {
    entries: Vec<Name>,
    places: IndexMap<i64, usize>,
}

/// Where the first record of each event stands.
fn places_of(alloc: Global, entries: &[Name]) -> Result<IndexMap<i64, usize>, AllocError> {
    let mut places = IndexMap::new(alloc);
    for (place, entry) in entries.iter().enumerate() {
        if !places.contains_key(&entry.event) {
            places.insert(entry.event, place)?;
        }
    }
    Ok(places)
}

impl Names {
    /// The names that these records tell.
    pub(crate) fn of(alloc: Global, entries: Vec<Name>) -> Result<Names, AllocError> {
        let places = places_of(alloc, &entries)?;
        Ok(Names { entries, places })
    }

    /// What is told of the event with this label.
    pub fn find(&self, event: i64) -> Option<&Name>
        ensures { option_copied result ≡ entry_told_of self.now event }
    {
        let place = self.places.get(&event)?;
        self.entries.get(*place)
    }

    /// The name of the event with this label, in UTF-8; empty where none is told.
    pub fn name_of(&self, event: i64) -> &[u8]
        ensures { result.now ≡ spec.name_of self.now event }
    {
        match self.find(event) {
            Some(found) => found.name.as_bytes(),
            None => b"",
        }
    }

    /// How far a station is along the way, by the first record that tells it.
    pub fn distance_of(&self, station: &str) -> Option<u32>
        ensures { result ≡ spec.distance_of self.now station.now }
    {
        first_distance(&self.entries, station)
    }
}
