//! The lines of an instance, their stations, and where its events stand.

use crate::distances::distances_along;
use pesp_problem::Instance;
use pesp_report::{Name, Names};
use std::alloc::{AllocError, Global};

/// The most lines that are drawn, and the most stations of a line.
const MOST: usize = 500;

/// Where an event stands: the number of its line, and that of its station on it.
#[derive(Clone, Copy, PartialEq, Eq)]
pub struct StationPlace {
    pub line: usize,
    pub station: usize,
}

/// A line, with its stations in the order in which the names first name them. Of a corridor it is known how far each station is from
/// the first one, where the names tell that.
#[derive(Drop)]
pub struct Line<'a> {
    pub name: &'a str,
    pub stations: Vec<&'a str>,
    pub distances: Option<Vec<u32>>,
}

/// The lines in the order in which the names first name them; where each event stands, by its number in the instance, and the
/// name of its own line; how many events stand nowhere; and whether there is one line alone, a corridor for trains of all lines.
#[derive(Drop)]
pub struct RailwayNetwork<'a> {
    pub lines: Vec<Line<'a>>,
    places: Vec<Option<StationPlace>>,
    owners: Vec<&'a str>,
    pub left: u32,
    pub is_corridor: bool,
}

/// An event of the instance, by its number, with what is told of it.
#[derive(Clone, Copy)]
struct StopEvent<'a> {
    event: usize,
    name: &'a Name,
}

/// The events that have a line and a station, in the order of the names.
fn stops_of<'a>(
    alloc: Global,
    instance: &Instance,
    names: &'a Names,
) -> Result<Vec<StopEvent<'a>>, AllocError> {
    let mut stops = Vec::new(alloc);
    for (event, label) in instance.events().iter().enumerate() {
        if let Some(name) = names.find(*label) {
            if !name.line.is_empty() && !name.station.is_empty() {
                stops.push(StopEvent { event, name })?;
            }
        }
    }
    stops.sort_unstable_by_key(|stop| stop.name.record);
    Ok(stops)
}

/// The place of a text among others, where it is put at their end if it isn't there; None where there are too many.
fn place_among<'a>(texts: &mut Vec<&'a str>, text: &'a str) -> Result<Option<usize>, AllocError> {
    if let Some(place) = texts.iter().position(|other| *other == text) {
        return Ok(Some(place));
    }
    let place = texts.len();
    if place >= MOST {
        return Ok(None);
    }
    texts.push(text)?;
    Ok(Some(place))
}

/// The line of the stations that a text names between commas.
fn line_along<'a>(alloc: Global, stations: &'a str) -> Result<Line<'a>, AllocError> {
    let mut line = Line {
        name: stations,
        stations: Vec::new(alloc),
        distances: None,
    };
    for station in stations.split(',') {
        let _place = place_among(&mut line.stations, station.trim())?;
    }
    Ok(line)
}

impl<'a> RailwayNetwork<'a> {
    /// The lines and the places that names tell.
    pub fn of(
        alloc: Global,
        instance: &Instance,
        names: &'a Names,
    ) -> Result<RailwayNetwork<'a>, AllocError> {
        let stops = stops_of(alloc, instance, names)?;
        let mut network = RailwayNetwork::without_lines(alloc, instance)?;
        for stop in &stops {
            let place = network.place_of(alloc, stop.name)?;
            network.put(stop, place);
        }
        network.left = network.count_left();
        Ok(network)
    }

    /// A corridor: the stations that a text names between commas, in their order, as those of one line, with the events there of
    /// all lines.
    pub fn along(
        alloc: Global,
        instance: &Instance,
        names: &'a Names,
        stations: &'a str,
    ) -> Result<RailwayNetwork<'a>, AllocError> {
        let stops = stops_of(alloc, instance, names)?;
        let mut network = RailwayNetwork::without_lines(alloc, instance)?;
        network.lines.push(line_along(alloc, stations)?)?;
        network.is_corridor = true;
        for stop in &stops {
            let place = network.place_along(stop.name.station.as_str());
            network.put(stop, place);
        }
        network.measure(alloc, names)?;
        network.left = network.count_left();
        Ok(network)
    }

    /// No lines: each event stands nowhere.
    fn without_lines(alloc: Global, instance: &Instance) -> Result<RailwayNetwork<'a>, AllocError> {
        let events = instance.events().len();
        Ok(RailwayNetwork {
            lines: Vec::new(alloc),
            places: vec![in alloc; None; events]?,
            owners: vec![in alloc; ""; events]?,
            left: 0,
            is_corridor: false,
        })
    }

    /// Where a station stands on the first line.
    fn place_along(&self, station: &str) -> Option<StationPlace> {
        let line = self.lines.first()?;
        let place = line.stations.iter().position(|other| *other == station)?;
        Some(StationPlace {
            line: 0,
            station: place,
        })
    }

    /// Whether an event stands at a station of the first line.
    fn has_events(&self, station: usize) -> bool {
        let here = Some(StationPlace { line: 0, station });
        self.places.iter().any(|place| *place == here)
    }

    /// How far each station of the first line is, as the names tell it. None where they don't tell it of one that has an event.
    fn told_distances(
        &self,
        alloc: Global,
        names: &Names,
    ) -> Result<Option<Vec<Option<u32>>>, AllocError> {
        let Some(line) = self.lines.first() else {
            return Ok(None);
        };
        let mut told = Vec::new(alloc);
        for (place, station) in line.stations.iter().enumerate() {
            let distance = names.distance_of(station);
            if distance.is_none() && self.has_events(place) {
                return Ok(None);
            }
            told.push(distance)?;
        }
        Ok(Some(told))
    }

    /// Measures the first line, where the names tell how far its stations are.
    fn measure(&mut self, alloc: Global, names: &Names) -> Result<(), AllocError> {
        let Some(told) = self.told_distances(alloc, names)? else {
            return Ok(());
        };
        let distances = distances_along(alloc, &told)?;
        if let Some(line) = self.lines.first_mut() {
            line.distances = distances;
        }
        Ok(())
    }

    /// The number of the line with this name, which is put behind the others if it isn't there; None where there are too
    /// many.
    fn number_of_line(
        &mut self,
        alloc: Global,
        name: &'a str,
    ) -> Result<Option<usize>, AllocError> {
        if let Some(place) = self.lines.iter().position(|line| line.name == name) {
            return Ok(Some(place));
        }
        let place = self.lines.len();
        if place >= MOST {
            return Ok(None);
        }
        self.lines.push(Line {
            name,
            stations: Vec::new(alloc),
            distances: None,
        })?;
        Ok(Some(place))
    }

    /// Where an event with this name stands.
    fn place_of(
        &mut self,
        alloc: Global,
        name: &'a Name,
    ) -> Result<Option<StationPlace>, AllocError> {
        let Some(line) = self.number_of_line(alloc, name.line.as_str())? else {
            return Ok(None);
        };
        let Some(found) = self.lines.get_mut(line) else {
            return Ok(None);
        };
        match place_among(&mut found.stations, name.station.as_str())? {
            Some(station) => Ok(Some(StationPlace { line, station })),
            None => Ok(None),
        }
    }

    /// Puts an event at a place.
    fn put(&mut self, stop: &StopEvent<'a>, place: Option<StationPlace>) {
        if let Some(old) = self.places.get_mut(stop.event) {
            *old = place;
        }
        if let Some(owner) = self.owners.get_mut(stop.event) {
            *owner = stop.name.line.as_str();
        }
    }

    /// How many events stand nowhere.
    fn count_left(&self) -> u32 {
        let mut count: u32 = 0;
        for place in &self.places {
            if place.is_none() {
                count = count.saturating_add(1);
            }
        }
        count
    }

    /// Where an event stands.
    pub fn at(&self, event: u32) -> Option<StationPlace> {
        self.places.get(event as usize).copied()?
    }

    /// The name of the station at a place.
    pub fn station(&self, place: StationPlace) -> &'a str {
        match self.lines.get(place.line) {
            Some(line) => line.stations.get(place.station).copied().unwrap_or(""),
            None => "",
        }
    }

    /// The name of an event's own line.
    pub fn line_of_event(&self, event: u32) -> &'a str {
        self.owners.get(event as usize).copied().unwrap_or("")
    }
}
