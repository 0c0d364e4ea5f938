//! How high the stations of a diagram stand.

use pesp_railway::Line;
use std::alloc::{AllocError, Global};

/// How many pixels lie between two stations where they stand at equal distances.
const STATION: u32 = 44;

/// The fewest pixels between two stations, so that the minutes of both can be read.
const LEAST: u32 = 26;

/// How much higher a diagram to scale may be than one at equal distances.
const HIGHER: u64 = 3;

/// How far below the plot's top each station of a line stands, in pixels.
#[derive(Drop)]
pub struct Heights {
    tops: Vec<u32>,
}

/// How long the way between the first station and the last is, and how many pixels it takes.
#[derive(Clone, Copy)]
struct StationScale {
    pixels: u64,
    whole: u64,
}

/// How many pixels a plot of stations at equal distances has between the first one and the last.
fn equal_pixels(stations: usize) -> u64 {
    (stations as u64)
        .saturating_sub(1)
        .saturating_mul(u64::from(STATION))
}

/// The shortest leg that isn't 0; 0 where there is none.
fn shortest_leg(distances: &[u32]) -> u32 {
    let (mut shortest, mut last) = (0, 0);
    for distance in distances {
        let leg = distance.saturating_sub(last);
        if leg > 0 && (shortest == 0 || leg < shortest) {
            shortest = leg;
        }
        last = *distance;
    }
    shortest
}

/// The scale of stations at these distances from the first one. The shortest leg can be read, if that isn't too high.
fn scale_of(distances: &[u32]) -> StationScale {
    let whole = u64::from(distances.last().copied().unwrap_or(0));
    let equal = equal_pixels(distances.len());
    let wanted = whole
        .saturating_mul(u64::from(LEAST))
        .checked_div(u64::from(shortest_leg(distances)))
        .unwrap_or(equal);
    StationScale {
        pixels: wanted.max(equal).min(equal.saturating_mul(HIGHER)),
        whole,
    }
}

impl StationScale {
    /// How many pixels a leg takes.
    fn pixels_of(self, leg: u32) -> u32 {
        let pixels = u64::from(leg)
            .saturating_mul(self.pixels)
            .checked_div(self.whole)
            .unwrap_or(0);
        u32::try_from(pixels).unwrap_or(u32::MAX).max(LEAST)
    }
}

/// Stations at equal distances.
fn equal_tops(alloc: Global, stations: usize) -> Result<Vec<u32>, AllocError> {
    let mut tops = Vec::new(alloc);
    let mut top = STATION / 2;
    for _ in 0..stations {
        tops.push(top)?;
        top = top.saturating_add(STATION);
    }
    Ok(tops)
}

/// Stations at these distances from the first one, to scale. None is nearer to another one than can be read.
fn scaled_tops(alloc: Global, distances: &[u32]) -> Result<Vec<u32>, AllocError> {
    let scale = scale_of(distances);
    let mut tops = Vec::new(alloc);
    let mut top = STATION / 2;
    let mut last = None;
    for distance in distances {
        if let Some(from) = last {
            top = top.saturating_add(scale.pixels_of(distance.saturating_sub(from)));
        }
        tops.push(top)?;
        last = Some(*distance);
    }
    Ok(tops)
}

impl Heights {
    /// Where the stations of a line stand: to scale where distances are known, else equally far apart.
    pub fn of(alloc: Global, line: &Line<'_>) -> Result<Heights, AllocError> {
        let tops = match &line.distances {
            Some(distances) => scaled_tops(alloc, distances)?,
            None => equal_tops(alloc, line.stations.len())?,
        };
        Ok(Heights { tops })
    }

    /// The heights of each of some lines.
    pub fn of_all(alloc: Global, lines: &[Line<'_>]) -> Result<Vec<Heights>, AllocError> {
        let mut heights = Vec::new(alloc);
        for line in lines {
            heights.push(Heights::of(alloc, line)?)?;
        }
        Ok(heights)
    }

    /// How far below the plot's top a station stands.
    pub fn at(&self, station: usize) -> u32 {
        self.tops.get(station).copied().unwrap_or(0)
    }

    /// How many pixels the plot is high.
    pub fn plot(&self) -> u32 {
        match self.tops.last() {
            Some(top) => top.saturating_add(STATION / 2),
            None => 0,
        }
    }
}
