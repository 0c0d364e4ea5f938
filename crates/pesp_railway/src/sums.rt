//! The sum of a closed walk in words.

use crate::closed::{Passed, closed_walk, turned};
use pesp_problem::Instance;
use pesp_report::Names;
use std::alloc::{AllocError, Global};
use std::fmt;

/// An event as it is called in a walk: by its station, else by its name, else by its label.
#[derive(Clone, Copy)]
struct StationLabel<'a> {
    label: i64,
    names: &'a Names,
}

impl<'a> StationLabel<'a> {
    /// Its station; empty where none is told.
    fn station(self) -> &'a str {
        match self.names.find(self.label) {
            Some(told) => told.station.as_str(),
            None => "",
        }
    }
}

impl fmt::Display for StationLabel<'_> {
    fn fmt<W: fmt::Write>(&self, f: &mut fmt::Formatter<W>) -> fmt::Result {
        let label = self.label;
        let Some(told) = self.names.find(label) else {
            return write!(f, "{label}");
        };
        let (name, station) = (told.name.as_str(), told.station.as_str());
        match (station.is_empty(), name.is_empty()) {
            (false, _) => f.write_str(station),
            (true, false) => f.write_str(name),
            (true, true) => write!(f, "{label}"),
        }
    }
}

/// The least and the greatest sum of the durations along a walk: what is passed back counts as less.
#[derive(Clone, Copy)]
struct DurationBounds {
    least: i64,
    greatest: i64,
}

/// The sum along a walk.
fn sum_of(walk: &[Passed<'_>]) -> DurationBounds {
    let mut sum = DurationBounds {
        least: 0,
        greatest: 0,
    };
    for passed in walk {
        let (lower, upper) = (passed.row.lower, passed.row.upper);
        let (least, greatest) = if passed.forward {
            (lower, upper)
        } else {
            (upper.saturating_neg(), lower.saturating_neg())
        };
        sum.least = sum.least.saturating_add(least);
        sum.greatest = sum.greatest.saturating_add(greatest);
    }
    sum
}

/// A closed walk in the direction in which its greatest sum isn't below 0.
fn upward<'a>(alloc: Global, walk: Vec<Passed<'a>>) -> Result<Vec<Passed<'a>>, AllocError> {
    if sum_of(&walk).greatest >= 0 {
        Ok(walk)
    } else {
        turned(alloc, &walk)
    }
}

/// The event from which a walk passes a row.
fn called_from<'a>(instance: &Instance, names: &'a Names, passed: &Passed<'_>) -> StationLabel<'a> {
    let event = if passed.forward {
        passed.row.tail
    } else {
        passed.row.head
    };
    let label = instance.events().get(event as usize).copied().unwrap_or(0);
    StationLabel { label, names }
}

/// Adds the events of a walk, from the first one on and back to it; of several in turn at one station the first one.
fn add_events(
    words: &mut String,
    instance: &Instance,
    names: &Names,
    walk: &[Passed<'_>],
) -> Result<(), AllocError> {
    let (mut first, mut last) = ("", "");
    for (count, passed) in walk.iter().enumerate() {
        let called = called_from(instance, names, passed);
        let station = called.station();
        let is_end = count.saturating_add(1) == walk.len() && station == first;
        if !station.is_empty() && (station == last || is_end) {
            continue;
        }
        if count == 0 {
            first = station;
        }
        last = station;
        write!(words, "{called} > ")?;
    }
    words.push_str("back")
}

/// Adds what is wrong with a sum: what is wanted, and the multiples of the period on both sides.
fn add_wanted(words: &mut String, period: u32, sum: DurationBounds) -> Result<(), AllocError> {
    let DurationBounds { least, greatest } = sum;
    let length = i64::from(period.max(1));
    let below = greatest.div_euclid(length).saturating_mul(length);
    let above = below.saturating_add(length);
    write!(
        words,
        ": {least} to {greatest} in all are wanted, and only {below} or {above} fit"
    )
}

/// Adds the sum in words where the listed rows make up one closed walk and names are told: the events along it, in the direction in
/// which its greatest sum isn't below 0, the least and the greatest sum of the durations, and the multiples of the period next to
/// it, of which neither lies between. Nothing is added else. `rows` are numbers of rows, from 1 on. The error is a growth that was
/// refused; words may have been added before.
pub fn add_sums(
    alloc: Global,
    instance: &Instance,
    rows: &[u32],
    names: Option<&Names>,
    words: &mut String,
) -> Result<(), AllocError> {
    let Some(names) = names else {
        return Ok(());
    };
    let Some(walk) = closed_walk(alloc, instance, rows)? else {
        return Ok(());
    };
    let walk = upward(alloc, walk)?;
    add_events(words, instance, names, &walk)?;
    add_wanted(words, instance.period(), sum_of(&walk))
}
