//! The components of a forest as it grows, and the rows that cross between each and the rest.

use crate::settings::MOST_CROSSINGS;
use crate::stars::{CrossingList, stars};
use pesp_clusters::{Activity, SlackCrossing};
use pesp_forest::guarded::{number, set_number};
use pesp_forest::{Groups, Random};
use std::alloc::{AllocError, Global};

/// The components that are shifted: each event, and each component that two others make as a forest grows, where few rows cross.
/// `crossings` has the stars of all events in front, and then the crossings of components; `parts` tells which are whose, in the
/// order of the visits; and `of` which are those of the component that is told apart by an event. `marks` tells rows apart where two components are made
/// one, by the last mark and the one behind it.
#[derive(Drop)]
pub(crate) struct Components {
    crossings: Vec<SlackCrossing>,
    stars: Vec<CrossingList>,
    in_stars: usize,
    parts: Vec<CrossingList>,
    of: Vec<Option<CrossingList>>,
    groups: Groups,
    marks: Vec<u32>,
    last_mark: u32,
}

/// A part, unless too many rows cross.
fn if_short(part: CrossingList) -> Option<CrossingList> {
    if part.end.wrapping_sub(part.start) as usize <= MOST_CROSSINGS {
        Some(part)
    } else {
        None
    }
}

impl Components {
    /// No forest yet.
    pub(crate) fn new(
        alloc: Global,
        rows: &[Activity],
        period: u32,
        events: u32,
    ) -> Result<Components, AllocError> {
        let (crossings, stars) = stars(alloc, rows, period, events)?;
        Ok(Components {
            in_stars: crossings.len(),
            crossings,
            stars,
            parts: Vec::new(alloc),
            of: vec![in alloc; None; events as usize]?,
            groups: Groups::apart(alloc, events)?,
            marks: vec![in alloc; 0u32; rows.len()]?,
            last_mark: 0,
        })
    }

    /// How many crossings are listed.
    fn count(&self) -> u32 {
        u32::try_from(self.crossings.len()).unwrap_or(u32::MAX)
    }

    /// Visits a part, where there are rows in it.
    fn add(&mut self, part: CrossingList) -> Result<(), AllocError> {
        if part.start < part.end {
            self.parts.push(part)?;
        }
        Ok(())
    }

    /// Begins with each event by itself.
    fn part(&mut self) -> Result<(), AllocError> {
        self.groups.part();
        self.crossings.truncate(self.in_stars);
        self.parts.clear();
        for event in 0..self.stars.len() {
            let Some(star) = self.stars.get(event).copied() else {
                return Ok(());
            };
            let short = if_short(star);
            if let Some(slot) = self.of.get_mut(event) {
                *slot = short;
            }
            if let Some(part) = short {
                self.add(part)?;
            }
        }
        Ok(())
    }

    /// Marks the rows of a part, and those that have the mark already by the next one.
    fn mark(&mut self, part: CrossingList) {
        let crossings = self
            .crossings
            .get(part.start as usize..part.end as usize)
            .unwrap_or(&[]);
        for crossing in crossings {
            let is_marked = number(&self.marks, crossing.row) == Some(self.last_mark);
            let mark = self.last_mark.wrapping_add(u32::from(is_marked));
            set_number(&mut self.marks, crossing.row, mark);
        }
    }

    /// Marks the rows of two parts: those that both have, which lead from one to the other, by the mark behind that of the rest.
    fn mark_both(&mut self, one: CrossingList, other: CrossingList) {
        self.last_mark = self.last_mark.wrapping_add(2);
        self.mark(one);
        self.mark(other);
    }

    /// Lists those of these crossings of two parts that lead out of both.
    fn list_out(&mut self, from: u32, to: u32) -> Result<(), AllocError> {
        let inner = self.last_mark.wrapping_add(1);
        for place in from..to {
            let Some(crossing) = self.crossings.get(place as usize).copied() else {
                return Ok(());
            };
            if number(&self.marks, crossing.row) != Some(inner) {
                self.crossings.push(crossing)?;
            }
        }
        Ok(())
    }

    /// Lists the crossings of a component that two parts make.
    fn list_both(
        &mut self,
        one: CrossingList,
        other: CrossingList,
    ) -> Result<CrossingList, AllocError> {
        self.mark_both(one, other);
        let start = self.count();
        self.list_out(one.start, one.falls)?;
        self.list_out(other.start, other.falls)?;
        let falls = self.count();
        self.list_out(one.falls, one.wide)?;
        self.list_out(other.falls, other.wide)?;
        let wide = self.count();
        self.list_out(one.wide, one.grows)?;
        self.list_out(other.wide, other.grows)?;
        let grows = self.count();
        self.list_out(one.grows, one.end)?;
        self.list_out(other.grows, other.end)?;
        Ok(CrossingList {
            start,
            falls,
            wide,
            grows,
            end: self.count(),
        })
    }

    /// Lists the crossings of the component that a row of the forest makes of two, unless there are too many.
    fn join(&mut self, row: &Activity) -> Result<(), AllocError> {
        let (Some(here), Some(there)) = (
            self.groups.last_of(row.tail),
            self.groups.last_of(row.head),
        ) else {
            return Ok(());
        };
        self.groups.join(here, there);
        let one = self.of.get(here as usize).copied().unwrap_or(None);
        let other = self.of.get(there as usize).copied().unwrap_or(None);
        let mut short = None;
        if let (Some(one), Some(other)) = (one, other) {
            let part = self.list_both(one, other)?;
            short = if_short(part);
            match short {
                Some(part) => self.add(part)?,
                None => self.crossings.truncate(part.start as usize),
            }
        }
        if let Some(slot) = self.of.get_mut(there as usize) {
            *slot = short;
        }
        Ok(())
    }

    /// Lists the components of a forest, whose rows are given in the order in which it grew.
    pub(crate) fn list(&mut self, rows: &[Activity], forest: &[u32]) -> Result<(), AllocError> {
        self.part()?;
        for place in forest {
            if let Some(row) = rows.get(*place as usize) {
                self.join(row)?;
            }
        }
        Ok(())
    }

    /// Puts the visits into a random order.
    pub(crate) fn shuffle(&mut self, random: &mut Random) {
        for place in 0..self.parts.len() {
            let other = random.below(place as u64 + 1) as usize;
            if other < self.parts.len() {
                self.parts.swap(place, other);
            }
        }
    }

    /// The components in the order of their visits.
    pub(crate) fn parts(&self) -> &[CrossingList] {
        &self.parts
    }

    /// The crossings of a component, narrow rows first.
    pub(crate) fn of(&self, part: &CrossingList) -> Option<&[SlackCrossing]> {
        self.crossings.get(part.start as usize..part.end as usize)
    }
}
