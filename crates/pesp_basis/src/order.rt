//! In which order lines and slacks come into a basis that is built anew.

use crate::lines::{Column, Constraint};
use crate::state::State;
use std::alloc::{AllocError, Global};

/// A line with the slack that comes in beside it.
#[derive(Clone, Copy)]
pub struct Beside {
    pub line: u32,
    pub slack: u32,
}

/// Which slacks and lines are still to come in; in how many such lines each slack is, and how many such slacks each line has;
/// those of one such line or slack; and what comes in last, the very last first.
#[derive(Drop)]
pub struct Order {
    is_open: Vec<bool>,
    waits: Vec<bool>,
    lines_of: Vec<u32>,
    slacks_of: Vec<u32>,
    single: Vec<u32>,
    waiting: Vec<u32>,
    pub last: Vec<Beside>,
}

/// Marks places.
fn mark(marks: &mut [bool], places: &[u32]) {
    for place in places {
        if let Some(mark) = marks.get_mut(*place as usize) {
            *mark = true;
        }
    }
}

/// One less of a count; whether one is left.
fn count_down(counts: &mut [u32], place: u32) -> bool {
    match counts.get_mut(place as usize) {
        Some(count) => {
            *count = count.saturating_sub(1);
            *count == 1
        }
        None => false,
    }
}

/// One more of a count.
fn count_up(counts: &mut [u32], place: u32) {
    if let Some(count) = counts.get_mut(place as usize) {
        *count = count.saturating_add(1);
    }
}

/// The count at a place.
fn count_at(counts: &[u32], place: u32) -> u32 {
    counts.get(place as usize).copied().unwrap_or(0)
}

/// Whether a place is marked.
fn is_marked(marks: &[bool], place: u32) -> bool {
    marks.get(place as usize).copied().unwrap_or(false)
}

/// A place is marked no longer.
fn unmark(marks: &mut [bool], place: u32) {
    if let Some(mark) = marks.get_mut(place as usize) {
        *mark = false;
    }
}

impl Order {
    /// Nothing is to come in.
    pub fn new(alloc: Global) -> Order {
        Order {
            is_open: Vec::new(alloc),
            waits: Vec::new(alloc),
            lines_of: Vec::new(alloc),
            slacks_of: Vec::new(alloc),
            single: Vec::new(alloc),
            waiting: Vec::new(alloc),
            last: Vec::new(alloc),
        }
    }

    /// Room for so many slacks and lines.
    fn make_room(&mut self, slacks: usize, lines: usize) -> Result<(), AllocError> {
        self.is_open.clear();
        self.is_open.resize(slacks, false)?;
        self.waits.clear();
        self.waits.resize(lines, false)?;
        self.lines_of.clear();
        self.lines_of.resize(slacks, 0)?;
        self.slacks_of.clear();
        self.slacks_of.resize(lines, 0)?;
        Ok(())
    }

    /// Counts the open slacks of a line.
    fn count_line(&mut self, number: u32, line: &Constraint) {
        for term in &line.terms {
            if is_marked(&self.is_open, term.row) {
                count_up(&mut self.lines_of, term.row);
                count_up(&mut self.slacks_of, number);
            }
        }
    }

    /// Counts those of all lines.
    fn count(&mut self, lines: &[Constraint], state: &State) {
        for number in &state.tight {
            if let Some(line) = lines.get(*number as usize) {
                self.count_line(*number, line);
            }
        }
    }

    /// The basic slacks and the tight lines are to come in.
    pub fn begin(
        &mut self,
        columns: &[Column],
        lines: &[Constraint],
        state: &State,
    ) -> Result<(), AllocError> {
        self.make_room(columns.len(), lines.len())?;
        mark(&mut self.is_open, &state.basic);
        mark(&mut self.waits, &state.tight);
        self.count(lines, state);
        self.waiting.clear();
        self.waiting.extend_from_slice(&state.tight)?;
        self.peel(columns, lines, state)?;
        self.list_single(state)
    }

    /// Lists the slacks that are in one line alone.
    fn list_ends(&mut self, state: &State) -> Result<(), AllocError> {
        self.single.clear();
        for number in &state.basic {
            if count_at(&self.lines_of, *number) == 1 {
                self.single.push(*number)?;
            }
        }
        Ok(())
    }

    /// The waiting line that a slack is in.
    fn line_with(&self, columns: &[Column], slack: u32) -> Option<u32> {
        for entry in &columns.get(slack as usize)?.entries {
            if is_marked(&self.waits, entry.line) {
                return Some(entry.line);
            }
        }
        None
    }

    /// A line waits no longer: its open slacks are in one line less.
    fn leave_line(&mut self, lines: &[Constraint], number: u32) -> Result<(), AllocError> {
        unmark(&mut self.waits, number);
        let Some(line) = lines.get(number as usize) else {
            return Ok(());
        };
        for term in &line.terms {
            let is_open = is_marked(&self.is_open, term.row);
            if is_open && count_down(&mut self.lines_of, term.row) {
                self.single.push(term.row)?;
            }
        }
        Ok(())
    }

    /// Puts a slack that is in one waiting line alone among the last, with that line.
    fn peel_one(
        &mut self,
        columns: &[Column],
        lines: &[Constraint],
        slack: u32,
    ) -> Result<(), AllocError> {
        if !is_marked(&self.is_open, slack) || count_at(&self.lines_of, slack) != 1 {
            return Ok(());
        }
        let Some(line) = self.line_with(columns, slack) else {
            return Ok(());
        };
        unmark(&mut self.is_open, slack);
        self.last.push(Beside { line, slack })?;
        self.leave_line(lines, line)
    }

    /// Puts slacks among the last that are in one waiting line alone, with that line, as long as there are any.
    fn peel(
        &mut self,
        columns: &[Column],
        lines: &[Constraint],
        state: &State,
    ) -> Result<(), AllocError> {
        self.last.clear();
        self.list_ends(state)?;
        for _ in 0..state.basic.len().saturating_mul(2) {
            let Some(slack) = self.single.pop() else {
                return Ok(());
            };
            self.peel_one(columns, lines, slack)?;
        }
        Ok(())
    }

    /// Lists the waiting lines of one open slack.
    fn list_single(&mut self, state: &State) -> Result<(), AllocError> {
        self.single.clear();
        for number in &state.tight {
            if is_marked(&self.waits, *number) && count_at(&self.slacks_of, *number) == 1 {
                self.single.push(*number)?;
            }
        }
        Ok(())
    }

    /// A listed line that still waits.
    fn next_single(&mut self) -> Option<u32> {
        for _ in 0..self.single.len() {
            let number = self.single.pop()?;
            if is_marked(&self.waits, number) {
                return Some(number);
            }
        }
        None
    }

    /// The line that comes in next: one of a single open slack, else one of the fewest.
    pub fn next(&mut self) -> Option<u32> {
        if let Some(number) = self.next_single() {
            return Some(number);
        }
        let waits = &self.waits;
        self.waiting.retain(|number| is_marked(waits, *number));
        self.fewest()
    }

    /// The first of the waiting lines of the fewest open slacks.
    fn fewest(&self) -> Option<u32> {
        let mut found = None;
        let mut fewest = u32::MAX;
        for number in &self.waiting {
            let count = count_at(&self.slacks_of, *number);
            if found.is_none() || count < fewest {
                found = Some(*number);
                fewest = count;
            }
        }
        found
    }

    /// Whether a slack is still to come in.
    pub fn is_open(&self, slack: u32) -> bool {
        is_marked(&self.is_open, slack)
    }

    /// In how many waiting lines a slack is.
    pub fn lines_of(&self, slack: u32) -> u32 {
        count_at(&self.lines_of, slack)
    }

    /// A line can't come in.
    pub fn skip(&mut self, line: u32) {
        unmark(&mut self.waits, line);
    }

    /// A line and a slack came in.
    pub fn take(
        &mut self,
        columns: &[Column],
        lines: &[Constraint],
        beside: Beside,
    ) -> Result<(), AllocError> {
        unmark(&mut self.is_open, beside.slack);
        let held = self.single.len();
        self.leave_line(lines, beside.line)?;
        self.single.truncate(held);
        let Some(column) = columns.get(beside.slack as usize) else {
            return Ok(());
        };
        for entry in &column.entries {
            let waits = is_marked(&self.waits, entry.line);
            if waits && count_down(&mut self.slacks_of, entry.line) {
                self.single.push(entry.line)?;
            }
        }
        Ok(())
    }
}
