//! A program with where its simplex stands.

use pesp_basis::{
    Column, Constraint, EnteringCandidate, Member, Order, Sparse, Standing, State, enter,
    enter_all, is_nothing, price_at, sum_along,
};
use pesp_dual::Term;
use pesp_network::NetRow;
use std::alloc::{AllocError, Global};

/// The least weighted slack of rows, under lines; the inverse of the coefficients of basic slacks in tight lines, by slack, but
/// for the changes that are still to be made; where the simplex stands; and what an exchange works with: what leaves by
/// tight line and by slack at an end, how far slacks move, the numbers of a column, and what may enter.
#[derive(Drop)]
pub struct Simplex {
    pub(crate) alloc: Global,
    pub(crate) columns: Vec<Column>,
    pub(crate) lines: Vec<Constraint>,
    pub(crate) inverse: Vec<Vec<i64>>,
    pub(crate) state: State,
    pub(crate) weights: Vec<i64>,
    pub(crate) listed: Vec<(u32, i64)>,
    pub(crate) alpha: Sparse,
    pub(crate) moves: Sparse,
    pub(crate) numbers: Vec<i64>,
    pub(crate) factors: Vec<i64>,
    pub(crate) others: Vec<(u32, i64)>,
    pub(crate) candidates: Vec<EnteringCandidate>,
    pub(crate) ray: Vec<(u32, i64)>,
    pub(crate) order: Order,
    pub(crate) pivots: u64,
    pub(crate) work: u64,
}

/// Swaps what stands at two places.
fn swap_at<T>(list: &mut [T], one: usize, other: usize) {
    if one < list.len() && other < list.len() {
        list.swap(one, other);
    }
}

/// How many numbers don't count as 0.
fn count_of(numbers: &[i64]) -> u64 {
    let mut count = 0u64;
    for number in numbers {
        if !is_nothing(*number) {
            count = count.wrapping_add(1);
        }
    }
    count
}

impl Simplex {
    /// The program of these rows without a line, with all slacks 0; weights are in units of which so many make up one.
    pub fn new(alloc: Global, rows: &[NetRow], unit: u32) -> Result<Simplex, AllocError> {
        let mut simplex = Simplex::empty(alloc);
        match simplex.begin(rows, unit) {
            Ok(()) => Ok(simplex),
            Err(refused) => {
                drop(simplex);
                Err(refused)
            }
        }
    }

    /// No program.
    fn empty(alloc: Global) -> Simplex {
        Simplex {
            alloc,
            columns: Vec::new(alloc),
            lines: Vec::new(alloc),
            inverse: Vec::new(alloc),
            state: State::new(alloc),
            weights: Vec::new(alloc),
            listed: Vec::new(alloc),
            alpha: Sparse::new(alloc),
            moves: Sparse::new(alloc),
            numbers: Vec::new(alloc),
            factors: Vec::new(alloc),
            others: Vec::new(alloc),
            candidates: Vec::new(alloc),
            ray: Vec::new(alloc),
            order: Order::new(alloc),
            pivots: 0,
            work: 0,
        }
    }

    /// Takes in rows; all slacks are 0, and their reduced costs what they cost.
    fn begin(&mut self, rows: &[NetRow], unit: u32) -> Result<(), AllocError> {
        self.alpha.make_room(rows.len())?;
        self.moves.make_room(rows.len())?;
        for row in rows {
            let column = Column::of(self.alloc, row, unit);
            self.state.slacks.push(Standing::at(0, column.cost))?;
            self.columns.push(column)?;
        }
        Ok(())
    }

    /// How many lines there are.
    pub fn count(&self) -> usize {
        self.lines.len()
    }

    /// How many lines are tight.
    pub fn tight_count(&self) -> usize {
        self.state.tight.len()
    }

    /// How many exchanges were made so far.
    pub fn pivots(&self) -> u64 {
        self.pivots
    }

    /// How many numbers were looked at so far: a measure of work that needs no clock.
    pub fn work(&self) -> u64 {
        self.work
    }

    /// The value of the multipliers: no slacks within the lines cost less.
    pub fn value(&self) -> i64 {
        self.state.value
    }

    /// The value of a slack.
    pub fn slack(&self, number: usize) -> i64 {
        match self.state.slacks.get(number) {
            Some(slack) => slack.value,
            None => 0,
        }
    }

    /// The lines that are tight.
    pub fn tight(&self) -> &[u32] {
        &self.state.tight
    }

    /// Whether a line is tight.
    pub fn is_tight(&self, line: u32) -> bool {
        self.state.place_of(Member::Line(line)).is_some()
    }

    /// The multiplier of a line.
    pub fn multiplier(&self, line: u32) -> i64 {
        price_at(&self.state.sums, line)
    }

    /// The multipliers that showed last that nothing is within all lines.
    pub fn ray(&self) -> &[(u32, i64)] {
        &self.ray
    }

    /// How many numbers of the inverse aren't 0, in 1/1024 of all.
    pub fn density(&self) -> u64 {
        let mut count = 0u64;
        for row in &self.inverse {
            count = count.wrapping_add(count_of(row));
        }
        let rows = self.inverse.len() as u64;
        count.wrapping_mul(1024) / rows.wrapping_mul(rows).max(1)
    }

    /// The coefficients of a line.
    pub fn terms(&self, line: u32) -> &[Term] {
        match self.lines.get(line as usize) {
            Some(line) => line.terms.as_slice(),
            None => &[],
        }
    }

    /// A line more, which isn't tight: its sum is from `least` to `most`, which may be `MOST`. Its number.
    pub fn add(&mut self, terms: &[Term], least: i64, most: i64) -> Result<u32, AllocError> {
        let number = u32::try_from(self.lines.len()).unwrap_or(u32::MAX);
        let line = Constraint::of(self.alloc, terms, least, most)?;
        self.lines.push(line)?;
        enter(&mut self.columns, number, terms)?;
        let value = sum_along(terms, &self.state.slacks);
        self.state.sums.push(Standing::at(value, 0))?;
        Ok(number)
    }

    /// Sets the range of a line; slacks stay where they are until the basis is set.
    pub fn set_range(&mut self, number: u32, least: i64, most: i64) {
        if let Some(line) = self.lines.get_mut(number as usize) {
            line.least = least;
            line.most = most;
        }
    }

    /// Keeps the lines that are marked and those that are tight; for each line its new number, where it is kept.
    pub fn keep(&mut self, marks: &[bool]) -> Result<Vec<Option<u32>>, AllocError> {
        let numbers = self.state.numbers_kept(self.alloc, marks)?;
        let kept = self.move_lines(&numbers);
        self.lines.truncate(kept);
        self.state.sums.truncate(kept);
        self.state.rename(&numbers);
        enter_all(&mut self.columns, &self.lines)?;
        Ok(numbers)
    }

    /// Moves lines to their new numbers, which rise by 1; how many there are.
    fn move_lines(&mut self, numbers: &[Option<u32>]) -> usize {
        let mut count = 0usize;
        for (place, number) in numbers.iter().enumerate() {
            if number.is_some() {
                swap_at(&mut self.state.sums, place, count);
                swap_at(&mut self.lines, place, count);
                count = count.wrapping_add(1);
            }
        }
        count
    }
}
