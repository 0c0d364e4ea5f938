//! Linear programs over the slacks of rows.

use crate::inequality::{InequalityTerms, Multiplier, Term, most_multiplier};
use crate::moved::{Moved, stay};
use crate::passes::sum_of;
use crate::rows::{ProgramRow, first_balance};
use crate::scales::greatest;
use pesp_network::NetRow;
use std::alloc::{AllocError, Global};

/// The least and the greatest balance of the two sides.
const LEAST_BALANCE: i64 = 16;

const MOST_BALANCE: i64 = 1 << 40;

/// The linear program that minimises weight times slack, with each slack from 0 to its row's span, under inequalities; and
/// where the search for the best multipliers of these stands. Slacks are in 1/65536, multipliers in 1/2^20; these are told in
/// units of which the scale makes up one.
#[derive(Drop)]
pub struct Program {
    pub(crate) scale: u32,
    pub(crate) rows: Vec<ProgramRow>,
    pub(crate) inequalities: Vec<InequalityTerms>,
    pub(crate) terms: Vec<Term>,
    pub(crate) points: Vec<Moved>,
    pub(crate) multipliers: Vec<Moved>,
    slacks: Vec<i64>,
    pub(crate) weights: Vec<i64>,
    pub(crate) exact: Vec<i128>,
    balance: i64,
    pub(crate) best: i128,
    pub(crate) steps: u64,
    pub(crate) work: u64,
}

impl Program {
    /// The program of these rows without an inequality, with all slacks 0; multipliers are told by a scale.
    pub fn new(alloc: Global, rows: &[NetRow], scale: u32) -> Result<Program, AllocError> {
        let count = rows.len();
        let mut points = Vec::with_capacity(alloc, count)?;
        for row in rows {
            points.push(Moved::new(0, i64::from(row.span) << 16))?;
        }
        let rows: Vec<ProgramRow> = rows.iter().map(ProgramRow::of).collect(alloc)?;
        let balance = first_balance(&rows);
        Ok(Program {
            scale,
            rows,
            inequalities: Vec::new(alloc),
            terms: Vec::new(alloc),
            points,
            multipliers: Vec::new(alloc),
            slacks: vec![in alloc; 0i64; count]?,
            weights: vec![in alloc; 0i64; count]?,
            exact: vec![in alloc; 0i128; count]?,
            balance: balance.max(LEAST_BALANCE).min(MOST_BALANCE),
            best: 0,
            steps: 0,
            work: 0,
        })
    }

    /// How many units of a multiplier that is told make up one.
    pub fn scale(&self) -> u32 {
        self.scale
    }

    /// How many inequalities there are.
    pub fn count(&self) -> usize {
        self.inequalities.len()
    }

    /// Puts in an inequality: the sum of coefficients times slacks is at least so much, in whole units.
    pub fn add(
        &mut self,
        terms: &[Term],
        least: i64,
        multiplier: Multiplier,
    ) -> Result<(), AllocError> {
        // An earlier call may have found no memory half way.
        self.multipliers.truncate(self.inequalities.len());
        let start = self.terms.len();
        let most = most_multiplier(self.scale, greatest(terms));
        self.terms.extend_from_slice(terms)?;
        self.multipliers.push(Moved::new(multiplier.current, most))?;
        self.inequalities.push(InequalityTerms {
            start,
            end: self.terms.len(),
            least,
            best: multiplier.best.max(0).min(most),
        })?;
        Ok(())
    }

    /// Takes out the last inequality.
    pub fn pop(&mut self) {
        if let Some(inequality) = self.inequalities.pop() {
            self.terms.truncate(inequality.start);
            self.multipliers.truncate(self.inequalities.len());
        }
    }

    /// Moves terms down to a place.
    fn move_terms(&mut self, start: usize, end: usize, to: usize) -> Option<()> {
        let mut place = to;
        for from in start..end {
            *self.terms.get_mut(place)? = self.terms.get(from).copied()?;
            place = place.wrapping_add(1);
        }
        Some(())
    }

    /// Moves an inequality down to a place, and its terms to one among theirs; where they end.
    fn move_down(&mut self, from: usize, to: usize, start: usize) -> Option<usize> {
        let inequality = self.inequalities.get(from).copied()?;
        let length = inequality.end.checked_sub(inequality.start)?;
        let end = start.checked_add(length)?;
        self.move_terms(inequality.start, inequality.end, start)?;
        *self.inequalities.get_mut(to)? = InequalityTerms {
            start,
            end,
            ..inequality
        };
        *self.multipliers.get_mut(to)? = self.multipliers.get(from).copied()?;
        Some(end)
    }

    /// Keeps the inequalities that are marked, in order; the others go.
    pub fn keep(&mut self, kept: &[bool]) {
        let mut count = 0usize;
        let mut start = 0usize;
        for (place, is_kept) in kept.iter().enumerate() {
            if *is_kept && let Some(end) = self.move_down(place, count, start) {
                count = count.wrapping_add(1);
                start = end;
            }
        }
        self.inequalities.truncate(count);
        self.multipliers.truncate(count);
        self.terms.truncate(start);
    }

    /// The slacks to which the last step proper led, in 1/65536.
    pub fn slacks(&self) -> &[i64] {
        &self.slacks
    }

    /// Sets the slacks.
    pub(crate) fn set_slacks(&mut self, slacks: &[i64]) {
        for (slack, set) in self.slacks.iter_mut().zip(slacks.iter()) {
            *slack = *set;
        }
    }

    /// Takes over where the slacks have been moved.
    pub(crate) fn read_slacks(&mut self) {
        for (slack, moved) in self.slacks.iter_mut().zip(self.points.iter()) {
            *slack = moved.at;
        }
    }

    /// Sets the numbers that steps move, before the first step.
    pub(crate) fn write_numbers(&mut self) {
        for (slack, moved) in self.slacks.iter().zip(self.points.iter_mut()) {
            *moved = Moved::new(*slack, moved.most);
        }
        stay(&mut self.multipliers);
    }

    /// The balance: the weight of the multipliers' side against that of the slacks, in 1/65536.
    pub(crate) fn balance(&self) -> i64 {
        self.balance
    }

    /// Sets the balance, within its limits.
    pub(crate) fn set_balance(&mut self, balance: i64) {
        self.balance = balance.max(LEAST_BALANCE).min(MOST_BALANCE);
    }

    /// What is known of an inequality's multiplier.
    pub fn multiplier(&self, place: usize) -> Multiplier {
        Multiplier {
            current: self.multipliers.get(place).map_or(0, |moved| moved.at),
            best: self.inequalities.get(place).map_or(0, |it| it.best),
        }
    }

    /// By how much the slacks pass what an inequality asks for, in 1/65536.
    pub fn excess(&self, place: usize) -> i64 {
        let Some(inequality) = self.inequalities.get(place) else {
            return 0;
        };
        let sum = sum_of(inequality.terms(&self.terms), &self.slacks);
        sum.wrapping_sub(inequality.least << 16)
    }

    /// How many coefficients were looked at so far: a measure of work that needs no clock.
    pub fn work(&self) -> u64 {
        self.work
    }
}
