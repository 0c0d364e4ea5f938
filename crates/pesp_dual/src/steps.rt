//! Steps towards the best multipliers.

use crate::course::{BEGUN, StepCourse};
use crate::moved::{length_of_step, length_of_way, reflect, restart, set_steps};
use crate::passes::{move_multipliers, move_slacks, reduce};
use crate::program::Program;

/// After how many steps the value is looked at.
const LOOK: u32 = 25;

/// Between two restarts there are at most so many steps and a quarter of all steps so far, as long as these are few.
const BETWEEN: u64 = 100;

/// How many steps are no longer few.
const MANY: u64 = 4_000;

impl Program {
    /// Counts as though 4,000 steps were made, as for a program that goes on from one that has come far.
    pub fn settle_counts(&mut self) {
        self.steps = self.steps.max(MANY);
    }

    /// Begins a course, with steps by the balance of the two sides.
    fn begin(&mut self) {
        restart(&mut self.points);
        restart(&mut self.multipliers);
        let balance = self.balance().unsigned_abs().max(1);
        set_steps(&mut self.points, (1 << 62) / balance, 38);
        set_steps(&mut self.multipliers, balance, 16);
    }

    /// A step proper.
    fn step(&mut self) {
        reduce(
            &self.rows,
            &self.inequalities,
            &self.terms,
            &self.multipliers,
            &mut self.weights,
        );
        move_slacks(&mut self.points, &mut self.weights);
        move_multipliers(
            &self.inequalities,
            &self.terms,
            &mut self.multipliers,
            &self.weights,
        );
    }

    /// The length of the last step proper, with the two sides weighed.
    fn length(&self) -> u128 {
        let balance = u128::from(self.balance().unsigned_abs().max(1));
        let slacks = length_of_step(&self.points, 0) >> 14;
        let multipliers = length_of_step(&self.multipliers, 4);
        let one = slacks.saturating_mul(balance) >> 16;
        let other = multipliers.saturating_mul(1 << 16) / balance;
        one.saturating_add(other)
    }

    /// Sets the balance by how far each side has moved since the last restart.
    fn rebalance(&mut self) {
        let slacks = length_of_way(&self.points, 0) >> 14;
        let multipliers = length_of_way(&self.multipliers, 4);
        if slacks == 0 || multipliers == 0 {
            return;
        }
        let ratio = (multipliers.saturating_mul(1 << 32) / slacks).isqrt();
        let balance = u128::from(self.balance().unsigned_abs());
        let mean = balance.saturating_mul(ratio).isqrt();
        if ratio > 0 {
            self.set_balance(i64::try_from(mean).unwrap_or(i64::MAX));
        }
    }

    /// Whether the course has come to a restart.
    fn is_over(&self, course: &mut StepCourse) -> bool {
        if !course.is_measured() {
            return false;
        }
        let most = self.steps.min(MANY) / 4;
        course.measure(self.length()) || u64::from(course.steps) > most.saturating_add(BETWEEN)
    }

    /// Goes on from the last step proper, drawn back to the last restart.
    fn go_on(&mut self, course: &mut StepCourse) {
        let part = (1i64 << 20) / i64::from(course.steps).wrapping_add(2).max(1);
        reflect(&mut self.points, part);
        reflect(&mut self.multipliers, part);
        course.steps = course.steps.wrapping_add(1);
    }

    /// Goes on after a step proper, with a restart where the course is over.
    fn turn(&mut self, course: &mut StepCourse) {
        if self.is_over(course) {
            self.rebalance();
            self.begin();
            *course = BEGUN;
        } else {
            self.go_on(course);
        }
    }

    /// Counts a step and its work.
    fn count_step(&mut self, is_looked_at: bool) {
        let passes = if is_looked_at { 3 } else { 2 };
        let work = (self.terms.len() as u64).wrapping_mul(passes);
        self.steps = self.steps.wrapping_add(1);
        self.work = self.work.wrapping_add(work);
    }

    /// Makes at most so many steps, until the value of the best multipliers reaches `stop`, which is looked at every 25
    /// steps and at the end; gives that value, in 1/2^20.
    pub fn run(&mut self, steps: u32, stop: i128) -> i128 {
        self.best = self.best_value();
        self.write_numbers();
        self.set_norms_of_all();
        self.begin();
        let mut course = BEGUN;
        for step in 1..=steps {
            let is_last = step == steps;
            let is_looked_at = is_last || step % LOOK == 0;
            self.step();
            self.count_step(is_looked_at);
            if is_looked_at {
                self.look();
            }
            if is_last || self.best >= stop {
                break;
            }
            self.turn(&mut course);
        }
        self.rebalance();
        restart(&mut self.points);
        restart(&mut self.multipliers);
        self.read_slacks();
        self.best
    }
}
