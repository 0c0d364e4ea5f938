//! The inverse of a basis anew, line by line.

use crate::simplex::Simplex;
use pesp_basis::{Beside, Member, Order, Sparse, amount, clear_rows, widen};
use std::alloc::AllocError;
use std::mem::swap;

/// A coefficient below this is no pivot.
const LEAST_PIVOT: i64 = 1 << 19;

/// What comes in beside a line so far: the slack, the amount of its coefficient, and in how many lines it is.
#[derive(Clone, Copy)]
struct EnteringSlack {
    slack: u32,
    size: i64,
    lines: u32,
}

impl EnteringSlack {
    /// Whether it is in fewer lines than the best so far, or in as many with a greater coefficient.
    fn is_better(&self, best: &Option<EnteringSlack>) -> bool {
        match best {
            Some(best) => {
                self.lines < best.lines || (self.lines == best.lines && self.size > best.size)
            }
            None => true,
        }
    }
}

/// The greatest coefficient of an open slack.
fn greatest_open(order: &Order, alpha: &Sparse) -> i64 {
    let mut greatest = 0i64;
    for number in alpha.places() {
        if order.is_open(*number) {
            greatest = greatest.max(amount(alpha.get(*number)));
        }
    }
    greatest
}

/// An open slack as a pivot, where the amount of its coefficient is great enough.
fn pivot_of(order: &Order, slack: u32, size: i64, least: i64) -> Option<EnteringSlack> {
    if !order.is_open(slack) || size < least {
        return None;
    }
    Some(EnteringSlack {
        slack,
        size,
        lines: order.lines_of(slack),
    })
}

/// The open slack that comes in beside the line that was weighed: of great coefficient, in few lines (Markowitz 1957).
fn choose_pivot(order: &Order, alpha: &Sparse) -> Option<u32> {
    let least = (greatest_open(order, alpha) >> 2).max(LEAST_PIVOT);
    let mut best: Option<EnteringSlack> = None;
    for number in alpha.places() {
        let size = amount(alpha.get(*number));
        if let Some(pivot) = pivot_of(order, *number, size, least)
            && pivot.is_better(&best)
        {
            best = Some(pivot);
        }
    }
    Some(best?.slack)
}

impl Simplex {
    /// A line that was weighed and a slack come in, of which it has this coefficient.
    fn bring(&mut self, beside: Beside, coefficient: i64) -> Result<(), AllocError> {
        if amount(coefficient) < LEAST_PIVOT {
            return Ok(());
        }
        self.read_slack(beside.slack)?;
        self.border(beside.line, beside.slack, coefficient)
    }

    /// A line comes in with an open slack, where one has a great enough coefficient.
    fn bring_line(&mut self, line: u32) -> Result<(), AllocError> {
        self.weigh(Member::Line(line))?;
        let Some(slack) = choose_pivot(&self.order, &self.alpha) else {
            self.order.skip(line);
            return Ok(());
        };
        let beside = Beside { line, slack };
        let coefficient = self.alpha.get(slack);
        self.bring(beside, coefficient)?;
        self.order.take(&self.columns, &self.lines, beside)
    }

    /// All lines come in that don't come last.
    fn bring_first(&mut self) -> Result<(), AllocError> {
        for _ in 0..self.lines.len() {
            let Some(line) = self.order.next() else {
                return Ok(());
            };
            self.bring_line(line)?;
        }
        Ok(())
    }

    /// Those come in that come last.
    fn bring_last(&mut self) -> Result<(), AllocError> {
        for _ in 0..self.order.last.len() {
            let Some(beside) = self.order.last.pop() else {
                return Ok(());
            };
            self.weigh_tight(Member::Line(beside.line))?;
            let coefficient = self.coefficient_beside(beside.slack);
            self.bring(beside, coefficient)?;
        }
        Ok(())
    }

    /// Nothing has a place.
    fn clear_places(&mut self) {
        self.state.clear_places();
        self.forget_changes();
    }

    /// The inverse anew, of the basis that is named; nothing is tight where it comes out bad.
    pub fn rebuild(&mut self) -> Result<(), AllocError> {
        self.order.begin(&self.columns, &self.lines, &self.state)?;
        let mut basic = Vec::new(self.alloc);
        swap(&mut basic, &mut self.state.basic);
        self.state.tight.clear();
        self.clear_places();
        self.state.since = 0;
        let brought = self.bring_all(basic.len());
        self.state.lower(&basic);
        drop(basic);
        brought?;
        self.refresh()?;
        if self.state.is_bad(&self.lines) {
            self.reset()?;
        }
        Ok(())
    }

    /// All come in, so many at most.
    fn bring_all(&mut self, most: usize) -> Result<(), AllocError> {
        clear_rows(&mut self.inverse);
        widen(self.alloc, &mut self.inverse, most, most)?;
        self.bring_first()?;
        self.bring_last()?;
        let count = self.state.basic.len();
        widen(self.alloc, &mut self.inverse, count, count)
    }

    /// Nothing is tight, and all multipliers are 0.
    pub fn reset(&mut self) -> Result<(), AllocError> {
        self.clear_places();
        self.inverse.clear();
        self.state.basic.clear();
        self.state.tight.clear();
        self.state.since = 0;
        self.state.clear_up();
        self.refresh()
    }
}
