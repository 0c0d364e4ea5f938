//! A circulation with a spanning tree of its rows: prices by the tree, and the rows along which more flow or less would
//! cost less.

use crate::listed::RowSet;
use crate::row::{Bend, CostPiece, FlowRow, PivotStep, Slopes};
use pesp_forest::guarded::{amount, number, set_amount, set_number};
use pesp_forest::{Frame, NONE, Tree};
use std::alloc::{AllocError, Global};

/// How many listed rows are all looked at for each step.
const FEW: u32 = 8192;

/// How many listed rows are looked at together where there are more.
const BLOCK: u32 = 1024;

/// Where pivots end: nothing is cheaper; along some closed way more flow costs less without end; or there are to be no more.
#[derive(Clone, Copy, PartialEq, Eq)]
pub enum PivotEnd {
    Best,
    Endless,
    Open,
}

/// A circulation. The price of an event is the time at which it would be, were offsets no whole numbers: along a row of the
/// tree prices rise by the cost of one more unit of flow. Moves of parts of the tree are numbered, each event has the number
/// of the last one that changed its price, and the events of the last one are listed. Rows along which a step may pay are
/// listed, with the place in the list that is looked at next. Rows that have changed since it was the same as another basis
/// are listed too, with by how much the circulation has become cheaper since then.
#[derive(Drop)]
pub struct Basis {
    pub(crate) rows: Vec<FlowRow>,
    pub(crate) tree: Tree,
    prices: Vec<i64>,
    moved: Vec<u32>,
    moves: u32,
    last: Vec<u32>,
    violated: RowSet,
    next: u32,
    is_stale: bool,
    pub(crate) changed: RowSet,
    pub(crate) fall: i128,
}

/// A row without a flow and without costs.
fn idle_row(weight: u64, tail: u32, head: u32) -> FlowRow {
    FlowRow {
        slopes: Slopes {
            below: 0,
            between: 0,
            above: 0,
        },
        weight: i64::try_from(weight).unwrap_or(i64::MAX),
        flow: 0,
        tail,
        head,
        part: CostPiece::Between,
        bend: Bend::Zero,
        is_basic: false,
    }
}

impl Basis {
    /// No flow on the rows of a frame, and no tree.
    pub fn idle(alloc: Global, frame: &Frame) -> Result<Basis, AllocError> {
        let mut rows = Vec::with_capacity(alloc, frame.rows().len())?;
        for row in frame.rows() {
            rows.push(idle_row(row.weight, row.tail, row.head))?;
        }
        let events = frame.events();
        Ok(Basis {
            violated: RowSet::none(alloc, rows.len())?,
            rows,
            tree: Tree::apart(alloc, events)?,
            prices: vec![in alloc; 0i64; events]?,
            moved: vec![in alloc; 0u32; events]?,
            moves: 0,
            last: vec![in alloc; 0u32; events]?,
            next: 0,
            is_stale: true,
            changed: RowSet::none(alloc, frame.rows().len())?,
            fall: 0,
        })
    }

    /// Takes the weight of each row for 0.
    pub fn clear_weights(&mut self) {
        for row in self.rows.iter_mut() {
            row.weight = 0;
        }
    }

    /// Takes over all of another basis on the same rows.
    pub fn copy_from(&mut self, other: &Basis) -> Option<()> {
        if self.rows.len() != other.rows.len() || self.prices.len() != other.prices.len() {
            return None;
        }
        self.rows.copy_from_slice(&other.rows);
        self.prices.copy_from_slice(&other.prices);
        self.tree.copy_from(&other.tree)?;
        self.violated.copy_from(&other.violated)?;
        self.next = other.next;
        self.is_stale = other.is_stale;
        self.fall = 0;
        self.changed.clear()
    }

    /// Becomes once more the basis that it was the same as after `copy_from`; only rows that have changed since are copied.
    /// Both are best ones: no step along any row pays.
    pub fn go_back(&mut self, other: &Basis) -> Option<()> {
        if self.prices.len() != other.prices.len() {
            return None;
        }
        self.prices.copy_from_slice(&other.prices);
        self.tree.copy_from(&other.tree)?;
        self.take_back_rows(&other.rows)?;
        self.forget_violated()?;
        self.is_stale = false;
        self.fall = 0;
        Some(())
    }

    /// Becomes the same as another basis, which was the same as this one and has changed since. From then on that one counts
    /// as unchanged. Both are best ones.
    pub fn follow(&mut self, other: &mut Basis) -> Option<()> {
        if self.prices.len() != other.prices.len() {
            return None;
        }
        self.prices.copy_from_slice(&other.prices);
        self.tree.copy_from(&other.tree)?;
        other.write_changes(&mut self.rows)?;
        other.fall = 0;
        other.changed.clear()
    }

    /// Sets the rows that have changed in these as they are here.
    fn write_changes(&self, rows: &mut [FlowRow]) -> Option<()> {
        for place in 0..self.changed.count() {
            let row = self.changed.at(place)?;
            *rows.get_mut(row as usize)? = self.rows.get(row as usize).copied()?;
        }
        Some(())
    }

    /// Sets the rows that have changed as they are in these.
    fn take_back_rows(&mut self, rows: &[FlowRow]) -> Option<()> {
        for place in 0..self.changed.count() {
            let row = self.changed.at(place)?;
            *self.rows.get_mut(row as usize)? = rows.get(row as usize).copied()?;
        }
        self.changed.clear()
    }

    /// A row that is going to change.
    pub(crate) fn row_mut(&mut self, place: u32) -> Option<&mut FlowRow> {
        if !self.changed.has(place) {
            self.changed.put(place)?;
        }
        self.rows.get_mut(place as usize)
    }

    /// By how much the circulation has become cheaper by pivots and by changes of slopes, since the basis was the same as
    /// another one.
    pub fn fall(&self) -> i128 {
        self.fall
    }

    /// The price of an event.
    pub fn price(&self, event: u32) -> Option<i64> {
        amount(&self.prices, event)
    }

    /// The prices of the events.
    pub fn prices(&self) -> &[i64] {
        &self.prices
    }

    /// The flow on a row.
    pub fn flow(&self, row: u32) -> Option<i64> {
        Some(self.rows.get(row as usize)?.flow)
    }

    /// What a unit of flow on a row costs.
    pub fn slopes(&self, row: u32) -> Option<Slopes> {
        Some(self.rows.get(row as usize)?.slopes)
    }

    /// By how much prices rise along a row.
    pub fn rise(&self, row: u32) -> Option<i64> {
        let row = self.rows.get(row as usize)?;
        self.price(row.head)?.checked_sub(self.price(row.tail)?)
    }

    /// What all flows cost.
    pub fn cost(&self) -> i128 {
        let mut cost = 0i128;
        for row in &self.rows {
            cost = cost.saturating_add(row.cost());
        }
        cost
    }

    /// The step along a row outside the tree that costs less than nothing, and what it costs.
    fn paying(&self, place: u32) -> Option<(i64, PivotStep)> {
        let row = self.rows.get(place as usize)?;
        if row.is_basic {
            return None;
        }
        let (cost, forward) = row.cheaper(self.price(row.tail)?, self.price(row.head)?);
        if cost >= 0 {
            return None;
        }
        Some((
            cost,
            PivotStep {
                row: place,
                forward,
                cost,
            },
        ))
    }

    /// Lists a row where a step along it costs less than nothing.
    fn note(&mut self, row: u32) {
        if !self.violated.has(row) && self.paying(row).is_some() {
            self.violated.put(row);
        }
    }

    /// Lists all rows along which a step costs less than nothing.
    fn note_all(&mut self) {
        for place in 0..self.rows.len() {
            self.note(u32::try_from(place).unwrap_or(NONE));
        }
        self.is_stale = false;
    }

    /// Lists such rows from an event of the part that moved last to one outside it: other rows cost what they did.
    fn note_star(&mut self, frame: &Frame, event: u32) {
        for link in frame.star(event) {
            if number(&self.moved, link.other) != Some(self.moves) {
                self.note(link.row);
            }
        }
    }

    /// Lists such rows at so many events, those that moved last.
    fn note_moved(&mut self, frame: &Frame, count: u32) {
        for place in 0..count {
            if let Some(event) = number(&self.last, place) {
                self.note_star(frame, event);
            }
        }
    }

    /// The step that costs least along so many listed rows, less than nothing, from the row that is looked at next and past
    /// the end of the list from its first row; rows along which no step pays are taken off the list.
    fn least_of(&mut self, most: u32) -> Option<PivotStep> {
        let mut least = 0;
        let mut found = None;
        for _ in 0..most {
            if self.next >= self.violated.count() {
                self.next = 0;
            }
            let row = self.violated.at(self.next)?;
            let Some((cost, step)) = self.paying(row) else {
                self.violated.take(self.next)?;
                continue;
            };
            if cost < least {
                least = cost;
                found = Some(step);
            }
            self.next = self.next.checked_add(1)?;
        }
        found
    }

    /// The step that costs least along the rows of the first block that has a row along which a step pays.
    fn least_of_block(&mut self) -> Option<PivotStep> {
        let blocks = (self.violated.count() / BLOCK).saturating_add(1);
        for _ in 0..blocks {
            let block = self.violated.count().min(BLOCK);
            if let Some(step) = self.least_of(block) {
                return Some(step);
            }
        }
        None
    }

    /// A step that costs less than nothing, the one that costs least where few rows are listed. None where there is no such
    /// step.
    pub(crate) fn entering(&mut self) -> Option<PivotStep> {
        if self.is_stale {
            self.note_all();
        }
        let count = self.violated.count();
        if count > FEW {
            return self.least_of_block();
        }
        self.next = 0;
        self.least_of(count)
    }

    /// The price that the row upwards from an event gives it.
    fn price_by_row(&self, event: u32) -> Option<i64> {
        let place = self.tree.place(event)?;
        let row = self.rows.get(place.by as usize)?;
        let slope = row.slopes.of(row.part);
        let above = self.price(place.up)?;
        if row.head == event {
            above.checked_add(slope)
        } else {
            above.checked_sub(slope)
        }
    }

    /// Sets the depths of an event and of the part below it and adds to their prices; how many they are.
    fn settle(&mut self, top: u32, change: i64) -> Option<u32> {
        self.moves = self.moves.wrapping_add(1);
        let mut event = top;
        let mut count = 0u32;
        for _ in 0..self.prices.len() {
            self.tree.set_depth(event)?;
            let price = self.price(event)?.checked_add(change)?;
            set_amount(&mut self.prices, event, price)?;
            set_number(&mut self.moved, event, self.moves)?;
            set_number(&mut self.last, count, event)?;
            count = count.checked_add(1)?;
            event = self.tree.following(event, top);
            if event == NONE {
                return Some(count);
            }
        }
        None
    }

    /// Puts right the depths and prices of an event that was hung anew and of what is below it.
    pub(crate) fn settle_below(&mut self, frame: &Frame, top: u32) -> Option<()> {
        let change = self.price_by_row(top)?.checked_sub(self.price(top)?)?;
        let count = self.settle(top, change)?;
        if (count as usize).saturating_mul(3) > self.prices.len().saturating_mul(2) {
            self.is_stale = true;
        } else {
            self.note_moved(frame, count);
        }
        Some(())
    }

    /// Puts right the price of an event, from that of the event above it; a root has 0.
    pub(crate) fn price_below(&mut self, event: u32) -> Option<()> {
        let price = if self.tree.is_root(event) {
            0
        } else {
            self.price_by_row(event)?
        };
        set_amount(&mut self.prices, event, price)
    }

    /// Puts right the prices of the part below a root.
    fn reprice_below(&mut self, root: u32) -> Option<()> {
        let mut event = root;
        for _ in 0..self.prices.len() {
            self.price_below(event)?;
            event = self.tree.following(event, root);
            if event == NONE {
                return Some(());
            }
        }
        None
    }

    /// Puts right all prices.
    pub fn reprice(&mut self) -> Option<()> {
        for place in 0..self.prices.len() {
            let event = u32::try_from(place).ok()?;
            if self.tree.is_root(event) {
                self.reprice_below(event)?;
            }
        }
        self.is_stale = true;
        Some(())
    }

    /// Takes each row off the list of those along which a step pays.
    pub(crate) fn forget_violated(&mut self) -> Option<()> {
        self.violated.clear()
    }

    /// Takes it that no step along any row pays but those that are listed.
    pub(crate) fn set_fresh(&mut self) {
        self.is_stale = false;
    }

    /// Changes what flow on a row costs; prices stay as they are.
    pub fn set_slopes(&mut self, row: u32, slopes: Slopes) -> Option<()> {
        self.row_mut(row)?.slopes = slopes;
        Some(())
    }

    /// Changes what flow on a row costs, and notes by how much the flow that is there becomes cheaper; prices stay as they are.
    pub fn exchange_slopes(&mut self, place: u32, slopes: Slopes) -> Option<()> {
        self.exchanged(place, slopes)?;
        Some(())
    }

    /// The same, and the row as it is then.
    fn exchanged(&mut self, place: u32, slopes: Slopes) -> Option<FlowRow> {
        let before = self.rows.get(place as usize)?.cost();
        let row = self.row_mut(place)?;
        row.slopes = slopes;
        let changed = *row;
        let fall = before.saturating_sub(changed.cost());
        self.fall = self.fall.saturating_add(fall);
        Some(changed)
    }

    /// Changes what flow on a row costs, and the prices that depend on it.
    pub fn change_slopes(&mut self, frame: &Frame, place: u32, slopes: Slopes) -> Option<()> {
        let row = self.exchanged(place, slopes)?;
        if !row.is_basic {
            self.note(place);
            return Some(());
        }
        let event = if self.tree.place(row.head)?.by == place {
            row.head
        } else {
            row.tail
        };
        self.settle_below(frame, event)
    }
}
