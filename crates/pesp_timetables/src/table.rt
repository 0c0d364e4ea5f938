//! A forest with the relaxation of its root, and exchanges of rows.

use crate::goal::openness;
use crate::settings::FEW_ROWS;
use pesp_forest::{Frame, NONE, RowForest, Spans};
use pesp_relaxation::{Basis, MOST_PIVOTS, PivotEnd, Root, Slopes, slopes_of};
use std::alloc::{AllocError, Global};

/// A row, and what flow on it costs.
#[derive(Clone, Copy)]
struct Priced {
    row: u32,
    slopes: Slopes,
}

/// The basis before the last exchange and what its circulation costs, the events beyond the row that is exchanged, and what
/// flow costs after the exchange on the rows that lead there.
#[derive(Drop)]
struct Spare {
    before: Basis,
    cost: i128,
    beyond: Vec<u32>,
    is_beyond: Vec<bool>,
    crossing: Vec<Priced>,
}

/// A forest with sums of durations along it and the best basis of its root, and what an exchange needs.
#[derive(Drop)]
pub(crate) struct ForestTable {
    pub(crate) forest: RowForest,
    pub(crate) basis: Basis,
    spans: Spans,
    spare: Spare,
}

impl Spare {
    /// The same basis once more, and no events; None where it can't be.
    fn new(alloc: Global, frame: &Frame, basis: &mut Basis) -> Result<Option<Spare>, AllocError> {
        let is_beyond = vec![in alloc; false; frame.events()]?;
        let mut before = Basis::idle(alloc, frame)?;
        if before.copy_from(basis).is_none() || basis.copy_from(&before).is_none() {
            drop(before);
            return Ok(None);
        }
        Ok(Some(Spare {
            cost: before.cost(),
            before,
            beyond: Vec::new(alloc),
            is_beyond,
            crossing: Vec::new(alloc),
        }))
    }
}

/// The best basis of a root, and what an exchange needs; None where the root has no timetable.
fn basis_and_spare(
    alloc: Global,
    frame: &Frame,
    root: &Root,
) -> Result<Option<(Basis, Spare)>, AllocError> {
    let Some(mut basis) = root.best_basis(alloc, frame)? else {
        return Ok(None);
    };
    match Spare::new(alloc, frame, &mut basis) {
        Ok(Some(spare)) => Ok(Some((basis, spare))),
        Ok(None) => {
            drop(basis);
            Ok(None)
        }
        Err(refused) => {
            drop(basis);
            Err(refused)
        }
    }
}

impl ForestTable {
    /// The table of a forest's rows, numbered from 1; None where its root has no timetable.
    pub(crate) fn new(
        alloc: Global,
        frame: &Frame,
        numbers: &[u32],
    ) -> Result<Option<ForestTable>, AllocError> {
        let Some(root) = Root::new(alloc, frame, numbers)? else {
            return Ok(None);
        };
        match basis_and_spare(alloc, frame, &root) {
            Ok(Some((basis, spare))) => {
                let Root { cycles, spans, .. } = root;
                Ok(Some(ForestTable {
                    forest: cycles.into_forest(),
                    basis,
                    spans,
                    spare,
                }))
            }
            Ok(None) => {
                drop(root);
                Ok(None)
            }
            Err(refused) => {
                drop(root);
                Err(refused)
            }
        }
    }

    /// Lists and marks an event and what is below it.
    fn mark(&mut self, top: u32) -> Result<(), AllocError> {
        let mut event = top;
        for _ in 0..self.spare.is_beyond.len() {
            self.spare.beyond.push(event)?;
            if let Some(slot) = self.spare.is_beyond.get_mut(event as usize) {
                *slot = true;
            }
            event = self.forest.tree().following(event, top);
            if event == NONE {
                break;
            }
        }
        Ok(())
    }

    /// Takes all marks off.
    fn unmark(&mut self) {
        for event in &self.spare.beyond {
            if let Some(slot) = self.spare.is_beyond.get_mut(*event as usize) {
                *slot = false;
            }
        }
        self.spare.beyond.clear();
    }

    /// Whether an event is beyond the row that is exchanged.
    fn is_beyond(&self, event: u32) -> bool {
        self.spare.is_beyond.get(event as usize).copied() == Some(true)
    }

    /// What flow on a row costs at the root; None where its cycle has no offset.
    fn slopes(&self, frame: &Frame, place: u32) -> Option<Slopes> {
        let row = frame.row(place)?;
        let range = (0, row.span);
        if self.forest.has(place) {
            return slopes_of(frame.period(), row, range, (0, 0));
        }
        let (low, high) = self.spans.offsets(frame, &self.forest, place)?;
        if low > high {
            return None;
        }
        slopes_of(frame.period(), row, range, (low, high))
    }

    /// Lists what flow costs on the rows that lead from an event beyond to one that isn't; None where a cycle has no offset.
    fn list_at(&mut self, frame: &Frame, event: u32) -> Result<Option<()>, AllocError> {
        for link in frame.star(event) {
            if !self.is_beyond(link.other) {
                let Some(slopes) = self.slopes(frame, link.row) else {
                    return Ok(None);
                };
                let row = link.row;
                self.spare.crossing.push(Priced { row, slopes })?;
            }
        }
        Ok(Some(()))
    }

    /// Lists what flow costs on the rows that lead out of the marked part; None where a cycle has no offset.
    fn list_crossing(&mut self, frame: &Frame) -> Result<Option<()>, AllocError> {
        self.spare.crossing.clear();
        for place in 0..self.spare.beyond.len() {
            let event = self.spare.beyond.get(place).copied().unwrap_or(NONE);
            if self.list_at(frame, event)?.is_none() {
                return Ok(None);
            }
        }
        Ok(Some(()))
    }

    /// Takes a row in and another one out.
    fn swap(&mut self, frame: &Frame, enters: u32, leaves: u32) -> Option<()> {
        let inner = self.forest.exchange(frame, enters, leaves)?;
        self.spans.settle(frame, &mut self.forest, inner)
    }

    /// Takes a row in whose way along the forest passes another one, which goes out; the basis stays as it is. None where a
    /// cycle of that forest has no offset.
    pub(crate) fn exchange(
        &mut self,
        frame: &Frame,
        enters: u32,
        leaves: u32,
    ) -> Result<Option<()>, AllocError> {
        let Some(top) = self.forest.lower_end(frame, leaves) else {
            return Ok(None);
        };
        self.mark(top)?;
        if self.swap(frame, enters, leaves).is_none() {
            return Ok(None);
        }
        let found = self.list_crossing(frame);
        self.unmark();
        found
    }

    /// By how much more offsets are open after an exchange.
    pub(crate) fn opened(&self, frame: &Frame) -> i64 {
        let mut more = 0i64;
        for priced in &self.spare.crossing {
            let before = self.basis.slopes(priced.row);
            let change = openness(frame, priced.row, Some(priced.slopes)).wrapping_sub(openness(
                frame, priced.row, before,
            ));
            more = more.wrapping_add(change);
        }
        more
    }

    /// Takes back an exchange behind which the basis was left as it was.
    pub(crate) fn take_back(&mut self, frame: &Frame, entered: u32, left: u32) -> Option<()> {
        self.swap(frame, left, entered)
    }

    /// What the circulation of the basis costs.
    pub(crate) fn cost(&self) -> i128 {
        self.spare.cost.saturating_sub(self.basis.fall())
    }

    /// Changes what flow costs on the rows that lead out of the marked part, and all prices.
    fn change_all(&mut self) -> Option<()> {
        for priced in &self.spare.crossing {
            self.basis.exchange_slopes(priced.row, priced.slopes)?;
        }
        self.basis.reprice()
    }

    /// Changes what flow costs on those of these rows on which it costs something else, with the prices that depend on each.
    fn change_each(&mut self, frame: &Frame) -> Option<()> {
        for priced in &self.spare.crossing {
            if self.basis.slopes(priced.row) != Some(priced.slopes) {
                self.basis.change_slopes(frame, priced.row, priced.slopes)?;
            }
        }
        Some(())
    }

    /// Goes on to a best basis after an exchange; None where the root of the forest has no timetable.
    pub(crate) fn solve(&mut self, frame: &Frame) -> Option<()> {
        if frame.rows().len() > FEW_ROWS {
            self.change_each(frame)?;
        } else {
            self.change_all()?;
        }
        match self.basis.solve(frame, MOST_PIVOTS) {
            PivotEnd::Best => Some(()),
            _ => None,
        }
    }

    /// Lets an exchange stand behind which the basis was solved.
    pub(crate) fn settle(&mut self) -> Option<()> {
        self.spare.cost = self.cost();
        self.spare.before.follow(&mut self.basis)
    }

    /// Takes back an exchange behind which the basis was solved.
    pub(crate) fn restore(&mut self, frame: &Frame, entered: u32, left: u32) -> Option<()> {
        self.swap(frame, left, entered)?;
        self.basis.go_back(&self.spare.before)
    }
}
