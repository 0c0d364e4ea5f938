//! The search for a forest whose cycles give a strong bound.

use crate::exchange::{Exchange, draw};
use crate::goal::{Goal, open_in_all};
use crate::heat::HeatSchedule;
use crate::settings::DRAWN_EACH;
use crate::table::ForestTable;
use pesp_forest::{Frame, Random};
use pesp_network::Network;
use pesp_problem::Memory;
use std::alloc::{AllocError, Global};

/// A search: where it stands, the rows outside its forest, how open its cycles are, what the forest is worth, and the best rows
/// so far.
#[derive(Drop)]
struct ForestSearch {
    table: ForestTable,
    outside: Vec<u32>,
    goal: Goal,
    heat: HeatSchedule,
    random: Random,
    open: i64,
    worth: i128,
    best: i128,
    rows: Vec<u32>,
    count: u32,
}

/// Numbers of rows from 1, from places from 0.
fn numbered(alloc: Global, places: &[u32]) -> Result<Vec<u32>, AllocError> {
    let mut numbers = Vec::with_capacity(alloc, places.len())?;
    for place in places {
        numbers.push(place.saturating_add(1))?;
    }
    Ok(numbers)
}

impl ForestSearch {
    /// A search of so many exchanges from a table; no rows are kept yet.
    fn new(
        alloc: Global,
        frame: &Frame,
        table: ForestTable,
        seed: u32,
        most: u32,
    ) -> Result<ForestSearch, AllocError> {
        let outside = match table.forest.rows(alloc, false) {
            Ok(outside) => outside,
            Err(refused) => {
                drop(table);
                return Err(refused);
            }
        };
        let goal = Goal::new(outside.len());
        let open = open_in_all(frame, &table.basis);
        let worth = goal.worth(frame, table.cost(), open);
        Ok(ForestSearch {
            heat: HeatSchedule::new(frame, goal, outside.len(), most),
            rows: Vec::new(alloc),
            table,
            outside,
            goal,
            random: Random::new(u64::from(seed)),
            open,
            worth,
            best: worth,
            count: 0,
        })
    }

    /// Keeps the rows of the forest as it stands.
    fn keep_rows(&mut self, alloc: Global) -> Result<(), AllocError> {
        self.rows = self.table.forest.rows(alloc, true)?;
        Ok(())
    }

    /// Keeps an exchange that was made, and its rows where they are the best.
    fn keep(
        &mut self,
        alloc: Global,
        exchange: Exchange,
        worth: i128,
    ) -> Result<Option<()>, AllocError> {
        let Some(slot) = self.outside.get_mut(exchange.place as usize) else {
            return Ok(None);
        };
        *slot = exchange.leaves;
        self.worth = worth;
        if worth > self.best {
            self.best = worth;
            self.keep_rows(alloc)?;
        }
        Ok(Some(()))
    }

    /// Judges an exchange that was made by the root of its forest: keeps it, or takes it back; None where the search ends.
    fn judge(
        &mut self,
        alloc: Global,
        frame: &Frame,
        exchange: Exchange,
        open: i64,
    ) -> Result<Option<()>, AllocError> {
        if self.table.solve(frame).is_none() {
            self.keep_rows(alloc)?;
            return Ok(None);
        }
        let worth = self.goal.worth(frame, self.table.cost(), open);
        let loss = self.worth.saturating_sub(worth);
        if !self.heat.takes(&mut self.random, self.count, loss) {
            return Ok(self.table.restore(frame, exchange.enters, exchange.leaves));
        }
        self.open = open;
        if self.table.settle().is_none() {
            self.keep_rows(alloc)?;
            return Ok(None);
        }
        self.keep(alloc, exchange, worth)
    }

    /// Tries an exchange, and takes it back at once where it leaves many more offsets open; None where the search ends, with
    /// the forest as it stands then.
    fn attempt(
        &mut self,
        alloc: Global,
        frame: &Frame,
        exchange: Exchange,
    ) -> Result<Option<()>, AllocError> {
        let Exchange { enters, leaves, .. } = exchange;
        self.count = self.count.saturating_add(1);
        if self.table.exchange(frame, enters, leaves)?.is_none() {
            self.keep_rows(alloc)?;
            return Ok(None);
        }
        let open = self.open.wrapping_add(self.table.opened(frame));
        let before = self.goal.penalty(frame, self.open);
        let more = self.goal.penalty(frame, open).saturating_sub(before);
        if !self.heat.looks_at(&mut self.random, more) {
            return Ok(self.table.take_back(frame, enters, leaves));
        }
        self.judge(alloc, frame, exchange, open)
    }

    /// Tries so many exchanges, or fewer where too many are drawn that aren't to be tried.
    fn run(&mut self, alloc: Global, frame: &Frame, most: u32) -> Result<(), AllocError> {
        for _ in 0..most.saturating_mul(DRAWN_EACH) {
            if self.count >= most {
                return Ok(());
            }
            let drawn = draw(&mut self.random, frame, &self.table, &self.outside);
            if let Some(exchange) = drawn {
                if self.attempt(alloc, frame, exchange)?.is_none() {
                    return Ok(());
                }
            }
        }
        Ok(())
    }

    /// The best rows of so many exchanges, numbered from 1.
    fn found(&mut self, alloc: Global, frame: &Frame, most: u32) -> Result<Vec<u32>, AllocError> {
        self.keep_rows(alloc)?;
        self.run(alloc, frame, most)?;
        numbered(alloc, &self.rows)
    }
}

/// The rows that are found from those of a forest, numbered from 1; None where its root has no timetable.
fn found_from(
    alloc: Global,
    frame: &Frame,
    numbers: &[u32],
    seed: u32,
    exchanges: u32,
) -> Result<Option<Vec<u32>>, AllocError> {
    let Some(table) = ForestTable::new(alloc, frame, numbers)? else {
        return Ok(None);
    };
    let mut search = ForestSearch::new(alloc, frame, table, seed, exchanges)?;
    let found = search.found(alloc, frame, exchanges);
    drop(search);
    Ok(Some(found?))
}

/// The rows that are found from those of the network's own forest, numbered from 1; that forest where its root has no timetable.
fn found_over(
    alloc: Global,
    network: &Network,
    frame: &Frame,
    seed: u32,
    exchanges: u32,
) -> Result<Vec<u32>, Memory> {
    let numbers = network.forest(alloc)?;
    let found = found_from(alloc, frame, &numbers, seed, exchanges)?;
    Ok(found.unwrap_or(numbers))
}

/// The rows of a spanning forest, by their numbers from 1, whose cycles promise a strong bound: found from the network's own
/// forest by so many exchanges of a row, drawn by a seed. Where some root on the way has no timetable, that forest. Every
/// call with the same seed gives the same.
pub fn search_forest(
    alloc: Global,
    network: &Network,
    seed: u32,
    exchanges: u32,
) -> Result<Vec<u32>, Memory> {
    let frame = Frame::new(alloc, network)?;
    let found = found_over(alloc, network, &frame, seed, exchanges);
    drop(frame);
    found
}
