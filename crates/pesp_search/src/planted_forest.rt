//! The forest of what is left: its fundamental walks are the table that is searched.

ghost use Rattle.std.specs.Prelude.{◌≡◌, IfOk};
ghost use Rattle.pesp_branching.specs.Lifted.{IsReduced};

use crate::race::further;
use pesp_network::Network;
use pesp_problem::{Instance, Memory};
use pesp_reduce::{Reduced, reduce};
use pesp_timetables::search_forest;
use pesp_turns::{Observer, SearchPhase};
use std::alloc::Global;

/// How long a forest is looked for.
#[derive(Clone, Copy)]
pub(crate) enum Planting {
    /// As long as a search that rests on its cycles is worth it.
    Whole,
    /// For a search of many steps: longer where many rows are left, and else as long, twice, for the forest whose tree gets
    /// further.
    Long,
    /// For a first look, whose cycles no later bound rests on.
    Short,
}

/// Up to how many rows left two forests are compared: with more that costs more than it brings.
const MOST_RACED: usize = 2_500;

/// How many exchanges the search for a forest tries: so many for each cycle, and at most so many in all and times rows.
#[derive(Clone, Copy)]
struct Exchanges {
    a_cycle: usize,
    in_all: usize,
    times_rows: usize,
}

/// For a search that rests on its cycles.
const MANY: Exchanges = Exchanges {
    a_cycle: 30,
    in_all: 16_000,
    times_rows: 128_000_000,
};

/// For one of many steps with many rows left, where that is enough for each cycle.
const MOST: Exchanges = Exchanges {
    a_cycle: 50,
    in_all: 100_000,
    times_rows: 640_000_000,
};

/// For a first look.
const FEW: Exchanges = Exchanges {
    a_cycle: 30,
    in_all: 1_000,
    times_rows: 128_000_000,
};

impl Exchanges {
    /// How many would be tried with so many cycles, were there no limit.
    fn for_cycles(self, cycles: usize) -> usize {
        cycles.min(100_000).saturating_mul(self.a_cycle)
    }

    /// How many there are at most with so many rows.
    fn limit(self, rows: usize) -> usize {
        self.in_all.min(self.times_rows / rows.max(1))
    }

    /// Whether the limit leaves each cycle its exchanges.
    fn is_enough(self, rows: usize, cycles: usize) -> bool {
        self.for_cycles(cycles) <= self.limit(rows)
    }
}

/// How many exchanges of a row the search for a forest tries, with so many rows and cycles left.
fn exchanges_for(rows: usize, cycles: usize, planting: Planting) -> u32 {
    let exchanges = match planting {
        Planting::Short => FEW,
        Planting::Long if rows > MOST_RACED && MOST.is_enough(rows, cycles) => MOST,
        Planting::Whole | Planting::Long => MANY,
    };
    let count = exchanges.for_cycles(cycles).min(exchanges.limit(rows));
    u32::try_from(count).unwrap_or(u32::MAX)
}

/// The rows of a forest, by their numbers from 1, whose cycles promise a strong bound.
fn forest_for(
    alloc: Global,
    instance: &Instance,
    network: &Network,
    planting: Planting,
) -> Result<Vec<u32>, Memory> {
    let rows = network.rows().len();
    let cycles = rows.saturating_sub(network.forest(alloc)?.len());
    let exchanges = exchanges_for(rows, cycles, planting);
    let first = search_forest(alloc, network, 1, exchanges)?;
    match planting {
        Planting::Long if rows <= MOST_RACED => {
            let second = search_forest(alloc, network, 2, exchanges)?;
            further(alloc, instance, first, second)
        }
        _ => Ok(first),
    }
}

/// What is left of an instance, over these rows, by their numbers from 1, where they can be a forest's.
pub(crate) fn planted_over(
    alloc: Global,
    instance: &Instance,
    forest: &[u32],
) -> Result<Reduced, Memory>
    ensures original { IfOk result (λ r. r.original ≡ instance.now) }
    ensures reduced { IfOk result IsReduced }
{
    let reduced = reduce(alloc, instance)?;
    reduced.with_forest(alloc, forest)
}

/// What is left of an instance, over a forest whose cycles promise a strong bound. An observer looks on.
pub(crate) fn planted<O: Observer>(
    alloc: Global,
    instance: &Instance,
    planting: Planting,
    observer: &mut O,
) -> Result<Reduced, Memory>
    ensures original { IfOk result (λ r. r.original ≡ instance.now) }
    ensures reduced { IfOk result IsReduced }
{
    observer.at(SearchPhase::Reduction);
    let reduced = reduce(alloc, instance)?;
    observer.at(SearchPhase::Forest);
    match forest_for(alloc, instance, reduced.network(), planting) {
        Ok(forest) => reduced.with_forest(alloc, &forest),
        Err(refused) => {
            drop(reduced);
            Err(refused)
        }
    }
}
