//! The best timetable that was offered.

ghost use Rattle.std.specs.Prelude.{◌≡◌, ◌↔◌, ◌<◌, ◌≤◌, ℕ};
ghost use Rattle.pesp_tree.specs.Events.{IsCheaper};
ghost use Rattle.pesp_board.specs.Insides as spec;

/// Times, in the order of the events, and their cost.
#[derive(Drop)]
pub(crate) struct Best {
    pub(crate) times: Vec<u32>,
    pub(crate) cost: u64,
}

/// The cost of the best times; None where there are none.
pub(crate) fn cost_of(best: &Option<Best>) -> Option<u64>
    ensures { result ≡ spec.best_cost_of best.now }
{
    match best {
        None => None,
        Some(best) => Some(best.cost),
    }
}

/// A number above exactly those values that are below the best cost, where there is one.
pub(crate) fn most_of(best: &Option<Best>) -> u64
    ensures { (value : ℕ) → value ≤ 999999999999999999
        → (value < result) ↔ IsCheaper value (spec.best_cost_of best.now) }
{
    match best {
        None => u64::MAX,
        Some(best) => best.cost,
    }
}
