//! Which looks at a search are told.

ghost use Rattle.std.specs.Prelude.{◌≡◌, ◌↔◌, ◌<◌, ◌≤◌, ◌*◌, min, max, IsTrue};
ghost use Rattle.pesp_looks.specs.Looks.{IsMilestone};

/// Which looks at a search are told: the first one, that at each doubling of the steps, and that at each better timetable.
#[derive(Clone, Copy, Drop)]
pub struct Milestones {
    due: u32,
    cost: Option<u64>,
}

impl Milestones {
    /// None was told so far.
    pub fn new() -> Milestones {
        Milestones { due: 0, cost: None }
    }

    /// Whether a look is told after so many steps, at which the best timetable costs so much.
    pub fn is_told(&mut self, steps: u32, cost: Option<u64>) -> bool
        ensures told { IsTrue result ↔ IsMilestone self.old steps cost }
        ensures cost { self.new.cost ≡ cost }
        ensures due { self.old.due ≤ steps → self.new.due ≡ max 1 (min (steps * 2) u32.MAX) }
        ensures later { steps < self.old.due → self.new.due ≡ self.old.due }
    {
        if steps < self.due && cost == self.cost {
            return false;
        }
        if steps >= self.due {
            self.due = steps.saturating_mul(2).max(1);
        }
        self.cost = cost;
        true
    }
}
