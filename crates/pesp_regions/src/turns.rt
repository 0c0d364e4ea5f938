//! Whose turn it is where a search goes on piece by piece: the tree's, or that of what looks for times.

/// Each of both has one such part of the other's work at least.
const LEAST_PART: u64 = 8;

/// How much work is remembered for each activity that is left, the later one more.
const REMEMBERED: u64 = 1_000_000;

/// How many turns are remembered at most: one of less work counts as such a part of what is remembered, so that none counts as
/// nothing.
const MOST_TURNS: u64 = 1_000;

/// The work of one of both, in numbers that were looked at: what it took off the gap by its last work, and all of it.
#[derive(Clone, Copy)]
struct Account {
    gain: u64,
    work: u64,
    all: u64,
}

/// Who takes the next turn.
#[derive(Clone, Copy, PartialEq, Eq)]
pub enum NextTurn {
    Tree,
    Times,
}

/// The accounts of both, and the gap after the last turn, where there was one.
#[derive(Clone, Copy)]
pub struct Turns {
    tree: Account,
    times: Account,
    gap: Option<u64>,
    /// How much work is remembered.
    remembered: u64,
}

impl Account {
    /// No work so far.
    fn new() -> Account {
        Account {
            gain: 0,
            work: 0,
            all: 0,
        }
    }

    /// Notes what so much work took off the gap; so much of the later work is remembered.
    fn note(&mut self, gain: u64, work: u64, remembered: u64) {
        self.gain = self.gain.saturating_add(gain);
        self.work = self.work.saturating_add(work);
        self.all = self.all.saturating_add(work);
        if self.work > remembered {
            self.gain /= 2;
            self.work /= 2;
        }
    }

    /// Whether it had less than its part, beside the other.
    fn is_short(&self, other: &Account) -> bool {
        self.all.saturating_mul(LEAST_PART) < other.all
    }

    /// What it took off the gap by as much work as both did.
    fn worth(&self, other: &Account) -> u128 {
        u128::from(self.gain).saturating_mul(u128::from(other.work))
    }
}

impl Turns {
    /// Nobody has had a turn, with so many activities left.
    pub fn new(activities: usize) -> Turns {
        let activities = u64::try_from(activities).unwrap_or(u64::MAX);
        Turns {
            tree: Account::new(),
            times: Account::new(),
            gap: None,
            remembered: activities.saturating_mul(REMEMBERED),
        }
    }

    /// What a turn took off the gap.
    fn gain(&self, gap: Option<u64>) -> u64 {
        match (self.gap, gap) {
            (Some(before), Some(after)) => before.saturating_sub(after),
            _ => 0,
        }
    }

    /// Whose turn it is where times have their least part beside the tree.
    pub fn next_by_part(&self) -> NextTurn {
        if self.times.is_short(&self.tree) {
            NextTurn::Times
        } else {
            NextTurn::Tree
        }
    }

    /// Whose turn it is by worth: that of the one who took more off the gap last by as much work; each has its least part.
    pub fn next_by_worth(&self) -> NextTurn {
        let (tree, times) = (&self.tree, &self.times);
        let by_tree = tree.worth(times);
        let by_times = times.worth(tree);
        let is_even = by_tree == by_times && times.all <= tree.all;
        let takes_times = by_tree < by_times || is_even;
        if times.is_short(tree) || (takes_times && !tree.is_short(times)) {
            NextTurn::Times
        } else {
            NextTurn::Tree
        }
    }

    /// Notes the work of a turn, and what it left of the gap; None where no timetable is known.
    pub fn note(&mut self, turn: NextTurn, gap: Option<u64>, work: u64) {
        let gain = self.gain(gap);
        let work = work.max(self.remembered / MOST_TURNS);
        self.gap = gap;
        match turn {
            NextTurn::Tree => self.tree.note(gain, work, self.remembered),
            NextTurn::Times => self.times.note(gain, work, self.remembered),
        }
    }
}
