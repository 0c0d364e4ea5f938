//! Kinds of individuals, and which are to come next.

/// Where an individual begins: at a dive of the relaxation over the forest of smallest spans by weight, or over one that is
/// drawn; near the prices of the root; or at a dive that looks at no prices.
#[derive(Clone, Copy, PartialEq, Eq)]
pub enum Start {
    Relaxed,
    Elsewhere,
    NearPrices,
    Plain,
}

/// A kind of individuals, how many there were, and what they cost together.
#[derive(Clone, Copy)]
struct IndividualKind {
    start: Start,
    count: u64,
    cost: u128,
}

/// All kinds, those that cost least in front, and how many fours there were.
#[derive(Drop)]
pub struct Kinds {
    list: [IndividualKind; 4],
    fours: u32,
}

/// The kinds in the order of the first four.
const ALL: [Start; 4] = [
    Start::Relaxed,
    Start::Elsewhere,
    Start::NearPrices,
    Start::Plain,
];

impl IndividualKind {
    /// No individual so far.
    fn none(start: Start) -> IndividualKind {
        IndividualKind {
            start,
            count: 0,
            cost: 0,
        }
    }

    /// What an individual costs in the mean.
    fn mean(&self) -> u128 {
        self.cost / u128::from(self.count.max(1))
    }
}

impl Kinds {
    /// No individual so far.
    pub fn new() -> Kinds {
        let [first, second, third, last] = ALL;
        Kinds {
            list: [
                IndividualKind::none(first),
                IndividualKind::none(second),
                IndividualKind::none(third),
                IndividualKind::none(last),
            ],
            fours: 0,
        }
    }

    /// Notes what an individual of a kind costs.
    pub fn note(&mut self, start: Start, cost: u64) {
        for kind in self.list.iter_mut() {
            if kind.start == start {
                kind.count = kind.count.saturating_add(1);
                kind.cost = kind.cost.saturating_add(u128::from(cost));
            }
        }
    }

    /// The kind at a place, those that cost least in front.
    fn at(&self, place: usize) -> Start {
        self.list.get(place).map_or(Start::Plain, |kind| kind.start)
    }

    /// The kinds of the next four individuals: all of them, and after every such four the two that cost least, each twice.
    pub fn next_four(&mut self) -> [Start; 4] {
        let is_even = self.fours % 2 == 0;
        self.fours = self.fours.wrapping_add(1);
        if is_even {
            return ALL;
        }
        self.list.sort_unstable_by_key(|kind| kind.mean());
        let (first, second) = (self.at(0), self.at(1));
        [first, first, second, second]
    }
}
