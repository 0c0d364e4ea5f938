//! Events on the ways of trains.

ghost use Rattle.std.specs.Prelude.{◌≡◌};
ghost use Rattle.pesp_railway.specs.Words.{direction_word, halt_word};

/// In which direction a train goes along its line.
#[derive(Clone, Copy, PartialEq, Eq)]
pub enum Direction {
    /// To stations that the names first name later.
    Out,
    /// To stations that they name earlier.
    Back,
    /// It goes to no other station.
    Nowhere,
}

impl Direction {
    /// The word for it; empty where the train goes nowhere.
    pub fn word(self) -> &'static str
        ensures { result.now ≡ direction_word self }
    {
        match self {
            Direction::Out => "out",
            Direction::Back => "back",
            Direction::Nowhere => "",
        }
    }

    /// Its place among the directions of a line.
    pub(crate) fn place(self) -> u32 {
        match self {
            Direction::Out => 0,
            Direction::Back => 1,
            Direction::Nowhere => 2,
        }
    }
}

/// What a train does at an event.
#[derive(Clone, Copy, PartialEq, Eq)]
pub enum Halt {
    /// It comes from another station.
    Arrival,
    /// It leaves for another station.
    Departure,
    /// It does both at one time.
    Pass,
    /// It does neither.
    Other,
}

impl Halt {
    /// The word for it; empty where the train neither comes nor leaves.
    pub fn word(self) -> &'static str
        ensures { result.now ≡ halt_word self }
    {
        match self {
            Halt::Arrival => "arrival",
            Halt::Departure => "departure",
            Halt::Pass => "pass",
            Halt::Other => "",
        }
    }
}

/// An event on the way of a train: the number of the way, and that of the event along it, both from 1 on; how many periods
/// have begun since that of the way's first event; the direction of the way; and what the train does there.
#[derive(Clone, Copy)]
pub struct WayEvent {
    pub way: u32,
    pub stop: u32,
    pub laps: u32,
    pub direction: Direction,
    pub halt: Halt,
}
