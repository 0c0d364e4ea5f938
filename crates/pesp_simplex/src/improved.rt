//! What an improvement gives, and why it isn't given.

use pesp_problem::Memory;

/// Why an improvement ended: no shift of one side of a fundamental cut of the forest is cheaper, or the rounds were spent.
#[derive(Clone, Copy, Debug, PartialEq, Eq)]
pub enum Stop {
    Local,
    Rounds,
}

/// Times with their cost, the rows of a spanning forest by their numbers from 1, and why the improvement ended.
#[derive(Drop)]
pub struct Improved {
    pub times: Vec<u32>,
    pub cost: u64,
    pub forest: Vec<u32>,
    pub stop: Stop,
}

/// Why times aren't improved: they are no timetable of the network, or a growth was refused.
#[derive(Clone, Copy, Debug, PartialEq, Eq)]
pub enum SimplexRefusal {
    NotFeasible,
    Memory,
}

impl From<Memory> for SimplexRefusal {
    ghost use Rattle.std.specs.Prelude.{◌≡◌};
    ghost use Rattle.pesp_simplex.specs.declared.improved.SimplexRefusal.TheVariants.{Memory};

    ghost from_gives = { λ _ refusal. refusal ≡ Memory };

    fn from(_refused: Memory) -> SimplexRefusal {
        SimplexRefusal::Memory
    }
}
