//! Where no timetables are looked for.

use crate::effort::Effort;
use crate::finder::TimesFinder;
use pesp_network::Network;
use pesp_problem::Memory;

/// A finder that looks for nothing.
#[derive(Clone, Copy, PartialEq, Eq)]
pub struct NoTimes;

impl TimesFinder for NoTimes {
    fn look_at(&mut self, _network: &Network) -> Result<(), Memory> {
        Ok(())
    }

    fn is_looking(&self) -> bool {
        false
    }

    fn set_effort(&mut self, _effort: Effort) {}

    fn begin(&mut self) -> Result<(), Memory> {
        Ok(())
    }

    fn owes_first(&self) -> bool {
        false
    }

    fn end_first(&mut self) -> Result<(), Memory> {
        Ok(())
    }

    fn go_on(&mut self, _steps: u32) -> Result<(), Memory> {
        Ok(())
    }

    fn take(&mut self, _times: Vec<u32>) -> Result<(), Memory> {
        Ok(())
    }

    fn best(&self) -> Result<Option<Vec<u32>>, Memory> {
        Ok(None)
    }

    fn work(&self) -> u64 {
        0
    }

    fn is_annealing(&self) -> bool {
        false
    }

    fn make_piece(&mut self) -> Result<(), Memory> {
        Ok(())
    }
}
