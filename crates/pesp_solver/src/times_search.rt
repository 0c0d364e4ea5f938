//! The search for timetables, of one network after the other.

use crate::looking::Looking;
use pesp_forest::{Effort, TimesFinder};
use pesp_network::Network;
use pesp_problem::Memory;
use std::alloc::Global;
use std::mem::replace;

/// The search for timetables of a network, once one is named.
#[derive(Drop)]
pub struct TimesSearch {
    alloc: Global,
    looking: Option<Looking>,
}

impl TimesSearch {
    /// A search that has no network yet.
    pub fn new(alloc: Global) -> TimesSearch {
        TimesSearch {
            alloc,
            looking: None,
        }
    }

    /// Has this in the place of what it looked for.
    fn turn_to(&mut self, looking: Option<Looking>) {
        drop(replace(&mut self.looking, looking));
    }
}

impl TimesFinder for TimesSearch {
    fn look_at(&mut self, network: &Network) -> Result<(), Memory> {
        self.turn_to(None);
        let looking = Looking::at(self.alloc, network)?;
        self.turn_to(Some(looking));
        Ok(())
    }

    fn is_looking(&self) -> bool {
        self.looking.is_some()
    }

    fn set_effort(&mut self, effort: Effort) {
        if let Some(looking) = &mut self.looking {
            looking.search.set_effort(effort);
        }
    }

    fn begin(&mut self) -> Result<(), Memory> {
        match &mut self.looking {
            Some(looking) => looking.search.begin(&looking.ordered.network),
            None => Ok(()),
        }
    }

    fn owes_first(&self) -> bool {
        match &self.looking {
            Some(looking) => looking.search.owes_first(),
            None => false,
        }
    }

    fn end_first(&mut self) -> Result<(), Memory> {
        match &mut self.looking {
            Some(looking) => looking.search.end_first(&looking.ordered.network),
            None => Ok(()),
        }
    }

    fn go_on(&mut self, steps: u32) -> Result<(), Memory> {
        match &mut self.looking {
            Some(looking) => looking.search.go_on(&looking.ordered.network, steps),
            None => Ok(()),
        }
    }

    fn take(&mut self, times: Vec<u32>) -> Result<(), Memory> {
        match &mut self.looking {
            Some(looking) => looking.take(times),
            None => Ok(()),
        }
    }

    fn best(&self) -> Result<Option<Vec<u32>>, Memory> {
        match &self.looking {
            Some(looking) => looking.best(),
            None => Ok(None),
        }
    }

    fn work(&self) -> u64 {
        match &self.looking {
            Some(looking) => looking.search.work(),
            None => 0,
        }
    }

    fn is_annealing(&self) -> bool {
        match &self.looking {
            Some(looking) => looking.search.is_annealing(),
            None => false,
        }
    }

    fn make_piece(&mut self) -> Result<(), Memory> {
        match &mut self.looking {
            Some(looking) => looking.search.make_piece(&looking.ordered.network),
            None => Ok(()),
        }
    }
}
