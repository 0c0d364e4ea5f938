//! What proposes, beside what finds timetables.

use crate::proposing::{ChosenLeaves, Proposing};
use pesp_cert::Fronted;
use pesp_forest::{Effort, TimesFinder};
use pesp_network::Network;
use pesp_problem::{Instance, Memory, Share};
use pesp_reduce::Reduced;
use pesp_search::{Leaves, Pace, Proposals, SharpWatcher, Sharpener};
use pesp_truth::Answer;
use std::alloc::Global;
use std::mem::replace;

/// What splits the leaves of a tree and sharpens them by marked walks, in turn with a finder of timetables.
#[derive(Drop)]
pub struct TreeSharpener<F> {
    finder: F,
    /// The share of regions that is searched alone, where one is named.
    share: Option<Share>,
    /// The search that has begun, where one has that had something to find.
    proposing: Option<Proposing>,
}

impl<F: Drop> TreeSharpener<F> {
    /// One that has no instance yet, beside a finder.
    pub fn new(finder: F) -> TreeSharpener<F> {
        TreeSharpener {
            finder,
            share: None,
            proposing: None,
        }
    }
}

impl<F> TreeSharpener<F> {
    /// Has this in the place of the search that has begun.
    fn turn_to(&mut self, proposing: Option<Proposing>) {
        drop(replace(&mut self.proposing, proposing));
    }
}

impl<F: TimesFinder> TimesFinder for TreeSharpener<F> {
    fn look_at(&mut self, network: &Network) -> Result<(), Memory> {
        self.finder.look_at(network)
    }

    fn is_looking(&self) -> bool {
        self.finder.is_looking()
    }

    fn set_effort(&mut self, effort: Effort) {
        self.finder.set_effort(effort);
    }

    fn begin(&mut self) -> Result<(), Memory> {
        self.finder.begin()
    }

    fn owes_first(&self) -> bool {
        self.finder.owes_first()
    }

    fn end_first(&mut self) -> Result<(), Memory> {
        self.finder.end_first()
    }

    fn go_on(&mut self, steps: u32) -> Result<(), Memory> {
        self.finder.go_on(steps)
    }

    fn take(&mut self, times: Vec<u32>) -> Result<(), Memory> {
        self.finder.take(times)
    }

    fn best(&self) -> Result<Option<Vec<u32>>, Memory> {
        self.finder.best()
    }

    fn work(&self) -> u64 {
        self.finder.work()
    }

    fn is_annealing(&self) -> bool {
        self.finder.is_annealing()
    }

    fn make_piece(&mut self) -> Result<(), Memory> {
        self.finder.make_piece()
    }
}

impl<F: TimesFinder> Sharpener for TreeSharpener<F> {
    fn sharpen_root(
        &mut self,
        alloc: Global,
        instance: &Instance,
        plain: &Fronted,
        reduced: Reduced,
        pace: Pace,
    ) -> Result<(), Memory> {
        self.turn_to(None);
        let proposing = Proposing::begin(alloc, instance, plain, reduced, pace)?;
        self.turn_to(proposing);
        Ok(())
    }

    fn take_share(&mut self, share: Option<Share>) {
        self.share = share;
    }

    fn sharpen_from(
        &mut self,
        alloc: Global,
        instance: &Instance,
        base: &Fronted,
        leaves: Option<Leaves<'_>>,
        pace: Pace,
    ) -> Result<(), Memory> {
        self.turn_to(None);
        let beginning = ChosenLeaves {
            leaves,
            share: self.share,
        };
        let finder = &mut self.finder;
        let proposing = Proposing::begin_from(alloc, instance, base, beginning, pace, finder)?;
        self.turn_to(proposing);
        Ok(())
    }

    fn sharpen<W: SharpWatcher>(
        &mut self,
        alloc: Global,
        instance: &Instance,
        base: &Fronted,
        watcher: &mut W,
    ) -> Result<(), Memory> {
        let Some(proposing) = &mut self.proposing else {
            return Ok(());
        };
        proposing.go_on(alloc, instance, base, &mut self.finder, watcher)
    }

    fn proposals(
        &self,
        alloc: Global,
        instance: &Instance,
        base: &Fronted,
        old: &Fronted,
    ) -> Result<Proposals, Memory> {
        match &self.proposing {
            Some(proposing) => proposing.proposals(alloc, instance, base, old),
            None => Ok(Proposals::none()),
        }
    }

    fn exceeds(&self, answer: Answer) -> bool {
        match &self.proposing {
            Some(proposing) => proposing.exceeds(answer),
            None => false,
        }
    }

    fn is_sharpened(&self) -> bool {
        match &self.proposing {
            Some(proposing) => proposing.is_over(),
            None => true,
        }
    }

    fn forget(&mut self) {
        self.turn_to(None);
    }
}
