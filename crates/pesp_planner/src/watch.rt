//! Who looks on while a search goes on from a certificate: it is told how far it is, and the search ends when its time is over.

ghost use Rattle.std.specs.Prelude.{◌≡◌, ◌↔◌, ⊤, true, IsSome, IsTrue};
ghost use Rattle.pesp_looks.specs.Looks.{AreOver};

use crate::progress::{passed, passed_standing};
use pesp_board::Board;
use pesp_looks::{Milestones, are_over};
use pesp_search::{SharpWatcher, Standing};
use pesp_turns::Watcher;
use std::time::{Clock, Instant};

/// Tells on standard error how far a search is, where that is asked for, and ends it after so many seconds, where they are
/// counted. A line that can't be written is dropped, and a clock that can't be read ends nothing.
#[derive(Drop)]
pub struct Watch<'a, R> {
    rt: &'a R,
    milestones: Option<Milestones>,
    /// For how many seconds the search may go on, where they are counted.
    pub seconds: Option<u32>,
    start: Option<Instant>,
    /// How many seconds have gone by the last reading of the clock, where it could be read.
    gone: Option<u64>,
    /// Whether the search was ended.
    ended: bool,
}

impl<'a, R: Eprint + Clock> Watch<'a, R> {
    /// A watch that begins now.
    pub fn new(rt: &'a R, progress: bool, seconds: Option<u32>) -> Watch<'a, R>
        ensures { result.seconds ≡ seconds }
    {
        Watch {
            rt,
            milestones: if progress {
                Some(Milestones::new())
            } else {
                None
            },
            seconds,
            start: Instant::now(rt).ok(),
            gone: None,
            ended: false,
        }
    }

    /// How many seconds have gone, where the clock can be read.
    fn seconds_gone(&self) -> Option<u64> {
        let gone = self.start?.elapsed(self.rt).ok()?;
        Some(gone.as_secs())
    }

    /// Reads the clock, and says whether the time is over by what it tells.
    fn is_over(&mut self) -> bool
        ensures over { IsTrue result ↔ AreOver self.new.seconds self.new.gone }
        ensures seconds { self.new.seconds ≡ self.old.seconds }
    {
        self.gone = self.seconds_gone();
        are_over(self.seconds, self.gone)
    }
}

impl<R: Eprint + Clock> SharpWatcher for Watch<'_, R> {
    fn goes_on(&mut self, standing: Standing) -> bool {
        if let Some(milestones) = &mut self.milestones {
            if let Some(progress) = passed_standing(milestones, standing) {
                let _ = self.rt.eprintln(progress);
            }
        }
        !self.is_over()
    }
}

impl<R: Eprint + Clock> Watcher for Watch<'_, R> {
    ghost may_end = { λ w. IsSome w.seconds };

    ghost has_ended = { λ w. w.ended ≡ true };

    ghost has_said = { λ _ _ _. ⊤ };

    fn goes_on(&mut self, steps_used: u32, board: &Board) -> bool {
        if let Some(milestones) = &mut self.milestones {
            if let Some(progress) = passed(milestones, steps_used, board) {
                let _ = self.rt.eprintln(progress);
            }
        }
        self.ended = self.is_over();
        !self.ended
    }
}
