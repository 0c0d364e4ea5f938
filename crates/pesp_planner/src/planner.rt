//! Who looks on while a plan is made: it is told how far it is, and the plan ends when its time is over.

ghost use Rattle.std.specs.Prelude.{◌≡◌, ◌↔◌, Some, IsTrue};
ghost use Rattle.pesp_looks.specs.Looks.{AreOver};

use crate::plan_words::{Again, PlanOutcome, PlanStage, Sizes};
use crate::progress::{SECONDS, SearchProgress, words_of};
use pesp_board::Board;
use pesp_looks::{Overseer, are_over};
use pesp_problem::Instance;
use pesp_search::{Observer, SearchPhase, SharpWatcher, Standing};
use pesp_truth::Answer;
use std::fmt::Display;
use std::time::{Clock, Instant};

/// How many seconds pass at least between two texts that are kept, but for the first and the last.
const PAUSE: u64 = 10;

/// Tells on standard error how far a plan is, at most once in five seconds, and ends it after so many seconds. A line that can't be
/// written is dropped, and a clock that can't be read ends nothing.
#[derive(Drop)]
pub struct Planner<'a, R> {
    rt: &'a R,
    /// For how many seconds the plan is made.
    pub seconds: u32,
    quiet: bool,
    again: Again<'a>,
    begun: Option<Instant>,
    /// When a line was told last, or the plan began.
    told: Option<Instant>,
    /// When a text could be kept last, or the plan began.
    kept: Option<Instant>,
    /// What was known by then.
    known: Answer,
    /// How many seconds have gone by the last reading of the clock, where it could be read.
    gone: Option<u64>,
    /// Whether the piece was ended so that what is known is kept.
    pauses: bool,
}

/// How many whole seconds lie between two readings of the clock, where both could be read.
fn seconds_between(from: Option<Instant>, to: Option<Instant>) -> Option<u64> {
    Some(to?.duration_since(from?).as_secs())
}

/// Whether something better is known than by an answer.
fn is_better(standing: Standing, known: Answer) -> bool {
    let cheaper = match (standing.cost, known.cost()) {
        (Some(cost), Some(known)) => cost < known,
        (Some(_), None) => true,
        (None, _) => false,
    };
    match known {
        Answer::Bounded { least, .. } => cheaper || standing.bound > least,
        Answer::Optimal(_) | Answer::Infeasible => false,
    }
}

impl<'a, R: Eprint + Clock> Planner<'a, R> {
    /// A planner that has told nothing; seconds count from here on.
    pub fn new(rt: &'a R, seconds: u32, quiet: bool, again: Again<'a>) -> Planner<'a, R>
        ensures { result.seconds ≡ seconds }
    {
        let begun = Instant::now(rt).ok();
        Planner {
            rt,
            seconds,
            quiet,
            again,
            begun,
            told: begun,
            kept: begun,
            known: Answer::Bounded {
                least: 0,
                cost: None,
            },
            gone: None,
            pauses: false,
        }
    }

    /// Tells a line, unless nothing is told.
    fn say<D: Display + Drop>(&self, line: D) {
        if !self.quiet {
            let _ = self.rt.eprintln(line);
        }
    }

    /// Whether so much time has passed since the last line that one is due.
    fn is_due(&self, now: Option<Instant>) -> bool {
        seconds_between(self.told, now).unwrap_or(0) >= SECONDS
    }

    /// Tells how far the plan is, where a line is due.
    fn tell(&mut self, progress: SearchProgress, now: Option<Instant>) {
        if self.is_due(now) {
            self.told = now;
            let seconds = seconds_between(self.begun, now);
            self.say(PlanStage { seconds, progress });
        }
    }

    /// Whether the time is over by what the clock tells.
    fn is_over(&mut self, now: Option<Instant>) -> bool
        ensures over { IsTrue result ↔ AreOver (Some self.new.seconds) self.new.gone }
        ensures seconds { self.new.seconds ≡ self.old.seconds }
    {
        self.gone = seconds_between(self.begun, now);
        are_over(Some(self.seconds), self.gone)
    }

    /// Whether a piece ends here, so that what is known is kept.
    fn is_pause(&self, standing: Standing, now: Option<Instant>) -> bool {
        let rested = seconds_between(self.kept, now).unwrap_or(0) >= PAUSE;
        rested && is_better(standing, self.known)
    }
}

impl<R: Eprint + Clock> Observer for Planner<'_, R> {
    fn at(&mut self, part: SearchPhase) {
        let now = Instant::now(self.rt).ok();
        if self.is_due(now) {
            self.told = now;
            self.say(words_of(part));
        }
    }

    fn look(&mut self, steps_used: u32, board: &Board) {
        let now = Instant::now(self.rt).ok();
        self.tell(SearchProgress::of(steps_used, board), now);
    }
}

impl<R: Eprint + Clock> SharpWatcher for Planner<'_, R> {
    fn goes_on(&mut self, standing: Standing) -> bool {
        let now = Instant::now(self.rt).ok();
        self.tell(SearchProgress::of_standing(standing), now);
        self.pauses = self.is_pause(standing, now);
        !self.is_over(now) && !self.pauses
    }
}

impl<R: Eprint + Clock> Overseer for Planner<'_, R> {
    fn begins(&mut self, instance: &Instance) {
        self.say(Sizes {
            activities: instance.rows().len(),
            events: instance.events().len(),
            period: instance.period(),
        });
    }

    fn goes_further(&mut self, answer: Answer) -> bool {
        let now = Instant::now(self.rt).ok();
        self.known = answer;
        self.kept = now;
        self.pauses && !self.is_over(now)
    }

    fn lacks_memory(&mut self) {
        self.say("the search stops here for want of memory");
    }

    fn ends(&mut self, answer: Answer) {
        let again = self.again;
        self.say(PlanOutcome { answer, again });
    }
}
