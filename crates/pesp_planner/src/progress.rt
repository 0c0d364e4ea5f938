//! How far a search is, told while it works. No promise of an answer speaks of it.

use pesp_board::Board;
use pesp_looks::Milestones;
use pesp_search::{Observer, SearchPhase, Standing};
use pesp_sharp_search::SharpObserver;
use std::fmt;
use std::rt::Clock;
use std::time::{Duration, Instant};

/// How far a search is.
#[derive(Clone, Copy, PartialEq, Eq, Drop)]
pub struct SearchProgress {
    /// How many leaves were split.
    pub steps: u32,
    /// How many leaves are open, where that is known.
    pub open: Option<usize>,
    /// No timetable costs less; None where there is none at all.
    pub bound: Option<u64>,
    /// The cost of the best timetable so far.
    pub cost: Option<u64>,
}

impl SearchProgress {
    /// How far the search on a board is after so many steps.
    pub fn of(steps: u32, board: &Board) -> SearchProgress {
        let cost = board.best();
        let bound = match (board.least(), cost) {
            (Some(least), Some(cost)) => Some(least.min(cost)),
            (least, _) => least,
        };
        SearchProgress {
            steps,
            open: Some(board.open_leaves()),
            bound,
            cost,
        }
    }

    /// How far a search is that sharpens.
    pub(crate) fn of_standing(standing: Standing) -> SearchProgress {
        let Standing {
            steps_used,
            bound,
            cost,
        } = standing;
        SearchProgress {
            steps: steps_used,
            open: None,
            bound: Some(bound.min(cost.unwrap_or(bound))),
            cost,
        }
    }

    /// How much of the cost might still be saved, in thousandths of it, rounded down.
    pub(crate) fn gap(&self) -> Option<u64> {
        let (bound, cost) = (self.bound?, self.cost?);
        let most = u128::from(cost.saturating_sub(bound)) * 1000;
        let share = most.checked_div(u128::from(cost)).unwrap_or(0);
        u64::try_from(share).ok()
    }
}

/// A number, or `none`.
#[derive(Drop)]
struct NumberOrNone(Option<u64>);

impl fmt::Display for NumberOrNone {
    fn fmt<W: fmt::Write>(&self, f: &mut fmt::Formatter<W>) -> fmt::Result {
        match self.0 {
            Some(number) => write!(f, "{number}"),
            None => f.write_str("none"),
        }
    }
}

/// One line, without the line feed at its end.
impl fmt::Display for SearchProgress {
    fn fmt<W: fmt::Write>(&self, f: &mut fmt::Formatter<W>) -> fmt::Result {
        let SearchProgress { steps, open, .. } = *self;
        write!(f, "progress: steps {steps}")?;
        if let Some(open) = open {
            write!(f, ", open leaves {open}")?;
        }
        let (bound, cost) = (NumberOrNone(self.bound), NumberOrNone(self.cost));
        write!(f, ", cost {cost}, bound {bound}")?;
        match self.gap() {
            None => Ok(()),
            Some(gap) => {
                let (whole, tenth) = (gap / 10, gap % 10);
                write!(f, ", gap {whole}.{tenth} %")
            }
        }
    }
}

/// How far the search is, where this look is told.
pub(crate) fn passed(
    milestones: &mut Milestones,
    steps: u32,
    board: &Board,
) -> Option<SearchProgress> {
    if milestones.is_told(steps, board.best()) {
        Some(SearchProgress::of(steps, board))
    } else {
        None
    }
}

/// How far a search is that sharpens, where this look is told.
pub(crate) fn passed_standing(
    milestones: &mut Milestones,
    standing: Standing,
) -> Option<SearchProgress> {
    if milestones.is_told(standing.steps_used, standing.cost) {
        Some(SearchProgress::of_standing(standing))
    } else {
        None
    }
}

/// How many seconds pass at most between two lines, where turns end meanwhile.
pub(crate) const SECONDS: u64 = 5;

/// How long a search has gone on, and how many leaves were split meanwhile.
#[derive(Clone, Copy, Drop)]
struct SearchPace {
    steps: u32,
    gone: Duration,
}

impl SearchPace {
    /// Steps a second, in tenths, rounded down; None before a millisecond has passed.
    fn tenths(&self) -> Option<u128> {
        let steps = u128::from(self.steps).saturating_mul(10_000);
        steps.checked_div(self.gone.as_millis())
    }
}

/// What stands behind a line of progress.
impl fmt::Display for SearchPace {
    fn fmt<W: fmt::Write>(&self, f: &mut fmt::Formatter<W>) -> fmt::Result {
        let seconds = self.gone.as_secs();
        write!(f, ", seconds {seconds}")?;
        match self.tenths() {
            None => Ok(()),
            Some(tenths) => {
                let (whole, tenth) = (tenths / 10, tenths % 10);
                write!(f, ", steps a second {whole}.{tenth}")
            }
        }
    }
}

/// A line that tells which part of the search begins, with the seconds since the run began, where a clock could be read.
#[derive(Drop)]
struct PhaseLine {
    part: SearchPhase,
    gone: Option<Duration>,
}

/// What a part of the search does, in words.
pub(crate) fn words_of(part: SearchPhase) -> &'static str {
    match part {
        SearchPhase::Reduction => "drops activities that decide nothing",
        SearchPhase::Forest => "looks for a spanning forest",
        SearchPhase::Root => "looks for the root's bound",
        SearchPhase::Times => "looks for first times",
    }
}

impl fmt::Display for PhaseLine {
    fn fmt<W: fmt::Write>(&self, f: &mut fmt::Formatter<W>) -> fmt::Result {
        let part = words_of(self.part);
        write!(f, "progress: {part}")?;
        match self.gone {
            Some(gone) => {
                let seconds = gone.as_secs();
                write!(f, ", seconds {seconds}")
            }
            None => Ok(()),
        }
    }
}

/// A line of progress with its pace, where a clock could be read.
#[derive(Drop)]
struct Paced {
    progress: SearchProgress,
    pace: Option<SearchPace>,
}

impl fmt::Display for Paced {
    fn fmt<W: fmt::Write>(&self, f: &mut fmt::Formatter<W>) -> fmt::Result {
        let Paced { progress, pace } = *self;
        match pace {
            Some(pace) => write!(f, "{progress}{pace}"),
            None => write!(f, "{progress}"),
        }
    }
}

/// Tells on standard error how far a search is, where that is asked for: when a part of it begins, at the milestones, and else when
/// five seconds have passed since the last line. A line that can't be written is dropped, and where the clock can't be read no line
/// waits for it.
#[derive(Drop)]
pub struct Teller<'a, R> {
    /// By which it tells; None where nothing is told, and no clock is read.
    rt: Option<&'a R>,
    milestones: Milestones,
    begun: Option<Instant>,
    told: Option<Instant>,
}

impl<'a, R: Eprint + Clock> Teller<'a, R> {
    /// A teller of a run that begins, which it tells, where it tells anything; seconds count from here on.
    pub fn begin(rt: &'a R, tells: bool) -> Teller<'a, R> {
        let mut teller = Teller {
            rt: if tells { Some(rt) } else { None },
            milestones: Milestones::new(),
            begun: None,
            told: None,
        };
        teller.begun = teller.now();
        teller.told = teller.begun;
        teller.say("progress: reads the instance");
        teller
    }

    /// What the clock tells, where it is read and can be.
    fn now(&self) -> Option<Instant> {
        Instant::now(self.rt?).ok()
    }

    /// Tells a line, where anything is told.
    fn say<D: fmt::Display + Drop>(&self, line: D) {
        if let Some(rt) = self.rt {
            let _ = rt.eprintln(line);
        }
    }

    /// How long it is since the run began.
    fn gone(&self, now: Option<Instant>) -> Option<Duration> {
        Some(now?.duration_since(self.begun?))
    }

    /// Whether so much time has passed since the last line that one is due.
    fn is_due(&self, now: Option<Instant>) -> bool {
        match (self.told, now) {
            (Some(told), Some(now)) => now.duration_since(told).as_secs() >= SECONDS,
            _ => false,
        }
    }

    /// Tells how far the search is now.
    fn tell(&mut self, progress: SearchProgress, now: Option<Instant>) {
        let pace = match self.gone(now) {
            Some(gone) => Some(SearchPace {
                steps: progress.steps,
                gone,
            }),
            None => None,
        };
        self.told = now;
        self.say(Paced { progress, pace });
    }
}

impl<R: Eprint + Clock> Observer for Teller<'_, R> {
    fn at(&mut self, part: SearchPhase) {
        let now = self.now();
        let gone = self.gone(now);
        self.told = now;
        self.say(PhaseLine { part, gone });
    }

    fn look(&mut self, steps_used: u32, board: &Board) {
        let now = self.now();
        match passed(&mut self.milestones, steps_used, board) {
            Some(progress) => self.tell(progress, now),
            None if self.is_due(now) => self.tell(SearchProgress::of(steps_used, board), now),
            None => {}
        }
    }
}

impl<R: Eprint + Clock> SharpObserver for Teller<'_, R> {
    fn stands(&mut self, standing: Standing) {
        let now = self.now();
        let told = self.milestones.is_told(standing.steps_used, standing.cost);
        if told || self.is_due(now) {
            self.tell(SearchProgress::of_standing(standing), now);
        }
    }
}
