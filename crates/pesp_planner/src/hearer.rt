//! What became of old times, told in words.

use pesp_old_times::{Listener, Moves, ToldOldTimes};
use std::fmt;

/// Tells on standard error what became of old times, unless nothing is told.
#[derive(Drop)]
pub struct Hearer<'a, R> {
    rt: &'a R,
    quiet: bool,
}

/// How many events have no time, and how many times are told of no event.
#[derive(Drop)]
struct Gaps {
    missing: usize,
    strays: u64,
}

impl fmt::Display for Gaps {
    fn fmt<W: fmt::Write>(&self, f: &mut fmt::Formatter<W>) -> fmt::Result {
        let Gaps { missing, strays } = *self;
        write!(
            f,
            "events without a time: {missing}; times of no event: {strays}"
        )
    }
}

/// How many activities the times violate, and what that led to.
#[derive(Drop)]
struct Mended {
    violated: usize,
    events: usize,
    moves: Option<Moves>,
}

impl fmt::Display for Mended {
    fn fmt<W: fmt::Write>(&self, f: &mut fmt::Formatter<W>) -> fmt::Result {
        let Mended {
            violated,
            events,
            moves,
        } = *self;
        let each = if violated == 1 {
            "activity"
        } else {
            "activities"
        };
        write!(f, "{violated} {each} violated; ")?;
        match moves {
            Some(Moves { moved, most }) => {
                write!(f, "{moved} of {events} events moved, at most {most}")
            }
            None => f.write_str("no timetable was found near to these times: the plan begins anew"),
        }
    }
}

impl<'a, R: Eprint> Hearer<'a, R> {
    /// One who has told nothing.
    pub fn new(rt: &'a R, quiet: bool) -> Hearer<'a, R> {
        Hearer { rt, quiet }
    }

    /// Tells a line, unless nothing is told.
    fn say<D: fmt::Display + Drop>(&self, line: D) {
        if !self.quiet {
            let _ = self.rt.eprintln(line);
        }
    }
}

impl<R: Eprint> Listener for Hearer<'_, R> {
    fn hears(&mut self, told: ToldOldTimes) {
        let ToldOldTimes {
            events,
            missing,
            strays,
            violated,
            moves,
        } = told;
        if missing > 0 || strays > 0 {
            self.say(Gaps { missing, strays });
        }
        self.say(Mended {
            violated,
            events,
            moves,
        });
    }

    fn finds_others(&mut self) {
        self.say(
            "the certificate in the file is of other activities: the plan begins with its times",
        );
    }
}
