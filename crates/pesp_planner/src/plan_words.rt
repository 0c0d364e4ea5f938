//! What is told of a plan, in words.

use crate::progress::SearchProgress;
use crate::shell_word::ShellWord;
use pesp_truth::Answer;
use std::fmt;

/// What an instance has, as a line.
#[derive(Clone, Copy, Drop)]
pub(crate) struct Sizes {
    pub(crate) activities: usize,
    pub(crate) events: usize,
    pub(crate) period: u32,
}

impl fmt::Display for Sizes {
    fn fmt<W: fmt::Write>(&self, f: &mut fmt::Formatter<W>) -> fmt::Result {
        let Sizes {
            activities,
            events,
            period,
        } = *self;
        if activities == 0 {
            return f.write_str("the instance has no activities");
        }
        let each = if activities == 1 {
            "activity"
        } else {
            "activities"
        };
        let named = if events == 1 { "event" } else { "events" };
        write!(f, "{activities} {each}, {events} {named}, period {period}")
    }
}

/// How far a plan is after so many seconds, where a clock could be read.
#[derive(Clone, Copy, Drop)]
pub(crate) struct PlanStage {
    pub(crate) seconds: Option<u64>,
    pub(crate) progress: SearchProgress,
}

/// The cost by now, or that there is no timetable yet.
#[derive(Clone, Copy, Drop)]
struct CostNow(Option<u64>);

impl fmt::Display for CostNow {
    fn fmt<W: fmt::Write>(&self, f: &mut fmt::Formatter<W>) -> fmt::Result {
        match self.0 {
            Some(cost) => write!(f, "cost {cost}"),
            None => f.write_str("no timetable yet"),
        }
    }
}

/// Tenths of a hundredth, as a number of hundredths.
#[derive(Clone, Copy, Drop)]
struct PerCent(u64);

impl fmt::Display for PerCent {
    fn fmt<W: fmt::Write>(&self, f: &mut fmt::Formatter<W>) -> fmt::Result {
        let (whole, tenth) = (self.0 / 10, self.0 % 10);
        write!(f, "{whole}.{tenth} %")
    }
}

impl fmt::Display for PlanStage {
    fn fmt<W: fmt::Write>(&self, f: &mut fmt::Formatter<W>) -> fmt::Result {
        let PlanStage { seconds, progress } = *self;
        if let Some(seconds) = seconds {
            write!(f, "{seconds} s, ")?;
        }
        let (cost, bound) = (CostNow(progress.cost), progress.bound.unwrap_or(0));
        write!(f, "{cost}, bound {bound}")?;
        match progress.gap() {
            None => Ok(()),
            Some(gap) => {
                let gap = PerCent(gap);
                write!(f, ", gap {gap}")
            }
        }
    }
}

/// The words that go on with a plan.
#[derive(Clone, Copy, Drop)]
pub struct Again<'a> {
    pub period: u32,
    /// The file in which the plan is kept, where one is named.
    pub output: Option<&'a str>,
    /// The file with the instance, where it is in one.
    pub instance: Option<&'a str>,
}

impl fmt::Display for Again<'_> {
    fn fmt<W: fmt::Write>(&self, f: &mut fmt::Formatter<W>) -> fmt::Result {
        let Again {
            period,
            output,
            instance,
        } = *self;
        let output = ShellWord(output.unwrap_or("FILE"));
        let instance = ShellWord(instance.unwrap_or("INSTANCE"));
        f.write_str("pesp plan ")?;
        if period != 60 {
            write!(f, "--period {period} ")?;
        }
        write!(f, "--output {output} {instance}")
    }
}

/// How a plan ended, with the words that go on with it.
#[derive(Clone, Copy, Drop)]
pub(crate) struct PlanOutcome<'a> {
    pub(crate) answer: Answer,
    pub(crate) again: Again<'a>,
}

/// How far a cost is above the least one at most, in thousandths of a bound, rounded up; None where the bound is 0.
fn excess(bound: u64, cost: u64) -> Option<u64> {
    let above = u128::from(cost.saturating_sub(bound)) * 1000;
    let rounded = above.saturating_add(u128::from(bound.saturating_sub(1)));
    u64::try_from(rounded.checked_div(u128::from(bound))?).ok()
}

/// The cost that a timetable has, and how good that is.
#[derive(Clone, Copy, Drop)]
struct ShownCost {
    bound: u64,
    cost: u64,
}

impl fmt::Display for ShownCost {
    fn fmt<W: fmt::Write>(&self, f: &mut fmt::Formatter<W>) -> fmt::Result {
        let ShownCost { bound, cost } = *self;
        match excess(bound, cost) {
            Some(excess) => {
                let most = PerCent(excess);
                write!(f, "cost {cost}, at most {most} above the least")
            }
            None => write!(f, "cost {cost}, no bound yet"),
        }
    }
}

impl fmt::Display for PlanOutcome<'_> {
    fn fmt<W: fmt::Write>(&self, f: &mut fmt::Formatter<W>) -> fmt::Result {
        let again = self.again;
        match self.answer {
            Answer::Optimal(cost) => write!(f, "cost {cost}; none costs less"),
            Answer::Infeasible => {
                f.write_str("there is no timetable; which activities conflict: pesp conflict")
            }
            Answer::Bounded {
                least,
                cost: Some(cost),
            } => {
                let shown = ShownCost { bound: least, cost };
                write!(f, "{shown}; go on: {again}")
            }
            Answer::Bounded { least, cost: None } => {
                write!(
                    f,
                    "no timetable yet, each costs at least {least}; go on: {again}"
                )
            }
        }
    }
}
