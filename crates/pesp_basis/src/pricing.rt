//! Which slack or line leaves.

use crate::fixed::{amount, times};
use crate::lines::{Column, Constraint, span_at};
use crate::members::{Leaving, Member};
use crate::state::State;

/// By how much a slack may be outside its range.
const SLACK_OFF: i64 = 1 << 16;

/// By how much a sum may be.
const SUM_OFF: i64 = 1 << 19;

/// What leaves so far, and how much that counts.
#[derive(Clone, Copy)]
struct LeavingCandidate {
    leaving: Leaving,
    score: i64,
}

/// By how much a value has to rise to be in a range; below 0 where it has to fall.
fn missing(value: i64, least: i64, most: i64) -> i64 {
    if value < least {
        least.saturating_sub(value)
    } else if value > most {
        most.saturating_sub(value)
    } else {
        0
    }
}

/// The one that counts more.
fn better(
    found: Option<LeavingCandidate>,
    member: Member,
    missing: i64,
    score: i64,
) -> Option<LeavingCandidate> {
    match found {
        Some(other) if other.score >= score => Some(other),
        _ => Some(LeavingCandidate {
            leaving: Leaving { member, missing },
            score,
        }),
    }
}

impl State {
    /// By how much a slack has to rise.
    fn slack_missing(&self, columns: &[Column], number: u32) -> i64 {
        match self.slacks.get(number as usize) {
            Some(slack) => missing(slack.value, 0, span_at(columns, number as usize)),
            None => 0,
        }
    }

    /// The basic slack that is furthest outside its range.
    fn worst_slack(&self, columns: &[Column]) -> Option<LeavingCandidate> {
        let mut found = None;
        for number in &self.basic {
            let missing = self.slack_missing(columns, *number);
            let score = amount(missing);
            if score > SLACK_OFF {
                found = better(found, Member::Slack(*number), missing, score);
            }
        }
        found
    }

    /// That slack, or a line that is further outside its range by its norm.
    pub fn leaving(&self, columns: &[Column], lines: &[Constraint]) -> Option<Leaving> {
        let mut found = self.worst_slack(columns);
        let mut number = 0u32;
        for (line, sum) in lines.iter().zip(self.sums.iter()) {
            let missing = missing(sum.value, line.least, line.most);
            if sum.place.is_none() && amount(missing) > SUM_OFF {
                let score = times(amount(missing), line.norm);
                found = better(found, Member::Line(number), missing, score);
            }
            number = number.wrapping_add(1);
        }
        Some(found?.leaving)
    }
}
