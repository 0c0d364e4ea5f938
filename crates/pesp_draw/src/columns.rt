//! Where the columns of a picture stand.

use crate::labels::Labels;
use crate::pixels::Pixels;
use pesp_report::Line;

/// How many pixels the period takes.
pub const PLOT: u32 = 720;

/// How many pixels a character takes at most.
const CHARACTER: u32 = 8;

/// How many pixels lie between two columns.
const GAP: u32 = 14;

/// How many pixels the time of an event takes: four digits.
pub const TIME: u32 = 4 * CHARACTER + GAP;

/// Where the columns of a picture stand, in pixels from the left: the ends of the activities' labels and of the tails, the
/// beginnings of the heads and of the period, the period's end, the ends of the durations, the slacks and the costs, and
/// the picture's edge; and how wide an event's label is.
#[derive(Clone, Copy)]
pub struct Columns {
    pub label: u32,
    pub tail: u32,
    pub head: u32,
    pub left: u32,
    pub right: u32,
    pub duration: u32,
    pub slack: u32,
    pub cost: u32,
    pub edge: u32,
    pub event: u32,
}

/// The most characters that stand in a column.
#[derive(Clone, Copy)]
struct Longest {
    label: u32,
    event: u32,
    duration: u32,
    cost: u32,
}

/// How many digits a number has.
fn digits(number: u64) -> u32 {
    let mut count: u32 = 1;
    let mut rest = number;
    for _ in 0..20 {
        if rest < 10 {
            return count;
        }
        rest /= 10;
        count = count.saturating_add(1);
    }
    count
}

/// How many characters a number takes.
fn characters(number: i64) -> u32 {
    let sign: u32 = if number < 0 { 1 } else { 0 };
    digits(number.unsigned_abs()).saturating_add(sign)
}

/// The most characters of each column, the headings' too.
fn longest_of(lines: &[Line], events: &[i64], labels: Labels<'_>) -> Longest {
    let mut most = Longest {
        label: 8,
        event: 5,
        duration: 8,
        cost: 5,
    };
    for line in lines {
        most.label = most.label.max(characters(line.label));
        most.duration = most.duration.max(characters(line.duration));
        most.cost = most.cost.max(digits(line.weighted));
    }
    for event in events {
        let called = labels.called(*event);
        most.event = most.event.max(called.characters(characters(*event)));
    }
    most
}

/// The pixels of a column of so many characters.
fn pixels(characters: u32) -> u32 {
    characters.saturating_mul(CHARACTER).saturating_add(GAP)
}

impl Columns {
    /// The columns for these lines and events, each as wide as its longest number or name.
    pub fn of(lines: &[Line], events: &[i64], labels: Labels<'_>) -> Columns {
        let most = longest_of(lines, events, labels);
        let label = pixels(most.label);
        let event = pixels(most.event);
        let tail = label.saturating_add(event);
        let head = tail.saturating_add(2 * GAP);
        let left = head.saturating_add(event);
        let right = left.saturating_add(PLOT);
        let duration = right.saturating_add(pixels(most.duration));
        let slack = duration.saturating_add(pixels(5));
        let cost = slack.saturating_add(pixels(most.cost));
        Columns {
            label,
            tail,
            head,
            left,
            right,
            duration,
            slack,
            cost,
            edge: cost.saturating_add(GAP),
            event,
        }
    }

    /// Where a time of the period stands.
    pub fn at(&self, period: u32, time: u32) -> Pixels {
        let tenths = time.saturating_mul(10 * PLOT).checked_div(period);
        let left = self.left.saturating_mul(10);
        Pixels {
            tenths: left.saturating_add(tenths.unwrap_or(0)),
        }
    }
}
