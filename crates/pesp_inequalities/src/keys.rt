//! The keys by which forests take rows, so that walks along them are likely to be violated.

use crate::efficacy::WHOLE;
use pesp_forest::{Frame, Random};
use pesp_network::NetRow;

/// What a key begins with: nothing, the slack, or its distance from the nearer end of its range.
#[derive(Clone, Copy)]
enum KeyStart {
    Nothing,
    Slack,
    NearerEnd,
}

/// How the key of a row is made, in 1/65536. To what it begins with is added `fixed` times the span; and, times a fraction
/// that is drawn for each row, `by_span` times the span and `drawn` units.
#[derive(Clone, Copy)]
pub(crate) struct KeyRule {
    start: KeyStart,
    fixed: i64,
    by_span: i64,
    drawn: i64,
}

/// The rules of the forests that are drawn each time.
pub(crate) const RULES: [KeyRule; 6] = [
    KeyRule {
        start: KeyStart::NearerEnd,
        fixed: 8,
        by_span: 0,
        drawn: 0,
    },
    KeyRule {
        start: KeyStart::Slack,
        fixed: 0,
        by_span: 64,
        drawn: 0,
    },
    KeyRule {
        start: KeyStart::NearerEnd,
        fixed: 0,
        by_span: 64,
        drawn: 0,
    },
    KeyRule {
        start: KeyStart::NearerEnd,
        fixed: 0,
        by_span: 0,
        drawn: 3 * WHOLE,
    },
    KeyRule {
        start: KeyStart::NearerEnd,
        fixed: 0,
        by_span: 0,
        drawn: 15 * WHOLE,
    },
    KeyRule {
        start: KeyStart::Nothing,
        fixed: WHOLE / 4,
        by_span: WHOLE,
        drawn: 0,
    },
];

/// The rule of the forest of small spans.
pub(crate) const BY_SPAN: KeyRule = KeyRule {
    start: KeyStart::Nothing,
    fixed: WHOLE,
    by_span: 0,
    drawn: 0,
};

/// A fraction that is drawn, in 1/65536.
fn fraction(random: &mut Random) -> i64 {
    i64::try_from(random.next() >> 48).unwrap_or(0)
}

impl KeyRule {
    /// What the key of a row begins with.
    fn start(&self, span: i64, slack: i64) -> i64 {
        match self.start {
            KeyStart::Nothing => 0,
            KeyStart::Slack => slack,
            KeyStart::NearerEnd => slack.min(span.wrapping_mul(WHOLE).wrapping_sub(slack)),
        }
    }

    /// The key of a row at a slack in 1/65536.
    fn key(&self, row: &NetRow, slack: i64, random: &mut Random) -> i64 {
        let span = i64::from(row.span);
        let most = span.wrapping_mul(self.by_span).wrapping_add(self.drawn);
        let part = fraction(random).wrapping_mul(most) >> 16;
        let fixed = span.wrapping_mul(self.fixed);
        self.start(span, slack)
            .wrapping_add(fixed)
            .wrapping_add(part)
    }

    /// Gives the rows their keys.
    pub(crate) fn give(
        &self,
        keys: &mut [i64],
        frame: &Frame,
        slacks: &[i64],
        random: &mut Random,
    ) {
        let rows = frame.rows().iter().zip(slacks.iter());
        for (key, (row, slack)) in keys.iter_mut().zip(rows) {
            *key = self.key(row, *slack, random);
        }
    }
}
