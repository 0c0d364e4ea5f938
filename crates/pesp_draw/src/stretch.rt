//! Stretches of time as bars, at most once round the period.

ghost use Rattle.std.specs.Prelude.{◌≤◌};

use std::fmt;

/// What a bar shows: a least duration, one below 0, a slack, one that costs nothing, or what a slack may still grow by.
#[derive(Clone, Copy)]
pub enum Shade {
    Least,
    Back,
    Slack,
    Costless,
    Room,
}

impl Shade {
    /// Its class of the style.
    fn class(self) -> &'static str {
        match self {
            Shade::Least => "least",
            Shade::Back => "back",
            Shade::Slack => "slack",
            Shade::Costless => "costless",
            Shade::Room => "room",
        }
    }

    /// How far below its row's top it begins, in pixels.
    fn top(self) -> u32 {
        match self {
            Shade::Room => 5,
            _ => 0,
        }
    }

    /// How high it is, in pixels.
    fn height(self) -> u32 {
        match self {
            Shade::Room => 2,
            _ => 12,
        }
    }
}

/// A rectangle from a time on over so many units, of a shade; nothing where it has no units.
#[derive(Clone, Copy)]
struct Bar {
    shade: Shade,
    start: u32,
    units: u32,
}

impl fmt::Display for Bar {
    fn fmt<W: fmt::Write>(&self, f: &mut fmt::Formatter<W>) -> fmt::Result {
        let Bar {
            shade,
            start,
            units,
        } = *self;
        if units == 0 {
            return Ok(());
        }
        let class = shade.class();
        let top = shade.top();
        let height = shade.height();
        write!(
            f,
            "<rect class=\"{class}\" x=\"{start}\" width=\"{units}\" y=\"{top}\" height=\"{height}\"/>"
        )
    }
}

/// A stretch of time that goes on past the period's end from 0 again: what lies before that end, and what lies behind it.
#[derive(Clone, Copy)]
pub struct Stretch {
    before: Bar,
    behind: Bar,
}

impl Stretch {
    /// The stretch from a time on over so many units, in units of the period. One that is longer than the period goes
    /// round once, and one of fewer than 0 units lies before the time.
    pub fn over(period: u32, shade: Shade, from: i64, units: i64) -> Stretch
        requires { 1 ≤ period }
    {
        let length = units.unsigned_abs().min(u64::from(period)) as u32;
        let start = time_of(period, from.saturating_add(units.min(0)));
        let first = length.min(period.saturating_sub(start));
        Stretch {
            before: Bar {
                shade,
                start,
                units: first,
            },
            behind: Bar {
                shade,
                start: 0,
                units: length.saturating_sub(first),
            },
        }
    }
}

impl fmt::Display for Stretch {
    fn fmt<W: fmt::Write>(&self, f: &mut fmt::Formatter<W>) -> fmt::Result {
        let Stretch { before, behind } = *self;
        write!(f, "{before}{behind}")
    }
}

/// The time of the period at which so many units end up, also fewer than 0 or more than the period.
pub fn time_of(period: u32, units: i64) -> u32
    requires { 1 ≤ period }
{
    let rest = units.rem_euclid(i64::from(period));
    rest as u32
}
