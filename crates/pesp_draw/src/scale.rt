//! The scale of the period.

use crate::columns::Columns;
use std::alloc::AllocError;

/// Steps of a scale of minutes.
const MINUTES: [u32; 4] = [1, 2, 5, 10];

/// Steps of a scale of seconds: a minute, five and ten.
const SECONDS: [u32; 3] = [60, 300, 600];

/// The longest period that is taken for one of minutes.
const MOST_MINUTES: u32 = 120;

/// How many tenths of a pixel lie between a time that is labelled and the period's end.
const BEFORE_END: u32 = 600;

/// The first of these steps that divides the period into no more than 12, or the last one.
fn first_step(steps: &[u32], period: u32) -> u32 {
    let mut last = 1;
    for step in steps {
        last = *step;
        if period <= step.saturating_mul(12) {
            return last;
        }
    }
    last
}

/// The step between two lines of the scale of a period: 1, 2, 5 or 10 up to a period of 120, and 60, 300 or 600 above it, as for
/// seconds.
pub fn step_for(period: u32) -> u32 {
    if period <= MOST_MINUTES {
        first_step(&MINUTES, period)
    } else {
        first_step(&SECONDS, period)
    }
}

/// Writes a line at a time of the period, and the time above it where there is room before the period's end.
fn write_time(
    text: &mut String,
    columns: &Columns,
    period: u32,
    time: u32,
    from: u32,
    to: u32,
) -> Result<(), AllocError> {
    let x = columns.at(period, time);
    let above = from.saturating_sub(6);
    writeln!(
        text,
        "<line class=\"grid\" x1=\"{x}\" y1=\"{from}\" x2=\"{x}\" y2=\"{to}\"/>"
    )?;
    let end = columns.at(period, period);
    if end.tenths.saturating_sub(x.tenths) < BEFORE_END {
        return Ok(());
    }
    writeln!(
        text,
        "<text class=\"time middle\" x=\"{x}\" y=\"{above}\">{time}</text>"
    )
}

/// Writes a line for each step of the period and for its end, between these two heights, with its time above.
pub fn write_scale(
    text: &mut String,
    columns: &Columns,
    period: u32,
    from: u32,
    to: u32,
) -> Result<(), AllocError> {
    let step = step_for(period);
    for place in 0..18_u32 {
        let time = step.saturating_mul(place);
        if time < period {
            write_time(text, columns, period, time, from, to)?;
        }
    }
    write_time(text, columns, period, period, from, to)?;
    let above = from.saturating_sub(6);
    let right = columns.right;
    writeln!(
        text,
        "<text class=\"time end\" x=\"{right}\" y=\"{above}\">{period}</text>"
    )
}
