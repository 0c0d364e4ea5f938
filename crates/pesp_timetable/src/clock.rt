//! Times of the day.

use std::fmt;

/// So many minutes as hours and minutes, of two digits each, as `01:04`; more digits where there are 100 hours or more.
#[derive(Clone, Copy)]
pub struct Clock(pub u64);

impl fmt::Display for Clock {
    ghost use Rattle.std.specs.Prelude.{Some};
    ghost use Rattle.pesp_timetable.specs.Timetable.{clock_text};

    ghost output = { λ clock. Some (clock_text clock.0) };

    fn fmt<W: fmt::Write>(&self, f: &mut fmt::Formatter<W>) -> fmt::Result {
        let (hours, minutes) = (self.0 / 60, self.0 % 60);
        let (tens, ones) = (hours / 10, hours % 10);
        let (ten, one) = (minutes / 10, minutes % 10);
        write!(f, "{tens}{ones}:{ten}{one}")
    }
}
