//! Places in a diagram.

use std::fmt;

/// How many pixels the period takes.
pub const PLOT: u32 = 960;

/// A place from the left of the plot, in tenths of a pixel; below 0 for what lies before it.
#[derive(Clone, Copy)]
pub struct Across {
    tenths: i64,
}

impl Across {
    /// Where a time stands, in units of the period from its beginning.
    pub fn of(period: u32, time: i64) -> Across {
        let wide = time.saturating_mul(i64::from(PLOT) * 10);
        Across {
            tenths: wide.checked_div(i64::from(period)).unwrap_or(0),
        }
    }

    /// How many whole pixels it is from the plot's left; 0 for what lies before it.
    pub fn pixels(self) -> u32 {
        u32::try_from(self.tenths / 10).unwrap_or(0)
    }

    /// The place so many pixels to the right.
    pub fn beside(self, pixels: u32) -> Across {
        let tenths = self.tenths.saturating_add(i64::from(pixels) * 10);
        Across { tenths }
    }

    /// The place nearest to it at which a mark of so many pixels to either side lies within the plot.
    pub fn within(self, pixels: u32) -> Across {
        let least = i64::from(pixels) * 10;
        let most = (i64::from(PLOT) * 10).saturating_sub(least);
        Across {
            tenths: self.tenths.min(most).max(least),
        }
    }
}

impl fmt::Display for Across {
    fn fmt<W: fmt::Write>(&self, f: &mut fmt::Formatter<W>) -> fmt::Result {
        let amount = self.tenths.unsigned_abs();
        let (whole, part) = (amount / 10, amount % 10);
        let sign = if self.tenths < 0 { "-" } else { "" };
        write!(f, "{sign}{whole}.{part}")
    }
}
