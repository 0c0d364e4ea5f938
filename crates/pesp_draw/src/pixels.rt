//! Places in a picture.

use std::fmt;

/// A place from the left, or a width, in tenths of a pixel.
#[derive(Clone, Copy)]
pub struct Pixels {
    pub tenths: u32,
}

impl fmt::Display for Pixels {
    fn fmt<W: fmt::Write>(&self, f: &mut fmt::Formatter<W>) -> fmt::Result {
        let whole = self.tenths / 10;
        match self.tenths % 10 {
            0 => write!(f, "{whole}"),
            part => write!(f, "{whole}.{part}"),
        }
    }
}
