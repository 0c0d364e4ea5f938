//! Names that are too long for a column.

use crate::escaped::write_escaped;
use std::fmt;

/// The most characters of a name that stand in a column.
const MOST: usize = 60;

/// A name as it stands in a column. Of a long one the last characters are left out, with a sign in their place.
#[derive(Clone, Copy, Drop)]
pub struct Shortened<'a>(pub &'a str);

impl Shortened<'_> {
    /// Whether characters are left out.
    pub fn is_cut(&self) -> bool {
        self.0.chars().count() > MOST
    }

    /// How many characters it takes.
    pub fn characters(&self) -> u32 {
        let count = self.0.chars().take(MOST).count();
        u32::try_from(count).unwrap_or(u32::MAX)
    }
}

impl fmt::Display for Shortened<'_> {
    fn fmt<W: fmt::Write>(&self, f: &mut fmt::Formatter<W>) -> fmt::Result {
        let is_cut = self.is_cut();
        let kept = if is_cut { MOST - 1 } else { MOST };
        for sign in self.0.chars().take(kept) {
            write_escaped(f, sign)?;
        }
        if is_cut {
            return f.write_str("\u{2026}");
        }
        Ok(())
    }
}
