//! Texts in a picture.

use std::fmt;

/// A text as it may stand in SVG, between elements or between quotation marks: with `&`, `<`, `>` and `"` escaped, and in
/// place of each control character the sign for one that can't be shown.
#[derive(Clone, Copy, Drop)]
pub struct Escaped<'a>(pub &'a str);

/// Writes one character of a text.
pub fn write_escaped<W: fmt::Write>(f: &mut fmt::Formatter<W>, sign: char) -> fmt::Result {
    match sign {
        '&' => f.write_str("&amp;"),
        '<' => f.write_str("&lt;"),
        '>' => f.write_str("&gt;"),
        '"' => f.write_str("&quot;"),
        '\u{0}'..='\u{1f}' | '\u{7f}'..='\u{9f}' | '\u{fffe}' | '\u{ffff}' => {
            f.write_str("\u{fffd}")
        }
        _ => write!(f, "{sign}"),
    }
}

impl fmt::Display for Escaped<'_> {
    fn fmt<W: fmt::Write>(&self, f: &mut fmt::Formatter<W>) -> fmt::Result {
        for sign in self.0.chars() {
            write_escaped(f, sign)?;
        }
        Ok(())
    }
}
