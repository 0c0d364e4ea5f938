//! Words of a command line.

use std::fmt;

/// A word as a shell takes it: between apostrophes where it has other signs than letters, digits and a few more.
#[derive(Clone, Copy, Drop)]
pub(crate) struct ShellWord<'a>(pub(crate) &'a str);

/// Whether a shell takes a sign as it stands.
fn is_plain(sign: char) -> bool {
    match sign {
        'a'..='z' | 'A'..='Z' | '0'..='9' => true,
        '/' | '.' | '_' | '-' | '+' | ',' | ':' | '=' | '@' | '%' => true,
        _ => false,
    }
}

/// Writes one sign between apostrophes.
fn write_quoted<W: fmt::Write>(f: &mut fmt::Formatter<W>, sign: char) -> fmt::Result {
    match sign {
        '\'' => f.write_str("'\\''"),
        _ => write!(f, "{sign}"),
    }
}

impl fmt::Display for ShellWord<'_> {
    fn fmt<W: fmt::Write>(&self, f: &mut fmt::Formatter<W>) -> fmt::Result {
        if self.0.chars().all(|sign| is_plain(sign)) {
            return f.write_str(self.0);
        }
        f.write_str("'")?;
        for sign in self.0.chars() {
            write_quoted(f, sign)?;
        }
        f.write_str("'")
    }
}
