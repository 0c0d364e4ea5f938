//! Cases of a text.

use std::alloc::Global;

/// The lines of each case. Each ends with the line `end`, the last one too.
pub fn cases_of<'a>(alloc: Global, text: &'a str) -> Option<Vec<Vec<&'a str>>> {
    let mut cases = Vec::new(alloc);
    let mut lines = Vec::new(alloc);
    for line in text.lines() {
        if line == "end" {
            cases.push(lines).ok()?;
            lines = Vec::new(alloc);
        } else {
            lines.push(line).ok()?;
        }
    }
    if lines.is_empty() { Some(cases) } else { None }
}
