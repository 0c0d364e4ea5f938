//! What of a timetable is drawn.

use pesp_report::Line;

/// Which activities are drawn: at most `most`, the dearest first, and those that cost nothing only where `costless` says so.
#[derive(Clone, Copy)]
pub struct ActivityFilter {
    pub most: u32,
    pub costless: bool,
}

impl ActivityFilter {
    /// Those of these lines, the dearest first, that are drawn.
    pub fn of_lines(self, lines: &[Line]) -> &[Line] {
        let kept = if self.costless {
            lines.len()
        } else {
            costly(lines)
        };
        let count = lines.len().min(kept).min(self.most as usize);
        &lines[..count]
    }
}

/// How many lines cost something.
fn costly(lines: &[Line]) -> usize {
    let mut count: usize = 0;
    for line in lines {
        if line.weighted > 0 {
            count = count.saturating_add(1);
        }
    }
    count
}
