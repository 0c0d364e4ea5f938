//! Where the diagrams of lines stand.

use crate::frame::{FRONT, line_height};
use crate::heights::Heights;
use std::alloc::{AllocError, Global};

/// How often a column may be as high as wide before there are two of them.
const SLENDER: u32 = 4;

/// The most columns.
const MOST_COLUMNS: u32 = 64;

/// Where the diagram of a line begins, in pixels from the left and from the top.
#[derive(Clone, Copy)]
pub struct Corner {
    pub x: u32,
    pub y: u32,
}

/// The diagrams of lines below each other, in one column, or where they are many in columns side by side, so that the picture
/// is about as wide as high; and the height at which all of them end.
#[derive(Drop)]
pub struct Layout {
    pub corners: Vec<Corner>,
    pub columns: u32,
    pub end: u32,
}

/// How high all diagrams are below each other.
fn height_of_all(heights: &[Heights]) -> u32 {
    let mut height: u32 = 0;
    for line in heights {
        height = height.saturating_add(line_height(line));
    }
    height
}

/// How many columns of a width there are for so high diagrams.
fn columns_for(height: u32, width: u32) -> u32 {
    if height <= width.saturating_mul(SLENDER) {
        return 1;
    }
    for columns in 2..MOST_COLUMNS {
        if columns.saturating_mul(columns).saturating_mul(width) >= height {
            return columns;
        }
    }
    MOST_COLUMNS
}

impl Layout {
    /// Where the diagrams of lines with these heights stand, in columns of a width.
    pub fn of(alloc: Global, heights: &[Heights], width: u32) -> Result<Layout, AllocError> {
        let height = height_of_all(heights);
        let most = height
            .checked_div(columns_for(height, width))
            .unwrap_or(height)
            .saturating_add(FRONT);
        let mut corners = Vec::new(alloc);
        let (mut x, mut y, mut end, mut columns) = (0, FRONT, FRONT, 1);
        for line in heights {
            if y > most {
                x = width.saturating_mul(columns);
                y = FRONT;
                columns = columns.saturating_add(1);
            }
            corners.push(Corner { x, y })?;
            y = y.saturating_add(line_height(line));
            end = end.max(y);
        }
        Ok(Layout {
            corners,
            columns,
            end,
        })
    }
}
