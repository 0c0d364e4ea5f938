//! The shape of a tree whose lines stand in preorder.

use crate::sharpened::SharpLine;
use pesp_sharp_nodes::{BoundSense, OffsetBound, OffsetCut};
use std::alloc::{AllocError, Global};

/// The branch of which a line is a part, by its place, and which part it is.
#[derive(Clone, Copy)]
struct Above {
    branch: u32,
    side: BoundSense,
}

/// For each line the branch above it, none at the root; and for each branch the place of its second part.
#[derive(Drop)]
pub struct Shape {
    above: Vec<Option<Above>>,
    second: Vec<u32>,
}

/// Both parts of a branch wait for their lines, the first of them for the next one.
fn wait_for_parts(waiting: &mut Vec<Option<Above>>, branch: u32) -> Result<(), AllocError> {
    for side in [BoundSense::AtLeast, BoundSense::AtMost] {
        waiting.push(Some(Above { branch, side }))?;
    }
    Ok(())
}

impl Shape {
    /// Notes the second part of a branch.
    fn note(&mut self, above: Option<Above>, place: u32) {
        if let Some(Above { branch, side }) = above
            && side == BoundSense::AtLeast
            && let Some(slot) = self.second.get_mut(branch as usize)
        {
            *slot = place;
        }
    }

    /// The shape of lines; None where they aren't those of one tree.
    pub fn of(alloc: Global, lines: &[SharpLine]) -> Result<Option<Shape>, AllocError> {
        let mut shape = Shape {
            above: Vec::with_capacity(alloc, lines.len())?,
            second: vec![in alloc; 0u32; lines.len()]?,
        };
        if shape.read(alloc, lines)? {
            Ok(Some(shape))
        } else {
            Ok(None)
        }
    }

    /// Reads the lines; whether they are those of one tree.
    fn read(&mut self, alloc: Global, lines: &[SharpLine]) -> Result<bool, AllocError> {
        let mut waiting = Vec::new(alloc);
        waiting.push(None)?;
        for (place, line) in lines.iter().enumerate() {
            let Some(above) = waiting.pop() else {
                return Ok(false);
            };
            let number = u32::try_from(place).unwrap_or(u32::MAX);
            self.note(above, number);
            self.above.push(above)?;
            if let SharpLine::Branch { .. } = line {
                wait_for_parts(&mut waiting, number)?;
            }
        }
        Ok(waiting.is_empty())
    }

    /// The place of the second part of a branch.
    pub fn second(&self, branch: u32) -> u32 {
        self.second.get(branch as usize).copied().unwrap_or(0)
    }

    /// The bounds on offsets that lead to a line, from below.
    pub fn path(
        &self,
        alloc: Global,
        lines: &[SharpLine],
        place: u32,
    ) -> Result<Vec<OffsetBound>, AllocError> {
        let mut path = Vec::new(alloc);
        let mut at = place;
        for _ in 0..lines.len() {
            let Some(Some(above)) = self.above.get(at as usize).copied() else {
                return Ok(path);
            };
            if let Some(SharpLine::Branch { cycle, most }) = lines.get(above.branch as usize) {
                let cut = OffsetCut {
                    cycle: *cycle,
                    most: *most,
                };
                path.push(cut.part(above.side))?;
            }
            at = above.branch;
        }
        Ok(path)
    }
}
