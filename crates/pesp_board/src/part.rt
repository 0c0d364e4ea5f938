//! What a work makes of a leaf, before anything changes.

ghost use Rattle.std.specs.Prelude.{◌≡◌, IfOk};
ghost use Rattle.pesp_board.specs.Parts as spec;

use pesp_problem::{Cut, Memory};
use pesp_tree::Leaf;
use std::alloc::Global;

/// A leaf, and the value under which its node waits, as it is told; there is one for a bound leaf alone.
#[derive(Drop)]
pub(crate) struct Valued {
    pub(crate) leaf: Leaf,
    pub(crate) value: Option<u64>,
}

/// A part of a tree in preorder: the cut of a branch, or a leaf.
#[derive(Drop)]
pub(crate) enum Part {
    Cut(Cut),
    Leaf(Valued),
}

/// What a work makes of a leaf: another leaf, a branch with two, or a whole tree by its parts.
#[derive(Drop)]
pub(crate) enum Made {
    Leaf(Valued),
    Branch { cut: Cut, low: Valued, high: Valued },
    Tree(Vec<Part>),
}

/// The parts of what is made.
pub(crate) fn parts_of(alloc: Global, made: Made) -> Result<Vec<Part>, Memory>
    ensures { IfOk result (λ parts. parts.items ≡ spec.parts_of made) }
{
    let mut parts = Vec::new(alloc);
    match made {
        Made::Leaf(part) => parts.push(Part::Leaf(part))?,
        Made::Branch { cut, low, high } => {
            parts.push(Part::Cut(cut))?;
            parts.push(Part::Leaf(low))?;
            parts.push(Part::Leaf(high))?;
        }
        Made::Tree(whole) => return Ok(whole),
    }
    Ok(parts)
}
