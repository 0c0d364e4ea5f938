//! The relaxation of a network's root.

use crate::forests::{Keys, light_forest};
use pesp_forest::{Frame, Random};
use pesp_network::Network;
use pesp_relaxation::{Basis, Root};
use std::alloc::{AllocError, Global};

/// A network with a forest, the offsets that this leaves to each cycle, the best basis of the root, that of a dive, and
/// whether the order of the next dive is drawn.
#[derive(Drop)]
pub struct Relaxation {
    pub frame: Frame,
    pub root: Root,
    pub best: Basis,
    pub dived: Basis,
    pub is_drawn: bool,
}

impl Relaxation {
    /// The relaxation over a forest of rows of small span by weight; None where the root has no timetable.
    pub fn new(
        alloc: Global,
        network: &Network,
        keys: Keys,
        random: &mut Random,
    ) -> Result<Option<Relaxation>, AllocError> {
        let frame = Frame::new(alloc, network)?;
        let numbers = light_forest(alloc, &frame, keys, random)?;
        let Some(root) = Root::new(alloc, &frame, &numbers)? else {
            return Ok(None);
        };
        let Some(best) = root.best_basis(alloc, &frame)? else {
            return Ok(None);
        };
        let dived = Basis::idle(alloc, &frame)?;
        Ok(Some(Relaxation {
            frame,
            root,
            best,
            dived,
            is_drawn: false,
        }))
    }
}
