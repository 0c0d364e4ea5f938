//! An order of events in which those that belong together are near each other.

use crate::marks::mark;
use pesp_forest::{Frame, Link};
use pesp_network::Network;
use std::alloc::{AllocError, Global};
use std::collections::BinaryHeap;

/// A step to an event: what is left of the greatest span, the weight, what is left of the greatest mark and of the greatest event.
/// So of steps the greatest goes along the least span, and of these along the greatest weight.
type Step = (u32, u64, u64, u32);

/// An order that grows: the steps from what is in it, whether each event is in it, and the order.
#[derive(Drop)]
struct OrderGrowth<'a> {
    frame: &'a Frame,
    marks: &'a [u64],
    steps: BinaryHeap<Step>,
    is_in: Vec<bool>,
    order: Vec<u32>,
}

impl OrderGrowth<'_> {
    /// The step along a row.
    fn step_along(&self, link: Link) -> Option<Step> {
        let row = self.frame.row(link.row)?;
        let other = link.other;
        Some((!row.span, row.weight, !mark(self.marks, other), !other))
    }

    /// Puts an event behind the others, where it isn't among them.
    fn put(&mut self, event: u32) -> Result<(), AllocError> {
        let Some(is_in) = self.is_in.get_mut(event as usize) else {
            return Ok(());
        };
        if *is_in {
            return Ok(());
        }
        *is_in = true;
        self.order.push(event)?;
        let frame = self.frame;
        for link in frame.star(event) {
            if let Some(step) = self.step_along(*link) {
                self.steps.push(step)?;
            }
        }
        Ok(())
    }

    /// Puts in an event, and all that rows lead to from there (Prim 1957).
    fn grow_from(&mut self, event: u32) -> Result<(), AllocError> {
        self.put(event)?;
        let most = self.frame.rows().len().saturating_mul(2);
        for _ in 0..most {
            let Some((_, _, _, left)) = self.steps.pop() else {
                return Ok(());
            };
            self.put(!left)?;
        }
        Ok(())
    }

    /// Puts in these events, and all that rows lead to from there.
    fn grow(&mut self, starts: &[u32]) -> Result<(), AllocError> {
        for event in starts {
            self.grow_from(*event)?;
        }
        Ok(())
    }
}

/// The events in an order that grows over the rows, from the first of those at which it starts that isn't in it.
fn grown_over(
    alloc: Global,
    frame: &Frame,
    marks: &[u64],
    starts: &[u32],
) -> Result<Vec<u32>, AllocError> {
    let is_in = vec![in alloc; false; frame.events()]?;
    let mut growth = OrderGrowth {
        frame,
        marks,
        steps: BinaryHeap::new(alloc),
        is_in,
        order: Vec::new(alloc),
    };
    let grown = growth.grow(starts);
    let OrderGrowth { order, .. } = growth;
    grown?;
    Ok(order)
}

/// The events in an order that grows over the rows of a network, by narrow ones first, so that those of a train stand behind each
/// other. It starts at the first of these events, and where no row leads on at the first that isn't in it.
pub(crate) fn grown(
    alloc: Global,
    network: &Network,
    marks: &[u64],
    starts: &[u32],
) -> Result<Vec<u32>, AllocError> {
    let frame = Frame::new(alloc, network)?;
    let order = grown_over(alloc, &frame, marks, starts);
    drop(frame);
    order
}
