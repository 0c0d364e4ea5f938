//! Rows of a network.

ghost use Rattle.std.specs.Prelude.{◌≡◌, IfOk};
ghost use Rattle.pesp_network.specs.Networks.{arc_of_net, arcs_of_network};

use pesp_problem::Arc;
use std::alloc::{AllocError, Global};

/// A row between two events, which are named by their places, from 0. Its slack may be 0 to `span`, its duration is
/// `lower` and its slack, and `origin` is the number of the instance's row that it comes from, from 1.
#[derive(Clone, Copy, PartialEq, Eq)]
pub struct NetRow {
    pub tail: u32,
    pub head: u32,
    pub lower: i64,
    pub span: u32,
    pub weight: u64,
    pub origin: u32,
}

impl NetRow {
    /// The row without its origin.
    pub fn arc(&self) -> Arc
        ensures { result ≡ arc_of_net self.now }
    {
        Arc {
            tail: self.tail,
            head: self.head,
            lower: self.lower,
            span: self.span,
            weight: self.weight,
        }
    }
}

/// The rows without their origins.
pub fn without_origins(alloc: Global, rows: &[NetRow]) -> Result<Vec<Arc>, AllocError>
    ensures { IfOk result (λ arcs. arcs.items ≡ arcs_of_network rows.now) }
{
    rows.iter().map(|row| row.arc()).collect(alloc)
}
