//! Net counts of a walk, each row once.

ghost use Rattle.std.specs.Prelude.{◌≡◌, ◌++◌, ◌∷◌, [], OnOk, OnErr};

use std::alloc::{AllocError, Global};
use std::marker::Model;

/// The net count of the row at a place, from 0: how often a walk passes it under a plus sign, less how often under a minus
/// sign.
#[derive(Clone, Copy, PartialEq, Eq)]
pub struct NetCount {
    pub place: u32,
    pub count: i64,
}

/// The net counts of a walk's rows, each row once.
#[derive(Drop)]
pub struct Nets {
    counts: Vec<NetCount>,
}

impl Model for Nets {
    ghost use Rattle.std.specs.Prelude.{List};
    ghost use Rattle.pesp_problem.specs.declared.nets.NetCount.{NetCount};

    ghost Value = { List NetCount };

    ghost view = { λ n. n.counts.items };
}

impl Nets {
    /// No net counts.
    pub fn new(alloc: Global) -> Nets
        ensures { result ≡ [] }
    {
        Nets {
            counts: Vec::new(alloc),
        }
    }

    /// These net counts.
    pub fn of(counts: Vec<NetCount>) -> Nets
        ensures { result ≡ counts.items }
    {
        Nets { counts }
    }

    /// The net counts in order.
    pub fn counts(&self) -> &[NetCount]
        ensures { result.now ≡ self.now }
    {
        &self.counts
    }

    /// One net count more. After a refused growth nothing has changed.
    pub fn push(&mut self, net: NetCount) -> Result<(), AllocError>
        ensures more { OnOk result (self.new ≡ self.old ++ net ∷ []) }
        ensures same { OnErr result (self.new ≡ self.old) }
    {
        self.counts.push(net)?;
        Ok(())
    }
}
