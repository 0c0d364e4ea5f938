//! An instance and what is left of it.

ghost use Rattle.std.specs.Prelude.{◌≡◌};

use pesp_network::Network;
use pesp_problem::Instance;
use pesp_reduce::Reduced;
use std::alloc::Global;

/// An instance, what is left of it, and the network of that.
#[derive(Clone, Copy)]
pub struct Left<'a> {
    pub alloc: Global,
    pub instance: &'a Instance,
    pub reduced: &'a Reduced,
    pub network: &'a Network,
}

impl<'a> Left<'a> {
    /// What is left of an instance.
    pub fn of(alloc: Global, instance: &'a Instance, reduced: &'a Reduced) -> Left<'a>
        ensures instance { result.instance.now ≡ instance.now }
        ensures reduced { result.reduced.now ≡ reduced.now }
    {
        Left {
            alloc,
            instance,
            reduced,
            network: reduced.network(),
        }
    }
}
