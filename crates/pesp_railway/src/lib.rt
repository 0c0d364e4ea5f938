//! The railway that names tell: its lines and stations, what activities are there, the ways of trains, and what is told of each
//! event along them. The sum of a closed walk of activities in words, by the stations that it comes to.
#![tactic(auto)]

mod changes;
mod closed;
mod distances;
mod duration;
mod kind;
mod links;
mod network;
mod step;
mod steps;
mod sums;
mod told;
mod ways;

pub use duration::duration_of;
pub use kind::{ActivityKind, direction_of, kind_on};
pub use network::{Line, RailwayNetwork, StationPlace};
pub use step::{Direction, Halt, WayEvent};
pub use sums::add_sums;
pub use told::{Told, told_of_events};
