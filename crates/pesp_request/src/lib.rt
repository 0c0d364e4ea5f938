//! What a command line asks for: its words, as a request with its numbers.
#![tactic(auto)]

mod command;
mod options;
mod request;

pub use command::request_of;
pub use request::{
    Asked, OfCertificate, OfInstance, OfLeaves, OfTimes, OfWorks, Planning, Request,
};
