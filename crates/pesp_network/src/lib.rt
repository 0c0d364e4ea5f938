//! Networks of periodic rows: a spanning forest of each, the walks that it gives, bridges, and times from slacks.
#![tactic(auto)]

mod bridges;
mod chains;
mod forest;
mod growth;
pub mod laws;
mod limits;
mod network;
mod parts;
mod proposal;
mod refusal;
mod row;
mod times;
mod walks;

pub use chains::Chains;
pub use network::Network;
pub use refusal::NetRefusal;
pub use row::NetRow;
