//! What cases of tests run over: standard input, files and a clock in memory, and devices that fail.
//! Cases of streams and of boards, which are worked on by events.
#![tactic(auto)]

mod boards;
mod devices;
mod events;
mod file;
mod items;
mod reader;
mod runtime;
mod streams;
mod writer;

pub use boards::play_board;
pub use devices::{Device, device_of};
pub use items::ask_items;
pub use runtime::{CaseRuntime, CommandEnd};
pub use streams::{ask_bytes, ask_lines, ask_number, ask_pages, ask_words};
