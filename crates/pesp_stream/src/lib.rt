//! Bytes in, bytes out: readers and writers that count their failed and interrupted calls, the loop that reads a whole
//! text, the loop that writes one, and texts that are printed piece by piece.
//!
//! The words and numbers of the planner's line texts: single spaces between words, one spelling for each number.
#![tactic(auto)]

pub mod counted;
mod lines;
mod number;
pub mod output;
pub mod page;
pub mod pieces;
pub mod printed;
pub mod printer;
pub mod read_loop;
pub mod sink;
pub mod source;
mod split;
mod words;
pub mod write_loop;

pub use counted::Counted;
pub use lines::Lines;
pub use number::{natural, whole};
pub use output::Output;
pub use page::Page;
pub use pieces::Bytes;
pub use printed::Printed;
pub use printer::print_to;
pub use read_loop::{MOST_INTERRUPTED, ReadFault, Unread, read_all, read_repeating};
pub use sink::Sink;
pub use source::Source;
pub use split::split_at_byte;
pub use words::{Words, count_words, is_word};
pub use write_loop::{WriteFault, write_all};
