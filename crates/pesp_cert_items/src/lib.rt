//! A certificate's text while it is read: its lines, one after another, each lent from the buffer that it was read into.
//!
//! Works as texts: what a solver outside hands back for jobs, each with one text.
#![tactic(auto)]

mod chunk;
mod cursor;
mod fault;
mod item;
mod item_reader;
mod items;
mod job;
pub mod laws;
mod lent_item;
mod lines;
mod marked;
mod pairs;
mod printer;
mod reader;
mod rows;
mod stage;
mod text_line;
mod work_line;
mod work_text;

pub use fault::ItemFault;
pub use item::Item;
pub use item_reader::ItemReader;
pub use items::Items;
pub use job::MOST_JOB;
pub use marked::MarkedRows;
pub use pairs::LinePairs;
pub use pesp_cert::CertRefusal;
pub use pesp_truth::TreeLine;
pub use printer::print_work;
pub use reader::parse_works;
pub use rows::SignedRows;
pub use text_line::TextLine;
pub use work_text::WorkText;
