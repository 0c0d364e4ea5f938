//! Instances of the periodic event scheduling problem, read from a text.
#![tactic(auto)]

mod activity;
mod number;
mod records;
mod refusal;
mod table;
mod whole_text;

pub use number::parse_number;
pub use pesp_problem::{
    Arc, Cut, Instance, Memory, Pair, Pairs, Row, Score, Side, SignedRow, Walk, score,
};
pub use pesp_stream::{Counted, ReadFault, Sink, Source, WriteFault, read_all, write_all};
pub use records::{delimiter_of, is_skipped, names_columns};
pub use refusal::ReadRefusal;
pub use whole_text::read_instance;
