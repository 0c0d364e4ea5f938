//! What a timetable costs where: the times are read from a text, and each activity is told with its slack, and with the names of
//! its events where a text tells them; or what times violate is told.
#![tactic(auto)]

mod line;
mod name_records;
mod named_records;
mod named_report;
mod names;
mod names_refusal;
mod records;
mod refusal;
mod times;
mod timetable_cost;
mod violated;
mod violation;
mod violation_records;
mod whole_report;

pub use line::{Line, lines_by_cost};
pub use name_records::read_names;
pub use named_report::report_named;
pub use names::{Name, Names};
pub use names_refusal::NamesRefusal;
pub use refusal::{ReportRefusal, TimesRefusal, ViolationsRefusal};
pub use times::read_times;
pub use timetable_cost::cost_of;
pub use violated::violations;
pub use whole_report::report;
