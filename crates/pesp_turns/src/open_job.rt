//! Open leaves as jobs.

use pesp_board::Job;

/// An open leaf as a job: its number, the path to it from the root, and its value, one above 999999999999999999 told as that
/// number.
#[derive(Drop)]
pub struct OpenJob {
    pub job: Job,
    pub value: u64,
}
