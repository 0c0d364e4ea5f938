//! What is proposed in the place of an answer.

use pesp_cert::Fronted;

/// What is proposed in the place of an answer: what was found, and that answer with the best timetable; none where a part would
/// pass a limit, or nothing is new.
#[derive(Drop)]
pub struct Proposals {
    pub sharp: Option<Fronted>,
    pub timed: Option<Fronted>,
}

impl Proposals {
    /// No proposals.
    pub fn none() -> Proposals {
        Proposals {
            sharp: None,
            timed: None,
        }
    }
}
