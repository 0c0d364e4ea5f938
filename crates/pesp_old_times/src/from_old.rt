//! Old times that a search starts with.

use crate::beginning::begin_with;
use crate::listener::Listener;
use pesp_problem::Instance;
use pesp_runs::{Fault, MOST_TEXT, Start};
use pesp_stream::{Source, read_all};
use std::alloc::Global;

/// Old times, which may be told in any order, for other events too, and violate activities: then a search begins with a timetable near
/// to them, or with none where none is found, and a listener is told of it. `Times` where a line that begins with `time ` isn't one.
#[derive(Drop)]
pub struct FromOldTimes<L> {
    pub listener: L,
}

impl<L: Listener> Start for FromOldTimes<L> {
    ghost use Rattle.pesp_old_times.specs.Beginning.{ReadsOld, OldCause};

    ghost reads = { ReadsOld };

    ghost refused = { OldCause };

    fn read<R: Source>(
        &mut self,
        alloc: Global,
        instance: &Instance,
        reader: &mut R,
    ) -> Result<Vec<u32>, Fault> {
        let text = read_all(alloc, reader, MOST_TEXT)?;
        begin_with(alloc, instance, &text, &mut self.listener)
    }
}
