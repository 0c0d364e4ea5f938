//! The lines of a work behind its job's.

ghost use Rattle.std.specs.Prelude.{◌≡◌, ◌≤◌, IfOk, length};
ghost use Rattle.pesp_stream.specs.Words.{words_of};
ghost use Rattle.pesp_cert_lines.specs.Counts.{progress_after, ProgressIsKept};
ghost use Rattle.pesp_cert_lines.specs.Lines.{LONGEST};
ghost use Rattle.pesp_cert_items.specs.Works as works;
ghost use Rattle.pesp_cert_items.specs.Lines as spec;

use pesp_cert_lines::{Item, LineFault, Place, Progress, Versions, take_line};
use pesp_stream::{Words, is_word};

/// How far a text has come behind the line of a job.
pub(crate) fn opening() -> Progress
    ensures exact { result ≡ works.work_progress }
    ensures kept { ProgressIsKept result }
{
    Progress {
        place: Place::Times,
        version: 2,
        ..Progress::new(Versions::Plain)
    }
}

/// Whether this is the line of a cycle, by its first word.
fn begins_cycle(line: &[u8]) -> bool
    ensures { result ≡ spec.begins_cycle (words_of line.now) }
{
    match Words::new(line).next() {
        None => false,
        Some(word) => is_word(word, "cycle"),
    }
}

/// Takes the next line of a work: what it says, or its first fault.
#[tactic(auto, unfolding(crate::specs::Lines::work_line_at))]
pub(crate) fn take_work_line<'a>(
    progress: &mut Progress,
    line: &'a [u8],
) -> Result<Item<'a>, LineFault>
    requires short { length line.now ≤ LONGEST }
    requires kept { ProgressIsKept progress.old }
    ensures exact { result ≡ spec.work_line_at progress.old line.now }
    ensures goes { IfOk result (λ item. progress.new ≡ progress_after progress.old item) }
    ensures kept { IfOk result (λ item. ProgressIsKept progress.new) }
{
    if begins_cycle(line) {
        return Err(LineFault::Line);
    }
    take_line(progress, line)
}
