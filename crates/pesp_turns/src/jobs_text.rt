//! The text of jobs.

ghost use Rattle.std.specs.Prelude.{◌++◌, codes};
ghost use Rattle.std.specs.List.{flat_map};
ghost use Rattle.pesp_stream.specs.Printing.{Sending, Sends};
ghost use Rattle.pesp_turns.specs.JobsTexts.{cut_words, side_word, step_words, open_job_line};

use crate::open_job::OpenJob;
use pesp_cert::{Number, Whole};
use pesp_problem::{Cut, Side};
use pesp_stream::{Output, Printed};

fn print_cut<O: Output>(cut: &Cut, out: &mut O)
    ensures { Sends (O.sending out.old) (O.sending out.new) (cut_words cut.now) }
{
    match cut {
        Cut::Slack { row, k } => (" s ", Number(*row), " ", Number(*k)).print(out),
        Cut::Offset { cycle, k } => (" o ", Number(*cycle), " ", Whole(k)).print(out),
    }
}

fn print_side<O: Output>(side: Side, out: &mut O)
    ensures { Sends (O.sending out.old) (O.sending out.new) (side_word side) }
{
    match side {
        Side::Low => " low".print(out),
        Side::High => " high".print(out),
    }
}

#[tactic(auto, using(pesp_stream::proofs::Printing::sends_then))]
fn print_step<O: Output>(step: &(Cut, Side), out: &mut O)
    ensures { Sends (O.sending out.old) (O.sending out.new) (step_words step.now) }
{
    print_cut(&step.0, out);
    print_side(step.1, out);
}

#[tactic(auto, using(pesp_stream::proofs::Printing::sends_nothing, pesp_stream::proofs::Printing::sends_next, pesp_stream::proofs::Printing::sends_all))]
fn print_path<O: Output>(path: &[(Cut, Side)], out: &mut O)
    ensures { Sends (O.sending out.old) (O.sending out.new) (flat_map step_words path.now) }
{
    for step in path {
        print_step(step, out);
    }
}

fn print_job<O: Output>(leaf: &OpenJob, out: &mut O)
    ensures { Sends (O.sending out.old) (O.sending out.new) (open_job_line leaf.now) }
{
    ("job ", Number(leaf.job.number), " ", Number(leaf.value)).print(out);
    print_path(&leaf.job.path, out);
    out.put(b"\n");
}

#[tactic(auto, using(pesp_stream::proofs::Printing::sends_nothing, pesp_stream::proofs::Printing::sends_next, pesp_stream::proofs::Printing::sends_all))]
fn print_jobs<O: Output>(opens: &[OpenJob], out: &mut O)
    ensures { Sends (O.sending out.old) (O.sending out.new) (flat_map open_job_line opens.now) }
{
    for leaf in opens {
        print_job(leaf, out);
    }
}

/// The text of jobs: a header, a line for each with its number, its value and its path, and the end.
#[derive(Clone, Copy)]
pub struct JobsText<'a>(pub &'a [OpenJob]);

impl Printed for JobsText<'_> {
    ghost use Rattle.pesp_turns.specs.JobsTexts.{jobs_text};

    ghost text = { λ t. jobs_text t.0.now };

    fn print<O: Output>(&self, out: &mut O) {
        out.put(b"pesp-jobs 1\n");
        print_jobs(self.0, out);
        out.put(b"end\n");
    }
}
