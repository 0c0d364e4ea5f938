//! Printing a certificate.

ghost use Rattle.std.specs.Prelude.{◌≡◌, ◌<◌, ◌+◌, ◌^◌, ◌++◌, codes, None, OnOk, OnErr, if◌then◌else◌};
ghost use Rattle.std.specs.List.{flat_map};
ghost use Rattle.pesp_stream.specs.Counts.{FewerThan, HasWorked, DeviceFailed};
ghost use Rattle.pesp_stream.specs.Printing.{Sends};
ghost use Rattle.pesp_stream.specs.Writing.{Writes};
ghost use Rattle.pesp_cert.specs.Print.{head_lines, time_line, pair_text, pairs_text, row_text, rows_text, cycle_line, tree_line_text, cost_text, answer_line};
ghost use Rattle.pesp_cert.specs.Texts.{HasText, spelling};

use crate::certificate::Certificate;
use crate::laws::limits_are_those_of_texts;
use crate::number::{Number, Whole};
use pesp_problem::{Pair, SignedRow, Walk};
use pesp_stream::{Output, Printed, Sink, WriteFault, print_to};
use pesp_truth::{Answer, TreeLine};

/// The first two lines.
fn print_head<O: Output>(version: u32, period: u32, out: &mut O)
    ensures { Sends (O.sending out.old) (O.sending out.new) (head_lines version period) }
{
    (
        "pesp-certificate ",
        Number(version),
        "\nperiod ",
        Number(period),
        "\n",
    )
        .print(out);
}

fn print_pair<O: Output>(pair: &Pair, out: &mut O)
    ensures { Sends (O.sending out.old) (O.sending out.new) (pair_text pair.now) }
{
    (" ", Number(pair.cycle), " ", Whole(&pair.mult)).print(out);
}

#[tactic(auto, using(pesp_stream::proofs::Printing::sends_nothing, pesp_stream::proofs::Printing::sends_next, pesp_stream::proofs::Printing::sends_all))]
pub(crate) fn print_pairs<O: Output>(pairs: &[Pair], out: &mut O)
    ensures { Sends (O.sending out.old) (O.sending out.new) (pairs_text pairs.now) }
{
    for pair in pairs {
        print_pair(pair, out);
    }
}

fn print_time<O: Output>(time: &(i64, u32), out: &mut O)
    ensures { Sends (O.sending out.old) (O.sending out.new) (time_line time.now) }
{
    ("time ", Whole(&time.0), " ", Number(time.1), "\n").print(out);
}

/// The lines of these labels with their times.
#[tactic(auto, using(pesp_stream::proofs::Printing::sends_nothing, pesp_stream::proofs::Printing::sends_next, pesp_stream::proofs::Printing::sends_all))]
pub fn print_times<O: Output>(times: &[(i64, u32)], out: &mut O)
    ensures { Sends (O.sending out.old) (O.sending out.new) (flat_map time_line times.now) }
{
    for time in times {
        print_time(time, out);
    }
}

/// A space and a sign.
pub(crate) fn sign_text(plus: bool) -> &'static str
    ensures { result.now ≡ (if plus then codes " +" else codes " -") }
{
    if plus { " +" } else { " -" }
}

fn print_row<O: Output>(row: &SignedRow, out: &mut O)
    ensures { Sends (O.sending out.old) (O.sending out.new) (row_text row.now) }
{
    (sign_text(row.plus), Number(row.row)).print(out);
}

#[tactic(auto, using(pesp_stream::proofs::Printing::sends_nothing, pesp_stream::proofs::Printing::sends_next, pesp_stream::proofs::Printing::sends_all))]
fn print_rows<O: Output>(rows: &[SignedRow], out: &mut O)
    ensures { Sends (O.sending out.old) (O.sending out.new) (rows_text rows.now) }
{
    for row in rows {
        print_row(row, out);
    }
}

fn print_cycle<O: Output>(walk: &Walk, out: &mut O)
    ensures { Sends (O.sending out.old) (O.sending out.new) (cycle_line walk.now) }
{
    out.put(b"cycle");
    print_rows(walk.rows(), out);
    out.put(b"\n");
}

#[tactic(auto, using(pesp_stream::proofs::Printing::sends_nothing, pesp_stream::proofs::Printing::sends_next, pesp_stream::proofs::Printing::sends_all))]
pub(crate) fn print_cycles<O: Output>(cycles: &[Walk], out: &mut O)
    ensures { Sends (O.sending out.old) (O.sending out.new) (flat_map cycle_line cycles.now) }
{
    for walk in cycles {
        print_cycle(walk, out);
    }
}

fn print_leaf<O: Output>(word: &str, pairs: &[Pair], out: &mut O)
    ensures { Sends (O.sending out.old) (O.sending out.new)
        (word.now ++ pairs_text pairs.now ++ codes "\n") }
{
    word.print(out);
    print_pairs(pairs, out);
    out.put(b"\n");
}

fn print_line<O: Output>(line: &TreeLine, out: &mut O)
    ensures { Sends (O.sending out.old) (O.sending out.new) (tree_line_text line.now) }
{
    match line {
        TreeLine::Slack { row, k } => ("s ", Number(*row), " ", Number(*k), "\n").print(out),
        TreeLine::Offset { cycle, k } => ("o ", Number(*cycle), " ", Whole(k), "\n").print(out),
        TreeLine::Bound(pairs) => print_leaf("b", pairs.as_slice(), out),
        TreeLine::Nothing(pairs) => print_leaf("n", pairs.as_slice(), out),
        TreeLine::Gap(cycle) => ("g ", Number(*cycle), "\n").print(out),
        TreeLine::Propagated => "p\n".print(out),
    }
}

/// These lines of a tree.
#[tactic(auto, using(pesp_stream::proofs::Printing::sends_nothing, pesp_stream::proofs::Printing::sends_next, pesp_stream::proofs::Printing::sends_all))]
pub fn print_tree<O: Output>(lines: &[TreeLine], out: &mut O)
    ensures { Sends (O.sending out.old) (O.sending out.new) (flat_map tree_line_text lines.now) }
{
    for line in lines {
        print_line(line, out);
    }
}

fn print_cost<O: Output>(cost: Option<u64>, out: &mut O)
    ensures { Sends (O.sending out.old) (O.sending out.new) (cost_text cost) }
{
    match cost {
        None => "none".print(out),
        Some(cost) => Number(cost).print(out),
    }
}

fn print_answer<O: Output>(answer: Answer, out: &mut O)
    ensures { Sends (O.sending out.old) (O.sending out.new) (answer_line answer) }
{
    match answer {
        Answer::Optimal(cost) => ("answer optimal ", Number(cost), "\n").print(out),
        Answer::Infeasible => "answer infeasible\n".print(out),
        Answer::Bounded { least, cost } => {
            ("answer open ", Number(least), " ").print(out);
            print_cost(cost, out);
            out.put(b"\n");
        }
    }
}

impl Printed for Certificate {
    ghost use Rattle.std.specs.Prelude.{None};
    ghost use Rattle.pesp_cert.specs.Texts.{spelling};

    ghost text = { spelling None };

    fn print<O: Output>(&self, out: &mut O) {
        print_head(self.version(), self.period(), out);
        print_answer(self.answer(), out);
        print_times(self.times(), out);
        print_cycles(self.cycles(), out);
        print_tree(self.tree(), out);
        out.put(b"end\n");
    }
}

/// Every certificate has a text.
fn has_text(certificate: &Certificate)
    ensures { HasText None certificate.now }
{
    limits_are_those_of_texts();
    certificate.period();
}

/// Writes the certificate's one text, a page at a time. An interrupted write is repeated, at most 1000 times in all, and a
/// write that takes no byte is a fault. After a fault a front of the text went out. It takes no memory.
pub fn print<W: Sink>(certificate: &Certificate, sink: &mut W) -> Result<(), WriteFault>
    requires fits { FewerThan (2 ^ 63) (W.calls sink.old) }
    ensures has_text { HasText None certificate.now }
    ensures text { Writes (W.contents sink.old) (W.contents sink.new) (spelling None certificate.now)
        result }
    ensures counts { OnOk result (HasWorked (W.calls sink.old) (W.calls sink.new)) }
    // The device is blamed only where it failed.
    ensures fault { OnErr result (DeviceFailed (W.calls sink.old) (W.calls sink.new)) }
{
    has_text(certificate);
    print_to(sink, certificate)
}
