//! Printing a certificate with its front.

ghost use Rattle.std.specs.Prelude.{◌≡◌, ◌^◌, ◌++◌, codes, OnOk, OnErr, Some};
ghost use Rattle.std.specs.List.{flat_map};
ghost use Rattle.std.specs.Fmt.{signed_decimal};
ghost use Rattle.pesp_stream.specs.Counts.{FewerThan, HasWorked, DeviceFailed};
ghost use Rattle.pesp_stream.specs.Printing.{Sends};
ghost use Rattle.pesp_stream.specs.Writing.{Writes};
ghost use Rattle.pesp_cert.specs.FrontPrint.{row_text, rows_text, walk_text, marks_text, lemma_text};
ghost use Rattle.pesp_cert.specs.Print.{pairs_text, cycle_line, tree_line_text};
ghost use Rattle.pesp_cert.specs.Fronted.{fronted_text, front_text};
ghost use Rattle.pesp_cert_lines.specs.Marked.{star};

use crate::front::Front;
use crate::fronted::Fronted;
use crate::number::{Number, Whole};
use crate::printer::{print_cycles, print_pairs, print_tree, sign_text};
use crate::shown_lemma::ShownLemma;
use pesp_problem::{MarkedRow, MarkedWalk};
use pesp_stream::{Output, Printed, Sink, WriteFault, print_to};

/// The mark of a flipped row.
fn star_text(flipped: bool) -> &'static str
    ensures { result.now ≡ star flipped }
{
    if flipped { "*" } else { "" }
}

fn print_row<O: Output>(row: &MarkedRow, out: &mut O)
    ensures { Sends (O.sending out.old) (O.sending out.new) (row_text row.now) }
{
    (
        sign_text(row.signed.plus),
        Number(row.signed.row),
        star_text(row.flipped),
    )
        .print(out);
}

#[tactic(auto, using(pesp_stream::proofs::Printing::sends_nothing, pesp_stream::proofs::Printing::sends_next, pesp_stream::proofs::Printing::sends_all))]
fn print_rows<O: Output>(rows: &[MarkedRow], out: &mut O)
    ensures { Sends (O.sending out.old) (O.sending out.new) (rows_text rows.now) }
{
    for row in rows {
        print_row(row, out);
    }
}

fn print_walk<O: Output>(walk: &MarkedWalk, out: &mut O)
    ensures { Sends (O.sending out.old) (O.sending out.new) (walk_text walk.now) }
{
    out.put(b"walk");
    print_rows(walk.rows(), out);
    out.put(b"\n");
}

#[tactic(auto, using(pesp_stream::proofs::Printing::sends_nothing, pesp_stream::proofs::Printing::sends_next, pesp_stream::proofs::Printing::sends_all))]
fn print_walks<O: Output>(walks: &[MarkedWalk], out: &mut O)
    ensures { Sends (O.sending out.old) (O.sending out.new) (flat_map walk_text walks.now) }
{
    for walk in walks {
        print_walk(walk, out);
    }
}

/// The lines of a scale and of marked walks.
fn print_marks<O: Output>(scale: u32, walks: &[MarkedWalk], out: &mut O)
    ensures { Sends (O.sending out.old) (O.sending out.new)
        (marks_text (record { scale = scale; walks = walks.now })) }
{
    ("scale ", Number(scale), "\n").print(out);
    print_walks(walks, out);
}

/// The line of a lemma's rows.
fn print_lemma_rows<O: Output>(lemma: &ShownLemma, out: &mut O)
    ensures { Sends (O.sending out.old) (O.sending out.new)
        (codes "lemma" ++ pairs_text lemma.now.fact.weights) }
{
    out.put(b"lemma");
    print_pairs(&lemma.weights, out);
}

/// The end of the line of a lemma's rows, and the line of its least sum.
fn print_lemma_least<O: Output>(lemma: &ShownLemma, out: &mut O)
    ensures { Sends (O.sending out.old) (O.sending out.new)
        (codes "\nleast " ++ (signed_decimal lemma.now.fact.least ++ codes "\n")) }
{
    ("\nleast ", Whole(&lemma.least), "\n").print(out);
}

/// The lines of a lemma's scale and marked walks.
fn print_lemma_marks<O: Output>(lemma: &ShownLemma, out: &mut O)
    ensures { Sends (O.sending out.old) (O.sending out.new) (marks_text lemma.now.marks) }
{
    print_marks(lemma.scale, &lemma.walks, out);
}

/// The lines of a lemma's cycles.
fn print_lemma_cycles<O: Output>(lemma: &ShownLemma, out: &mut O)
    ensures { Sends (O.sending out.old) (O.sending out.new) (flat_map cycle_line lemma.now.cycles) }
{
    print_cycles(&lemma.cycles, out);
}

/// The lines of a lemma's tree.
fn print_lemma_tree<O: Output>(lemma: &ShownLemma, out: &mut O)
    ensures { Sends (O.sending out.old) (O.sending out.new) (flat_map tree_line_text lemma.now.tree) }
{
    print_tree(&lemma.tree, out);
}

fn print_lemma<O: Output>(lemma: &ShownLemma, out: &mut O)
    ensures { Sends (O.sending out.old) (O.sending out.new) (lemma_text lemma.now) }
{
    print_lemma_rows(lemma, out);
    print_lemma_least(lemma, out);
    print_lemma_marks(lemma, out);
    print_lemma_cycles(lemma, out);
    print_lemma_tree(lemma, out);
}

#[tactic(auto, using(pesp_stream::proofs::Printing::sends_nothing, pesp_stream::proofs::Printing::sends_next, pesp_stream::proofs::Printing::sends_all))]
fn print_lemmas<O: Output>(lemmas: &[ShownLemma], out: &mut O)
    ensures { Sends (O.sending out.old) (O.sending out.new) (flat_map lemma_text lemmas.now) }
{
    for lemma in lemmas {
        print_lemma(lemma, out);
    }
}

fn print_some_front<O: Output>(front: &Front, out: &mut O)
    ensures { Sends (O.sending out.old) (O.sending out.new) (front_text (Some front.now)) }
{
    let marks = front.marks();
    out.put(b"pesp-certificate 3\n");
    print_marks(marks.scale(), marks.walks(), out);
    print_lemmas(front.lemmas(), out);
}

fn print_front<O: Output>(front: &Option<Front>, out: &mut O)
    ensures { Sends (O.sending out.old) (O.sending out.new) (front_text front.now) }
{
    if let Some(front) = front {
        print_some_front(front, out);
    }
}

impl Printed for Fronted {
    ghost use Rattle.pesp_cert.specs.Fronted.{fronted_text};

    ghost text = { fronted_text };

    fn print<O: Output>(&self, out: &mut O) {
        print_front(&self.front, out);
        self.certificate.print(out);
    }
}

/// Writes the one text of a certificate with its front, a page at a time. An interrupted write is repeated, at most 1000
/// times in all, and a write that takes no byte is a fault. After a fault a front of the text went out. It takes no memory.
pub fn print_fronted<W: Sink>(certificate: &Fronted, sink: &mut W) -> Result<(), WriteFault>
    requires fits { FewerThan (2 ^ 63) (W.calls sink.old) }
    ensures text { Writes (W.contents sink.old) (W.contents sink.new)
        (fronted_text certificate.now) result }
    ensures counts { OnOk result (HasWorked (W.calls sink.old) (W.calls sink.new)) }
    // The device is blamed only where it failed.
    ensures fault { OnErr result (DeviceFailed (W.calls sink.old) (W.calls sink.new)) }
{
    print_to(sink, certificate)
}
