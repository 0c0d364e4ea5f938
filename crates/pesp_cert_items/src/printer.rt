//! Printing a work.

ghost use Rattle.std.specs.Prelude.{◌<◌, ◌^◌, OnOk, OnErr};
ghost use Rattle.pesp_stream.specs.Counts.{FewerThan, HasWorked, DeviceFailed};
ghost use Rattle.pesp_stream.specs.Printing.{Sending, Sends};
ghost use Rattle.pesp_stream.specs.Writing.{Writes};
ghost use Rattle.pesp_cert_items.specs.Print.{head_text};
ghost use Rattle.pesp_cert_items.specs.Works.{HasWorkText, work_spelling};

use crate::work_text::WorkText;
use itoa::Buffer;
use pesp_cert::{print_times, print_tree};
use pesp_stream::{Output, Printed, Sink, WriteFault, print_to};

/// The first two lines.
fn print_head<O: Output>(job: u64, out: &mut O)
    ensures { Sends (O.sending out.old) (O.sending out.new) (head_text job) }
{
    let mut buffer = Buffer::new();
    out.put(b"pesp-work 1\njob ");
    out.put(buffer.format(job).as_bytes());
    out.put(b"\n");
}

impl Printed for WorkText {
    ghost use Rattle.pesp_cert_items.specs.Works.{work_spelling};

    ghost text = { work_spelling };

    fn print<O: Output>(&self, out: &mut O) {
        print_head(self.job, out);
        print_times(&self.times, out);
        print_tree(&self.tree, out);
        out.put(b"end\n");
    }
}

/// Writes the work's one text, a page at a time; the work has to have one: a job of at most 999999, and times and a tree that
/// a certificate can have. An interrupted write is repeated, at most 1000 times in all, and a write that takes no byte is a
/// fault. After a fault a front of the text went out. It takes no memory.
pub fn print_work<W: Sink>(work: &WorkText, sink: &mut W) -> Result<(), WriteFault>
    requires has_text { HasWorkText work.now }
    requires fits { FewerThan (2 ^ 63) (W.calls sink.old) }
    ensures text { Writes (W.contents sink.old) (W.contents sink.new) (work_spelling work.now) result }
    ensures counts { OnOk result (HasWorked (W.calls sink.old) (W.calls sink.new)) }
    // The device is blamed only where it failed.
    ensures fault { OnErr result (DeviceFailed (W.calls sink.old) (W.calls sink.new)) }
{
    print_to(sink, work)
}
