//! A text that goes to a writer, page by page.
ghost use Rattle.std.specs.Prelude.{◌≡◌, ◌<◌, ◌≤◌, ◌+◌, ◌^◌, [], true, false, IsErr, OnOk, OnErr};
ghost use Rattle.pesp_stream.specs.Printing.{Sending, Sends};
ghost use Rattle.pesp_stream.specs.Counts.{FewerThan, Worked, Failed, HasWorked, DeviceFailed};
ghost use Rattle.pesp_stream.specs.Writing.{Writes};
ghost use Rattle.std.below.core.specs.declared.int.u64.TheConstants.{MAX};

use crate::output::Output;
use crate::page::Page;
use crate::printed::Printed;
use crate::read_loop::MOST_INTERRUPTED;
use crate::sink::Sink;
use crate::write_loop::WriteFault;

/// A writer, the page before it, and whether it failed.
#[derive(Drop)]
struct Printer<'a, W: Sink> {
    sink: &'a mut W,
    page: Page,
    most: u64,
    stopped: bool,
    ghost failed_fits: { stopped ≡ false → (W.calls sink.now).failed < MAX },
    ghost interrupted_fits: { stopped ≡ false → (W.calls sink.now).interrupted ≤ most },
    ghost most_fits: { most < MAX },
}

impl<W: Sink> Output for Printer<'_, W> {
    ghost sending = { λ s. record {
      told = W.contents s.sink.now;
      calls = W.calls s.sink.now;
      most = s.most;
      kept = s.page;
      stopped = s.stopped;
      writer = s.sink.ghost_name;
    } };

    fn put(&mut self, bytes: &[u8]) {
        if !self.stopped {
            self.stopped = self.page.put(self.sink, bytes, self.most).is_err();
        }
    }
}

impl<'a, W: Sink> Printer<'a, W> {
    fn new(sink: &'a mut W) -> Printer<'a, W>
        requires fits { FewerThan (2 ^ 63) (W.calls sink.old) }
        ensures writer { result.sink.ghost_name ≡ sink.entry.ghost_name }
        ensures same { result.sink.now ≡ sink.old }
        ensures most { result.most ≡ (W.calls sink.old).interrupted + 1000 }
        ensures page { result.page ≡ [] }
        ensures going { result.stopped ≡ false }
    {
        let most = sink.interrupted_writes() + MOST_INTERRUPTED;
        Printer {
            sink,
            page: Page::new(),
            most,
            stopped: false,
        }
    }

    fn finish(&mut self) -> Result<(), WriteFault>
        ensures writer { self.new.sink.ghost_name ≡ self.old.sink.ghost_name }
        ensures same { self.old.stopped ≡ true → self.new.sink.now ≡ self.old.sink.now }
        ensures err { self.old.stopped ≡ true → IsErr result }
        ensures text { self.old.stopped ≡ false → Writes (W.contents self.old.sink.now)
            (W.contents self.new.sink.now) self.old.page result }
        ensures counts { self.old.stopped ≡ false
            → OnOk result (Worked (W.calls self.old.sink.now) self.old.most
            (W.calls self.new.sink.now)) }
        ensures fault { self.old.stopped ≡ false
            → OnErr result (Failed (W.calls self.old.sink.now) self.old.most
            (W.calls self.new.sink.now)) }
    {
        if self.stopped {
            return Err(WriteFault);
        }
        self.stopped = true;
        self.page.finish(self.sink, self.most)
    }
}

/// Writes the text of the value, a page at a time. An interrupted write is repeated, at most 1000 times in all; a write
/// that takes no byte is a fault. After a fault a front of the text is written.
pub fn print_to<W: Sink, T: Printed>(sink: &mut W, value: &T) -> Result<(), WriteFault>
    requires fits { FewerThan (2 ^ 63) (W.calls sink.old) }
    ensures text { Writes (W.contents sink.old) (W.contents sink.new) (T.text value.now) result }
    ensures counts { OnOk result (HasWorked (W.calls sink.old) (W.calls sink.new)) }
    ensures fault { OnErr result (DeviceFailed (W.calls sink.old) (W.calls sink.new)) }
{
    let mut printer = Printer::new(sink);
    value.print(&mut printer);
    printer.finish()
}
