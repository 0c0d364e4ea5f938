//! The line of a fault.

ghost use Rattle.std.specs.Prelude.{◌<◌, ◌^◌};
ghost use Rattle.pesp_stream.specs.Counts.{FewerThan};
ghost use Rattle.pesp_check.specs.Devices.{over};
ghost use Rattle.pesp_checker_cli.specs.Statuses.{TellsFault};

use pesp_check::{VerdictFault, status_of, tell};
use pesp_stream::{Bytes, Sink};
use std::alloc::Global;

/// Tells a fault on a line, and gives its exit status, whether or not the line went out. Where the line finds no memory, that is
/// the fault.
pub(crate) fn told<E: Sink>(alloc: Global, teller: &mut E, fault: &VerdictFault) -> u8
    requires fits { FewerThan (2 ^ 63) (E.calls teller.old) }
    ensures { TellsFault fault.now
        (over (E.contents teller.old) (E.contents teller.new)
        (E.calls teller.old) (E.calls teller.new))
        result }
{
    match format!(in alloc; "{fault}\n") {
        Ok(line) => {
            tell(teller, &Bytes(line.as_bytes()));
            status_of(fault)
        }
        Err(_) => {
            tell(teller, &"memory\n");
            status_of(&VerdictFault::Memory)
        }
    }
}
