//! Names of events, from a reader.

ghost use Rattle.std.specs.Prelude.{◌≢◌, ◌<◌, ◌^◌, OnOk, IfErr};
ghost use Rattle.pesp_stream.specs.Counts.{FewerThan, HasWorked};
ghost use Rattle.pesp_check.specs.Devices.{over};
ghost use Rattle.pesp_report_run.specs.Naming.{NamesCause};

use pesp_report::{Names, read_names};
use pesp_runs::Fault;
use pesp_stream::{Source, read_all};
use std::alloc::Global;

/// The longest text of names.
const MOST_NAMES: usize = 16_777_216;

/// Reads names from all that the reader has; one byte more than the longest text is read, so that a longer one is refused.
pub fn read_whole_names<R: Source>(alloc: Global, reader: &mut R) -> Result<Names, Fault>
    requires fits { FewerThan (2 ^ 63) (R.calls reader.old) }
    ensures counts { OnOk result (HasWorked (R.calls reader.old) (R.calls reader.new)) }
    ensures counts_else { IfErr result (λ fault. fault ≢ Fault.Read → HasWorked (R.calls reader.old) (R.calls reader.new)) }
    ensures cause { IfErr result
        (λ fault. NamesCause fault
        (over (R.remaining reader.old) (R.remaining reader.new)
        (R.calls reader.old) (R.calls reader.new))) }
{
    let text = read_all(alloc, reader, MOST_NAMES + 1)?;
    let names = read_names(alloc, &text)?;
    Ok(names)
}
