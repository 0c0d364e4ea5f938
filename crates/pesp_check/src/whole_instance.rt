//! The instance that a run reads first.

ghost use Rattle.std.specs.Prelude.{◌≢◌, ◌<◌, ◌^◌, OnOk, IfOk, IfErr};
ghost use Rattle.pesp_stream.specs.Counts.{FewerThan, HasWorked};
ghost use Rattle.pesp_check.specs.Devices.{over};
ghost use Rattle.pesp_check.specs.Checking.{ReadsInstance, InstanceCause};

use crate::fault::VerdictFault;
use pesp_instance::read_instance;
use pesp_problem::Instance;
use pesp_stream::{Source, read_all};
use std::alloc::Global;

/// The longest text of an instance.
const MOST_INSTANCE: usize = 16_777_216;

/// Reads an instance from all that the reader has; one byte more than the longest text is read, so that a longer one is
/// refused.
pub fn read_whole_instance<R: Source>(
    alloc: Global,
    reader: &mut R,
    period: u32,
) -> Result<Instance, VerdictFault>
    requires fits { FewerThan (2 ^ 63) (R.calls reader.old) }
    ensures ok { IfOk result
        (ReadsInstance (R.remaining reader.old) (R.remaining reader.new) period) }
    ensures counts { OnOk result (HasWorked (R.calls reader.old) (R.calls reader.new)) }
    ensures counts_else { IfErr result (λ fault. fault ≢ VerdictFault.Read → HasWorked (R.calls reader.old) (R.calls reader.new)) }
    ensures cause { IfErr result
        (λ fault. InstanceCause fault
        (over (R.remaining reader.old) (R.remaining reader.new)
        (R.calls reader.old) (R.calls reader.new)) period) }
{
    let text = read_all(alloc, reader, MOST_INSTANCE + 1)?;
    let instance = read_instance(alloc, &text, period)?;
    Ok(instance)
}
