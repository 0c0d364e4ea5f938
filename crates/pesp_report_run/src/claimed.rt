//! Times with what their text claims of other timetables.

ghost use Rattle.std.specs.Prelude.{◌≢◌, ◌<◌, ◌^◌, OnOk, IfOk, IfErr};
ghost use Rattle.pesp_stream.specs.Counts.{FewerThan, HasWorked};
ghost use Rattle.pesp_problem.specs.Timetables.{AreTimes};
ghost use Rattle.pesp_check.specs.Devices.{over};
ghost use Rattle.pesp_runs.specs.Reading.{ReadsTimes};
ghost use Rattle.pesp_runs.specs.Causes.{TimesCause};

use pesp_diagram::{Claim, claim_in};
use pesp_problem::Instance;
use pesp_report::read_times;
use pesp_runs::{Fault, MOST_TEXT};
use pesp_stream::{Source, read_all};
use std::alloc::Global;

/// One time for each event, and what the text that tells them claims.
#[derive(Drop)]
pub(crate) struct Claimed {
    pub(crate) times: Vec<u32>,
    pub(crate) claim: Claim,
}

/// Reads one time for each event from all that the reader has, and what the text claims.
pub(crate) fn read_claimed<R: Source>(
    alloc: Global,
    instance: &Instance,
    reader: &mut R,
) -> Result<Claimed, Fault>
    requires fits { FewerThan (2 ^ 63) (R.calls reader.old) }
    ensures ok { IfOk result
        (λ claimed. ReadsTimes (R.remaining reader.old) (R.remaining reader.new) instance.now
        claimed.times.items) }
    ensures times { IfOk result (λ claimed. AreTimes instance.now claimed.times.items) }
    ensures counts { OnOk result (HasWorked (R.calls reader.old) (R.calls reader.new)) }
    ensures counts_else { IfErr result (λ fault. fault ≢ Fault.Read → HasWorked (R.calls reader.old) (R.calls reader.new)) }
    ensures cause { IfErr result
        (λ fault. TimesCause fault
        (over (R.remaining reader.old) (R.remaining reader.new)
        (R.calls reader.old) (R.calls reader.new)) instance.now) }
{
    let text = read_all(alloc, reader, MOST_TEXT)?;
    let times = read_times(alloc, instance, &text)?;
    let claim = claim_in(&text);
    Ok(Claimed { times, claim })
}
