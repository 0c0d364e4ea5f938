//! The runs of a command that searches, from nothing or from times.

ghost use Rattle.std.specs.Prelude.{◌≡◌, ◌≢◌, ◌<◌, ◌^◌, ℕ, List, OnOk, IfErr};
ghost use Rattle.std.specs.Io.KnownBytes.{Appends};
ghost use Rattle.pesp_stream.specs.Counts.{FewerThan, HasWorked};
ghost use Rattle.pesp_problem.specs.Timetables.{Pesp};
ghost use Rattle.pesp_check.specs.Devices.{over, HasFailed, GetsFront};
ghost use Rattle.pesp_runs.specs.declared.fault.Fault.{Fault as AnyFault};
ghost use Rattle.pesp_runs.specs.Runs.{Alone, AloneCause, OverBase, OverBaseCause};

use crate::start::Start;
use crate::{Fault, read_whole_instance};
use pesp_problem::Instance;
use pesp_stream::{Sink, Source};
use std::alloc::Global;

/// What is found for an instance, from times where there are some, and written.
pub trait Search {
    // What its caller shows.
    ghost within: { Self → Type 0 };

    // What is written for these times: the writer got what the last relation says of its text. The task is named as it was before and
    // as it is after, since it may keep what it found elsewhere.
    ghost writes: { Self → Self → Pesp → List ℕ → (List ℕ → Type 0) → Type 0 };

    // Why nothing went out whole. The last one says that the writer failed, behind a front of the text.
    ghost stops: { Self → Pesp → List ℕ → AnyFault → Type 0 → Type 0 };

    /// Searches, and writes what is found. The writer isn't called before all that is written stands.
    fn write<W: Sink>(
        &mut self,
        alloc: Global,
        instance: &Instance,
        times: &[u32],
        writer: &mut W,
    ) -> Result<(), Fault>
        requires within { within self.old }
        requires fits { FewerThan (2 ^ 63) (W.calls writer.old) }
        ensures ok { OnOk result (writes self.old self.new instance.now times.now
            (Appends (W.contents writer.old) (W.contents writer.new))) }
        ensures counts { OnOk result (HasWorked (W.calls writer.old) (W.calls writer.new)) }
        ensures cause { IfErr result (λ fault. stops self.old instance.now times.now fault
            (HasFailed (over (W.contents writer.old) (W.contents writer.new)
            (W.calls writer.old) (W.calls writer.new))
            × writes self.old self.new instance.now times.now (GetsFront
            (over (W.contents writer.old) (W.contents writer.new)
            (W.calls writer.old) (W.calls writer.new))))) }
        ensures silent { IfErr result (λ fault. fault ≢ Fault.Write → writer.new ≡ writer.old) };
}

/// Reads an instance, and writes what a search finds for it. Nothing is written before all stands.
pub fn run_alone<S: Search, R: Source, W: Sink>(
    alloc: Global,
    search: &mut S,
    reader: &mut R,
    writer: &mut W,
    period: u32,
) -> Result<(), Fault>
    requires within { S.within search.old }
    requires reads_fit { FewerThan (2 ^ 62) (R.calls reader.old) }
    requires writes_fit { FewerThan (2 ^ 62) (W.calls writer.old) }
    ensures ok { OnOk result (Alone (S.writes search.old search.new)
        (R.remaining reader.old) (R.remaining reader.new) period
        (Appends (W.contents writer.old) (W.contents writer.new))) }
    ensures reads { OnOk result (HasWorked (R.calls reader.old) (R.calls reader.new)) }
    ensures reads_else { IfErr result (λ fault. fault ≢ Fault.Read → HasWorked (R.calls reader.old) (R.calls reader.new)) }
    ensures writes { OnOk result (HasWorked (W.calls writer.old) (W.calls writer.new)) }
    ensures cause { IfErr result (λ fault. AloneCause (S.stops search.old) (S.writes search.old search.new) fault
        (over (R.remaining reader.old) (R.remaining reader.new)
        (R.calls reader.old) (R.calls reader.new))
        (over (W.contents writer.old) (W.contents writer.new)
        (W.calls writer.old) (W.calls writer.new)) period) }
    ensures silent { IfErr result (λ fault. fault ≢ Fault.Write → writer.new ≡ writer.old) }
{
    let instance = read_whole_instance(alloc, reader, period)?;
    search.write(alloc, &instance, &[], writer)
}

/// Runs as `run_alone` does, from the times that the second reader gives. The instance is judged before the times are read, and
/// nothing is written before all stands.
pub fn run_from_times<S: Search, N: Start, R: Source, T: Source, W: Sink>(
    alloc: Global,
    search: &mut S,
    start: &mut N,
    instance_reader: &mut R,
    times_reader: &mut T,
    writer: &mut W,
    period: u32,
) -> Result<(), Fault>
    requires within { S.within search.old }
    requires reads_fit { FewerThan (2 ^ 62) (R.calls instance_reader.old) }
    requires times_reads_fit { FewerThan (2 ^ 62) (T.calls times_reader.old) }
    requires writes_fit { FewerThan (2 ^ 62) (W.calls writer.old) }
    ensures ok { OnOk result (OverBase N.reads
        (R.remaining instance_reader.old) (R.remaining instance_reader.new)
        (T.remaining times_reader.old) (T.remaining times_reader.new) period
        (λ p times. S.writes search.old search.new p times
        (Appends (W.contents writer.old) (W.contents writer.new)))) }
    ensures reads { OnOk result
        (HasWorked (R.calls instance_reader.old) (R.calls instance_reader.new)) }
    ensures reads_else { IfErr result (λ fault. fault ≢ Fault.Read → HasWorked (R.calls instance_reader.old) (R.calls instance_reader.new)) }
    ensures times_reads { OnOk result
        (HasWorked (T.calls times_reader.old) (T.calls times_reader.new)) }
    ensures times_reads_else { IfErr result (λ fault. fault ≢ Fault.Read → HasWorked (T.calls times_reader.old) (T.calls times_reader.new)) }
    ensures writes { OnOk result (HasWorked (W.calls writer.old) (W.calls writer.new)) }
    ensures cause { IfErr result (λ fault. OverBaseCause N.reads N.refused fault
        (over (R.remaining instance_reader.old) (R.remaining instance_reader.new)
        (R.calls instance_reader.old) (R.calls instance_reader.new))
        (over (T.remaining times_reader.old) (T.remaining times_reader.new)
        (T.calls times_reader.old) (T.calls times_reader.new))
        (over (W.contents writer.old) (W.contents writer.new)
        (W.calls writer.old) (W.calls writer.new))
        period (times_reader.new ≡ times_reader.old)
        (S.stops search.old) (S.writes search.old search.new)) }
    ensures silent { IfErr result (λ fault. fault ≢ Fault.Write → writer.new ≡ writer.old) }
{
    let instance = read_whole_instance(alloc, instance_reader, period)?;
    let times = start.read(alloc, &instance, times_reader)?;
    search.write(alloc, &instance, &times, writer)
}
