//! The run of a command that begins with a certificate.

ghost use Rattle.std.specs.Prelude.{◌≡◌, ◌≢◌, ◌<◌, ◌^◌, ℕ, List, OnOk, IfErr};
ghost use Rattle.std.specs.Io.KnownBytes.{Appends};
ghost use Rattle.pesp_stream.specs.Counts.{FewerThan, HasWorked};
ghost use Rattle.pesp_problem.specs.Timetables.{Pesp};
ghost use Rattle.pesp_check.specs.Devices.{over, HasFailed, GetsFront};
ghost use Rattle.pesp_runs.specs.declared.fault.Fault.{Fault as AnyFault};
ghost use Rattle.pesp_runs.specs.Runs.{OverBase, OverBaseCause};

use crate::base::Base;
use crate::{Fault, read_whole_instance};
use pesp_problem::Instance;
use pesp_stream::{Sink, Source};
use std::alloc::Global;

/// What is made of a valid certificate of an instance, and written.
pub trait OnBase {
    /// The certificate that is read.
    type Base: Base;

    // What its caller shows.
    ghost within: { Self → Type 0 };

    // What is written of a base: the writer got what the last relation says of its text. The task is named as it was before and as
    // it is after, since somebody who looks on may have ended it.
    ghost writes: { Self → Self → Pesp → Self.Base → (List ℕ → Type 0) → Type 0 };

    // Why nothing went out whole. The last one says that the writer failed, behind a front of the text.
    ghost stops: { Self → Pesp → Self.Base → AnyFault → Type 0 → Type 0 };

    /// Makes and writes it. The writer isn't called before all that is written stands.
    fn write<W: Sink>(
        &mut self,
        alloc: Global,
        instance: &Instance,
        base: Self::Base,
        writer: &mut W,
    ) -> Result<(), Fault>
        requires within { within self.old }
        requires valid { Self.Base.valid instance.now base }
        requires fits { FewerThan (2 ^ 63) (W.calls writer.old) }
        ensures ok { OnOk result (writes self.old self.new instance.now base
            (Appends (W.contents writer.old) (W.contents writer.new))) }
        ensures counts { OnOk result (HasWorked (W.calls writer.old) (W.calls writer.new)) }
        ensures cause { IfErr result (λ fault. stops self.old instance.now base fault
            (HasFailed (over (W.contents writer.old) (W.contents writer.new)
            (W.calls writer.old) (W.calls writer.new))
            × writes self.old self.new instance.now base (GetsFront
            (over (W.contents writer.old) (W.contents writer.new)
            (W.calls writer.old) (W.calls writer.new))))) }
        ensures silent { IfErr result (λ fault. fault ≢ Fault.Write → writer.new ≡ writer.old) };
}

/// Reads an instance and then a certificate that is valid for it, and writes what a task makes of it. The instance is judged before
/// the certificate is read, and nothing is written before all stands. `Base` where the certificate isn't valid.
pub fn run_on_base<T: OnBase, R: Source, B: Source, W: Sink>(
    alloc: Global,
    task: &mut T,
    instance_reader: &mut R,
    base_reader: &mut B,
    writer: &mut W,
    period: u32,
) -> Result<(), Fault>
    requires within { T.within task.old }
    requires reads_fit { FewerThan (2 ^ 62) (R.calls instance_reader.old) }
    requires base_reads_fit { FewerThan (2 ^ 62) (B.calls base_reader.old) }
    requires writes_fit { FewerThan (2 ^ 62) (W.calls writer.old) }
    ensures ok { OnOk result (OverBase T.Base.reads
        (R.remaining instance_reader.old) (R.remaining instance_reader.new)
        (B.remaining base_reader.old) (B.remaining base_reader.new) period
        (λ p base. T.writes task.old task.new p base
        (Appends (W.contents writer.old) (W.contents writer.new)))) }
    ensures reads { OnOk result
        (HasWorked (R.calls instance_reader.old) (R.calls instance_reader.new)) }
    ensures reads_else { IfErr result (λ fault. fault ≢ Fault.Read → HasWorked (R.calls instance_reader.old) (R.calls instance_reader.new)) }
    ensures base_reads { OnOk result
        (HasWorked (B.calls base_reader.old) (B.calls base_reader.new)) }
    ensures base_reads_else { IfErr result (λ fault. fault ≢ Fault.Read → HasWorked (B.calls base_reader.old) (B.calls base_reader.new)) }
    ensures writes { OnOk result (HasWorked (W.calls writer.old) (W.calls writer.new)) }
    ensures cause { IfErr result (λ fault. OverBaseCause T.Base.reads T.Base.refused fault
        (over (R.remaining instance_reader.old) (R.remaining instance_reader.new)
        (R.calls instance_reader.old) (R.calls instance_reader.new))
        (over (B.remaining base_reader.old) (B.remaining base_reader.new)
        (B.calls base_reader.old) (B.calls base_reader.new))
        (over (W.contents writer.old) (W.contents writer.new)
        (W.calls writer.old) (W.calls writer.new))
        period (base_reader.new ≡ base_reader.old)
        (T.stops task.old) (T.writes task.old task.new)) }
    ensures silent { IfErr result (λ fault. fault ≢ Fault.Write → writer.new ≡ writer.old) }
{
    let instance = read_whole_instance(alloc, instance_reader, period)?;
    let base = T::Base::read(alloc, &instance, base_reader)?;
    task.write(alloc, &instance, base, writer)
}
