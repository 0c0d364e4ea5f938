//! The run of a command that joins works with a certificate.

ghost use Rattle.std.specs.Prelude.{◌≡◌, ◌≢◌, ◌<◌, ◌≤◌, ◌^◌, ℕ, List, length, OnOk, IfOk, IfErr};
ghost use Rattle.std.specs.Io.KnownBytes.{Appends};
ghost use Rattle.pesp_problem.specs.declared.limits.TheConstants.{MOST_TEXT};
ghost use Rattle.pesp_stream.specs.Counts.{FewerThan, HasWorked};
ghost use Rattle.pesp_stream.specs.Reading.{ReadsText};
ghost use Rattle.pesp_problem.specs.Timetables.{Pesp};
ghost use Rattle.pesp_check.specs.Devices.{over};
ghost use Rattle.pesp_runs.specs.declared.fault.Fault.{Fault as AnyFault};
ghost use Rattle.pesp_runs.specs.Causes.{TextCause};
ghost use Rattle.pesp_runs.specs.Runs.{OverWorks, OverWorksCause, EitherFailed};

use crate::base::Base;
use crate::{Fault, MOST_TEXT, read_whole_instance};
use pesp_problem::Instance;
use pesp_stream::{Sink, Source, read_all};
use std::alloc::Global;

/// What is made of a valid certificate of an instance and of works, whoever made them; what is written of it, and told of the works.
pub trait OnWorks {
    /// The certificate that is read.
    type Base: Base;

    // What is written and told of a base and of a text of works: the writer and the teller got what the last two relations say of
    // their texts.
    ghost writes: { Self → Pesp → Self.Base → List ℕ → (List ℕ → Type 0) → (List ℕ → Type 0) → Type 0 };

    // Why not all went out whole. The last one says that the writer or the teller failed, behind a front of its text.
    ghost stops: { Self → Pesp → Self.Base → List ℕ → AnyFault → Type 0 → Type 0 };

    /// Makes and writes it, and then tells of the works. Neither the writer nor the teller is called before all that is written
    /// stands.
    fn write<W: Sink, E: Sink>(
        &self,
        alloc: Global,
        instance: &Instance,
        base: Self::Base,
        works: &[u8],
        writer: &mut W,
        teller: &mut E,
    ) -> Result<(), Fault>
        requires valid { Self.Base.valid instance.now base }
        requires short { length works.now ≤ MOST_TEXT }
        requires writes_fit { FewerThan (2 ^ 63) (W.calls writer.old) }
        requires tellings_fit { FewerThan (2 ^ 63) (E.calls teller.old) }
        ensures ok { OnOk result (writes self.now instance.now base works.now
            (Appends (W.contents writer.old) (W.contents writer.new))
            (Appends (E.contents teller.old) (E.contents teller.new))) }
        ensures writes { OnOk result (HasWorked (W.calls writer.old) (W.calls writer.new)) }
        ensures tellings { OnOk result (HasWorked (E.calls teller.old) (E.calls teller.new)) }
        ensures cause { IfErr result (λ fault. stops self.now instance.now base works.now fault
            (EitherFailed (writes self.now instance.now base works.now)
            (over (W.contents writer.old) (W.contents writer.new)
            (W.calls writer.old) (W.calls writer.new))
            (over (E.contents teller.old) (E.contents teller.new)
            (E.calls teller.old) (E.calls teller.new)))) }
        ensures silent { IfErr result (λ fault. fault ≢ Fault.Write → writer.new ≡ writer.old) }
        ensures untold { IfErr result (λ fault. fault ≢ Fault.Write → teller.new ≡ teller.old) };
}

/// Reads the text of works.
fn read_works<T: Source>(alloc: Global, reader: &mut T) -> Result<Vec<u8>, Fault>
    requires fits { FewerThan (2 ^ 63) (T.calls reader.old) }
    ensures ok { IfOk result
        (λ works. ReadsText (T.remaining reader.old) (T.remaining reader.new) MOST_TEXT works.items) }
    ensures short { IfOk result (λ works. length works.items ≤ MOST_TEXT) }
    ensures counts { OnOk result (HasWorked (T.calls reader.old) (T.calls reader.new)) }
    ensures counts_else { IfErr result (λ fault. fault ≢ Fault.Read → HasWorked (T.calls reader.old) (T.calls reader.new)) }
    ensures cause { IfErr result (λ fault. TextCause fault
        (over (T.remaining reader.old) (T.remaining reader.new)
        (T.calls reader.old) (T.calls reader.new))) }
{
    let text = read_all(alloc, reader, MOST_TEXT)?;
    Ok(text)
}

/// Reads an instance, then a certificate that is valid for it, and then works, whoever made them; and writes and tells what a task
/// makes of these. At most 1,073,741,824 bytes of works are read. The instance is judged before the certificate is read, and this one
/// before the works are; nothing is written and nothing told before all stands. `Base` where the certificate isn't valid.
pub fn run_on_works<K: OnWorks, R: Source, B: Source, T: Source, W: Sink, E: Sink>(
    alloc: Global,
    task: &K,
    instance_reader: &mut R,
    base_reader: &mut B,
    works_reader: &mut T,
    writer: &mut W,
    teller: &mut E,
    period: u32,
) -> Result<(), Fault>
    requires reads_fit { FewerThan (2 ^ 62) (R.calls instance_reader.old) }
    requires base_reads_fit { FewerThan (2 ^ 62) (B.calls base_reader.old) }
    requires works_reads_fit { FewerThan (2 ^ 62) (T.calls works_reader.old) }
    requires writes_fit { FewerThan (2 ^ 62) (W.calls writer.old) }
    requires tellings_fit { FewerThan (2 ^ 62) (E.calls teller.old) }
    ensures ok { OnOk result (OverWorks K.Base.reads
        (R.remaining instance_reader.old) (R.remaining instance_reader.new)
        (B.remaining base_reader.old) (B.remaining base_reader.new)
        (T.remaining works_reader.old) (T.remaining works_reader.new) period
        (λ p base works. K.writes task.now p base works
        (Appends (W.contents writer.old) (W.contents writer.new))
        (Appends (E.contents teller.old) (E.contents teller.new)))) }
    ensures reads { OnOk result
        (HasWorked (R.calls instance_reader.old) (R.calls instance_reader.new)) }
    ensures reads_else { IfErr result (λ fault. fault ≢ Fault.Read → HasWorked (R.calls instance_reader.old) (R.calls instance_reader.new)) }
    ensures base_reads { OnOk result
        (HasWorked (B.calls base_reader.old) (B.calls base_reader.new)) }
    ensures base_reads_else { IfErr result (λ fault. fault ≢ Fault.Read → HasWorked (B.calls base_reader.old) (B.calls base_reader.new)) }
    ensures works_reads { OnOk result
        (HasWorked (T.calls works_reader.old) (T.calls works_reader.new)) }
    ensures works_reads_else { IfErr result (λ fault. fault ≢ Fault.Read → HasWorked (T.calls works_reader.old) (T.calls works_reader.new)) }
    ensures writes { OnOk result (HasWorked (W.calls writer.old) (W.calls writer.new)) }
    ensures tellings { OnOk result (HasWorked (E.calls teller.old) (E.calls teller.new)) }
    ensures cause { IfErr result (λ fault. OverWorksCause K.Base.reads K.Base.refused fault
        (over (R.remaining instance_reader.old) (R.remaining instance_reader.new)
        (R.calls instance_reader.old) (R.calls instance_reader.new))
        (over (B.remaining base_reader.old) (B.remaining base_reader.new)
        (B.calls base_reader.old) (B.calls base_reader.new))
        (over (T.remaining works_reader.old) (T.remaining works_reader.new)
        (T.calls works_reader.old) (T.calls works_reader.new))
        (over (W.contents writer.old) (W.contents writer.new)
        (W.calls writer.old) (W.calls writer.new))
        (over (E.contents teller.old) (E.contents teller.new)
        (E.calls teller.old) (E.calls teller.new))
        period (base_reader.new ≡ base_reader.old) (works_reader.new ≡ works_reader.old)
        (K.stops task.now) (K.writes task.now)) }
    ensures silent { IfErr result (λ fault. fault ≢ Fault.Write → writer.new ≡ writer.old) }
    ensures untold { IfErr result (λ fault. fault ≢ Fault.Write → teller.new ≡ teller.old) }
{
    let instance = read_whole_instance(alloc, instance_reader, period)?;
    let base = K::Base::read(alloc, &instance, base_reader)?;
    let works = read_works(alloc, works_reader)?;
    task.write(alloc, &instance, base, &works, writer, teller)
}
