//! The run of the checker, for certificates of all versions or of those without a front.

ghost use Rattle.std.specs.Prelude.{◌≡◌, ◌≢◌, ◌<◌, ◌^◌, OnOk, IfOk, IfErr};
ghost use Rattle.std.specs.Io.KnownBytes.{Appends};
ghost use Rattle.pesp_stream.specs.Counts.{FewerThan, HasWorked};
ghost use Rattle.pesp_cert_lines.specs.declared.versions.Versions.TheVariants.{Plain, All};
ghost use Rattle.pesp_check.specs.Devices.{over};
ghost use Rattle.pesp_check.specs.Checking.{Checks, CheckCause};

use crate::fault::VerdictFault;
use crate::text_check::check_text_of;
use crate::verdict::write_verdict;
use crate::whole_instance::read_whole_instance;
use pesp_cert::Versions;
use pesp_stream::{Sink, Source};
use pesp_whole_check::Verdict;
use std::alloc::Global;

/// Reads an instance and then a certificate of a version that is taken, and writes the line of the checker's verdict; the
/// instance is judged before the certificate is read. The certificate is judged while it is read, at most 1,073,741,824 bytes
/// of it, and is not held as a whole. `Certificate` is the first fault of its text, also where an item before it is wrong.
/// `Accepted` says that the certificate is valid for the instance of the bytes read, and that its answer is true of it.
pub fn run_check_of<R: Source, C: Source, W: Sink>(
    alloc: Global,
    versions: Versions,
    instance_reader: &mut R,
    certificate_reader: &mut C,
    writer: &mut W,
    period: u32,
) -> Result<Verdict, VerdictFault>
    requires reads_fit { FewerThan (2 ^ 62) (R.calls instance_reader.old) }
    requires certificate_reads_fit { FewerThan (2 ^ 62) (C.calls certificate_reader.old) }
    requires writes_fit { FewerThan (2 ^ 62) (W.calls writer.old) }
    ensures ok { IfOk result
        (λ verdict. Checks versions (R.remaining instance_reader.old) (R.remaining instance_reader.new)
        (C.remaining certificate_reader.old) (C.remaining certificate_reader.new) period verdict
        (Appends (W.contents writer.old) (W.contents writer.new))) }
    ensures reads { OnOk result
        (HasWorked (R.calls instance_reader.old) (R.calls instance_reader.new)) }
    ensures reads_else { IfErr result (λ fault. fault ≢ VerdictFault.Read → HasWorked (R.calls instance_reader.old) (R.calls instance_reader.new)) }
    ensures certificate_reads { OnOk result
        (HasWorked (C.calls certificate_reader.old) (C.calls certificate_reader.new)) }
    ensures certificate_reads_else { IfErr result (λ fault. fault ≢ VerdictFault.Read → HasWorked (C.calls certificate_reader.old) (C.calls certificate_reader.new)) }
    ensures writes { OnOk result (HasWorked (W.calls writer.old) (W.calls writer.new)) }
    ensures cause { IfErr result (λ fault. CheckCause versions fault
        (over (R.remaining instance_reader.old) (R.remaining instance_reader.new)
        (R.calls instance_reader.old) (R.calls instance_reader.new))
        (over (C.remaining certificate_reader.old) (C.remaining certificate_reader.new)
        (C.calls certificate_reader.old) (C.calls certificate_reader.new))
        (over (W.contents writer.old) (W.contents writer.new)
        (W.calls writer.old) (W.calls writer.new))
        period (certificate_reader.new ≡ certificate_reader.old)) }
    ensures silent { IfErr result (λ fault. fault ≢ VerdictFault.Write → writer.new ≡ writer.old) }
{
    // The instance is judged before the certificate is read.
    let instance = read_whole_instance(alloc, instance_reader, period)?;
    let (verdict, answer) = check_text_of(alloc, &instance, certificate_reader, versions)?;
    write_verdict(alloc, writer, answer, verdict)?;
    Ok(verdict)
}

/// Judges a certificate without a front, as `run_check_of` does.
pub fn run_check<R: Source, C: Source, W: Sink>(
    alloc: Global,
    instance_reader: &mut R,
    certificate_reader: &mut C,
    writer: &mut W,
    period: u32,
) -> Result<Verdict, VerdictFault>
    requires reads_fit { FewerThan (2 ^ 62) (R.calls instance_reader.old) }
    requires certificate_reads_fit { FewerThan (2 ^ 62) (C.calls certificate_reader.old) }
    requires writes_fit { FewerThan (2 ^ 62) (W.calls writer.old) }
    ensures ok { IfOk result
        (λ verdict. Checks Plain (R.remaining instance_reader.old) (R.remaining instance_reader.new)
        (C.remaining certificate_reader.old) (C.remaining certificate_reader.new) period verdict
        (Appends (W.contents writer.old) (W.contents writer.new))) }
    ensures reads { OnOk result
        (HasWorked (R.calls instance_reader.old) (R.calls instance_reader.new)) }
    ensures reads_else { IfErr result (λ fault. fault ≢ VerdictFault.Read → HasWorked (R.calls instance_reader.old) (R.calls instance_reader.new)) }
    ensures certificate_reads { OnOk result
        (HasWorked (C.calls certificate_reader.old) (C.calls certificate_reader.new)) }
    ensures certificate_reads_else { IfErr result (λ fault. fault ≢ VerdictFault.Read → HasWorked (C.calls certificate_reader.old) (C.calls certificate_reader.new)) }
    ensures writes { OnOk result (HasWorked (W.calls writer.old) (W.calls writer.new)) }
    ensures cause { IfErr result (λ fault. CheckCause Plain fault
        (over (R.remaining instance_reader.old) (R.remaining instance_reader.new)
        (R.calls instance_reader.old) (R.calls instance_reader.new))
        (over (C.remaining certificate_reader.old) (C.remaining certificate_reader.new)
        (C.calls certificate_reader.old) (C.calls certificate_reader.new))
        (over (W.contents writer.old) (W.contents writer.new)
        (W.calls writer.old) (W.calls writer.new))
        period (certificate_reader.new ≡ certificate_reader.old)) }
    ensures silent { IfErr result (λ fault. fault ≢ VerdictFault.Write → writer.new ≡ writer.old) }
{
    run_check_of(
        alloc,
        Versions::Plain,
        instance_reader,
        certificate_reader,
        writer,
        period,
    )
}

/// Judges a certificate with a front or without, as `run_check_of` does.
pub fn run_check_sharp<R: Source, C: Source, W: Sink>(
    alloc: Global,
    instance_reader: &mut R,
    certificate_reader: &mut C,
    writer: &mut W,
    period: u32,
) -> Result<Verdict, VerdictFault>
    requires reads_fit { FewerThan (2 ^ 62) (R.calls instance_reader.old) }
    requires certificate_reads_fit { FewerThan (2 ^ 62) (C.calls certificate_reader.old) }
    requires writes_fit { FewerThan (2 ^ 62) (W.calls writer.old) }
    ensures ok { IfOk result
        (λ verdict. Checks All (R.remaining instance_reader.old) (R.remaining instance_reader.new)
        (C.remaining certificate_reader.old) (C.remaining certificate_reader.new) period verdict
        (Appends (W.contents writer.old) (W.contents writer.new))) }
    ensures reads { OnOk result
        (HasWorked (R.calls instance_reader.old) (R.calls instance_reader.new)) }
    ensures reads_else { IfErr result (λ fault. fault ≢ VerdictFault.Read → HasWorked (R.calls instance_reader.old) (R.calls instance_reader.new)) }
    ensures certificate_reads { OnOk result
        (HasWorked (C.calls certificate_reader.old) (C.calls certificate_reader.new)) }
    ensures certificate_reads_else { IfErr result (λ fault. fault ≢ VerdictFault.Read → HasWorked (C.calls certificate_reader.old) (C.calls certificate_reader.new)) }
    ensures writes { OnOk result (HasWorked (W.calls writer.old) (W.calls writer.new)) }
    ensures cause { IfErr result (λ fault. CheckCause All fault
        (over (R.remaining instance_reader.old) (R.remaining instance_reader.new)
        (R.calls instance_reader.old) (R.calls instance_reader.new))
        (over (C.remaining certificate_reader.old) (C.remaining certificate_reader.new)
        (C.calls certificate_reader.old) (C.calls certificate_reader.new))
        (over (W.contents writer.old) (W.contents writer.new)
        (W.calls writer.old) (W.calls writer.new))
        period (certificate_reader.new ≡ certificate_reader.old)) }
    ensures silent { IfErr result (λ fault. fault ≢ VerdictFault.Write → writer.new ≡ writer.old) }
{
    run_check_of(
        alloc,
        Versions::All,
        instance_reader,
        certificate_reader,
        writer,
        period,
    )
}
