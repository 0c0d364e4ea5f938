//! Works grafted onto a certificate.

ghost use Rattle.std.specs.Prelude.{◌≡◌, ◌≢◌, ◌<◌, ◌^◌, List, OnOk, IfOk, IfErr, None};
ghost use Rattle.std.specs.Io.KnownBytes.{Appends};
ghost use Rattle.pesp_stream.specs.Counts.{FewerThan, HasWorked};
ghost use Rattle.pesp_truth.specs.Certificates.{IsValid};
ghost use Rattle.pesp_cert_items.specs.Works.{WorkValue};
ghost use Rattle.pesp_cert_items.specs.Refusals.{IsTextOfWorks};
ghost use Rattle.pesp_worker.specs.Grafts.{IsGrafted};
ghost use Rattle.pesp_check.specs.Devices.{over};
ghost use Rattle.pesp_runs.specs.Reading.{ReadsBase};
ghost use Rattle.pesp_runs.specs.Runs.{OverWorks};
ghost use Rattle.pesp_tasks.specs.Outside.{works_fault, WorksCause, Grafts, GraftCause};

use pesp_cert::{CertRefusal, Certificate, print};
use pesp_cert_items::parse_works;
use pesp_problem::Instance;
use pesp_runs::{Fault, OnWorks, run_on_works};
use pesp_stream::{Sink, Source, print_to};
use pesp_worker::{Grafted, RepliesText, graft};
use std::alloc::Global;

/// Why a text isn't that of works.
fn works_fault(refusal: CertRefusal) -> Fault
    ensures { result ≡ works_fault refusal }
{
    match refusal {
        CertRefusal::Memory => Fault::Memory,
        _ => Fault::Works(refusal),
    }
}

/// Grafts the works of a text onto a valid certificate.
#[tactic(auto, using(crate::proofs::Causes::works_cause))]
fn graft_text(
    alloc: Global,
    instance: &Instance,
    base: &Certificate,
    text: &[u8],
) -> Result<Grafted, Fault>
    requires valid { IsValid None instance.now base.now }
    ensures ok { IfOk result (λ grafted. (works : List WorkValue) × IsTextOfWorks text.now works
        × IsGrafted instance.now base.now works grafted.replies.items grafted.certificate) }
    ensures cause { IfErr result (λ fault. WorksCause fault text.now) }
{
    match parse_works(alloc, text) {
        Ok(works) => Ok(graft(alloc, instance, base, works)?),
        Err(refusal) => Err(works_fault(refusal)),
    }
}

/// Works that are grafted onto a certificate: the certificate that comes of it is written, and what became of each work is told.
#[derive(Clone, Copy)]
pub struct Graft;

impl OnWorks for Graft {
    ghost use Rattle.std.specs.Prelude.{◌⊎◌};
    ghost use Rattle.pesp_runs.specs.Causes.{OutCause};
    ghost use Rattle.pesp_tasks.specs.Outside.{WorksCause, Grafts};

    type Base = Certificate;

    ghost writes = { λ _ p base text Gets Tells. Grafts p base text Gets Tells };

    ghost stops = { λ _ p base text fault cut. WorksCause fault text ⊎ OutCause fault cut };

    fn write<W: Sink, E: Sink>(
        &self,
        alloc: Global,
        instance: &Instance,
        base: Certificate,
        works: &[u8],
        writer: &mut W,
        teller: &mut E,
    ) -> Result<(), Fault> {
        instance.period();
        let grafted = graft_text(alloc, instance, &base, works);
        drop(base);
        let grafted = grafted?;
        print(&grafted.certificate, writer)?;
        print_to(teller, &RepliesText(&grafted.replies))?;
        Ok(())
    }
}

/// Reads an instance, then a certificate that is valid for it, and then works, whoever made them; grafts the works onto the
/// certificate, writes the certificate that comes of it, and then tells on the second writer what became of each work. At
/// most 1,073,741,824 bytes of works are read and judged. Nothing is written and nothing told before the whole certificate
/// stands.
pub fn run_graft<R: Source, B: Source, T: Source, W: Sink, E: Sink>(
    alloc: Global,
    instance_reader: &mut R,
    base_reader: &mut B,
    works_reader: &mut T,
    writer: &mut W,
    teller: &mut E,
    period: u32,
) -> Result<(), Fault>
    requires reads_fit { FewerThan (2 ^ 62) (R.calls instance_reader.old) }
    requires base_reads_fit { FewerThan (2 ^ 62) (B.calls base_reader.old) }
    requires works_reads_fit { FewerThan (2 ^ 62) (T.calls works_reader.old) }
    requires writes_fit { FewerThan (2 ^ 62) (W.calls writer.old) }
    requires tellings_fit { FewerThan (2 ^ 62) (E.calls teller.old) }
    ensures ok { OnOk result (OverWorks ReadsBase
        (R.remaining instance_reader.old) (R.remaining instance_reader.new)
        (B.remaining base_reader.old) (B.remaining base_reader.new)
        (T.remaining works_reader.old) (T.remaining works_reader.new) period
        (λ p base works. Grafts p base works
        (Appends (W.contents writer.old) (W.contents writer.new))
        (Appends (E.contents teller.old) (E.contents teller.new)))) }
    ensures reads { OnOk result
        (HasWorked (R.calls instance_reader.old) (R.calls instance_reader.new)) }
    ensures reads_else { IfErr result (λ fault. fault ≢ Fault.Read → HasWorked (R.calls instance_reader.old) (R.calls instance_reader.new)) }
    ensures base_reads { OnOk result
        (HasWorked (B.calls base_reader.old) (B.calls base_reader.new)) }
    ensures base_reads_else { IfErr result (λ fault. fault ≢ Fault.Read → HasWorked (B.calls base_reader.old) (B.calls base_reader.new)) }
    ensures works_reads { OnOk result
        (HasWorked (T.calls works_reader.old) (T.calls works_reader.new)) }
    ensures works_reads_else { IfErr result (λ fault. fault ≢ Fault.Read → HasWorked (T.calls works_reader.old) (T.calls works_reader.new)) }
    ensures writes { OnOk result (HasWorked (W.calls writer.old) (W.calls writer.new)) }
    ensures tellings { OnOk result (HasWorked (E.calls teller.old) (E.calls teller.new)) }
    ensures cause { IfErr result (λ fault. GraftCause fault
        (over (R.remaining instance_reader.old) (R.remaining instance_reader.new)
        (R.calls instance_reader.old) (R.calls instance_reader.new))
        (over (B.remaining base_reader.old) (B.remaining base_reader.new)
        (B.calls base_reader.old) (B.calls base_reader.new))
        (over (T.remaining works_reader.old) (T.remaining works_reader.new)
        (T.calls works_reader.old) (T.calls works_reader.new))
        (over (W.contents writer.old) (W.contents writer.new)
        (W.calls writer.old) (W.calls writer.new))
        (over (E.contents teller.old) (E.contents teller.new)
        (E.calls teller.old) (E.calls teller.new))
        period (base_reader.new ≡ base_reader.old) (works_reader.new ≡ works_reader.old)) }
    ensures silent { IfErr result (λ fault. fault ≢ Fault.Write → writer.new ≡ writer.old) }
    ensures untold { IfErr result (λ fault. fault ≢ Fault.Write → teller.new ≡ teller.old) }
{
    run_on_works(
        alloc,
        &Graft,
        instance_reader,
        base_reader,
        works_reader,
        writer,
        teller,
        period,
    )
}
