//! The run of a plan that goes on from what stands where it is kept.

ghost use Rattle.std.specs.Prelude.{◌≡◌, ◌≢◌, ◌<◌, ◌^◌, ◌↔◌, None, IsTrue, OnOk, IfErr, ⊤};
ghost use Rattle.std.specs.Io.KnownBytes.{Appends};
ghost use Rattle.pesp_stream.specs.Counts.{FewerThan};
ghost use Rattle.pesp_check.specs.Devices.{over};
ghost use Rattle.pesp_runs.specs.Causes.{OutCause, SolutionStops};
ghost use Rattle.pesp_plan.specs.Planning.{KeepsAndWrites, KeepsOn};
ghost use Rattle.pesp_old_times.specs.Beginning.{FromStanding, FromStandingCause};

use crate::{KeptPlan, Shelf};
use pesp_cert::{Fronted, parse_fronted};
use pesp_judges::{Refusal, Verdict};
use pesp_looks::Overseer;
use pesp_old_times::{Listener, begin_with};
use pesp_problem::Instance;
use pesp_runs::{Fault, MOST_TEXT, OnBase, Search, read_whole_instance};
use pesp_sharp_search::Sharpener;
use pesp_stream::{Sink, Source, read_all};
use pesp_whole_check::check_sharp;
use std::alloc::Global;

/// Whether a certificate is of another period than an instance. Its lemmas may be judged before its period, and a check then tells
/// what is wrong with these.
fn has_other_period(instance: &Instance, base: &Fronted) -> bool
    ensures { IsTrue result ↔ base.now.content.period ≢ instance.now.period }
{
    base.certificate.period() != instance.period()
}

/// Reads an instance and then the certificate that stands where a plan is kept, and makes the plan. It goes on from the certificate
/// where that is valid for the instance. One of other activities gives the times to begin with, as `FromOldTimes` reads them, and a
/// listener is told of it; what stood there is replaced by the first certificate that is found. `Certificate` where the text is
/// none's, and `Base` where it has another period: then what stands there stays.
pub fn run_on_standing<
    H: Shelf,
    F: Sharpener,
    K: Overseer,
    R: Source,
    B: Source,
    W: Sink,
    L: Listener,
>(
    alloc: Global,
    plan: &mut KeptPlan<H, F, K>,
    instance_reader: &mut R,
    base_reader: &mut B,
    writer: &mut W,
    period: u32,
    listener: &mut L,
) -> Result<(), Fault>
    requires within { H.holds plan.old.shelf ≡ None }
    requires reads_fit { FewerThan (2 ^ 62) (R.calls instance_reader.old) }
    requires base_reads_fit { FewerThan (2 ^ 62) (B.calls base_reader.old) }
    requires writes_fit { FewerThan (2 ^ 62) (W.calls writer.old) }
    ensures ok { OnOk result (FromStanding
        (λ p base. KeepsOn base (H.holds plan.new.shelf) (Appends (W.contents writer.old) (W.contents writer.new)))
        (λ p times. KeepsAndWrites p times (H.holds plan.new.shelf) (Appends (W.contents writer.old) (W.contents writer.new)))
        (R.remaining instance_reader.old) (R.remaining instance_reader.new)
        (B.remaining base_reader.old) (B.remaining base_reader.new) period) }
    ensures cause { IfErr result (λ fault. FromStandingCause
        (λ p base. OutCause fault ⊤) (λ p times. SolutionStops fault p 0 ⊤) fault
        (over (R.remaining instance_reader.old) (R.remaining instance_reader.new)
        (R.calls instance_reader.old) (R.calls instance_reader.new))
        (over (B.remaining base_reader.old) (B.remaining base_reader.new)
        (B.calls base_reader.old) (B.calls base_reader.new)) period) }
    ensures silent { IfErr result (λ fault. fault ≢ Fault.Write → writer.new ≡ writer.old) }
{
    let instance = read_whole_instance(alloc, instance_reader, period)?;
    let text = read_all(alloc, base_reader, MOST_TEXT)?;
    let base = parse_fronted(alloc, &text)?;
    if has_other_period(&instance, &base) {
        drop(base);
        return Err(Fault::Base(Refusal::OtherPeriod));
    }
    match check_sharp(alloc, &instance, &base) {
        Ok(Verdict::Accepted) => OnBase::write(plan, alloc, &instance, base, writer),
        Ok(Verdict::Refused(_)) => {
            drop(base);
            listener.finds_others();
            let times = begin_with(alloc, &instance, &text, listener)?;
            Search::write(plan, alloc, &instance, &times, writer)
        }
        Err(_) => {
            drop(base);
            Err(Fault::Memory)
        }
    }
}
