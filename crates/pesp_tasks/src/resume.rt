//! The search that goes on from a certificate.

ghost use Rattle.std.specs.Prelude.{◌≡◌, ◌≢◌, ◌<◌, ◌^◌, None, OnOk, IfErr};
ghost use Rattle.std.specs.Io.KnownBytes.{Appends};
ghost use Rattle.pesp_stream.specs.Counts.{FewerThan, HasWorked};
ghost use Rattle.pesp_truth.specs.Certificates.{IsValid};
ghost use Rattle.pesp_check.specs.Devices.{over, HasFailed, GetsFront};
ghost use Rattle.pesp_runs.specs.Causes.{OutCause};
ghost use Rattle.pesp_tasks.specs.Resuming.{WritesResumed};

use crate::sharp_resume::write_sharply;
use pesp_cert::{Certificate, Fronted, print};
use pesp_problem::Instance;
use pesp_runs::{Fault, OnBase};
use pesp_sharp_search::{SharpWatcher, Sharpener};
use pesp_stream::Sink;
use pesp_turns::{Watcher, resume};
use std::alloc::Global;

/// A search that goes on from a certificate by at most so many splits of open leaves, while a sharpener proposes and looks for times, as long as the
/// watcher lets it, and writes the certificate that comes of it. From one with marked walks it goes on as `ResumeSharp` does, of
/// which less is promised; what follows is of one without.
///
/// What is written is the text of a valid certificate, whose answer is true. Its bound isn't below that of the certificate read,
/// and its cost isn't above it; none counts as above every number. Its tree has at most so many branches more, and fewer only
/// where nothing is left to split at a leaf that is worth less than the best times, where a limit is met, or where the watcher
/// ended it. No limit of a search stops it: where the tree would pass one, what stands by then is written.
#[derive(Drop)]
pub struct Resume<F, T> {
    pub steps: u32,
    pub sharpener: F,
    pub watcher: T,
}

/// Goes on from a certificate without a front, and writes what comes of it.
fn write_plainly<F: Sharpener, T: Watcher, W: Sink>(
    alloc: Global,
    instance: &Instance,
    base: Certificate,
    steps: u32,
    sharpener: &mut F,
    watcher: &mut T,
    writer: &mut W,
) -> Result<(), Fault>
    requires valid { IsValid None instance.now base }
    requires fits { FewerThan (2 ^ 63) (W.calls writer.old) }
    ensures ok { OnOk result (WritesResumed instance.now base steps (T.may_end watcher.old × T.has_ended watcher.new)
        (Appends (W.contents writer.old) (W.contents writer.new))) }
    ensures counts { OnOk result (HasWorked (W.calls writer.old) (W.calls writer.new)) }
    ensures cause { IfErr result (λ fault. OutCause fault
        (HasFailed (over (W.contents writer.old) (W.contents writer.new)
        (W.calls writer.old) (W.calls writer.new))
        × WritesResumed instance.now base steps (T.may_end watcher.old × T.has_ended watcher.new) (GetsFront
        (over (W.contents writer.old) (W.contents writer.new)
        (W.calls writer.old) (W.calls writer.new))))) }
    ensures silent { IfErr result (λ fault. fault ≢ Fault.Write → writer.new ≡ writer.old) }
{
    instance.period();
    let resumed = resume(alloc, instance, &base, steps, sharpener, watcher);
    drop(base);
    let resumed = resumed?;
    print(&resumed.certificate, writer)?;
    Ok(())
}

impl<F: Sharpener, T: Watcher + SharpWatcher> OnBase for Resume<F, T> {
    ghost use Rattle.std.specs.Prelude.{⊤};
    ghost use Rattle.pesp_runs.specs.Causes.{OutCause};
    ghost use Rattle.pesp_tasks.specs.Resuming.{WritesGoneOn};

    type Base = Fronted;

    ghost within = { λ _. ⊤ };

    ghost writes = { λ before after p base Gets. WritesGoneOn p base before.steps
        (T.may_end before.watcher × T.has_ended after.watcher) Gets };

    ghost stops = { λ _ p base fault cut. OutCause fault cut };

    fn write<W: Sink>(
        &mut self,
        alloc: Global,
        instance: &Instance,
        base: Fronted,
        writer: &mut W,
    ) -> Result<(), Fault> {
        let Resume {
            steps,
            sharpener,
            watcher,
        } = self;
        let steps = *steps;
        let Fronted { front, certificate } = base;
        match front {
            None => {
                let base = certificate;
                write_plainly(alloc, instance, base, steps, sharpener, watcher, writer)
            }
            Some(marks) => {
                let front = Some(marks);
                let base = Fronted { front, certificate };
                write_sharply(alloc, instance, base, steps, sharpener, watcher, writer)
            }
        }
    }
}
