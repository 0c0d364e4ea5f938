//! The search that goes on from a certificate, with leaves that marked walks sharpen.

ghost use Rattle.std.specs.Prelude.{◌≡◌, ◌≢◌, ◌<◌, ◌^◌, OnOk, IfErr};
ghost use Rattle.std.specs.Io.KnownBytes.{Appends};
ghost use Rattle.pesp_stream.specs.Counts.{FewerThan, HasWorked};
ghost use Rattle.pesp_check.specs.Devices.{over, HasFailed, GetsFront};
ghost use Rattle.pesp_runs.specs.Causes.{OutCause};
ghost use Rattle.pesp_runs.specs.Bases.{IsSharpBase};
ghost use Rattle.pesp_tasks.specs.SharpSolving.{WritesSharpResumed};

use pesp_cert::{Fronted, print_fronted};
use pesp_problem::Instance;
use pesp_runs::{Fault, OnBase, vouch};
use pesp_sharp_search::{SharpWatcher, Sharpener, resume_sharp};
use pesp_stream::Sink;
use std::alloc::Global;

/// A search that goes on from a certificate, with a front or without, by at most so many splits of open leaves, which marked walks
/// sharpen, while a sharpener proposes and looks for times, as long as the watcher lets it, and writes the certificate that comes of it.
///
/// What is written is the text of a certificate that is valid for the instance with its marked walks, so its answer is true. Its
/// bound isn't below that of the certificate read, and its cost isn't above it; none counts as above every number. Its tree has at
/// most so many branches more.
#[derive(Drop)]
pub struct ResumeSharp<F, T> {
    pub steps: u32,
    pub sharpener: F,
    pub watcher: T,
}

/// Goes on from a certificate by marked walks, and writes what comes of it.
pub(crate) fn write_sharply<F: Sharpener, T: SharpWatcher, W: Sink>(
    alloc: Global,
    instance: &Instance,
    base: Fronted,
    steps: u32,
    sharpener: &mut F,
    watcher: &mut T,
    writer: &mut W,
) -> Result<(), Fault>
    requires valid { IsSharpBase instance.now base }
    requires fits { FewerThan (2 ^ 63) (W.calls writer.old) }
    ensures ok { OnOk result (WritesSharpResumed instance.now base steps
        (Appends (W.contents writer.old) (W.contents writer.new))) }
    ensures counts { OnOk result (HasWorked (W.calls writer.old) (W.calls writer.new)) }
    ensures cause { IfErr result (λ fault. OutCause fault
        (HasFailed (over (W.contents writer.old) (W.contents writer.new)
        (W.calls writer.old) (W.calls writer.new))
        × WritesSharpResumed instance.now base steps (GetsFront
        (over (W.contents writer.old) (W.contents writer.new)
        (W.calls writer.old) (W.calls writer.new))))) }
    ensures silent { IfErr result (λ fault. fault ≢ Fault.Write → writer.new ≡ writer.old) }
{
    let fronted = resume_sharp(alloc, instance, base, steps, sharpener, watcher)?;
    vouch(instance, &fronted);
    print_fronted(&fronted, writer)?;
    Ok(())
}

impl<F: Sharpener, T: SharpWatcher> OnBase for ResumeSharp<F, T> {
    ghost use Rattle.std.specs.Prelude.{⊤};
    ghost use Rattle.pesp_runs.specs.Causes.{OutCause};
    ghost use Rattle.pesp_tasks.specs.SharpSolving.{WritesSharpResumed};

    type Base = Fronted;

    ghost within = { λ _. ⊤ };

    ghost writes = { λ s _ p base Gets. WritesSharpResumed p base s.steps Gets };

    ghost stops = { λ _ p base fault cut. OutCause fault cut };

    fn write<W: Sink>(
        &mut self,
        alloc: Global,
        instance: &Instance,
        base: Fronted,
        writer: &mut W,
    ) -> Result<(), Fault> {
        let ResumeSharp {
            steps,
            sharpener,
            watcher,
        } = self;
        write_sharply(alloc, instance, base, *steps, sharpener, watcher, writer)
    }
}
