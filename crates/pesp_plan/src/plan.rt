//! A plan that is written at its end.

ghost use Rattle.std.specs.Prelude.{◌<◌, ◌^◌, OnOk, OnErr};
ghost use Rattle.pesp_stream.specs.Counts.{FewerThan, HasWorked, DeviceFailed};
ghost use Rattle.pesp_stream.specs.Writing.{Writes};
ghost use Rattle.pesp_truth.specs.Truth.{IsTrueAnswer};
ghost use Rattle.pesp_truth.specs.Certificates.{shown_times};
ghost use Rattle.pesp_cert.specs.Fronted.{IsFrontedText, fronted_text};
ghost use Rattle.pesp_sharp_work.specs.Ranks.{IsNoWorse};
ghost use Rattle.pesp_runs.specs.Bases.{IsSharpBase};

use crate::pursuit::go_to_end;
use pesp_cert::print_fronted;
use pesp_looks::Overseer;
use pesp_problem::Instance;
use pesp_runs::{Fault, Search, vouch};
use pesp_sharp_search::{Going, Sharpener};
use pesp_stream::{Sink, WriteFault};
use std::alloc::Global;

/// A plan that is made while an overseer lets it be, and written at its end: a certificate with a front where it has one. A sharpener
/// looks for times.
///
/// What is written is the text of a certificate that is valid for the instance with its marked walks, so its answer is true. From
/// times that are a timetable it has a cost, at most theirs. `Search` where the instance's cycles or the pairs of the root pass their
/// limits, as `SolveSharp` says.
#[derive(Drop)]
pub struct Plan<F, K> {
    pub sharpener: F,
    pub overseer: K,
}

/// Goes on to the end, and writes what is known by then.
fn finish<F: Sharpener, K: Overseer, W: Sink>(
    alloc: Global,
    instance: &Instance,
    going: &mut Going,
    sharpener: &mut F,
    overseer: &mut K,
    writer: &mut W,
) -> Result<(), WriteFault>
    requires valid { IsSharpBase instance.now going.old }
    requires fits { FewerThan (2 ^ 63) (W.calls writer.old) }
    ensures valid { IsSharpBase instance.now going.new }
    ensures is_true { IsTrueAnswer instance.now going.new.content.answer (shown_times going.new.content) }
    ensures has_text { IsFrontedText (fronted_text going.new) going.new }
    ensures no_worse { IsNoWorse going.old.content.answer going.new.content.answer }
    ensures text { Writes (W.contents writer.old) (W.contents writer.new) (fronted_text going.new) result }
    ensures counts { OnOk result (HasWorked (W.calls writer.old) (W.calls writer.new)) }
    ensures fault { OnErr result (DeviceFailed (W.calls writer.old) (W.calls writer.new)) }
{
    go_to_end(alloc, instance, going, sharpener, overseer);
    let known = going.has();
    vouch(instance, known);
    overseer.ends(known.certificate.answer());
    print_fronted(known, writer)
}

impl<F: Sharpener, K: Overseer> Search for Plan<F, K> {
    ghost use Rattle.std.specs.Prelude.{⊤};
    ghost use Rattle.pesp_runs.specs.Causes.{SolutionStops};
    ghost use Rattle.pesp_plan.specs.Planning.{WritesPlan};

    ghost within = { λ _. ⊤ };

    ghost writes = { λ _ _ p times Gets. WritesPlan p times Gets };

    // What the first look passes it passes within 0 steps.
    ghost stops = { λ _ p times fault cut. SolutionStops fault p 0 cut };

    fn write<W: Sink>(
        &mut self,
        alloc: Global,
        instance: &Instance,
        times: &[u32],
        writer: &mut W,
    ) -> Result<(), Fault> {
        let Plan {
            sharpener,
            overseer,
        } = self;
        overseer.begins(instance);
        let mut going = Going::begin(alloc, instance, times, sharpener, overseer)?;
        let written = finish(alloc, instance, &mut going, sharpener, overseer, writer);
        drop(going);
        written?;
        Ok(())
    }
}
