//! A plan that is kept where others read it.

ghost use Rattle.std.specs.Prelude.{IfSome, OnOk};
ghost use Rattle.pesp_sharp_work.specs.Ranks.{IsNoWorse};
ghost use Rattle.pesp_runs.specs.Bases.{IsSharpBase};
ghost use Rattle.pesp_plan.specs.Planning.{IsAsGood};

use crate::pursuit::pursue;
use crate::shelf::Shelf;
use pesp_cert::Fronted;
use pesp_looks::Overseer;
use pesp_problem::Instance;
use pesp_runs::{Fault, OnBase, Search};
use pesp_sharp_search::{Going, Sharpener};
use pesp_stream::{Sink, WriteFault};
use std::alloc::Global;

/// A plan that is made while an overseer lets it be, and kept on a shelf: the first one, each better one, and the last. Nothing
/// is written elsewhere. A sharpener proposes, and looks for times.
///
/// Whatever is put on the shelf is the text of a certificate that is valid for the instance with its marked walks, so its answer is
/// true; its bound isn't below, and its cost isn't above, what stood there, or what the plan began with. From times that are a
/// timetable it has a cost, at most theirs. A shelf that takes nothing more ends the plan; what stood there then stays.
#[derive(Drop)]
pub struct KeptPlan<H, F, K> {
    pub shelf: H,
    pub sharpener: F,
    pub overseer: K,
}

impl<H: Shelf, F: Sharpener, K: Overseer> KeptPlan<H, F, K> {
    /// Goes on from what is known to the end, and keeps what is found.
    fn pursue(
        &mut self,
        alloc: Global,
        instance: &Instance,
        going: &mut Going,
    ) -> Result<(), WriteFault>
        requires valid { IsSharpBase instance.now going.old }
        requires stands { IfSome (H.holds self.old.shelf) (λ stands. IsNoWorse stands going.old.content.answer) }
        ensures valid { IsSharpBase instance.now going.new }
        ensures no_worse { IsNoWorse going.old.content.answer going.new.content.answer }
        ensures kept { OnOk result (IsAsGood (H.holds self.new.shelf) going.new.content.answer) }
    {
        let KeptPlan {
            shelf,
            sharpener,
            overseer,
        } = self;
        pursue(alloc, instance, going, shelf, sharpener, overseer)?;
        overseer.ends(going.has().certificate.answer());
        Ok(())
    }
}

impl<H: Shelf, F: Sharpener, K: Overseer> Search for KeptPlan<H, F, K> {
    ghost use Rattle.std.specs.Prelude.{◌≡◌, None, ⊤};
    ghost use Rattle.pesp_runs.specs.Causes.{SolutionStops};
    ghost use Rattle.pesp_plan.specs.Planning.{KeepsAndWrites};

    // Nothing stands on the shelf yet.
    ghost within = { λ s. H.holds s.shelf ≡ None };

    ghost writes = { λ _ s p times Gets. KeepsAndWrites p times (H.holds s.shelf) Gets };

    ghost stops = { λ _ p times fault cut. SolutionStops fault p 0 ⊤ };

    fn write<W: Sink>(
        &mut self,
        alloc: Global,
        instance: &Instance,
        times: &[u32],
        _writer: &mut W,
    ) -> Result<(), Fault> {
        self.overseer.begins(instance);
        let KeptPlan {
            sharpener,
            overseer,
            ..
        } = &mut *self;
        let mut going = Going::begin(alloc, instance, times, sharpener, overseer)?;
        let kept = self.pursue(alloc, instance, &mut going);
        drop(going);
        kept?;
        Ok(())
    }
}

impl<H: Shelf, F: Sharpener, K: Overseer> OnBase for KeptPlan<H, F, K> {
    ghost use Rattle.std.specs.Prelude.{⊤};
    ghost use Rattle.pesp_runs.specs.Causes.{OutCause};
    ghost use Rattle.pesp_plan.specs.Planning.{KeepsOn};

    // The certificate that stands on the shelf.
    type Base = Fronted;

    ghost within = { λ _. ⊤ };

    ghost writes = { λ _ s p base Gets. KeepsOn base (H.holds s.shelf) Gets };

    ghost stops = { λ _ p base fault cut. OutCause fault ⊤ };

    fn write<W: Sink>(
        &mut self,
        alloc: Global,
        instance: &Instance,
        base: Fronted,
        _writer: &mut W,
    ) -> Result<(), Fault> {
        self.overseer.begins(instance);
        self.shelf.stands(base.certificate.answer());
        let mut going = Going::begin_from(alloc, instance, base, &mut self.sharpener)?;
        let kept = self.pursue(alloc, instance, &mut going);
        drop(going);
        kept?;
        Ok(())
    }
}
