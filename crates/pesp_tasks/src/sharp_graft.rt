//! Works grafted onto a certificate that may have a front.

use crate::replies::lines_of;
use pesp_cert::{Fronted, print_fronted};
use pesp_problem::Instance;
use pesp_runs::{Fault, OnWorks, vouch};
use pesp_sharp_work::graft_sharp;
use pesp_stream::{Bytes, Sink, print_to};
use std::alloc::Global;

/// Works, each a whole certificate, that are grafted onto a certificate with a front or without: the certificate that comes of it is
/// written, and what became of each work is told.
#[derive(Clone, Copy)]
pub struct GraftSharp;

impl OnWorks for GraftSharp {
    ghost use Rattle.pesp_runs.specs.Causes.{OutCause};
    ghost use Rattle.pesp_tasks.specs.SharpOutside.{WritesSharpGraft};

    type Base = Fronted;

    ghost writes = { λ _ p base works Gets Tells. WritesSharpGraft p base works Gets Tells };

    ghost stops = { λ _ p base works fault cut. OutCause fault cut };

    fn write<W: Sink, E: Sink>(
        &self,
        alloc: Global,
        instance: &Instance,
        base: Fronted,
        works: &[u8],
        writer: &mut W,
        teller: &mut E,
    ) -> Result<(), Fault> {
        let found = graft_sharp(alloc, instance, base, works)?;
        let lines = lines_of(alloc, &found.replies)?;
        vouch(instance, &found.fronted);
        print_fronted(&found.fronted, writer)?;
        print_to(teller, &Bytes(lines.as_bytes()))?;
        Ok(())
    }
}
