//! How good a certificate's answer is.

use crate::gap_text::{GapText, ToldGap};
use pesp_cert::Fronted;
use pesp_problem::Instance;
use pesp_runs::{Fault, OnBase};
use pesp_stream::{Sink, print_to};
use std::alloc::Global;

/// A certificate in a line: its period, the cost of its answer, its bound, and what might still be saved, in per cent of the cost,
/// rounded up; then how many branches its tree has, and the version of its text. The text may have a front.
#[derive(Clone, Copy)]
pub struct Gap;

impl OnBase for Gap {
    ghost use Rattle.std.specs.Prelude.{⊤};
    ghost use Rattle.pesp_runs.specs.Causes.{OutCause};
    ghost use Rattle.pesp_tasks.specs.Gaps.{gap_line};

    type Base = Fronted;

    ghost within = { λ _. ⊤ };

    ghost writes = { λ _ _ p base Gets. Gets (gap_line base) };

    ghost stops = { λ _ p base fault cut. OutCause fault cut };

    fn write<W: Sink>(
        &mut self,
        _alloc: Global,
        _instance: &Instance,
        base: Fronted,
        writer: &mut W,
    ) -> Result<(), Fault> {
        let told = ToldGap::of(&base);
        drop(base);
        print_to(writer, &GapText(told))?;
        Ok(())
    }
}
