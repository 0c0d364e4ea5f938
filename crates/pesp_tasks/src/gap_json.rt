//! How good a certificate's answer is, as JSON.

ghost use Rattle.std.specs.Prelude.{◌≡◌};
ghost use Rattle.pesp_tasks.specs.Gaps.{points_of};

use crate::gap_text::{Number, ToldGap};
use crate::savings::gap;
use pesp_cert::Fronted;
use pesp_problem::Instance;
use pesp_runs::{Fault, OnBase};
use pesp_stream::{Output, Printed, Sink, print_to};
use pesp_truth::Answer;
use std::alloc::Global;

/// What `Gap` tells, as a line with a JSON object: what kind of an `answer` it is, its `bound`, `branches`, `cost`, `gap_basis_points`,
/// `period` and `version`. The gap is in hundredths of a per cent of the cost. What there isn't is null.
#[derive(Clone, Copy)]
pub struct GapJson;

/// What kind of an answer it is, in a word.
#[derive(Clone, Copy)]
struct AnswerKind(Answer);

impl Printed for AnswerKind {
    ghost use Rattle.pesp_tasks.specs.Gaps.{answer_kind};

    ghost text = { λ t. answer_kind t.0 };

    fn print<O: Output>(&self, out: &mut O) {
        match self.0 {
            Answer::Optimal(_) => out.put(b"optimal"),
            Answer::Infeasible => out.put(b"infeasible"),
            Answer::Bounded { .. } => out.put(b"open"),
        }
    }
}

/// A number, or null.
#[derive(Clone, Copy)]
struct Amount(Option<u64>);

impl Printed for Amount {
    ghost use Rattle.pesp_tasks.specs.Gaps.{amount_text};

    ghost text = { λ t. amount_text t.0 };

    fn print<O: Output>(&self, out: &mut O) {
        match self.0 {
            None => out.put(b"null"),
            Some(number) => Number(number).print(out),
        }
    }
}

/// What might still be saved, in hundredths of a per cent of the cost, where there is one.
fn points_of(answer: Answer) -> Option<u64>
    ensures { result ≡ points_of answer }
{
    match answer {
        Answer::Optimal(cost) => Some(gap(cost, cost)),
        Answer::Infeasible => None,
        Answer::Bounded { cost: None, .. } => None,
        Answer::Bounded {
            least,
            cost: Some(cost),
        } => Some(gap(least, cost)),
    }
}

/// A certificate as an object on a line.
#[derive(Clone, Copy)]
struct GapObject(ToldGap);

impl Printed for GapObject {
    ghost use Rattle.pesp_tasks.specs.Gaps.{gap_object};

    ghost text = { λ t. gap_object t.0.period t.0.answer t.0.branches t.0.version };

    fn print<O: Output>(&self, out: &mut O) {
        let told = self.0;
        let answer = told.answer;
        let (period, version) = (u64::from(told.period), u64::from(told.version));
        let (bound, cost) = (Amount(answer.least()), Amount(answer.cost()));
        let points = Amount(points_of(answer));
        (
            ("{\"answer\":\"", AnswerKind(answer), "\",\"bound\":", bound),
            (
                ",\"branches\":",
                Number(told.branches as u64),
                ",\"cost\":",
                cost,
            ),
            (
                ",\"gap_basis_points\":",
                points,
                ",\"period\":",
                Number(period),
            ),
            (",\"version\":", Number(version), "}\n"),
        )
            .print(out);
    }
}

impl OnBase for GapJson {
    ghost use Rattle.std.specs.Prelude.{⊤};
    ghost use Rattle.pesp_runs.specs.Causes.{OutCause};
    ghost use Rattle.pesp_tasks.specs.Gaps.{gap_json};

    type Base = Fronted;

    ghost within = { λ _. ⊤ };

    ghost writes = { λ _ _ p base Gets. Gets (gap_json base) };

    ghost stops = { λ _ p base fault cut. OutCause fault cut };

    fn write<W: Sink>(
        &mut self,
        _alloc: Global,
        _instance: &Instance,
        base: Fronted,
        writer: &mut W,
    ) -> Result<(), Fault> {
        let told = ToldGap::of(&base);
        drop(base);
        print_to(writer, &GapObject(told))?;
        Ok(())
    }
}
