//! The answer that a tree shows.

ghost use Rattle.std.specs.Prelude.{◌≡◌, IfOk, MatchOption};
ghost use Rattle.pesp_truth.specs.Certificates.{IsValid};
ghost use Rattle.pesp_sharp_work.specs.Told as spec;
ghost use Rattle.pesp_sharp_work.specs.Told.{TellsLeast, IsRetold};

use crate::copies::with_answer;
use crate::least::{is_same, least_shown};
use pesp_cert::{Certificate, Fronted};
use pesp_problem::{Instance, Memory};
use pesp_truth::Answer;
use pesp_whole_check::costs_shown;
use std::alloc::Global;

/// The answer of a tree that shows so much at least, beside times of a cost.
fn answer_of(least: Option<u64>, cost: Option<u64>) -> Answer
    ensures { result ≡ spec.answer_of least cost }
{
    let Some(least) = least else {
        return Answer::Infeasible;
    };
    match cost {
        None => Answer::Bounded { least, cost: None },
        Some(cost) => {
            if least < cost {
                Answer::Bounded {
                    least,
                    cost: Some(cost),
                }
            } else {
                Answer::Optimal(cost)
            }
        }
    }
}

/// A valid certificate with the answer that its tree shows beside its times: its bound is the least that a bound leaf shows,
/// rounded up, and the cost. None where it tells that already. The one refusal is of memory.
pub fn retold(
    alloc: Global,
    instance: &Instance,
    told: &Fronted,
) -> Result<Option<Certificate>, Memory>
    requires { IsValid told.now.front instance.now told.now.content }
    ensures { IfOk result (λ found. MatchOption found (TellsLeast instance.now told.now)
        (λ c. IsRetold instance.now told.now (record { front = told.now.front; content = c }))) }
{
    let shown = costs_shown(alloc, instance, told)?;
    let answer = told.certificate.answer();
    let cost = answer.cost();
    let least = least_shown(&shown, cost);
    if is_same(answer.least(), least) {
        return Ok(None);
    }
    let certificate = with_answer(alloc, &told.certificate, answer_of(least, cost))?;
    Ok(Some(certificate))
}
