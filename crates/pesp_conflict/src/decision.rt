//! What a certificate says of listed rows.

ghost use Rattle.std.specs.Prelude.{◌≡◌, ◌↔◌, ◌≤◌, length, IfOk, IfSome, IsTrue};
ghost use Rattle.pesp_problem.specs.declared.limits.TheConstants.{MOST_ROWS};
ghost use Rattle.pesp_problem.specs.Timetables.{Pesp};
ghost use Rattle.pesp_truth.specs.declared.answer.Answer.TheVariants.{Infeasible};
ghost use Rattle.pesp_conflict.specs.Findings.{AreFit};
ghost use Rattle.pesp_conflict.specs.Insides.{IsDecision, IsOpenWithout, IsPart, IsToldBy};

use crate::lists::{are_named, are_rising, chosen};
use crate::used::used_rows;
use pesp_cert::Certificate;
use pesp_problem::Instance;
use pesp_truth::Answer;
use std::alloc::{AllocError, Global};

/// Some of the listed rows that are in conflict; that some times keep all of them; or neither.
#[derive(Drop)]
pub enum Decision {
    Conflict(Vec<u32>),
    Timetable,
    Undecided,
}

/// The listed rows that a certificate uses.
fn used_part(
    alloc: Global,
    listed: &[u32],
    certificate: &Certificate,
) -> Result<Option<Vec<u32>>, AllocError>
    requires { length listed.now ≤ MOST_ROWS }
    ensures { (p : Pesp) → IsToldBy p listed.now certificate.now
        → certificate.now.answer ≡ Infeasible
        → IfOk result (λ found. IfSome found (λ rows. IsPart p listed.now rows.items)) }
{
    let Some(places) = used_rows(alloc, certificate, listed.len() as u32)? else {
        return Ok(None);
    };
    Ok(Some(chosen(alloc, listed, &places)?))
}

/// The listed rows that a certificate of no timetable uses, or all of them.
fn conflict_of(
    alloc: Global,
    listed: &[u32],
    certificate: &Certificate,
) -> Result<Decision, AllocError>
    requires { length listed.now ≤ MOST_ROWS }
    ensures { (p : Pesp) → IsToldBy p listed.now certificate.now
        → certificate.now.answer ≡ Infeasible → IfOk result (IsDecision p listed.now (IsOpenWithout certificate.now)) }
{
    match used_part(alloc, listed, certificate)? {
        Some(rows) if are_rising(&rows) => Ok(Decision::Conflict(rows)),
        _ => Ok(Decision::Conflict(Vec::from_slice(alloc, listed)?)),
    }
}

/// What a certificate of the instance that has the listed rows alone says of them.
pub fn told_by(
    alloc: Global,
    listed: &[u32],
    certificate: &Certificate,
) -> Result<Decision, AllocError>
    requires { length listed.now ≤ MOST_ROWS }
    ensures { (p : Pesp) → IsToldBy p listed.now certificate.now
        → IfOk result (IsDecision p listed.now (IsOpenWithout certificate.now)) }
{
    match certificate.answer() {
        Answer::Infeasible => conflict_of(alloc, listed, certificate),
        Answer::Optimal(_) => Ok(Decision::Timetable),
        Answer::Bounded { cost: Some(_), .. } => Ok(Decision::Timetable),
        Answer::Bounded { cost: None, .. } => Ok(Decision::Undecided),
    }
}

/// Whether the numbers rise, and name rows of the instance.
pub fn are_fit(instance: &Instance, listed: &[u32]) -> bool
    ensures { IsTrue result ↔ AreFit instance.now listed.now }
{
    are_rising(listed) && are_named(listed, instance.rows().len())
}
