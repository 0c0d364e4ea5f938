//! The open leaves of a certificate, as jobs.

ghost use Rattle.std.specs.Prelude.{◌≡◌, ◌++◌, ◌∷◌, [], length, map, OnOk, IfOk, MatchOption, IsTrue, IsSomeAnd, ◌↔◌, true};
ghost use Rattle.pesp_truth.specs.Trees.{line_of};
ghost use Rattle.pesp_truth.specs.Certificates.{IsValid};
ghost use Rattle.pesp_sharp_work.specs.Jobs as spec;
ghost use Rattle.pesp_sharp_work.specs.Jobs.{jobs_at_line, jobs_in, told_job, count_open, AreSharpJobs};

use crate::paths::pass;
use pesp_board::Job;
use pesp_cert::Fronted;
use pesp_problem::{Cut, Instance, Memory, Side};
use pesp_truth::TreeLine;
use pesp_turns::OpenJob;
use pesp_whole_check::costs_shown;
use std::alloc::Global;

/// Whether a leaf that shows so much is open, where the times cost so much; none stands above every cost.
pub(crate) fn is_below(shown: u64, cost: Option<u64>) -> bool
    ensures { result ≡ spec.is_open cost shown }
{
    match cost {
        Some(cost) => shown < cost,
        None => true,
    }
}

/// Whether a line that shows so much is an open leaf, where the times cost so much. A line that shows nothing is none, and a cost that
/// is missing stands above every number.
pub fn is_open(shown: Option<u64>, cost: Option<u64>) -> bool
    ensures { IsTrue result ↔ IsSomeAnd shown (λ value. spec.is_open cost value ≡ true) }
{
    match shown {
        Some(shown) => is_below(shown, cost),
        None => false,
    }
}

/// 1 for an open leaf, and 0 for every other line.
fn one_if_open(shown: Option<u64>, cost: Option<u64>) -> u64
    ensures { result ≡ count_open cost (shown ∷ []) }
{
    match shown {
        Some(shown) => { if is_below(shown, cost) { 1 } else { 0 } }
        None => 0,
    }
}

/// How many of the lines that show so much are open leaves, where the times cost so much. A cost that is missing stands above every
/// number.
pub fn open_count(shown: &[Option<u64>], cost: Option<u64>) -> u64
    ensures { result ≡ count_open cost shown.now }
{
    let mut count = 0u64;
    for value in shown {
        count += one_if_open(*value, cost);
    }
    count
}

/// The job of a leaf at the end of a path.
fn job_of(alloc: Global, number: usize, path: &[(Cut, Side)], value: u64) -> Result<OpenJob, Memory>
    ensures { IfOk result (λ leaf. told_job leaf
        ≡ record { number = number; path = path.now; value = value }) }
{
    let job = Job {
        number: number as u64,
        path: Vec::from_slice(alloc, path)?,
    };
    Ok(OpenJob { job, value })
}

/// Puts a job behind those before it.
fn keep(opens: &mut Vec<OpenJob>, leaf: OpenJob) -> Result<(), Memory>
    ensures { OnOk result (opens.new.items ≡ opens.old.items ++ leaf ∷ []) }
{
    opens.push(leaf)?;
    Ok(())
}

/// Puts the job of a line at the end of this path behind those before it, where it is an open leaf.
fn add_if_open(
    alloc: Global,
    opens: &mut Vec<OpenJob>,
    path: &[(Cut, Side)],
    shown: Option<u64>,
    cost: Option<u64>,
) -> Result<(), Memory>
    ensures { OnOk result (map told_job opens.new.items ≡ map told_job opens.old.items
        ++ jobs_at_line cost (length opens.old.items) path.now shown) }
{
    let Some(value) = shown else {
        return Ok(());
    };
    if !is_below(value, cost) {
        return Ok(());
    }
    let leaf = job_of(alloc, opens.len(), path, value)?;
    keep(opens, leaf)
}

/// The jobs of lines that show so much.
fn jobs_in(
    alloc: Global,
    lines: &[TreeLine],
    shown: &[Option<u64>],
    cost: Option<u64>,
) -> Result<Vec<OpenJob>, Memory>
    ensures { IfOk result (λ opens. map told_job opens.items
        ≡ jobs_in cost 0 (map line_of lines.now) shown.now ([] ∷ [])) }
{
    let mut opens = Vec::new(alloc);
    let mut path = Vec::new(alloc);
    for (place, line) in lines.iter().enumerate() {
        if place >= shown.len() {
            return Ok(opens);
        }
        let value = shown[place];
        add_if_open(alloc, &mut opens, &path, value, cost)?;
        let waits = pass(&mut path, line)?;
        if !waits {
            return Ok(opens);
        }
    }
    Ok(opens)
}

/// The open leaves of a valid certificate as jobs, numbered from 0 in the order of the tree's lines: bound leaves whose value, by
/// their scale and rounded up, is below the cost of the certificate's times, where it has some. The one refusal is of memory.
pub fn sharp_jobs(
    alloc: Global,
    instance: &Instance,
    base: &Fronted,
) -> Result<Vec<OpenJob>, Memory>
    requires { IsValid base.now.front instance.now base.now.content }
    ensures { IfOk result (λ opens. AreSharpJobs instance.now base.now opens.items) }
{
    let shown = costs_shown(alloc, instance, base)?;
    let cost = base.certificate.answer().cost();
    jobs_in(alloc, base.certificate.tree(), &shown, cost)
}
