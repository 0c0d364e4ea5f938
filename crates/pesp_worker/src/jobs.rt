//! The open leaves of a certificate.

ghost use Rattle.std.specs.Prelude.{◌≡◌, [], ◌∷◌, ◌++◌, All, map, IfOk, OnOk, None};
ghost use Rattle.pesp_truth.specs.Certificates.{IsValid};
ghost use Rattle.pesp_tree.specs.States.{State, IsLentNumber};
ghost use Rattle.pesp_tree.specs.Adopting.{LendsEach};
ghost use Rattle.pesp_worker.specs.Jobs.{HasItsValue, AreOpenJobs};

use crate::lent::lend_base;
use pesp_board::{Board, Job};
use pesp_cert::Certificate;
use pesp_problem::{Instance, Memory};
use pesp_turns::OpenJob;
use std::alloc::Global;
use std::mem;

/// The job with the value of its leaf.
fn valued(board: &Board, job: Job) -> OpenJob
    requires { IsLentNumber board.now.state job.number }
    ensures job { result.job ≡ job }
    ensures value { HasItsValue board.now.problem board.now.state result }
{
    let Some((value, _)) = board.job_leaf(job.number) else {
        unreachable!();
    };
    OpenJob { job, value }
}

/// Puts a job behind those before it.
fn keep(opens: &mut Vec<OpenJob>, leaf: OpenJob) -> Result<(), Memory>
    ensures { OnOk result (opens.new.items ≡ opens.old.items ++ leaf ∷ []) }
{
    opens.push(leaf)?;
    Ok(())
}

/// The jobs that were lent, with the values of their leaves.
fn valued_jobs(alloc: Global, board: &Board, jobs: Vec<Job>) -> Result<Vec<OpenJob>, Memory>
    requires { (opening : State) × LendsEach board.now.problem opening jobs.items board.now.state }
    ensures jobs { IfOk result (λ opens. map (λ leaf. leaf.job) opens.items ≡ jobs.items) }
    ensures values { IfOk result
        (λ opens. All (HasItsValue board.now.problem board.now.state) opens.items) }
{
    let mut opens = Vec::new(alloc);
    for job in jobs {
        let leaf = valued(board, job);
        keep(&mut opens, leaf)?;
    }
    Ok(opens)
}

/// The open leaves of a valid certificate as jobs, numbered from 0 in the order of the tree's lines. They are the leaves on
/// which work can go on: bound leaves whose value is below the cost of the certificate's times, where it has some. The one
/// refusal is of memory.
pub fn open_jobs(
    alloc: Global,
    instance: &Instance,
    base: &Certificate,
) -> Result<Vec<OpenJob>, Memory>
    requires { IsValid None instance.now base.now }
    ensures { IfOk result (λ opens. AreOpenJobs instance.now base.now opens.items) }
{
    let mut lent = lend_base(alloc, instance, base)?;
    let jobs = mem::replace(&mut lent.jobs, Vec::new(alloc));
    valued_jobs(alloc, &lent.board, jobs)
}
