//! Work on an open leaf.

ghost use Rattle.std.specs.Prelude.{◌≡◌, ◌∷◌, [], ◌≤◌, None, IfOk, IfErr};
ghost use Rattle.pesp_problem.specs.declared.limits.TheConstants.{MOST_STEPS};
ghost use Rattle.pesp_truth.specs.Certificates.{IsValid};
ghost use Rattle.pesp_worker.specs.HandingIn.{IsWorkOn, IsWorkRefusal};

use crate::TimesSearch;
use pesp_cert::Certificate;
use pesp_cert_items::WorkText;
use pesp_problem::Instance;
use pesp_worker::{WorkRefusal, work_on_all};
use std::alloc::Global;

/// Works on an open leaf of a valid certificate, by at most so many splits. Open leaves are numbered from 0 in the order of the
/// tree's lines. The work that is handed in is of this job, and has a text. Its tree has at most so many branches and may stand
/// in the leaf's place; its times are a timetable that costs less than the certificate's, or there are none.
///
/// Refused as `NoSuchJob` where the certificate has no more open leaves than the number, and else as `Memory`, where a growth was
/// refused.
pub fn work(
    alloc: Global,
    instance: &Instance,
    base: &Certificate,
    job: u64,
    steps: u32,
) -> Result<WorkText, WorkRefusal>
    requires valid { IsValid None instance.now base.now }
    requires few { steps ≤ MOST_STEPS }
    ensures work { IfOk result (λ work. IsWorkOn instance.now base.now job steps work) }
    ensures refused { IfErr result (IsWorkRefusal instance.now base.now job) }
{
    let jobs = [job];
    let mut finder = TimesSearch::new(alloc);
    let works = work_on_all(alloc, instance, base, &jobs, steps, None, &mut finder);
    drop(finder);
    let mut works = works?;
    let Some(work) = works.pop() else {
        unreachable!();
    };
    Ok(work)
}
