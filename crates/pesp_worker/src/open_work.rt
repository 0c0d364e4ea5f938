//! Work on open leaves.

ghost use Rattle.std.specs.Prelude.{◌≤◌, None, IfOk, IfErr};
ghost use Rattle.std.specs.List.Sorted.{IsStrictlyIncreasing};
ghost use Rattle.pesp_problem.specs.declared.limits.TheConstants.{MOST_STEPS};
ghost use Rattle.pesp_truth.specs.Certificates.{IsValid};
ghost use Rattle.pesp_worker.specs.HandingIn.{AreWorksOn, AreWorkRefusal};

use crate::judged_trees::judged;
use crate::refusal::WorkRefusal;
use crate::shared_search::{SplitLimits, search_below};
use pesp_cert::Certificate;
use pesp_cert_items::WorkText;
use pesp_forest::TimesFinder;
use pesp_problem::Instance;
use std::alloc::Global;

/// Works on open leaves of a valid certificate, whose jobs rise, by at most so many splits in all: the open leaf of least value below
/// any of them is split next, and none that is worth as much as the bound, where one is named. Open leaves are numbered from 0 in
/// the order of the tree's lines. A finder looks for times where the certificate has none.
///
/// A work is handed in for each job, in their order, and has a text. Its tree may stand in the leaf's place; its times are a
/// timetable that costs less than the certificate's, or there are none. The trees have at most so many branches in all, and
/// where a leaf is worth as much as the bound its tree has none.
///
/// Refused as `NoSuchJob` where the certificate has no more open leaves than one of the numbers, and else as `Memory`, where a
/// growth was refused.
pub fn work_on_all<F: TimesFinder>(
    alloc: Global,
    instance: &Instance,
    base: &Certificate,
    jobs: &[u64],
    steps: u32,
    until: Option<u64>,
    finder: &mut F,
) -> Result<Vec<WorkText>, WorkRefusal>
    requires valid { IsValid None instance.now base.now }
    requires rise { IsStrictlyIncreasing jobs.now }
    requires few { steps ≤ MOST_STEPS }
    ensures works { IfOk result
        (λ works. AreWorksOn instance.now base.now jobs.now steps until works.items) }
    ensures refused { IfErr result (AreWorkRefusal instance.now base.now jobs.now) }
{
    let range = SplitLimits { steps, until };
    let found = search_below(alloc, instance, base, jobs, range, finder)?;
    judged(alloc, instance, base, jobs, range, found)
}
