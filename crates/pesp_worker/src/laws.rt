//! Laws of works that are handed in. Each is a function without a body whose contract is the law: a caller that calls it has the
//! law within reach.

ghost use Rattle.std.specs.Prelude.{◌≡◌, ℕ, ℤ, List};
ghost use Rattle.pesp_problem.specs.Timetables.{Pesp};
ghost use Rattle.pesp_truth.specs.Certificates.{Content};
ghost use Rattle.pesp_nodes.specs.Problems.{ProblemValue};
ghost use Rattle.pesp_tree.specs.declared.job.Job.{Job};
ghost use Rattle.pesp_tree.specs.States.{State};
ghost use Rattle.pesp_cert_items.specs.Works.{WorkValue};
ghost use Rattle.pesp_worker.specs.Lent.{IsLentFrom};
ghost use Rattle.pesp_worker.specs.Grafts.{TakesWork};
ghost use Rattle.pesp_worker.specs.declared.grafted.Reply.{Reply};
ghost use Rattle.pesp_worker.specs.HandingIn.{IsWorkOn};
ghost use Rattle.pesp_worker.specs.Taken.{IsTakenOrLarge};

/// What is handed in for a job of a base is taken where it is the first that is grafted onto that base, unless the tree would pass
/// a limit.
#[tactic(auto, using(crate::proofs::Taken::worked_is_taken))]
pub fn what_is_worked_is_taken()
    ensures { (instance : Pesp) (base : Content) (job steps : ℕ) (work : WorkValue)
        (p : ProblemValue) (jobs : List Job) (lent new : State) (events : List ℤ) (reply : Reply)
        → IsWorkOn instance base job steps work → IsLentFrom instance base p jobs lent
        → TakesWork p events lent work reply new → IsTakenOrLarge reply.given }
{}
