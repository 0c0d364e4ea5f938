//! Laws of what is lent from a certificate. Each is a function without a body whose contract is the law: a caller that calls it
//! has the law within reach.

ghost use Rattle.std.specs.Prelude.{◌≡◌, List, map};
ghost use Rattle.pesp_problem.specs.Timetables.{Pesp};
ghost use Rattle.pesp_truth.specs.Certificates.{Content};
ghost use Rattle.pesp_nodes.specs.Problems.{ProblemValue};
ghost use Rattle.pesp_tree.specs.declared.job.Job.{Job};
ghost use Rattle.pesp_tree.specs.States.{State};
ghost use Rattle.pesp_worker.specs.Jobs.{job_and_path};
ghost use Rattle.pesp_worker.specs.Lent.{IsLentFrom};

/// Which jobs there are, each with its number and the path to its leaf, and the state of the board on which they are lent, are
/// decided by the instance and the base. So a job's number means one leaf, whoever lends it.
#[tactic(auto, using(crate::proofs::OneLending::one_lending))]
pub fn jobs_are_those_of_the_base()
    ensures { (instance : Pesp) (base : Content) (p q : ProblemValue) (jobs others : List Job)
        (s t : State) → IsLentFrom instance base p jobs s → IsLentFrom instance base q others t
        → (map job_and_path jobs ≡ map job_and_path others) × (s ≡ t) }
{}
