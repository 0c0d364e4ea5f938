//! What a certificate claims.

ghost use Rattle.std.specs.Prelude.{◌≡◌};
ghost use Rattle.pesp_truth.specs.Certificates as certificates;

/// The claim of a certificate about its instance, with costs in the instance's own unit.
///
/// `Optimal`: the shown times are a timetable of this cost, and no timetable costs less. `Infeasible`: there is no
/// timetable. `Bounded`: every timetable costs at least `least`, and where a `cost` stands, the shown times are a timetable
/// of it, which is more than `least`.
#[derive(Clone, Copy, Debug, PartialEq, Eq)]
pub enum Answer {
    Optimal(u64),
    Infeasible,
    Bounded { least: u64, cost: Option<u64> },
}

impl Answer {
    /// The bound that it tells; none where there is no timetable.
    pub fn least(self) -> Option<u64>
        ensures { result ≡ certificates.least_of self }
    {
        match self {
            Answer::Optimal(cost) => Some(cost),
            Answer::Infeasible => None,
            Answer::Bounded { least, .. } => Some(least),
        }
    }

    /// The cost of the times beside it; none where no times are shown.
    pub fn cost(self) -> Option<u64>
        ensures { result ≡ certificates.cost_of self }
    {
        match self {
            Answer::Optimal(cost) => Some(cost),
            Answer::Infeasible => None,
            Answer::Bounded { cost, .. } => cost,
        }
    }
}
