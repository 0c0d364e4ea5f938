//! What the checker says.

/// What the checker says of a certificate: it is valid for the instance, or the first thing that is wrong with it.
#[derive(Clone, Copy, PartialEq, Eq)]
pub enum Verdict {
    Accepted,
    Refused(Refusal),
}

/// What is wrong with a certificate. Rows and cycles are numbered from 1, and a line by its number in the certificate's
/// text: line 4 is the first that shows a time, or the first after that.
///
/// `OtherPeriod`: its period isn't the instance's. `AnswerShape`: times are shown beside an answer without a cost, or the
/// least cost isn't below the cost. `Times`: the labels aren't those of the events in order, or a time isn't below the
/// period. `Violates`: the first row that the times leave unsatisfied. `WrongCost`: the times cost something else.
/// `NoSuch`: a row or a cycle that doesn't exist is named. `OpenWalk`: a cycle's ends don't meet. `BoundInInfeasible`: a
/// leaf shows a least cost where there should be no timetable. `LeafBelow`: a leaf's value isn't as much as the least cost,
/// or there is none. `NotEmpty`: a leaf doesn't show that no timetable lies there. `NotAGap`: the cycle has an offset left.
/// `NotPropagated`: the rows support sets of time differences at a leaf that should have none.
#[derive(Clone, Copy, Debug, PartialEq, Eq)]
pub enum Refusal {
    OtherPeriod,
    Times,
    Violates { row: u32 },
    WrongCost,
    OpenWalk { cycle: u32 },
    NoSuch { line: u64 },
    LeafBelow { line: u64 },
    NotEmpty { line: u64 },
    NotAGap { line: u64 },
    BoundInInfeasible { line: u64 },
    AnswerShape,
    NotPropagated { line: u64 },
}
