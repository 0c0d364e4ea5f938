//! What was found, in plain words.

use crate::claim::Claim;
use pesp_problem::Instance;
use std::alloc::AllocError;
use std::fmt;

/// A part of a whole in per cent, rounded up to hundredths.
#[derive(Clone, Copy)]
struct PartPerCent {
    part: u64,
    of: u64,
}

impl fmt::Display for PartPerCent {
    fn fmt<W: fmt::Write>(&self, f: &mut fmt::Formatter<W>) -> fmt::Result {
        let of = u128::from(self.of.max(1));
        let hundredths = u128::from(self.part)
            .saturating_mul(10000)
            .saturating_add(of - 1)
            / of;
        let (whole, rest) = (hundredths / 100, hundredths % 100);
        let (ten, one) = (rest / 10, rest % 10);
        write!(f, "{whole}.{ten}{one} %")
    }
}

/// Writes what is claimed of all other timetables.
fn write_claim(text: &mut String, claim: Claim, cost: u64) -> Result<(), AllocError> {
    match claim {
        Claim::Optimal => text.push_str(
            "<p>The certificate says that no timetable costs less: it is a best one, and the gap is 0. Searching longer saves nothing.</p>\n",
        ),
        Claim::Open { bound } => write_bound(text, bound, cost),
        Claim::Nothing => text.push_str(
            "<p>Nothing is claimed of other timetables: the times came without a certificate. Whether one costs less isn't known from this page.</p>\n",
        ),
    }
}

/// Writes what a bound means.
fn write_bound(text: &mut String, bound: u64, cost: u64) -> Result<(), AllocError> {
    let gap = cost.saturating_sub(bound);
    let share = PartPerCent {
        part: gap,
        of: cost,
    };
    writeln!(
        text,
        "<p>The certificate says that no timetable costs less than <b>{bound}</b> (the bound). So at most {gap} of {cost}, that is {share} (the gap), can be saved by searching longer, and a wish that makes this timetable cost more than that can't be paid for in that way.</p>"
    )
}

/// How many events and activities there are, and how many activities have no slack.
fn write_size(text: &mut String, instance: &Instance, tight: u32) -> Result<(), AllocError> {
    let (events, activities) = (instance.events().len(), instance.rows().len());
    writeln!(
        text,
        "<p>It has {events} events and {activities} activities. {tight} activities have no slack.</p>"
    )
}

/// Writes what was found: the cost of a timetable, what is claimed of it, and how large the instance is. `tight` is how many
/// activities have no slack. The error is a growth that was refused.
pub fn write_found(
    text: &mut String,
    instance: &Instance,
    claim: Claim,
    cost: u64,
    tight: u32,
) -> Result<(), AllocError> {
    let period = instance.period();
    text.push_str("<section id=\"found\"><h2>What was found</h2>\n")?;
    writeln!(
        text,
        "<p>This timetable repeats every {period}, and costs <b>{cost}</b>: the sum over all activities of the weight times the slack, which is the time beyond the least duration. It keeps every activity between its least and its greatest duration.</p>"
    )?;
    write_claim(text, claim, cost)?;
    write_size(text, instance, tight)?;
    text.push_str(
        "<p class=\"small\">This page was made from the times and doesn't check the certificate; <code>pesp check</code> does.</p></section>\n",
    )
}
