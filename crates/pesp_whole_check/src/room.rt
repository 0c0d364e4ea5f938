//! What the leaves of a certificate's tree ask for behind a front: the arcs and the weights of the instance, and rates.

ghost use Rattle.std.specs.Prelude.{◌≡◌, ℕ, ◌<◌, ◌≤◌, pos, length, IfOk, IfSome, IsTrue, option_map, option_copied};
ghost use Rattle.std.specs.Option.{ForSome};
ghost use Rattle.pesp_problem.specs.declared.limits.TheConstants.{MOST_WEIGHT};
ghost use Rattle.pesp_problem.specs.Timetables.{Pesp};
ghost use Rattle.pesp_problem.specs.Arcs.{net_of};
ghost use Rattle.pesp_leaves.specs.Claims.{FitsClaim, HasRoom, TellsOf};
ghost use Rattle.pesp_leaves.specs.Taken.{HaveRows, AreSmallWeights};
ghost use Rattle.pesp_whole_check.specs.Rooms.{AreOwnWeights, FitsRoom, FitsWalks, claim_from};

use pesp_judges::{Claim, Shown};
use pesp_problem::{Arc, Instance, Memory, Rates, Row, no_rates};
use pesp_truth::{Lemma, Marks};
use std::alloc::{AllocError, Global};

/// Room for the leaves behind a front. It has the arcs of the instance, the weights of its rows, and rates. Leaves add up the
/// rates, one a row. Without a front all three are empty.
#[derive(Drop)]
pub struct Room {
    pub arcs: Vec<Arc>,
    pub weights: Vec<i64>,
    pub rates: Vec<Rates>,
}

/// The weight of a row, as a lemma's may be.
fn own_weight(row: &Row) -> i64
    requires { row.now.weight ≤ MOST_WEIGHT }
    ensures { result ≡ pos row.now.weight }
{
    row.weight as i64
}

/// The weights of the rows.
fn own_weights(alloc: Global, instance: &Instance) -> Result<Vec<i64>, AllocError>
    ensures own { IfOk result (λ own. AreOwnWeights instance.now own.items) }
    ensures small { IfOk result (λ own. AreSmallWeights own.items) }
{
    let mut own = Vec::new(alloc);
    for row in instance.rows() {
        own.push(own_weight(row))?;
    }
    Ok(own)
}

impl Room {
    /// Empty room, as it serves without a front.
    pub fn none(alloc: Global) -> Room {
        Room {
            arcs: Vec::new(alloc),
            weights: Vec::new(alloc),
            rates: Vec::new(alloc),
        }
    }

    /// Room for the leaves behind a front.
    fn of(alloc: Global, instance: &Instance) -> Result<Room, Memory>
        ensures { IfOk result (FitsRoom instance.now) }
    {
        let rows = instance.rows().len();
        let arcs = instance.arcs(alloc)?;
        let weights = own_weights(alloc, instance)?;
        let rates = no_rates(alloc, rows)?;
        Ok(Room {
            arcs,
            weights,
            rates,
        })
    }
}

/// Makes the room that the leaves of a tree ask for. Without a front it is empty.
pub fn room_for(alloc: Global, instance: &Instance, is_behind: bool) -> Result<Room, Memory>
    ensures { IfOk result (λ room. IsTrue is_behind → FitsRoom instance.now room) }
{
    if is_behind {
        Room::of(alloc, instance)
    } else {
        Ok(Room::none(alloc))
    }
}

/// The least cost as a least sum; none where it is above what a text may say.
fn least_sum(least: Option<u64>) -> Option<i64>
    ensures { IfSome least (λ c. c < 1000000000000000000) → result ≡ option_map pos least }
{
    let Some(least) = least else {
        return None;
    };
    if least >= 1_000_000_000_000_000_000 {
        return None;
    }
    Some(least as i64)
}

/// What the tree of a certificate is to show. That is this least cost, or, without one, that there is no timetable.
///
/// Behind a front its leaves may name marked walks and lemmas too. The arcs and the weights are those of the room. A least cost
/// that no text may say counts there as none.
pub fn claim_over<'a>(
    marks: Option<&'a Marks>,
    facts: &'a [Lemma],
    arcs: &'a [Arc],
    weights: &'a [i64],
    least: Option<u64>,
) -> Claim<'a>
    ensures fits { (p : Pesp) → HaveRows (length p.rows) facts.now
        → ForSome marks.entry (λ m. FitsWalks p m.now arcs.now weights.now) → FitsClaim p result }
    ensures told { (p : Pesp) → ForSome marks.entry (λ m. AreOwnWeights p weights.now) → IfSome least (λ c. c < 1000000000000000000)
        → TellsOf result (claim_from (option_copied marks.entry) facts.now (net_of p) least) }
    ensures room { (rows rates : ℕ) → ForSome marks.entry (λ m. rates ≡ rows) → HasRoom result rows rates }
{
    let Some(marks) = marks else {
        return Claim::Plain(least);
    };
    Claim::Behind(Shown {
        marks,
        facts,
        arcs,
        weights,
        is_cost: true,
        least: least_sum(least),
    })
}
