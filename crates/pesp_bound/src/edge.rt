//! Edges between events, whether levels meet their demands, and what becomes of these.

ghost use Rattle.std.specs.Prelude.{◌≡◌, ℕ, ◌<◌, ◌↔◌, length, IsTrue};
ghost use Rattle.pesp_bound.specs.Settling.{at, SettlesEdge, AreSettled};

/// A demand on two events: the level at the start is to be at least the level at the finish, plus the gain, less the loss.
#[derive(Clone, Copy, PartialEq, Eq)]
pub struct Edge {
    pub start: usize,
    pub finish: usize,
    pub gain: usize,
    pub loss: usize,
}

/// Levels that meet the demands of all edges, one for each event; or places of edges that lead one after the other back to
/// where they begin and gain more than they lose, so that no levels meet their demands.
#[derive(Drop)]
pub enum Outcome {
    Levels(Vec<usize>),
    Gains(Vec<usize>),
}

/// The level of an event, 0 where it has none.
fn level_of(levels: &[usize], event: usize) -> usize
    ensures { result ≡ at levels.now event }
{
    levels.get(event).copied().unwrap_or(0)
}

/// Whether levels meet the demand of one edge.
fn is_settled(edges: &[Edge], k: usize, levels: &[usize]) -> bool
    requires { k < length edges.now }
    ensures { IsTrue result ↔ SettlesEdge edges.now (at levels.now) k }
{
    let edge = edges[k];
    let demanded = level_of(levels, edge.finish) as u128 + edge.gain as u128;
    demanded <= level_of(levels, edge.start) as u128 + edge.loss as u128
}

/// Whether levels meet the demands of all edges. An event without a level is at 0.
pub fn are_settled(edges: &[Edge], levels: &[usize]) -> bool
    ensures { IsTrue result ↔ AreSettled edges.now (at levels.now) }
{
    for k in 0..edges.len() {
        if !is_settled(edges, k, levels) {
            return false;
        }
    }
    true
}
