//! Spanning forests that are drawn at random over rows with slacks, their cuts, the clusters that the first rows of a forest
//! join, and induced forests of these. A network with its events and rows in an order that doesn't depend on theirs. Nothing is
//! promised of them but that they are found safely.
#![tactic(auto)]

mod activity;
mod clusters;
mod cuts;
mod forest;
mod grown;
mod induced;
mod levels;
mod lists;
mod marks;
mod order;
mod rooted;
mod series;

pub use activity::{Activity, SlackCrossing, difference_within, sum_within};
pub use clusters::{Clusters, Ends};
pub use cuts::ForestCuts;
pub use forest::{Bent, DrawnForest};
pub use induced::{Induced, Placed};
pub use order::Ordered;
pub use rooted::NONE;
