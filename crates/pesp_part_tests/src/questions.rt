//! Questions on parts of the solver.

use crate::calls::{ask_made, ask_read, ask_reported, ask_score};
use crate::flows::{ask_circulation, ask_levels};
use crate::found::{ask_dive, ask_domains, ask_improvement};
use crate::given::Case;
use crate::networks::ask_network;
use crate::nodes::{ask_node, ask_problem};
use crate::proposals::ask_proposal;
use crate::reductions::ask_reduced;
use crate::rows::network_of;
use crate::words::look_up;
use pesp_network::Network;

/// What a question is about.
#[derive(Clone, Copy)]
enum Part {
    Itself,
    Domains,
    Dive,
    Improvement,
    Circulation,
    Proposal,
    Reduced,
    Problem,
    Node,
    Levels,
    Read,
    Score,
    Reported,
    Made,
}

/// The first word of each question.
const PARTS: [(&str, Part); 14] = [
    ("network", Part::Itself),
    ("domains", Part::Domains),
    ("dive", Part::Dive),
    ("improve", Part::Improvement),
    ("circulation", Part::Circulation),
    ("proposed", Part::Proposal),
    ("reduced", Part::Reduced),
    ("problem", Part::Problem),
    ("node", Part::Node),
    ("levels", Part::Levels),
    ("read", Part::Read),
    ("score", Part::Score),
    ("reported", Part::Reported),
    ("made", Part::Made),
];

/// Tells the answer to a question of this first word.
pub fn ask_part(case: Case<'_>, word: &str, told: &mut String) -> Option<()> {
    match look_up(&PARTS, word)? {
        Part::Reduced => ask_reduced(case, told),
        Part::Problem => ask_problem(case, told),
        Part::Node => ask_node(case, told),
        Part::Levels => ask_levels(case, told),
        Part::Read => ask_read(case, told),
        Part::Score => ask_score(case, told),
        Part::Reported => ask_reported(case, told),
        Part::Made => ask_made(case, told),
        part => ask_over_network(case, part, told),
    }
}

/// Tells the answer to a question over the given network, or why there is none.
fn ask_over_network(case: Case<'_>, part: Part, told: &mut String) -> Option<()> {
    match network_of(case)? {
        Ok(network) => {
            let done = answer(case, &network, part, told);
            drop(network);
            done
        }
        Err(refusal) => write!(told, " {refusal:?}").ok(),
    }
}

fn answer(case: Case<'_>, network: &Network, part: Part, told: &mut String) -> Option<()> {
    match part {
        Part::Itself => ask_network(case, network, told),
        Part::Domains => ask_domains(case, network, told),
        Part::Dive => ask_dive(case, network, told),
        Part::Improvement => ask_improvement(case, network, told),
        Part::Circulation => ask_circulation(case, network, told),
        Part::Proposal => ask_proposal(case, network, told),
        _ => None,
    }
}
