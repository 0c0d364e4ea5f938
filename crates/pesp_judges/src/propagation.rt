//! Whether propagation shuts a node.

ghost use Rattle.std.specs.Prelude.{◌≡◌, ◌↔◌, IsTrue, List, length, None};
ghost use Rattle.pesp_problem.specs.declared.row.SignedRow.{SignedRow};
ghost use Rattle.pesp_problem.specs.Arcs.{net_of};
ghost use Rattle.pesp_truth.specs.Trees.{Plain, IsShut, ByPropagation};
ghost use Rattle.pesp_leaves.specs.Ranges.{node_of, AreRanges};
ghost use Rattle.pesp_judges.specs.Propagations.{net_rows};

use pesp_leaves::Ranges;
use pesp_problem::Instance;
use pesp_truth::Support;

/// Whether the rows support no family of sets of time differences without an empty set, under the slack ranges of a node.
pub fn shuts(instance: &Instance, pass: &mut Support, ranges: &Ranges) -> bool
    requires pass { pass.old ≡ net_rows instance.now }
    requires ranges { AreRanges instance.now ranges.now }
    ensures same { pass.new ≡ pass.old }
    ensures shut { (walks : List (List SignedRow))
        → IsTrue result ↔ IsShut (Plain None) (net_of instance.now) walks ByPropagation (node_of ranges.now) }
{
    let _period = instance.period();
    pass.supports_none(&ranges.slacks)
}
