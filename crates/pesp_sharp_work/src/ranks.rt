//! Whether one answer is no worse than another.

ghost use Rattle.std.specs.Prelude.{◌↔◌, IsTrue};
ghost use Rattle.pesp_tree.specs.States.{IsAtMost};
ghost use Rattle.pesp_sharp_work.specs.Ranks.{IsNoWorse};

use pesp_truth::Answer;

/// Whether a number is at most another; None stands above every number.
fn is_at_most(a: Option<u64>, b: Option<u64>) -> bool
    ensures { IsTrue result ↔ IsAtMost a b }
{
    match (a, b) {
        (_, None) => true,
        (None, Some(_)) => false,
        (Some(a), Some(b)) => a <= b,
    }
}

/// Whether the bound of an answer is no less than another one's, and its cost no more.
pub fn is_no_worse(old: Answer, new: Answer) -> bool
    ensures { IsTrue result ↔ IsNoWorse old new }
{
    is_at_most(old.least(), new.least()) && is_at_most(new.cost(), old.cost())
}
