//! A line of the tree, as a text says it.

ghost use Rattle.std.specs.Prelude.{◌≡◌, true};
ghost use Rattle.pesp_cert.specs.Texts.{tree_item};
ghost use Rattle.pesp_cert_items.specs.Lent.{listed};
ghost use Rattle.pesp_judges.specs.SaidLines.{KeepsSaidLimits};
ghost use Rattle.pesp_check.specs.Said.{pairs_of, tree_line};
ghost use Rattle.pesp_check.specs.Items.{KeepsItemLimits, is_line};

use crate::elements::PairsLeft;
use pesp_cert_items::Item;
use pesp_judges::{LeafLine, SaidLine};
use pesp_problem::Cut;

/// A line of the tree, as the checker takes it.
pub(crate) fn said_line(item: Item<'_>) -> SaidLine<PairsLeft<'_>>
    requires line { is_line (listed item) ≡ true }
    ensures same { listed item.entry ≡ tree_item (tree_line pairs_of result) }
    ensures limits { KeepsItemLimits (listed item.entry) → KeepsSaidLimits pairs_of result }
{
    match item {
        Item::Slack { row, k } => SaidLine::Branch(Cut::Slack { row, k }),
        Item::Offset { cycle, k } => SaidLine::Branch(Cut::Offset { cycle, k }),
        Item::Bound(pairs) => SaidLine::Leaf(LeafLine::Bound(PairsLeft(pairs))),
        Item::Nothing(pairs) => SaidLine::Leaf(LeafLine::Nothing(PairsLeft(pairs))),
        Item::Gap(cycle) => SaidLine::Leaf(LeafLine::Gap(cycle)),
        Item::Propagated => SaidLine::Propagated,
        Item::Version(_) | Item::Period(_) | Item::Answer(_) | Item::Time(_, _) | Item::Cycle(_) =>
            unreachable!(),
    }
}
