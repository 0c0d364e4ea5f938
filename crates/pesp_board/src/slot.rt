//! What became of the numbers that were lent.

ghost use Rattle.pesp_board.specs.Insides.{LendsNode};

/// What became of a number: it is lent with the leaf of a node, something was taken for it, or it was recalled.
#[derive(Clone, Copy)]
pub(crate) enum Slot {
    Lent(u32),
    Given,
    Recalled,
}

/// The node with whose leaf the number is lent; None where it isn't lent.
pub(crate) fn lent_node(slots: &[Slot], number: u64) -> Option<u32>
    ensures { LendsNode slots.now number result }
{
    let place = number as usize;
    if place < slots.len() {
        if let Slot::Lent(node) = slots[place] {
            return Some(node);
        }
    }
    None
}
