//! Net counts of a walk, each row once.

ghost use Rattle.std.specs.Prelude.{◌≡◌, ℕ, ◌+ℤ◌, ◌<◌, ◌≤◌, pos, length, vec_len, unsigned_abs, All, OnOk, slice_index_or};
ghost use Rattle.pesp_problem.specs.declared.limits.TheConstants.{MOST_SIGNED_ROWS};
ghost use Rattle.pesp_problem.specs.Walks.{Names, sign, net_count};
ghost use Rattle.pesp_problem.specs.Nets.{AreZeros};
ghost use Rattle.pesp_nodes.specs.Nets.{IsRowAdded};

use crate::passages::Passage;
use pesp_problem::{NetCount, Nets, SignedRow};
use std::alloc::AllocError;

/// A count after one signed row more.
pub fn with_sign(count: i64, s: &SignedRow) -> i64
    requires { unsigned_abs count ≤ MOST_SIGNED_ROWS }
    ensures { result ≡ count +ℤ sign s.now }
{
    if s.plus { count + 1 } else { count - 1 }
}

/// Adds the signs of a walk to working numbers, one a row, that are 0: 1 for each plus sign, -1 for each minus sign.
pub fn count_rows(walk: &[SignedRow], working: &mut [i64])
    requires exist { All (λ s. Names (length working.old) s.row) walk.now }
    requires short { length walk.now ≤ MOST_SIGNED_ROWS }
    requires zeros { AreZeros working.old }
    ensures { (i : ℕ) → i < length working.old
        → slice_index_or working.new i (pos 0) ≡ net_count walk.now i }
{
    for s in walk {
        let at = s.row as usize - 1;
        working[at] = with_sign(working[at], s);
    }
}

/// Adds the passages of a row to the net counts of their cycles.
pub fn add_row(nets: &mut Vec<Nets>, place: u32, passages: &[Passage]) -> Result<(), AllocError>
    requires { All (λ e. Names (vec_len nets.old) e.cycle) passages.now }
    ensures { OnOk result (IsRowAdded place passages.now nets.old.items nets.new.items) }
{
    for passage in passages {
        let count = passage.count;
        nets[passage.cycle as usize - 1].push(NetCount { place, count })?;
    }
    Ok(())
}
