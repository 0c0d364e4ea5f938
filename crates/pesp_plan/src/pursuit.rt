//! A search that goes on piece by piece, and what is kept of it.

ghost use Rattle.std.specs.Prelude.{◌≡◌, ◌↔◌, IsTrue, IfSome, OnOk, OnErr};
ghost use Rattle.pesp_sharp_work.specs.Ranks.{IsNoWorse};
ghost use Rattle.pesp_runs.specs.Bases.{IsSharpBase};
ghost use Rattle.pesp_plan.specs.Planning.{IsAsGood};

use crate::shelf::Shelf;
use pesp_cert::Fronted;
use pesp_looks::Overseer;
use pesp_problem::Instance;
use pesp_runs::vouch;
use pesp_sharp_search::{Going, Sharpener};
use pesp_sharp_work::is_no_worse;
use pesp_stream::WriteFault;
use pesp_truth::Answer;
use std::alloc::Global;

/// How many pieces a plan has at most, each of which takes seconds.
const MOST_PIECES: u32 = 1_000_000;

/// Goes on for a piece, and says whether one more follows. Where memory is refused none does.
pub(crate) fn go_on<F: Sharpener, K: Overseer>(
    alloc: Global,
    instance: &Instance,
    going: &mut Going,
    sharpener: &mut F,
    overseer: &mut K,
) -> bool
    requires { IsSharpBase instance.now going.old }
    ensures valid { IsSharpBase instance.now going.new }
    ensures no_worse { IsNoWorse going.old.content.answer going.new.content.answer }
{
    if going.go_on(alloc, instance, sharpener, overseer).is_err() {
        overseer.lacks_memory();
        return false;
    }
    let answer = going.has().certificate.answer();
    overseer.goes_further(answer) && !going.is_over()
}

/// Whether what stands somewhere is as good as an answer that is no worse.
fn is_as_good(standing: Option<Answer>, answer: Answer) -> bool
    requires { IfSome standing (λ stands. IsNoWorse stands answer) }
    ensures { IsTrue result ↔ IsAsGood standing answer }
{
    match standing {
        None => false,
        Some(stands) => is_no_worse(answer, stands),
    }
}

/// Puts what is known on the shelf, unless what stands there is as good.
pub(crate) fn keep<H: Shelf>(
    instance: &Instance,
    known: &Fronted,
    shelf: &mut H,
) -> Result<(), WriteFault>
    requires valid { IsSharpBase instance.now known.now }
    requires no_worse { IfSome (H.holds shelf.old) (λ stands. IsNoWorse stands known.now.content.answer) }
    ensures kept { OnOk result (IsAsGood (H.holds shelf.new) known.now.content.answer) }
    ensures left { OnErr result (H.holds shelf.new ≡ H.holds shelf.old) }
{
    if is_as_good(shelf.standing(), known.certificate.answer()) {
        return Ok(());
    }
    vouch(instance, known);
    shelf.put(instance, known)
}

/// Goes on piece by piece, and keeps what is known on the shelf behind each, until no piece follows.
pub(crate) fn pursue<H: Shelf, F: Sharpener, K: Overseer>(
    alloc: Global,
    instance: &Instance,
    going: &mut Going,
    shelf: &mut H,
    sharpener: &mut F,
    overseer: &mut K,
) -> Result<(), WriteFault>
    requires valid { IsSharpBase instance.now going.old }
    requires stands { IfSome (H.holds shelf.old) (λ stands. IsNoWorse stands going.old.content.answer) }
    ensures valid { IsSharpBase instance.now going.new }
    ensures no_worse { IsNoWorse going.old.content.answer going.new.content.answer }
    ensures kept { OnOk result (IsAsGood (H.holds shelf.new) going.new.content.answer) }
{
    keep(instance, going.has(), shelf)?;
    let mut more = !going.is_over();
    for _piece in 0..MOST_PIECES {
        if !more {
            return Ok(());
        }
        more = go_on(alloc, instance, going, sharpener, overseer);
        keep(instance, going.has(), shelf)?;
    }
    Ok(())
}

/// Goes on until no piece follows.
pub(crate) fn go_to_end<F: Sharpener, K: Overseer>(
    alloc: Global,
    instance: &Instance,
    going: &mut Going,
    sharpener: &mut F,
    overseer: &mut K,
)
    requires { IsSharpBase instance.now going.old }
    ensures valid { IsSharpBase instance.now going.new }
    ensures no_worse { IsNoWorse going.old.content.answer going.new.content.answer }
{
    let mut more = !going.is_over();
    for _piece in 0..MOST_PIECES {
        if !more {
            return;
        }
        more = go_on(alloc, instance, going, sharpener, overseer);
    }
}
