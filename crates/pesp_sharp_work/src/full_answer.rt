//! Certificates that tell what their trees show.

ghost use Rattle.std.specs.Prelude.{IfOk};
ghost use Rattle.pesp_truth.specs.Certificates.{IsValid};
ghost use Rattle.pesp_sharp_work.specs.Told.{IsRetold};

use crate::shown_answer::retold;
use pesp_cert::Fronted;
use pesp_problem::{Instance, Memory};
use std::alloc::Global;

/// A valid certificate with the answer that its tree shows beside its times: the same one where it tells that already. The one
/// refusal is of memory.
pub fn told_in_full(alloc: Global, instance: &Instance, found: Fronted) -> Result<Fronted, Memory>
    requires { IsValid found.front instance.now found.content }
    ensures { IfOk result (IsRetold instance.now found) }
{
    match retold(alloc, instance, &found) {
        Ok(None) => Ok(found),
        Ok(Some(told)) => {
            let Fronted { front, certificate } = found;
            drop(certificate);
            Ok(Fronted {
                front,
                certificate: told,
            })
        }
        Err(refused) => {
            drop(found);
            Err(refused)
        }
    }
}
