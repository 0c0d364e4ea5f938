//! Certificates that may have a front, before they are written.

ghost use Rattle.std.specs.Prelude.{◌≡◌, true, IfSome};
ghost use Rattle.pesp_truth.specs.Truth.{IsTrueAnswer};
ghost use Rattle.pesp_truth.specs.Certificates.{shown_times};
ghost use Rattle.pesp_cert.specs.Limits.{front_keeps_limits};
ghost use Rattle.pesp_cert.specs.Fronted.{IsFrontedText, fronted_text};
ghost use Rattle.pesp_runs.specs.Bases.{IsSharpBase};

use pesp_cert::laws::limits_of_fronts_are_those_of_texts;
use pesp_cert::{Front, Fronted};
use pesp_problem::Instance;
use pesp_truth::laws::valid_is_true;

/// A front keeps its limits.
fn keeps_limits(front: &Option<Front>)
    ensures { IfSome front.now (λ f. front_keeps_limits f ≡ true) }
{
    if let Some(front) = front {
        front.lemmas();
    }
}

/// Every certificate has a text with its front, and the answer of a valid one is true.
pub fn vouch(instance: &Instance, fronted: &Fronted)
    requires { IsSharpBase instance.now fronted.now }
    ensures is_true { IsTrueAnswer instance.now fronted.now.content.answer
        (shown_times fronted.now.content) }
    ensures has_text { IsFrontedText (fronted_text fronted.now) fronted.now }
{
    valid_is_true();
    instance.period();
    limits_of_fronts_are_those_of_texts();
    fronted.certificate.period();
    keeps_limits(&fronted.front);
}
