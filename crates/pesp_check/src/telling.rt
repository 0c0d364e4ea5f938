//! Texts that are told.

ghost use Rattle.std.specs.Prelude.{◌<◌, ◌^◌};
ghost use Rattle.pesp_stream.specs.Counts.{FewerThan};
ghost use Rattle.pesp_check.specs.Devices.{over};
ghost use Rattle.pesp_check.specs.Lines.{GetsText};

use pesp_stream::{Printed, Sink, print_to};

/// Tells a text, whether or not it goes out: where it doesn't, the writer failed behind a front of it.
#[tactic(auto, using(crate::proofs::Printed::got_text))]
pub fn tell<E: Sink, T: Printed>(teller: &mut E, text: &T)
    requires fits { FewerThan (2 ^ 63) (E.calls teller.old) }
    ensures { GetsText
        (over (E.contents teller.old) (E.contents teller.new)
        (E.calls teller.old) (E.calls teller.new))
        (T.text text.now) }
{
    let _ = print_to(teller, text);
}
