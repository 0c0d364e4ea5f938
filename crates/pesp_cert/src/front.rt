//! The front of a certificate.

ghost use Rattle.std.specs.Prelude.{◌≡◌, true, IfOk, OnErr};
ghost use Rattle.pesp_cert.specs.Limits.{front_keeps_limits};

use crate::front_limits::are_lemmas;
use crate::shown_lemma::ShownLemma;
use pesp_truth::Marks;
use std::marker::Model;

/// Marked walks, and lemmas that are shown one after the other. The trees may name them: the walks are numbered on from the
/// cycles, and the lemmas from the walks.
#[derive(Drop)]
pub struct Front {
    marks: Marks,
    lemmas: Vec<ShownLemma>,
}

impl Model for Front {
    ghost use Rattle.std.specs.Prelude.{◌≡◌, true};
    ghost use Rattle.pesp_truth.specs.Certificates.{Front as SpecFront};
    ghost use Rattle.pesp_cert.specs.Limits.{front_keeps_limits};

    ghost Value = { SpecFront };

    ghost view = { λ f. record { marks = f.marks; lemmas = f.lemmas.items } };

    ghost invariant = { λ f. front_keeps_limits (record { marks = f.marks; lemmas = f.lemmas.items }) ≡ true };
}

/// The parts are no front's: there are more than 100,000 lemmas, or one of them breaks a limit of lines that show lemmas.
#[derive(Clone, Copy, PartialEq, Eq)]
pub struct NotAFront;

impl Front {
    /// The front of these parts, where they keep its limits.
    pub fn new(marks: Marks, lemmas: Vec<ShownLemma>) -> Result<Front, NotAFront>
        ensures parts { IfOk result (λ f. f ≡ record { marks = marks; lemmas = lemmas.items }) }
        ensures refused { OnErr result (¬ (front_keeps_limits (record {
          marks = marks;
          lemmas = lemmas.items;
        })
            ≡ true)) }
    {
        marks.scale();
        if are_lemmas(&lemmas) {
            Ok(Front { marks, lemmas })
        } else {
            Err(NotAFront)
        }
    }

    /// The front of parts that keep its limits.
    pub fn of(marks: Marks, lemmas: Vec<ShownLemma>) -> Front
        requires { front_keeps_limits (record { marks = marks; lemmas = lemmas.items }) ≡ true }
        ensures { result ≡ record { marks = marks; lemmas = lemmas.items } }
    {
        Front { marks, lemmas }
    }

    /// The scale and the marked walks of the certificate's own tree.
    pub fn marks(&self) -> &Marks
        ensures { result.now ≡ self.now.marks }
    {
        &self.marks
    }

    /// The lemmas in the order of their numbers.
    pub fn lemmas(&self) -> &[ShownLemma]
        ensures value { result.now ≡ self.now.lemmas }
        ensures limits { front_keeps_limits self.now ≡ true }
    {
        &self.lemmas
    }
}
