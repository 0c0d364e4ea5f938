//! Laws of works and their texts. Each is a function without a body whose contract is the law: a caller that calls it has the
//! law within reach.

ghost use Rattle.std.specs.Prelude.{◌↔◌};
ghost use Rattle.pesp_cert_items.specs.Works.{WorkValue, HasWorkText, KeepsWorkLimits, NoWorkBeginsAnother, ListsDiffer};

/// No work's text begins another's, and no two works have one text; nor have two lists of works.
pub fn no_text_begins_another()
    ensures single { NoWorkBeginsAnother }
    ensures lists { ListsDiffer }
{}

/// What keeps the limits has a text, and nothing else has: a job of at most 999999, and times and a tree that a certificate
/// without cycles can have.
pub fn limits_are_those_of_texts()
    ensures { (w : WorkValue) → KeepsWorkLimits w ↔ HasWorkText w }
{}
