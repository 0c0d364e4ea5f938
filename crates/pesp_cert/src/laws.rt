//! Laws of certificates and their texts. Each is a function without a body whose contract is the law: a caller that calls
//! it has the law within reach.

ghost use Rattle.std.specs.Prelude.{◌≡◌, ◌↔◌, ◌<◌, true, ℕ, List, Option, None, Ok, IfSome, length};
ghost use Rattle.pesp_truth.specs.Certificates.{Content, Front};
ghost use Rattle.pesp_cert_lines.specs.declared.item.Item.{Item};
ghost use Rattle.pesp_cert_lines.specs.declared.versions.Versions.{Versions};
ghost use Rattle.pesp_cert.specs.Limits.{ContentKeepsLimits, front_keeps_limits};
ghost use Rattle.pesp_cert.specs.Refusals.{IsTextOf, items_of_text};
ghost use Rattle.pesp_cert.specs.Texts.{HasText, NoneBeginsAnother, items_of, spelling, takes};

/// No certificate's text begins another's, and no two certificates have one text.
pub fn no_text_begins_another()
    ensures { NoneBeginsAnother }
{}

/// What keeps the limits has a text, and nothing else has.
pub fn limits_are_those_of_texts()
    ensures { (c : Content) → ContentKeepsLimits c ↔ HasText None c }
{}

/// The same behind a front: front and certificate keep their limits, each for itself.
pub fn limits_of_fronts_are_those_of_texts()
    ensures { (front : Option Front) (c : Content)
        → (IfSome front (λ f. front_keeps_limits f ≡ true) × ContentKeepsLimits c) ↔ HasText front c }
{}

/// Every text is shorter than 1,073,741,824 bytes, so a program that reads so many of a certificate reads all of it.
pub fn texts_are_short()
    ensures { (c : Content) → HasText None c → length (spelling None c) < 1073741824 }
{}

/// What is read whole is a certificate's text and its items, and a certificate's text is read whole.
#[tactic(auto, using(crate::proofs::TextLaws::text_found_of, crate::proofs::TextLaws::text_read_of))]
pub fn items_are_those_of_texts()
    ensures found { (versions : Versions) (text : List ℕ) (items : List Item)
        → items_of_text versions text ≡ Ok items → (front : Option Front) × (c : Content)
        × (items ≡ items_of front c) × IsTextOf front text c × (takes versions front ≡ true) }
    ensures read { (versions : Versions) (front : Option Front) (text : List ℕ) (c : Content)
        → IsTextOf front text c → takes versions front ≡ true
        → items_of_text versions text ≡ Ok (items_of front c) }
{}
