//! Reading a certificate's text.

ghost use Rattle.std.specs.Prelude.{◌≡◌, true, None, IfOk, IfErr, IfSome};
ghost use Rattle.pesp_cert_lines.specs.declared.versions.Versions.TheVariants.{All, Plain};
ghost use Rattle.pesp_cert.specs.Texts.{is_end, takes};
ghost use Rattle.pesp_cert.specs.Limits.{front_keeps_limits};
ghost use Rattle.pesp_cert.specs.Drafts.{front_said, ReadsItems};
ghost use Rattle.pesp_cert.specs.Fronted.{IsFrontedText, ReadsFrontedTexts};
ghost use Rattle.pesp_cert.specs.Refusals.{items_of_text, IsTextOf, ReadsTexts, ReadsWhole, RefusesFirst};

use crate::certificate::Certificate;
use crate::draft::Draft;
use crate::front::Front;
use crate::front_draft::FrontDraft;
use crate::fronted::Fronted;
use crate::refusal::{CertRefusal, refusal_at};
use pesp_cert_lines::{Item, Progress, Versions, take_line};
use pesp_stream::split_at_byte;
use pesp_truth::Marks;
use std::alloc::Global;

/// Whether this is the last line.
fn is_end(item: &Item<'_>) -> bool
    ensures { result ≡ is_end item.now }
{
    matches!(item, Item::End)
}

/// What a whole text says, of its front and behind it, or its first fault, where these versions are taken.
fn read_text(
    alloc: Global,
    text: &[u8],
    versions: Versions,
) -> Result<(FrontDraft, Draft), CertRefusal>
    ensures { ReadsItems result (items_of_text versions text.now) }
{
    let mut front = FrontDraft::new(alloc);
    let mut draft = Draft::new(alloc);
    let mut progress = Progress::new(versions);
    let mut rest = text;
    let mut n = 1u64;
    loop {
        let (line, more) = split_at_byte(b'\n', rest);
        if line.len() > 100_000_000 {
            return Err(CertRefusal::Limit { n });
        }
        let Some(more) = more else {
            return Err(CertRefusal::Truncated);
        };
        let item = match take_line(&mut progress, line) {
            Err(fault) => return Err(refusal_at(n, fault)),
            Ok(item) => item,
        };
        if is_end(&item) {
            if more.is_empty() {
                return Ok((front, draft));
            }
            return Err(CertRefusal::Trailing { n: n + 1 });
        }
        front.note(alloc, &item)?;
        draft.add_behind(alloc, &front, item)?;
        rest = more;
        n += 1;
    }
}

/// The certificate whose text this is, with what its lines say of a front, or why it is none's, where these versions are taken.
/// The text is read once from its front to its end.
pub fn parse_text(
    alloc: Global,
    text: &[u8],
    versions: Versions,
) -> Result<(FrontDraft, Certificate), CertRefusal>
    // What is read is the certificate whose text this is, with its front where it has one.
    ensures found { IfOk result (λ p. IsTextOf (front_said p.0) text.now p.1) }
    ensures taken { IfOk result (λ p. takes versions (front_said p.0) ≡ true) }
    // The text of a certificate whose version is taken is read, unless a growth was refused.
    ensures only { ReadsWhole versions text.now result }
    // Which refusal it is.
    ensures refused { IfErr result (RefusesFirst versions text.now) }
{
    let (front, draft) = read_text(alloc, text, versions)?;
    Ok((front, Certificate::from_draft(draft)))
}

/// The certificate whose text this is, or why it is no certificate's. The text is read once from its front to its end.
pub fn parse(alloc: Global, text: &[u8]) -> Result<Certificate, CertRefusal>
    // What is read is the certificate whose text this is.
    ensures found { IfOk result (IsTextOf None text.now) }
    // A certificate's text is read, unless a growth was refused.
    ensures only { ReadsTexts text.now result }
    // Which refusal it is.
    ensures refused { IfErr result (RefusesFirst Plain text.now) }
{
    let (front, certificate) = parse_text(alloc, text, Versions::Plain)?;
    drop(front);
    Ok(certificate)
}

/// The front that the lines of a text said.
fn front_of(draft: FrontDraft) -> Option<Front>
    requires { IfSome (front_said draft) (λ f. front_keeps_limits f ≡ true) }
    ensures { result ≡ front_said draft }
{
    let FrontDraft {
        begun,
        scale,
        walks,
        lemmas,
        shown,
    } = draft;
    drop(shown);
    if begun {
        Some(Front::of(Marks::of(scale, walks), lemmas))
    } else {
        drop(walks);
        drop(lemmas);
        None
    }
}

/// The certificate whose text this is, with its front where it has one, or why it is none's: the first fault of the first line
/// with a fault, in the lines of the whole text. `Memory` where a growth was refused.
pub fn parse_fronted(alloc: Global, text: &[u8]) -> Result<Fronted, CertRefusal>
    // What is read is the certificate whose text this is, with its front.
    ensures found { IfOk result (IsFrontedText text.now) }
    // A certificate's text is read, unless a growth was refused.
    ensures only { ReadsFrontedTexts text.now result }
    // Which refusal it is.
    ensures refused { IfErr result (RefusesFirst All text.now) }
{
    let (front, certificate) = parse_text(alloc, text, Versions::All)?;
    Ok(Fronted {
        front: front_of(front),
        certificate,
    })
}
