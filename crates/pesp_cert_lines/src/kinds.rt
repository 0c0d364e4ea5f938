//! Which kind a line is of, by its first word.

ghost use Rattle.std.specs.Prelude.{◌≡◌};
ghost use Rattle.pesp_cert_lines.specs.Items.{kind_of};

use crate::kind::Kind;
use pesp_stream::is_word;

/// The kind of line that begins with this word. Most lines are of the tree, so their words are tried first.
#[tactic(auto, unfolding(crate::specs::Items::kind_of))]
pub(crate) fn kind_of(word: &[u8]) -> Option<Kind>
    ensures { result ≡ kind_of word.now }
{
    if is_word(word, "s") {
        Some(Kind::Slack)
    } else if is_word(word, "o") {
        Some(Kind::Offset)
    } else if is_word(word, "b") {
        Some(Kind::Bound)
    } else if is_word(word, "n") {
        Some(Kind::Nothing)
    } else if is_word(word, "g") {
        Some(Kind::Gap)
    } else if is_word(word, "p") {
        Some(Kind::Propagated)
    } else if is_word(word, "time") {
        Some(Kind::Time)
    } else if is_word(word, "cycle") {
        Some(Kind::Cycle)
    } else if is_word(word, "period") {
        Some(Kind::Period)
    } else if is_word(word, "answer") {
        Some(Kind::Answer)
    } else if is_word(word, "pesp-certificate") {
        Some(Kind::Version)
    } else if is_word(word, "end") {
        Some(Kind::End)
    } else if is_word(word, "walk") {
        Some(Kind::Walk)
    } else if is_word(word, "scale") {
        Some(Kind::Scale)
    } else if is_word(word, "lemma") {
        Some(Kind::Lemma)
    } else if is_word(word, "least") {
        Some(Kind::Least)
    } else {
        None
    }
}
