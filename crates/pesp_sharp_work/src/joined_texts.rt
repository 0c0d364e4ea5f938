//! Texts of works that stand one behind the other.

ghost use Rattle.std.specs.Prelude.{◌≡◌, ◌<◌, ◌||◌, List, ℕ, length, codes};
ghost use Rattle.std.specs.Str.{bytes_eq};
ghost use Rattle.pesp_stream.specs.Words.{pieces};
ghost use Rattle.pesp_sharp_work.specs.Cutting as spec;
ghost use Rattle.pesp_sharp_work.specs.Cutting.{IsTextCut};

use pesp_stream::{is_word, split_at_byte};

/// Whether a text begins with the first line of a front.
fn begins_with_front(text: &[u8]) -> bool
    ensures { result ≡ spec.begins_with_front (pieces 10 text.now) }
{
    let (line, _) = split_at_byte(b'\n', text);
    is_word(line, "pesp-certificate 3")
}

/// Whether a work ends with a line, behind which this stands.
fn ends_with(line: &[u8], rest: &[u8]) -> bool
    ensures { result ≡ (bytes_eq line.now (codes "end") || spec.begins_with_front (pieces 10 rest.now)) }
{
    is_word(line, "end") || begins_with_front(rest)
}

/// What stands behind the first line `end`, or from a line on further down with which a front begins; nothing where there is
/// neither.
fn behind_work(text: &[u8]) -> &[u8]
    requires { 0 < length text.now }
    ensures cut { (work : List ℕ) × IsTextCut text.now work result.now }
    ensures shorter { length result.now < length text.now }
{
    let mut rest = text;
    loop {
        let (line, more) = split_at_byte(b'\n', rest);
        let Some(more) = more else {
            return &[];
        };
        rest = more;
        if ends_with(line, rest) {
            return rest;
        }
    }
}

/// The first work of a text, up to its first line `end` with that line, or to where the next front begins, and what stands behind it.
pub(crate) fn cut_work(text: &[u8]) -> (&[u8], &[u8])
    requires { 0 < length text.now }
    ensures cut { IsTextCut text.now result.0.now result.1.now }
    ensures shorter { length result.1.now < length text.now }
{
    let rest = behind_work(text);
    text.split_at(text.len() - rest.len())
}
