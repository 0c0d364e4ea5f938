//! What is left of a text of works.

ghost use Rattle.std.specs.Prelude.{◌≡◌, ◌+◌, ◌<◌, ◌^◌, IfOk, IfErr, OnOk, length};
ghost use Rattle.pesp_cert_items.specs.Refusals as spec;
ghost use Rattle.pesp_cert_items.specs.Refusals.{Front, Job};
ghost use Rattle.pesp_cert_items.specs.Steps.{TakesFirstLine, GoesOn, RefusesWork, RefusesInside};

use pesp_cert::CertRefusal;
use pesp_stream::{is_word, split_at_byte};

/// The longest line of a text, in bytes before its LF.
const LONGEST: usize = 100_000_000;

/// What is left of a text, and the number of its first line.
#[derive(Drop)]
pub(crate) struct Cursor<'a> {
    pub(crate) rest: &'a [u8],
    pub(crate) n: u64,
}

/// Why bytes without an LF are no line where a work may begin.
fn cut_front(n: u64, line: &[u8]) -> CertRefusal
    ensures { result ≡ spec.cut_front n line.now }
{
    if n == 1 && line.len() > LONGEST {
        CertRefusal::Limit { n }
    } else {
        CertRefusal::Truncated
    }
}

/// Why a line is no header where a work may begin.
fn other_front(n: u64, line: &[u8]) -> CertRefusal
    ensures { result ≡ spec.other_front n line.now }
{
    if n != 1 {
        CertRefusal::Trailing { n }
    } else if line.len() > LONGEST {
        CertRefusal::Limit { n }
    } else {
        CertRefusal::Header
    }
}

/// Takes the header of a work.
pub(crate) fn take_header(cursor: &mut Cursor<'_>) -> Result<(), CertRefusal>
    requires some { 0 < length cursor.old.rest.now }
    requires fits { cursor.old.n + length cursor.old.rest.now < 2 ^ 64 }
    ensures goes { OnOk result
        (GoesOn cursor.old.n Front cursor.old.rest.now cursor.new.n Job cursor.new.rest.now) }
    ensures refused { IfErr result (RefusesWork cursor.old.n Front cursor.old.rest.now) }
{
    let (line, rest) = split_at_byte(b'\n', cursor.rest);
    let Some(rest) = rest else {
        return Err(cut_front(cursor.n, line));
    };
    if is_word(line, "pesp-work 1") {
        cursor.rest = rest;
        cursor.n += 1;
        Ok(())
    } else {
        Err(other_front(cursor.n, line))
    }
}

/// Takes the next line of a work, without its LF.
pub(crate) fn take_bytes<'a>(cursor: &mut Cursor<'a>) -> Result<&'a [u8], CertRefusal>
    requires { cursor.old.n + length cursor.old.rest.now < 2 ^ 64 }
    ensures takes { IfOk result
        (λ line. TakesFirstLine cursor.old.n cursor.old.rest.now line.now cursor.new.n cursor.new.rest.now) }
    ensures refused { IfErr result (RefusesInside cursor.old.n cursor.old.rest.now) }
{
    let (line, rest) = split_at_byte(b'\n', cursor.rest);
    if line.len() > LONGEST {
        return Err(CertRefusal::Limit { n: cursor.n });
    }
    let Some(rest) = rest else {
        return Err(CertRefusal::Truncated);
    };
    cursor.rest = rest;
    cursor.n += 1;
    Ok(line)
}
