//! The line of a job.

ghost use Rattle.std.specs.Prelude.{◌≡◌};
ghost use Rattle.pesp_stream.specs.Number.{natural_of};
ghost use Rattle.pesp_cert_items.specs.Lines as spec;

use pesp_cert_lines::LineFault;
use pesp_stream::{Words, is_word, natural};

/// The greatest number of a job.
pub const MOST_JOB: u64 = 999_999;

/// The number that a word spells, at most 999999.
fn number_of(word: &[u8]) -> Result<u64, LineFault>
    ensures { result ≡ spec.job_of (natural_of word.now) }
{
    let Some(number) = natural(word) else {
        return Err(LineFault::Number);
    };
    if number <= MOST_JOB {
        Ok(number)
    } else {
        Err(LineFault::Limit)
    }
}

/// The number behind `job`.
fn job_said(mut words: Words<'_>) -> Result<u64, LineFault>
    ensures { result ≡ spec.job_said words.entry }
{
    let Some(first) = words.next() else {
        return Err(LineFault::Line);
    };
    let Some(second) = words.next() else {
        return Err(LineFault::Line);
    };
    if words.next().is_some() {
        return Err(LineFault::Line);
    }
    if is_word(first, "job") && !second.is_empty() {
        number_of(second)
    } else {
        Err(LineFault::Line)
    }
}

/// The number of a job that its line says, or the line's first fault.
#[tactic(auto, unfolding(crate::specs::Lines::job_at))]
pub(crate) fn job_at(line: &[u8]) -> Result<u64, LineFault>
    ensures { result ≡ spec.job_at line.now }
{
    if is_word(line, "end") {
        return Err(LineFault::Truncated);
    }
    job_said(Words::new(line))
}
