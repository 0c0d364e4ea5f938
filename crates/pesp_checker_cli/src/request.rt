//! What the words of the command line ask for.

ghost use Rattle.std.specs.Prelude.{◌≡◌, ◌≤◌, IfSome};
ghost use Rattle.pesp_checker_cli.specs.Words.{versions_asked};

use pesp_cert::Versions;
use pesp_problem::MOST_PERIOD;

/// What is told where the words ask for nothing.
pub(crate) const USAGE: &str = "\
usage: pesp_checker [--sharp] [--period N] FILE < CERTIFICATE
Says whether the certificate is valid for the instance in FILE, as `pesp check` does.
With --sharp it may have a front of marked walks and lemmas.
N is the period, 1 to 10000, in the unit of the durations; 60 where none is given.
Exit status: 0 accepted; 1 refused; 2 the command line; 3 a text is refused; 4 memory
or a device
";

/// The versions that are taken, the period, in the unit of the instance's durations, and the file with the instance.
#[derive(Drop)]
pub(crate) struct CheckRequest<'a> {
    pub(crate) versions: Versions,
    pub(crate) period: u32,
    pub(crate) file: &'a str,
}

/// The period that a word spells, where it is one.
fn period_of(word: &str) -> Option<u32>
    ensures { IfSome result (λ period. (1 ≤ period) × (period ≤ MOST_PERIOD)) }
{
    let period: u32 = word.parse().ok()?;
    if period == 0 || period > MOST_PERIOD {
        return None;
    }
    Some(period)
}

/// What the words behind the versions ask for: `FILE`, or `--period N FILE`.
fn request_behind(versions: Versions, words: &[String]) -> Option<CheckRequest<'_>>
    ensures { IfSome result (λ request. (request.versions ≡ versions) × (1 ≤ request.period)
        × (request.period ≤ MOST_PERIOD)) }
{
    match words {
        [file] if !file.as_str().starts_with("-") => Some(CheckRequest {
            versions,
            period: 60,
            file: file.as_str(),
        }),
        [option, period, file] if option.as_str() == "--period" => Some(CheckRequest {
            versions,
            period: period_of(period.as_str())?,
            file: file.as_str(),
        }),
        _ => None,
    }
}

/// What the words ask for, the program's name first, and then `--sharp` where all versions are taken.
pub(crate) fn request_of(words: &[String]) -> Option<CheckRequest<'_>>
    ensures { IfSome result (λ request. (request.versions ≡ versions_asked words.now) × (1 ≤ request.period)
        × (request.period ≤ MOST_PERIOD)) }
{
    match words {
        [_, option, rest @ ..] if option.as_str() == "--sharp" => {
            request_behind(Versions::All, rest)
        }
        [_, rest @ ..] => request_behind(Versions::Plain, rest),
        [] => None,
    }
}
