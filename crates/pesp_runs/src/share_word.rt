//! A share of the regions, as a word names it.

ghost use Rattle.std.specs.Prelude.{◌<◌, ◌≤◌, IfSome};

use pesp_problem::Share;

/// How many shares there are at most.
pub const MOST_SHARES: u32 = 10_000;

/// The share that a word names: its number, from 1 on, and how many there are, with `/` between them. None where it names none.
pub fn share_of(word: &str) -> Option<Share>
    ensures number { IfSome result (λ share. share.number < share.of) }
    ensures most { IfSome result (λ share. share.of ≤ MOST_SHARES) }
{
    let (number, of) = word.split_once('/')?;
    let (number, of) = (number.parse::<u32>().ok()?, of.parse::<u32>().ok()?);
    if number < 1 || number > of || of > MOST_SHARES {
        return None;
    }
    Some(Share {
        number: number - 1,
        of,
    })
}
