//! The numbers of open leaves, as words name them.

ghost use Rattle.std.specs.Prelude.{IfOk, IfSome};
ghost use Rattle.std.specs.List.Sorted.{IsStrictlyIncreasing};

use std::alloc::{AllocError, Global};

/// The greatest number.
const GREATEST: u64 = 999_999;

/// The number that a word is.
fn number_of(word: &str) -> Option<u64> {
    let number = word.parse::<u64>().ok()?;
    if number > GREATEST {
        return None;
    }
    Some(number)
}

/// The least and the greatest number that a word names: one, or two with `-` between them.
fn range_of(word: &str) -> Option<(u64, u64)> {
    let Some((low, high)) = word.split_once('-') else {
        let number = number_of(word)?;
        return Some((number, number));
    };
    let (low, high) = (number_of(low)?, number_of(high)?);
    if low > high {
        return None;
    }
    Some((low, high))
}

/// Adds the numbers of a range.
fn add_range(numbers: &mut Vec<u64>, low: u64, high: u64) -> Result<(), AllocError> {
    for number in low..=high {
        numbers.push(number)?;
    }
    Ok(())
}

/// The numbers that words name, in no order; None where a word names none.
fn numbers_of(alloc: Global, words: &[&str]) -> Result<Option<Vec<u64>>, AllocError> {
    let mut numbers = Vec::new(alloc);
    for word in words {
        let Some((low, high)) = range_of(word) else {
            return Ok(None);
        };
        add_range(&mut numbers, low, high)?;
    }
    Ok(Some(numbers))
}

/// The numbers that words name, which rise: one that is named twice stands there once. None where a word names none.
pub fn jobs_of(alloc: Global, words: &[&str]) -> Result<Option<Vec<u64>>, AllocError>
    ensures { IfOk result (λ found. IfSome found (λ jobs. IsStrictlyIncreasing jobs.items)) }
{
    let Some(mut jobs) = numbers_of(alloc, words)? else {
        return Ok(None);
    };
    jobs.sort_unstable();
    jobs.dedup();
    Ok(Some(jobs))
}
