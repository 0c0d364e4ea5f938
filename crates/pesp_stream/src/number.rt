//! Words that spell numbers.

ghost use Rattle.std.specs.Prelude.{◌≡◌, ◌<◌, ◌↔◌, ℕ, ℤ, IfSome, Some, pos};
ghost use Rattle.pesp_stream.specs.Number.{NATURALS, natural_of, negated, whole_of, SpellsNatural, SpellsWhole};

/// The value of a word of digits that spells a natural number.
fn digits_value(word: &[u8]) -> Option<u64>
    ensures exact { result ≡ natural_of word.now }
    ensures below { IfSome result (λ n. n < NATURALS) }
{
    if word.is_empty() {
        return None;
    }
    if word.len() > 18 {
        return None;
    }
    if word[0] == b'0' && word.len() != 1 {
        return None;
    }
    let mut number = 0u64;
    for byte in word {
        if !byte.is_ascii_digit() {
            return None;
        }
        number = number * 10 + u64::from(*byte - b'0');
    }
    Some(number)
}

/// The natural number that a word spells: `0`, or a digit 1 to 9 followed by at most 17 digits.
pub fn natural(word: &[u8]) -> Option<u64>
    ensures exact { result ≡ natural_of word.now }
    // The word is the number's decimal spelling, and the number has at most 18 digits.
    ensures spelt { (n : ℕ) → (result ≡ Some n) ↔ SpellsNatural word.now n }
    ensures below { IfSome result (λ n. n < NATURALS) }
{
    digits_value(word)
}

/// A natural, taken below zero if it is not zero.
fn negative(number: u64) -> Option<i64>
    requires { number < NATURALS }
    ensures { result ≡ negated (Some number) }
{
    if number == 0 {
        None
    } else {
        Some(-(number as i64))
    }
}

/// A natural as a whole number.
fn positive(number: u64) -> Option<i64>
    requires { number < NATURALS }
    ensures { result ≡ Some (pos number) }
{
    Some(number as i64)
}

/// The value of a word that spells a whole number.
fn signed_value(word: &[u8]) -> Option<i64>
    ensures { result ≡ whole_of word.now }
{
    if !word.is_empty() && word[0] == b'-' {
        match digits_value(&word[1..]) {
            None => None,
            Some(number) => negative(number),
        }
    } else {
        match digits_value(word) {
            None => None,
            Some(number) => positive(number),
        }
    }
}

/// The whole number that a word spells: a natural, or `-` and a natural other than `0`.
pub fn whole(word: &[u8]) -> Option<i64>
    ensures exact { result ≡ whole_of word.now }
    // The word is the number's decimal spelling, and the number has at most 18 digits.
    ensures spelt { (z : ℤ) → (result ≡ Some z) ↔ SpellsWhole word.now z }
{
    signed_value(word)
}
