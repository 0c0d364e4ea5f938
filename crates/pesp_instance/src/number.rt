//! Whole numbers in the fields of a record.

ghost use Rattle.std.specs.Prelude.{◌≡◌, ◌↔◌, ◌==◌, ℤ, Some, ◌≤◌, ◌<◌, ◌^◌, pos, length, take, drop, IfSome};
ghost use Rattle.std.specs.List.{prefix_len, list_all};
ghost use Rattle.std.specs.Str.Parse.{AllDigits, digits_value};
ghost use Rattle.pesp_instance.specs.Number.{Spells, all_blank, has_minus, past_fraction, number_of, past_blanks, past_sign, unsigned_number};
ghost use Rattle.pesp_instance.specs.Number as spec;

/// The most digits that a number may have.
const MAX_DIGITS: usize = 18;

/// Space, tab and CR are blank.
fn is_blank(byte: u8) -> bool
    ensures { result ≡ spec.is_blank byte }
{
    byte == b' ' || byte == b'\t' || byte == b'\r'
}

fn is_digit(byte: u8) -> bool
    ensures { result ≡ spec.is_digit byte }
{
    b'0' <= byte && byte <= b'9'
}

/// How many blanks stand in front.
fn leading_blanks(text: &[u8]) -> usize
    ensures count { result ≡ prefix_len spec.is_blank text.now }
    ensures within { result ≤ length text.now }
{
    text.iter().take_while(|b| is_blank(**b)).count()
}

/// How many digits stand in front.
fn leading_digits(text: &[u8]) -> usize
    ensures count { result ≡ prefix_len spec.is_digit text.now }
    ensures within { result ≤ length text.now }
{
    text.iter().take_while(|b| is_digit(**b)).count()
}

/// Whether a '-' stands in front, and what follows the sign.
fn split_sign(text: &[u8]) -> (bool, &[u8])
    ensures negative { result.0 ≡ has_minus text.now }
    ensures rest { result.1.now ≡ past_sign text.now }
{
    match text {
        [b'-', rest @ ..] => (true, rest),
        [b'+', rest @ ..] => (false, rest),
        _ => (false, text),
    }
}

/// The value of a short run of digits.
fn decimal(digits: &[u8]) -> u64
    requires digits { AllDigits 10 digits.now }
    requires short { length digits.now ≤ 18 }
    ensures value { result ≡ digits_value 10 digits.now }
    ensures small { result < 10 ^ 18 }
{
    let mut value: u64 = 0;
    for digit in digits {
        value = value * 10 + (*digit - b'0') as u64;
    }
    value
}

/// How many zeros stand in front.
fn leading_zeros(text: &[u8]) -> usize
    ensures count { result ≡ prefix_len (λ c. c == 48) text.now }
    ensures within { result ≤ length text.now }
{
    text.iter().take_while(|b| **b == b'0').count()
}

/// What follows a dot and zeros.
fn skip_fraction(text: &[u8]) -> &[u8]
    ensures { result.now ≡ past_fraction text.now }
{
    match text {
        [b'.', rest @ ..] => rest.split_at(leading_zeros(rest)).1,
        _ => text,
    }
}

/// Whether a field is blank.
pub fn is_all_blank(text: &[u8]) -> bool
    ensures { result ≡ all_blank text.now }
{
    text.iter().all(|b| is_blank(*b))
}

/// The field from its first byte on that is not blank.
pub fn skip_blanks(field: &[u8]) -> &[u8]
    ensures { result.now ≡ past_blanks field.now }
{
    field.split_at(leading_blanks(field)).1
}

/// The number of digits, and what may follow them: a dot and zeros, and blanks.
fn parse_unsigned(text: &[u8]) -> Option<u64>
    ensures number { result ≡ unsigned_number text.now }
    ensures small { IfSome result (λ n. n < 10 ^ 18) }
{
    let (digits, rest) = text.split_at(leading_digits(text));
    if digits.is_empty() || digits.len() > MAX_DIGITS || !is_all_blank(skip_fraction(rest)) {
        return None;
    }
    Some(decimal(digits))
}

/// The number that a field spells, if it spells one: blanks, a sign or none, 1 to 18 digits, a dot and zeros or neither,
/// blanks.
pub fn parse_number(field: &[u8]) -> Option<i64>
    ensures exact { result ≡ number_of field.now }
    ensures spelled { (n : ℤ) → (result ≡ Some n) ↔ Spells field.now n }
{
    scan_number(field)
}

/// The number that is found going from the left to the right.
fn scan_number(field: &[u8]) -> Option<i64>
    ensures { result ≡ number_of field.now }
{
    let (negative, text) = split_sign(skip_blanks(field));
    let magnitude = parse_unsigned(text)? as i64;
    Some(if negative { -magnitude } else { magnitude })
}
