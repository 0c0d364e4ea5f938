//! Numbers in fixed point.

/// The number 1.
pub const ONE: i64 = 1 << 36;

/// The greatest amount, which stands for no bound.
pub const MOST: i64 = i64::MAX / 4;

/// Half of the last bit of a product.
const HALF: i128 = 1 << 35;

/// What is less counts as 0 in a product.
const LEAST: i64 = 14;

/// A number within what counts.
fn within(number: i128) -> i64 {
    let most = i128::from(MOST);
    i64::try_from(number.max(-most).min(most)).unwrap_or(0)
}

/// The product of two numbers.
#[inline]
pub fn times(one: i64, other: i64) -> i64 {
    let product = i128::from(one).wrapping_mul(i128::from(other));
    let shifted = product.wrapping_add(HALF) >> 36;
    i64::try_from(shifted).unwrap_or(0)
}

/// The ratio of two numbers; 0 where the second is 0.
pub fn over(one: i64, other: i64) -> i64 {
    let shifted = i128::from(one) << 36;
    within(shifted.checked_div(i128::from(other)).unwrap_or(0))
}

/// A number times a whole one.
#[inline]
pub fn by_whole(number: i64, factor: i32) -> i64 {
    number.wrapping_mul(i64::from(factor))
}

/// A whole number.
pub fn whole(number: i64) -> i64 {
    within(i128::from(number) << 36)
}

/// A number of units of which so many make up one; 0 where there are none.
pub fn parts(number: i64, unit: i64) -> i64 {
    let scaled = i128::from(number) << 36;
    within(scaled.checked_div(i128::from(unit)).unwrap_or(0))
}

/// A number in units of which so many make up one, rounded.
pub fn rounded(number: i64, scale: i64) -> i64 {
    let product = i128::from(number).wrapping_mul(i128::from(scale));
    within(product.wrapping_add(HALF) >> 36)
}

/// Whether a number counts as 0.
#[inline]
pub fn is_nothing(number: i64) -> bool {
    number <= LEAST && number >= -LEAST
}

/// The amount of a number.
pub fn amount(number: i64) -> i64 {
    if number < 0 {
        number.wrapping_neg()
    } else {
        number
    }
}

/// One over the root of a sum of squares.
pub fn norm_of(squares: u64) -> i64 {
    let root = (u128::from(squares) << 16).isqrt().max(1);
    let ratio = (1u128 << 44) / root;
    i64::try_from(ratio).unwrap_or(ONE)
}
