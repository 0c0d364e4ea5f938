//! Whether the value of a leaf is enough.

ghost use Rattle.std.specs.Prelude.{◌≡◌, ◌↔◌, ◌*◌, ◌^◌, ◌<◌, ◌≤◌, ◌*ℤ◌, ◌≤ℤ◌, ◌<ℤ◌, IsTrue, pos, unsigned_abs, IfSome, IsSomeAnd};
ghost use Rattle.pesp_problem.specs.Sums.{ceil_div};

use pesp_problem::exact::{plus, times};

/// The scale times the least sum.
fn scaled(scale: u32, least: i128) -> i128
    requires scale { scale ≤ 1000000 }
    requires least { unsigned_abs least ≤ 2 ^ 64 }
    ensures value { result ≡ pos scale *ℤ least }
    ensures size { unsigned_abs result ≤ 2 ^ 85 }
{
    times(i128::from(scale), least)
}

/// Whether one number is below another.
fn is_less(a: i128, b: i128) -> bool
    ensures { IsTrue result ↔ (a <ℤ b) }
{
    a < b
}

/// Whether there is a value and, by the scale and rounded up, it is at least the least sum.
pub fn reaches(value: Option<i128>, scale: u32, least: i128) -> bool
    requires least { unsigned_abs least ≤ 2 ^ 64 }
    requires some { 0 < scale }
    requires scale { scale ≤ 1000000 }
    requires size { IfSome value (λ v. unsigned_abs v ≤ 14 * 10 ^ 37) }
    ensures { IsTrue result ↔ IsSomeAnd value (λ v. least ≤ℤ ceil_div v scale) }
{
    match value {
        Some(v) => is_less(scaled(scale, least), plus(v, i128::from(scale))),
        None => false,
    }
}
