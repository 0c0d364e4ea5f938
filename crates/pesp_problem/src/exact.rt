//! Whole numbers whose sums and products are known to fit.

ghost use Rattle.std.specs.Prelude.{◌≡◌, ℕ, ◌+◌, ◌*◌, ◌^◌, ◌<◌, ◌≤◌, ◌+ℤ◌, ◌-ℤ◌, ◌*ℤ◌, unsigned_abs};
ghost use Rattle.pesp_problem.specs.Sums as spec;

/// The product.
pub fn times(a: i128, b: i128) -> i128
    requires { unsigned_abs a * unsigned_abs b < 2 ^ 127 }
    ensures value { result ≡ a *ℤ b }
    ensures size { (m n : ℕ) → unsigned_abs a ≤ m → unsigned_abs b ≤ n
        → unsigned_abs result ≤ m * n }
{
    a * b
}

/// The sum.
pub fn plus(a: i128, b: i128) -> i128
    requires { unsigned_abs a + unsigned_abs b < 2 ^ 127 }
    ensures value { result ≡ a +ℤ b }
    ensures size { unsigned_abs result ≤ unsigned_abs a + unsigned_abs b }
{
    a + b
}

/// The difference.
pub fn minus(a: i128, b: i128) -> i128
    requires { unsigned_abs a + unsigned_abs b < 2 ^ 127 }
    ensures value { result ≡ a -ℤ b }
    ensures size { unsigned_abs result ≤ unsigned_abs a + unsigned_abs b }
{
    a - b
}

/// The quotient, rounded down.
pub fn floor_div(z: i128, by: u32) -> i128
    requires by { 0 < by }
    requires small { unsigned_abs z < 2 ^ 126 }
    ensures { result ≡ spec.floor_div z by }
{
    z.div_euclid(i128::from(by))
}

/// The quotient, rounded up.
pub fn ceil_div(z: i128, by: u32) -> i128
    requires by { 0 < by }
    requires small { unsigned_abs z < 2 ^ 126 }
    ensures { result ≡ spec.ceil_div z by }
{
    -floor_div(-z, by)
}
