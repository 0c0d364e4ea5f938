//! Numbers, as they are printed.

ghost use Rattle.std.specs.Fmt.{signed_decimal};

use itoa::{Buffer, Integer};
use pesp_stream::{Output, Printed};

/// An unsigned number in plain digits.
#[derive(Clone, Copy)]
pub struct Number<I: Integer>(pub I);

impl<I: Integer> Printed for Number<I> {
    ghost text = { λ n. I.text n.0 };

    fn print<O: Output>(&self, out: &mut O) {
        let mut buffer = Buffer::new();
        out.put(buffer.format(self.0).as_bytes());
    }
}

/// A whole number in plain digits, a negative one behind `-`.
#[derive(Clone, Copy)]
pub struct Whole<'a>(pub &'a i64);

impl Printed for Whole<'_> {
    ghost text = { λ n. signed_decimal n.0.now };

    fn print<O: Output>(&self, out: &mut O) {
        let mut buffer = Buffer::new();
        out.put(buffer.format(*self.0).as_bytes());
    }
}
