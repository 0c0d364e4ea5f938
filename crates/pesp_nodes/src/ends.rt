//! The two ends of a range, and which of them a factor takes.

ghost use Rattle.std.specs.Prelude.{◌≡◌, ℤ, ◌*ℤ◌};
ghost use Rattle.pesp_nodes.specs.Offsets.{at_end, extreme};

/// An end of a range.
#[derive(Clone, Copy)]
pub enum End {
    Low,
    High,
}

impl End {
    /// The other end.
    fn other(self) -> End
        ensures { (low high : ℤ) → at_end result low high ≡ at_end self high low }
    {
        match self {
            End::Low => End::High,
            End::High => End::Low,
        }
    }

    /// The number at this end.
    pub fn of(self, range: (i64, i64)) -> i64
        ensures { result ≡ at_end self range.0 range.1 }
    {
        match self {
            End::Low => range.0,
            End::High => range.1,
        }
    }
}

/// The end of a range at which a factor times a number is least, for `Low`, or greatest, for `High`: this end, or the other
/// one where the factor is negative.
pub fn end_for(factor: i64, end: End) -> End
    ensures { (low high : ℤ) → factor *ℤ at_end result low high ≡ extreme end factor low high }
{
    if factor < 0 { end.other() } else { end }
}
