//! Laws of sets of differences. Each is a function without a body whose contract is the law: a caller that calls it has the
//! law within reach.

ghost use Rattle.std.specs.Prelude.{◌≡◌, ◌≢◌, ℕ, ◌<◌, List};
ghost use Rattle.pesp_problem.specs.declared.arc.Arc.{Arc};
ghost use Rattle.pesp_domains.specs.Bits.{KeepsSupported};
ghost use Rattle.pesp_domains.specs.Partners.{NoBitAbove, KeepsTails, KeepsHeads, first_ahead, first_back, count_in_range, loop_count};

/// What `step::keep_supported` keeps of an arc's end are exactly the differences that have a partner at the other end, for
/// each period: at the tail with the shifts ahead, at the head with those back, and at both ends of a loop with the shift 0,
/// where the loop's remainder is in the range.
pub fn the_step_keeps_what_has_a_partner()
    ensures tails { (period : ℕ) (arc : Arc) (range : ℕ × ℕ) (tails heads new : List ℕ) → 0 < period
        → arc.tail ≢ arc.head → NoBitAbove period tails → NoBitAbove period heads
        → KeepsSupported period (first_ahead period arc range) (count_in_range period range) tails heads
        new → KeepsTails period arc range tails heads new }
    ensures heads { (period : ℕ) (arc : Arc) (range : ℕ × ℕ) (tails heads new : List ℕ) → 0 < period
        → arc.tail ≢ arc.head → NoBitAbove period tails → NoBitAbove period heads
        → KeepsSupported period (first_back period arc range) (count_in_range period range) heads tails
        new → KeepsHeads period arc range tails heads new }
    ensures loop_tails { (period : ℕ) (arc : Arc) (range : ℕ × ℕ) (set new : List ℕ) → 0 < period
        → arc.tail ≡ arc.head → NoBitAbove period set → KeepsSupported period 0
        (loop_count period arc range) set set new → KeepsTails period arc range set set new }
    ensures loop_heads { (period : ℕ) (arc : Arc) (range : ℕ × ℕ) (set new : List ℕ) → 0 < period
        → arc.tail ≡ arc.head → NoBitAbove period set → KeepsSupported period 0
        (loop_count period arc range) set set new → KeepsHeads period arc range set set new }
{}
