//! Who looks on while a search goes on.

ghost use Rattle.std.specs.Prelude.{◌≡◌, ℕ, Bool, true, false};

use pesp_board::Board;

/// Somebody who looks on while a search goes on, and may end it. No promise speaks of the board that is seen; an end that comes
/// early leaves what was found by then.
pub trait Watcher {
    // Whether it may end a search.
    ghost may_end: { Self → Type 0 };

    // Whether it has ended one.
    ghost has_ended: { Self → Type 0 };

    // Whether it was told that so many leaves were split, and said that the search goes on, or that it ends.
    ghost has_said: { Self → ℕ → Bool → Type 0 };

    /// Called after each turn, with the number of leaves that were split so far and the board as it stands; whether the search
    /// goes on.
    fn goes_on(&mut self, steps_used: u32, board: &Board) -> bool
        ensures same { may_end self.new → may_end self.old }
        ensures ended { result ≡ false → may_end self.old × has_ended self.new }
        ensures going { result ≡ true → has_ended self.new → has_ended self.old }
        ensures said { has_said self.new steps_used result }
        ensures kept { (n : ℕ) (answer : Bool) → has_said self.old n answer → has_said self.new n answer };
}

/// A watcher that looks at nothing, and ends nothing.
#[derive(Clone, Copy, PartialEq, Eq)]
pub struct NoWatcher;

impl Watcher for NoWatcher {
    ghost may_end = { λ _. ⊥ };

    ghost has_ended = { λ _. ⊥ };

    ghost has_said = { λ _ _ answer. answer ≡ true };

    fn goes_on(&mut self, _steps_used: u32, _board: &Board) -> bool {
        true
    }
}
