//! Lists that are read one element after another, as often as is asked.

ghost use Rattle.std.specs.Prelude.{◌≡◌, List, [], ◌∷◌, MatchOption};

/// The elements of a list that are still to come, such as the pairs in a leaf's line. A copy has the same elements still to
/// come, so a list is read again by a copy that was made before.
pub trait Elements<T>: Copy {
    // The elements that are still to come.
    ghost elements: { Self → List T };

    /// The next element; None behind the last one.
    fn take_next(&mut self) -> Option<T>
        ensures { MatchOption result (elements self.old ≡ [])
            (λ x. elements self.old ≡ x ∷ elements self.new) };
}

impl<T: Copy> Elements<T> for &[T] {
    ghost elements = { λ s. s.now };

    #[inline]
    fn take_next(&mut self) -> Option<T> {
        let (first, rest) = self.split_first()?;
        *self = rest;
        Some(*first)
    }
}
