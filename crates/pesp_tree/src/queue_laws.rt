//! Laws of entries. Each is a function without a body whose contract is the law: a caller that calls it has the law
//! within reach.

ghost use Rattle.std.specs.Prelude.{◌∷◌, List};
ghost use Rattle.std.specs.List.Sorted.{IsPermutation};
ghost use Rattle.pesp_tree.specs.declared.entry.Entry.{Entry};

/// Where the same entry is taken from two lists that have the same entries, the same are left.
pub fn the_same_are_left()
    ensures { (e : Entry) (xs ys : List Entry)
        → IsPermutation (e ∷ xs) (e ∷ ys) → IsPermutation xs ys }
{}
