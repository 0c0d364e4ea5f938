//! When the time of a search is over.

ghost use Rattle.std.specs.Prelude.{◌↔◌, IsTrue};
ghost use Rattle.pesp_looks.specs.Looks.{AreOver};

/// Whether so many seconds are over, where they are counted, when so many have gone by a clock that could be read.
pub fn are_over(most: Option<u32>, gone: Option<u64>) -> bool
    ensures { IsTrue result ↔ AreOver most gone }
{
    match (most, gone) {
        (Some(most), Some(gone)) => u64::from(most) <= gone,
        (Some(_), None) => false,
        (None, _) => false,
    }
}
