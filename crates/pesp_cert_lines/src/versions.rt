//! Which versions of a text are taken.

ghost use Rattle.std.specs.Prelude.{◌≡◌};
ghost use Rattle.pesp_cert_lines.specs.Counts.{takes_fronts};

/// The versions that a reader of certificates takes.
#[derive(Clone, Copy, PartialEq, Eq)]
pub enum Versions {
    /// 1 and 2.
    Plain,
    /// 3 too, which is a front of marked walks with version 1 or 2 behind it.
    All,
}

/// Whether a text may have a front.
pub(crate) fn takes_fronts(versions: Versions) -> bool
    ensures { result ≡ takes_fronts versions }
{
    match versions {
        Versions::Plain => false,
        Versions::All => true,
    }
}
