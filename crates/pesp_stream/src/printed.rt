//! Values that have a text.
ghost use Rattle.std.specs.Prelude.{◌≡◌, ℕ, List};
ghost use Rattle.pesp_stream.specs.Printing.{Sending, Sends};

use crate::output::Output;

/// A value that has a text. A type of several parts prints a tuple of them, as `("row ", Number(id), "\n").print(out)`:
/// texts, references, slices and tuples of printed values are printed too, their parts one behind another.
pub trait Printed {
    // The bytes of the text.
    ghost text: { Self → List ℕ };

    /// Puts the text, or a front of it where the writer fails.
    fn print<O: Output>(&self, out: &mut O)
        ensures { Sends (O.sending out.old) (O.sending out.new) (text self.now) };
}
