//! Where a text is put piece by piece.
ghost use Rattle.std.specs.Prelude.{◌≡◌};
ghost use Rattle.pesp_stream.specs.Printing.{Sending, Sends};

/// Takes a text piece by piece, so that a function that prints needs no `?`: behind a fault nothing more is written,
/// and the fault is told at the end of the whole text.
pub trait Output {
    // How much of the text is written, and what the writer said.
    ghost sending: { Self → Sending };

    /// Puts these bytes behind what was put before.
    fn put(&mut self, bytes: &[u8])
        ensures { Sends (sending self.old) (sending self.new) bytes.now };
}
