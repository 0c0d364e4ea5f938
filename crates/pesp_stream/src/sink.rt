//! A writer whose failed and interrupted calls are counted.
ghost use Rattle.std.specs.Prelude.{◌≡◌, ◌<◌, ℕ, List, Option, length};
ghost use Rattle.std.specs.Io.{WritesAtMost};
ghost use Rattle.std.specs.Io.KnownBytes.{WriteAppends};
ghost use Rattle.pesp_stream.specs.Counts.{Calls, CountsWrite};

use std::io;

/// What std's `Write` says of one call of `write`, and the counts of the calls so far. A call with at least one
/// byte that takes none counts as failed.
pub trait Sink {
    // The bytes that the writer holds, where they are told.
    ghost contents: { Self → Option (List ℕ) };

    // How many calls failed, and how many were interrupted.
    ghost calls: { Self → Calls };

    fn write(&mut self, buf: &[u8]) -> io::Result<usize>
        requires failed_fits { (calls self.old).failed < u64.MAX }
        requires interrupted_fits { (calls self.old).interrupted < u64.MAX }
        ensures bound { WritesAtMost result buf.now }
        ensures bytes { WriteAppends (contents self.old) (contents self.new) result buf.now }
        ensures counts { CountsWrite (length buf.now) (calls self.old) (calls self.new) result };

    fn interrupted_writes(&self) -> u64
        ensures { result ≡ (calls self.now).interrupted };
}
