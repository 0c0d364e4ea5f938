//! A reader whose failed and interrupted calls are counted.
ghost use Rattle.std.specs.Prelude.{◌≡◌, ◌<◌, ℕ, List, Option};
ghost use Rattle.std.specs.Io.{ReadsAtMost};
ghost use Rattle.std.specs.Io.KnownBytes.{ReadConsumes};
ghost use Rattle.pesp_stream.specs.Counts.{Calls, CountsRead};

use std::io;

/// What std's `Read` says of one call of `read`, and the counts of the calls so far.
pub trait Source {
    // The bytes that reads will give from here on, where they are told.
    ghost remaining: { Self → Option (List ℕ) };

    // How many calls failed, and how many were interrupted.
    ghost calls: { Self → Calls };

    fn read(&mut self, buf: &mut [u8]) -> io::Result<usize>
        requires failed_fits { (calls self.old).failed < u64.MAX }
        requires interrupted_fits { (calls self.old).interrupted < u64.MAX }
        ensures bound { ReadsAtMost result buf.new }
        ensures bytes { ReadConsumes (remaining self.old) (remaining self.new) result buf.new }
        ensures counts { CountsRead (calls self.old) (calls self.new) result };

    fn interrupted_reads(&self) -> u64
        ensures { result ≡ (calls self.now).interrupted };
}
