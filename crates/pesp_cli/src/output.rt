//! Standard output as the program writes it.

ghost use Rattle.std.specs.Prelude.{◌≡◌};

use pesp_stream::Counted;
use std::io;
use std::io::{ErrorKind, Write};

/// Standard output, and whether the program that read it has gone away.
#[derive(Drop)]
pub(crate) struct StandardOutput<'a, R: Print> {
    to: &'a R,
    pub(crate) unread: bool,
}

impl<R: Print> Write for StandardOutput<'_, R> {
    fn write(&mut self, buf: &[u8]) -> io::Result<usize> {
        let written = self.to.write_some(buf);
        if let Err(error) = &written {
            self.unread = error.kind() == ErrorKind::BrokenPipe;
        }
        written
    }

    fn flush(&mut self) -> io::Result<()> {
        Ok(())
    }
}

/// Standard output, of which no call was made.
pub(crate) fn writer_of<R: Print>(rt: &R) -> Counted<StandardOutput<'_, R>>
    ensures failed { result.calls.failed ≡ 0 }
    ensures interrupted { result.calls.interrupted ≡ 0 }
{
    Counted::new(StandardOutput {
        to: rt,
        unread: false,
    })
}
