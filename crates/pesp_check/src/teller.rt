//! Standard error as a writer.

ghost use Rattle.std.specs.Prelude.{◌≡◌};

use pesp_stream::Counted;
use std::io::Write;
use std::{io, str};

/// A writer whose bytes, which have to be text, are printed on standard error.
#[derive(Drop)]
pub struct Telling<'a, R: Eprint> {
    to: &'a R,
}

impl<R: Eprint> Write for Telling<'_, R> {
    fn write(&mut self, buf: &[u8]) -> io::Result<usize> {
        match str::from_utf8(buf) {
            Ok(text) => {
                self.to.eprint(text)?;
                Ok(buf.len())
            }
            Err(_) => Err(io::Error::from(io::ErrorKind::InvalidData)),
        }
    }

    fn flush(&mut self) -> io::Result<()> {
        Ok(())
    }
}

/// Standard error, of which no call was made.
pub fn teller_of<R: Eprint>(rt: &R) -> Counted<Telling<'_, R>>
    ensures failed { result.calls.failed ≡ 0 }
    ensures interrupted { result.calls.interrupted ≡ 0 }
{
    Counted::new(Telling { to: rt })
}
