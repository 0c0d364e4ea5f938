//! A reader of a text in memory.

ghost use Rattle.std.specs.Prelude.{◌≡◌};

use crate::devices::Device;
use pesp_stream::Counted;
use std::io;
use std::io::{BufRead, Read};

/// Gives its bytes as the device does.
#[derive(Drop)]
pub struct MemoryReader<'a> {
    rest: &'a [u8],
    device: Device,
}

impl<'a> MemoryReader<'a> {
    /// The reader of a text on a device.
    pub(crate) fn new(bytes: &'a [u8], device: Device) -> MemoryReader<'a> {
        MemoryReader {
            rest: bytes,
            device,
        }
    }
}

impl Read for MemoryReader<'_> {
    fn read(&mut self, buf: &mut [u8]) -> io::Result<usize> {
        if buf.is_empty() {
            return Ok(0);
        }
        let most = self.device.begin()?;
        let n = most.min(self.rest.len()).min(buf.len());
        buf[..n].copy_from_slice(&self.rest[..n]);
        self.rest = &self.rest[n..];
        Ok(n)
    }
}

impl BufRead for MemoryReader<'_> {
    fn fill_buf(&mut self) -> io::Result<&[u8]> {
        Ok(self.rest)
    }

    fn consume(&mut self, amount: usize) {
        self.rest = self.rest.get(amount..).unwrap_or(b"");
    }
}

/// The same reader, counted.
pub(crate) fn reader_of<'a>(bytes: &'a [u8], device: Device) -> Counted<MemoryReader<'a>>
    ensures failed { result.calls.failed ≡ 0 }
    ensures interrupted { result.calls.interrupted ≡ 0 }
{
    Counted::new(MemoryReader::new(bytes, device))
}
