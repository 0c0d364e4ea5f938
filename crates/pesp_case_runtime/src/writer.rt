//! A writer into memory.

ghost use Rattle.std.specs.Prelude.{◌≡◌};

use crate::devices::Device;
use pesp_stream::Counted;
use std::alloc::Global;
use std::io;
use std::io::Write;

/// Takes bytes as the device does.
#[derive(Drop)]
pub struct MemoryWriter {
    pub(crate) taken: Vec<u8>,
    pub(crate) device: Device,
}

impl Write for MemoryWriter {
    fn write(&mut self, buf: &[u8]) -> io::Result<usize> {
        let n = self.device.begin()?.min(buf.len());
        self.taken.extend_from_slice(&buf[..n])?;
        Ok(n)
    }

    fn flush(&mut self) -> io::Result<()> {
        Ok(())
    }
}

impl MemoryWriter {
    /// The writer on a device.
    pub(crate) fn new(alloc: Global, device: Device) -> MemoryWriter {
        MemoryWriter {
            taken: Vec::new(alloc),
            device,
        }
    }
}

/// The same writer, counted.
pub(crate) fn writer_of(alloc: Global, device: Device) -> Counted<MemoryWriter>
    ensures failed { result.calls.failed ≡ 0 }
    ensures interrupted { result.calls.interrupted ≡ 0 }
{
    Counted::new(MemoryWriter::new(alloc, device))
}
