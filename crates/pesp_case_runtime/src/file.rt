//! A file in memory.

use crate::devices::Device;
use pesp_files::Lockable;
use std::fs::{Metadata, OpenFile};
use std::io;
use std::io::{Error, ErrorKind, Read, Seek, SeekFrom, Write};

/// Gives its bytes from a place on, as the device does; all else is refused.
#[derive(Drop)]
pub struct MemoryFile {
    text: Vec<u8>,
    at: usize,
    device: Device,
}

/// The error of a call that a file in memory doesn't take.
pub(crate) fn refused() -> Error {
    Error::from(ErrorKind::Unsupported)
}

impl MemoryFile {
    /// The file with this text, of which nothing is read.
    pub(crate) fn new(text: Vec<u8>, device: Device) -> MemoryFile {
        MemoryFile {
            text,
            at: 0,
            device,
        }
    }
}

impl Read for MemoryFile {
    fn read(&mut self, buf: &mut [u8]) -> io::Result<usize> {
        if buf.is_empty() {
            return Ok(0);
        }
        let most = self.device.begin()?;
        let rest = self.text.get(self.at..).unwrap_or(b"");
        let n = most.min(rest.len()).min(buf.len());
        buf[..n].copy_from_slice(&rest[..n]);
        self.at = self.at.saturating_add(n);
        Ok(n)
    }
}

impl Write for MemoryFile {
    fn write(&mut self, _buf: &[u8]) -> io::Result<usize> {
        Err(refused())
    }

    fn flush(&mut self) -> io::Result<()> {
        Ok(())
    }
}

impl Seek for MemoryFile {
    fn seek(&mut self, _to: SeekFrom) -> io::Result<u64> {
        Err(refused())
    }
}

impl Lockable for MemoryFile {
    fn take(&self) -> io::Result<bool> {
        Err(refused())
    }
}

impl OpenFile for MemoryFile {
    fn metadata(&self) -> io::Result<Metadata> {
        Err(refused())
    }

    fn set_len(&self, _size: u64) -> io::Result<()> {
        Err(refused())
    }

    fn sync_all(&self) -> io::Result<()> {
        Ok(())
    }

    fn sync_data(&self) -> io::Result<()> {
        Ok(())
    }
}
