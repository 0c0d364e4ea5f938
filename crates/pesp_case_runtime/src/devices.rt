//! How a reader or a writer behaves.

use pesp_part_tests::{Case, small};
use std::io;
use std::io::{Error, ErrorKind};

/// A device moves at most a piece at a call.
/// It is interrupted so many times first.
/// After so many calls it fails, or moves no byte.
#[derive(Clone, Copy)]
pub struct Device {
    piece: usize,
    interrupted: u32,
    pub(crate) calls: u32,
    moves_none: bool,
}

impl Device {
    /// A device that never fails.
    pub fn whole() -> Device {
        Device {
            piece: usize::MAX,
            interrupted: 0,
            calls: u32::MAX,
            moves_none: false,
        }
    }

    /// The same device, which moves at most `piece` bytes at a call.
    pub fn in_pieces(self, piece: usize) -> Device {
        Device { piece, ..self }
    }

    /// A call that is to move some bytes: the most that it may.
    pub(crate) fn begin(&mut self) -> io::Result<usize> {
        if self.interrupted > 0 {
            self.interrupted = self.interrupted.saturating_sub(1);
            return Err(Error::from(ErrorKind::Interrupted));
        }
        if self.calls > 0 {
            self.calls = self.calls.saturating_sub(1);
            return Ok(self.piece);
        }
        if self.moves_none {
            return Ok(0);
        }
        Err(Error::from(ErrorKind::Other))
    }
}

/// Whether a device moves no byte at its end, by the word for that.
fn moves_none(word: Option<&str>) -> Option<bool> {
    match word {
        None | Some("fails") => Some(false),
        Some("none") => Some(true),
        Some(_) => None,
    }
}

/// The device of the words piece, interrupted, calls and end.
fn read_device(words: &[&str]) -> Option<Device> {
    Some(Device {
        piece: usize::try_from(small(words, 0)?).ok()?,
        interrupted: small(words, 1)?,
        calls: small(words, 2)?,
        moves_none: moves_none(words.get(3).copied())?,
    })
}

/// The device of the line `device NAME PIECE INTERRUPTED CALLS END`.
/// One that never fails, where there is no such line.
pub fn device_of(case: Case<'_>, name: &str) -> Option<Device> {
    for words in &case.all("device")? {
        if *words.get(0)? == name {
            return read_device(words.get(1..)?);
        }
    }
    Some(Device::whole())
}
