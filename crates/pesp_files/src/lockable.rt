//! Files that one run at a time has for itself.

use std::fs::{File, TryLockError};
use std::io;

/// An open file that a run can have for itself, until the file is closed or the run's process ends, however that ends.
pub trait Lockable {
    /// Takes it, unless another run has it; whether it is taken.
    fn take(&self) -> io::Result<bool>;
}

impl Lockable for File {
    fn take(&self) -> io::Result<bool> {
        match self.try_lock() {
            Ok(()) => Ok(true),
            Err(TryLockError::WouldBlock) => Ok(false),
            Err(TryLockError::Error(error)) => Err(error),
        }
    }
}
