//! The names of a shelf's files.

use crate::refusal::ShelfRefusal;
use std::alloc::AllocError;
use std::fs;
use std::io::ErrorKind;
use std::rt::Files;

/// The file in which a certificate stands; that in which the next one is written; and that which a run has for itself meanwhile.
#[derive(Drop)]
pub(crate) struct FileNames {
    pub(crate) file: String,
    pub(crate) next: String,
    pub(crate) lock: String,
}

impl FileNames {
    /// The names beside a file.
    fn beside<R: AllocGlobal>(rt: &R, file: &str) -> Result<FileNames, AllocError> {
        let alloc = rt.alloc();
        Ok(FileNames {
            file: format!(in alloc; "{file}")?,
            next: format!(in alloc; "{file}.next")?,
            lock: format!(in alloc; "{file}.lock")?,
        })
    }

    /// The names beside a file, where a link leads to it beside that.
    pub(crate) fn of<R: AllocGlobal + Files>(
        rt: &R,
        file: &str,
    ) -> Result<FileNames, ShelfRefusal> {
        match fs::canonicalize(rt, file) {
            Ok(path) => Ok(FileNames::beside(rt, path.as_str())?),
            Err(error) if error.kind() == ErrorKind::OutOfMemory => Err(ShelfRefusal::Memory),
            Err(_) => Ok(FileNames::beside(rt, file)?),
        }
    }
}
