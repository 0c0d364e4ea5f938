//! The file of a shelf, and the files beside it.

use crate::lockable::Lockable;
use crate::names::FileNames;
use crate::refusal::ShelfRefusal;
use pesp_cert::{Fronted, print_fronted};
use pesp_stream::{Counted, WriteFault};
use std::fs::{File, OpenFile, OpenOptions};
use std::io::{Error, ErrorKind};
use std::rt::Files;
use std::{fs, io};

/// A file in which a certificate stands, whole at every moment. The next one is written to a file beside it, which is made durable and
/// then takes the place of the first. One run at a time has the file for itself, by a lock beside it that ends with its process.
#[derive(Drop)]
pub struct ShelfFile<'a, R: Files> {
    rt: &'a R,
    names: FileNames,
    /// It is had for itself as long as it is open.
    _lock: R::File,
}

/// Opens the file that a run has for itself, and takes it.
fn taken<R: Files>(rt: &R, lock: &str) -> Result<R::File, ShelfRefusal>
where
    R::File: Lockable,
{
    let file = OpenOptions::new()
        .read(true)
        .write(true)
        .create(true)
        .open(rt, lock)?;
    if file.take()? {
        Ok(file)
    } else {
        Err(ShelfRefusal::Taken)
    }
}

/// Writes the text of a certificate to a file, which is made durable.
fn write_durably<R: Files>(rt: &R, file: &str, certificate: &Fronted) -> io::Result<()> {
    let mut writer = Counted::new(File::create(rt, file)?);
    if print_fronted(certificate, &mut writer).is_err() {
        return Err(Error::from(ErrorKind::Other));
    }
    writer.into_inner().sync_all()
}

impl<'a, R: AllocGlobal + Files> ShelfFile<'a, R>
where
    R::File: Lockable,
{
    /// The file with this name, which is had for itself from here on; it needn't be there. `Taken` where another run has it, `Device`
    /// where the lock beside it can't be opened or taken, and `Memory` where a growth of memory was refused.
    pub fn open(rt: &'a R, file: &str) -> Result<ShelfFile<'a, R>, ShelfRefusal> {
        let names = FileNames::of(rt, file)?;
        let lock = taken(rt, names.lock.as_str())?;
        Ok(ShelfFile {
            rt,
            names,
            _lock: lock,
        })
    }
}

impl<R: Files> ShelfFile<'_, R> {
    /// The file, opened to be read, where it is there. `Device` where it isn't a regular one or can't be opened, and `Memory` where a
    /// growth of memory was refused.
    pub fn found(&self) -> Result<Option<R::File>, ShelfRefusal> {
        let name = self.names.file.as_str();
        if let Ok(found) = fs::metadata(self.rt, name) {
            if !found.is_file() {
                return Err(ShelfRefusal::Device);
            }
        }
        match File::open(self.rt, name) {
            Ok(file) => Ok(Some(file)),
            Err(error) if error.kind() == ErrorKind::NotFound => Ok(None),
            Err(error) => Err(ShelfRefusal::from(error)),
        }
    }

    /// Writes the text of a certificate beside the file, and puts it in its place.
    fn put_in_place(&self, certificate: &Fronted) -> io::Result<()> {
        let FileNames { file, next, .. } = &self.names;
        let (file, next) = (file.as_str(), next.as_str());
        write_durably(self.rt, next, certificate)?;
        fs::rename(self.rt, next, file)
    }

    /// Puts the text of a certificate in the place of what stands in the file. Where that fails, what stood there still does,
    /// and the file beside it is removed, if it can be.
    pub fn replace(&self, certificate: &Fronted) -> Result<(), WriteFault> {
        if self.put_in_place(certificate).is_err() {
            let _ = fs::remove_file(self.rt, self.names.next.as_str());
            return Err(WriteFault);
        }
        Ok(())
    }
}
