//! A file as a shelf.

ghost use Rattle.std.specs.Prelude.{◌≡◌, None, IfOk};

use crate::Shelf;
use pesp_cert::Fronted;
use pesp_files::{Lockable, ShelfFile, ShelfRefusal};
use pesp_problem::Instance;
use pesp_stream::WriteFault;
use pesp_truth::Answer;
use std::rt::Files;

/// A file in which a certificate stands, whole at every moment. One shelf at a time has it for itself.
#[derive(Drop)]
pub struct FileShelf<'a, R: Files> {
    file: ShelfFile<'a, R>,
    /// The answer of the certificate that stands there, where one does.
    pub standing: Option<Answer>,
}

impl<'a, R: AllocGlobal + Files> FileShelf<'a, R>
where
    R::File: Lockable,
{
    /// The shelf of a file, which is had for itself from here on; the file needn't be there. Nothing counts as standing there until
    /// that is said.
    pub fn open(rt: &'a R, file: &str) -> Result<FileShelf<'a, R>, ShelfRefusal>
        ensures { IfOk result (λ shelf. shelf.standing ≡ None) }
    {
        let file = ShelfFile::open(rt, file)?;
        Ok(FileShelf {
            file,
            standing: None,
        })
    }
}

impl<R: Files> FileShelf<'_, R> {
    /// The file, opened to be read, where it is there. It has to be a regular one.
    pub fn found(&self) -> Result<Option<R::File>, ShelfRefusal> {
        self.file.found()
    }
}

impl<R: Files> Shelf for FileShelf<'_, R> {
    ghost holds = { λ shelf. shelf.standing };

    fn standing(&self) -> Option<Answer> {
        self.standing
    }

    fn stands(&mut self, answer: Answer) {
        self.standing = Some(answer);
    }

    fn put(&mut self, _instance: &Instance, certificate: &Fronted) -> Result<(), WriteFault> {
        if self.file.replace(certificate).is_err() {
            return Err(WriteFault);
        }
        self.standing = Some(certificate.certificate.answer());
        Ok(())
    }
}
