//! What the program runs on: standard input and files in memory, and a clock.
//! What it writes and tells is kept.
//! The clock goes on by as many seconds a reading as the case says.

ghost use Rattle.std.specs.Prelude.{◌≤◌, length, IfOk};

use crate::devices::{Device, device_of};
use crate::file::{MemoryFile, refused};
use crate::reader::MemoryReader;
use crate::writer::MemoryWriter;
use pesp_part_tests::Case;
use std::alloc::{Allocator, Global};
use std::cell::{Cell, RefCell};
use std::fmt::Display;
use std::fs::{Metadata, OpenOptions};
use std::io;
use std::io::{BufRead, Error, ErrorKind, Lines, Write};
use std::rt::{Clock, Files};
use std::time::Duration;

/// A case, standard input, and what went to standard output and to standard error.
#[derive(Drop)]
pub struct CaseRuntime<'a> {
    case: Case<'a>,
    input: &'a [u8],
    device: Device,
    written: RefCell<MemoryWriter>,
    told: RefCell<MemoryWriter>,
    /// By how many seconds the clock goes on at each reading, where there is one.
    seconds: Option<u64>,
    /// What the clock tells next.
    time: Cell<u64>,
}

/// How a command line ends: its exit status, and what went out.
#[derive(Drop)]
pub struct CommandEnd {
    pub status: u8,
    pub written: Vec<u8>,
    pub told: Vec<u8>,
}

/// Writes some bytes, no more than there are.
fn write_some(writer: &RefCell<MemoryWriter>, bytes: &[u8]) -> io::Result<usize>
    ensures { IfOk result (λ n. n ≤ length bytes.now) }
{
    let Ok(mut writer) = writer.try_borrow_mut() else {
        return Err(Error::from(ErrorKind::Other));
    };
    let count = writer.write(bytes)?;
    Ok(count.min(bytes.len()))
}

/// Adds bytes to what went out, whatever the device.
fn keep(writer: &RefCell<MemoryWriter>, bytes: &[u8]) -> io::Result<()> {
    let Ok(mut writer) = writer.try_borrow_mut() else {
        return Err(Error::from(ErrorKind::Other));
    };
    writer.taken.extend_from_slice(bytes)?;
    Ok(())
}

/// Adds a value's text and an end to what went out.
fn keep_text<D: Display + Drop>(
    alloc: Global,
    writer: &RefCell<MemoryWriter>,
    value: D,
    end: &str,
) -> io::Result<()> {
    let Ok(text) = format!(in alloc; "{value}{end}") else {
        return Err(Error::from(ErrorKind::OutOfMemory));
    };
    keep(writer, text.as_bytes())
}

impl<'a> CaseRuntime<'a> {
    /// The runtime of a case where nothing went out yet.
    pub fn new(case: Case<'a>, input: &'a [u8], device: Device) -> Option<CaseRuntime<'a>> {
        let output = device_of(case, "output")?;
        let seconds = match case.line("clock") {
            Some(rest) => Some(rest.parse().ok()?),
            None => None,
        };
        Some(CaseRuntime {
            case,
            input,
            device,
            written: RefCell::new(MemoryWriter::new(case.alloc, output)),
            told: RefCell::new(MemoryWriter::new(case.alloc, Device::whole())),
            seconds,
            time: Cell::new(0),
        })
    }

    /// The end with this status, and with what went out.
    pub fn end(self, status: u8) -> CommandEnd {
        let CaseRuntime { written, told, .. } = self;
        CommandEnd {
            status,
            written: written.into_inner().taken,
            told: told.into_inner().taken,
        }
    }
}

impl Alloc for CaseRuntime<'_> {
    type A = Global;

    fn alloc(&self) -> Global {
        self.case.alloc
    }
}

impl Print for CaseRuntime<'_> {
    fn print<D: Display + Drop>(&self, value: D) -> io::Result<()> {
        keep_text(self.case.alloc, &self.written, value, "")
    }

    fn println<D: Display + Drop>(&self, value: D) -> io::Result<()> {
        keep_text(self.case.alloc, &self.written, value, "\n")
    }

    fn write_all(&self, bytes: &[u8]) -> io::Result<()> {
        keep(&self.written, bytes)
    }

    fn write_some(&self, bytes: &[u8]) -> io::Result<usize> {
        write_some(&self.written, bytes)
    }
}

impl Eprint for CaseRuntime<'_> {
    fn eprint<D: Display + Drop>(&self, value: D) -> io::Result<()> {
        keep_text(self.case.alloc, &self.told, value, "")
    }

    fn eprintln<D: Display + Drop>(&self, value: D) -> io::Result<()> {
        keep_text(self.case.alloc, &self.told, value, "\n")
    }
}

impl<'a> Input for CaseRuntime<'a> {
    type Reader = MemoryReader<'a>;

    fn read_line<A: Allocator + Clone>(&self, buf: &mut String<A>) -> io::Result<usize> {
        let mut rest = self.input;
        rest.read_line(buf)
    }

    fn lines<A: Allocator>(&self, alloc: A) -> Lines<MemoryReader<'a>, A> {
        self.reader().lines(alloc)
    }

    fn reader(&self) -> MemoryReader<'a> {
        MemoryReader::new(self.input, self.device)
    }
}

impl Clock for CaseRuntime<'_> {
    fn monotonic(&self) -> io::Result<Duration> {
        let Some(seconds) = self.seconds else {
            return Err(refused());
        };
        let time = self.time.get();
        self.time.set(time.saturating_add(seconds));
        Ok(Duration::from_secs(time))
    }

    fn since_1970(&self) -> io::Result<Duration> {
        Err(refused())
    }
}

impl Files for CaseRuntime<'_> {
    type File = MemoryFile;

    type Dir = MemoryFile;

    fn open_file(&self, _how: &OpenOptions, path: &str) -> io::Result<MemoryFile> {
        if !self.case.has_file(path) {
            return Err(Error::from(ErrorKind::NotFound));
        }
        let Some(text) = self.case.text(path) else {
            return Err(Error::from(ErrorKind::OutOfMemory));
        };
        match device_of(self.case, path) {
            Some(device) => Ok(MemoryFile::new(text, device)),
            None => Err(Error::from(ErrorKind::Other)),
        }
    }

    fn open_dir(&self, _path: &str) -> io::Result<MemoryFile> {
        Err(refused())
    }

    fn metadata(&self, _path: &str) -> io::Result<Metadata> {
        Err(refused())
    }

    fn symlink_metadata(&self, _path: &str) -> io::Result<Metadata> {
        Err(refused())
    }

    fn copy(&self, _from: &str, _to: &str) -> io::Result<u64> {
        Err(refused())
    }

    fn rename(&self, _from: &str, _to: &str) -> io::Result<()> {
        Err(refused())
    }

    fn remove_file(&self, _path: &str) -> io::Result<()> {
        Err(refused())
    }

    fn create_dir(&self, _path: &str) -> io::Result<()> {
        Err(refused())
    }

    fn remove_dir(&self, _path: &str) -> io::Result<()> {
        Err(refused())
    }

    fn remove_dir_all<B: Allocator>(&self, _alloc: B, _path: &str) -> io::Result<()> {
        Err(refused())
    }
}
