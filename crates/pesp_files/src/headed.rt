//! Instances whose header is told when it is passed over.

use std::io::Read;
use std::{fmt, io};

/// Where a reader is: behind nothing that counts in its line, in a comment, or behind the first record that counts.
#[derive(Clone, Copy, PartialEq, Eq, Drop)]
enum ReaderPlace {
    Lead,
    Comment,
    Over,
}

/// Looks for a header line by line, and tells it; where nobody is to be told, it looks alone.
#[derive(Drop)]
struct Lookout<'a, R> {
    rt: Option<&'a R>,
    place: ReaderPlace,
    line: u64,
}

/// A reader of an instance, which tells on standard error that a first record that begins with a letter is passed over as a header,
/// where that is wanted.
#[derive(Drop)]
pub struct Headed<'a, R, S> {
    inner: S,
    lookout: Lookout<'a, R>,
}

/// That a line is passed over as a header.
#[derive(Drop)]
struct Header {
    line: u64,
}

impl fmt::Display for Header {
    fn fmt<W: fmt::Write>(&self, f: &mut fmt::Formatter<W>) -> fmt::Result {
        let line = self.line;
        write!(
            f,
            "line {line} begins with a letter: it is a header, and passed over"
        )
    }
}

impl<R: Eprint> Lookout<'_, R> {
    /// Takes what comes next, until the first record that counts has begun.
    fn add(&mut self, bytes: &[u8]) {
        for byte in bytes {
            if self.place == ReaderPlace::Over {
                return;
            }
            self.add_byte(*byte);
        }
    }

    /// Takes a byte of what stands up to there.
    fn add_byte(&mut self, byte: u8) {
        match byte {
            b'\n' => {
                self.line = self.line.saturating_add(1);
                self.place = ReaderPlace::Lead;
            }
            _ if self.place == ReaderPlace::Comment => {}
            b'#' => self.place = ReaderPlace::Comment,
            // A mark of the order of bytes, blanks, quotes and the ends of blank fields.
            0xef | 0xbb | 0xbf | b' ' | b'\t' | b'\r' | b'"' | b',' | b';' => {}
            _ => self.begin_record(byte),
        }
    }

    /// Takes the first byte of a record that counts.
    fn begin_record(&mut self, byte: u8) {
        self.place = ReaderPlace::Over;
        if let Some(rt) = self.rt {
            if byte.is_ascii_alphabetic() {
                let _ = rt.eprintln(Header { line: self.line });
            }
        }
    }
}

impl<'a, R: Eprint, S: Read> Headed<'a, R, S> {
    /// The reader, of which nothing is read yet. It tells by the runtime that is given, and nothing where none is.
    pub fn of(inner: S, rt: Option<&'a R>) -> Headed<'a, R, S> {
        let lookout = Lookout {
            rt,
            place: ReaderPlace::Lead,
            line: 1,
        };
        Headed { inner, lookout }
    }

    /// The reader that it is made of.
    pub fn into_inner(self) -> S {
        self.inner
    }
}

impl<R: Eprint, S: Read> Read for Headed<'_, R, S> {
    ghost remaining = { λ b. S.remaining b.inner };

    fn read(&mut self, buf: &mut [u8]) -> io::Result<usize> {
        let read = self.inner.read(buf);
        if let Ok(count) = &read {
            self.lookout.add(buf.get(..*count).unwrap_or(b""));
        }
        read
    }
}
