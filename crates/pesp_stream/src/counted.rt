//! Any reader or writer of std, with its calls counted.
ghost use Rattle.std.specs.Prelude.{◌≡◌};
ghost use Rattle.pesp_stream.specs.Counting.{Counting};

use crate::sink::Sink;
use crate::source::Source;
use std::io;
use std::io::{ErrorKind, Read, Write};
use std::marker::Model;

/// A reader or a writer, with the counts of its failed and its interrupted calls.
#[derive(Drop)]
pub struct Counted<T> {
    inner: T,
    failed: u64,
    interrupted: u64,
}

impl<T> Model for Counted<T> {
    ghost Value = { Counting T };

    ghost view = { λ c. record {
      inner = c.inner;
      calls = record { failed = c.failed; interrupted = c.interrupted };
    } };
}

impl<T> Counted<T> {
    /// Counts from 0.
    pub fn new(inner: T) -> Counted<T>
        ensures inner { result.inner ≡ inner }
        ensures failed { result.calls.failed ≡ 0 }
        ensures interrupted { result.calls.interrupted ≡ 0 }
    {
        Counted {
            inner,
            failed: 0,
            interrupted: 0,
        }
    }

    /// The reader or writer itself.
    pub fn into_inner(self) -> T
        ensures { result ≡ self.inner }
    {
        let Counted {
            inner,
            failed: _,
            interrupted: _,
        } = self;
        inner
    }
}

impl<R: Read> Source for Counted<R> {
    ghost remaining = { λ s. R.remaining s.inner };

    ghost calls = { λ s. s.calls };

    fn read(&mut self, buf: &mut [u8]) -> io::Result<usize> {
        let result = self.inner.read(buf);
        if let Err(e) = &result {
            match e.kind() {
                ErrorKind::Interrupted => self.interrupted += 1,
                _ => self.failed += 1,
            }
        }
        result
    }

    fn interrupted_reads(&self) -> u64 {
        self.interrupted
    }
}

impl<W: Write> Sink for Counted<W> {
    ghost contents = { λ s. W.contents s.inner };

    ghost calls = { λ s. s.calls };

    fn write(&mut self, buf: &[u8]) -> io::Result<usize> {
        let result = self.inner.write(buf);
        match &result {
            Ok(0) => {
                if !buf.is_empty() {
                    self.failed += 1;
                }
            }
            Ok(_) => {}
            Err(e) => match e.kind() {
                ErrorKind::Interrupted => self.interrupted += 1,
                _ => self.failed += 1,
            },
        }
        result
    }

    fn interrupted_writes(&self) -> u64 {
        self.interrupted
    }
}
