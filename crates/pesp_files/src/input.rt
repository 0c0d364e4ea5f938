//! Standard input, and files with times, as the program reads them.

use std::io::{ErrorKind, Read};
use std::{fmt, io};

/// How many bytes of a line are kept: more than a line with a period has.
const KEPT: usize = 24;

/// Which line of a certificate comes next: its first one, one at which its period may stand, or one that is passed over.
#[derive(Clone, Copy, PartialEq, Eq, Drop)]
enum NextHeader {
    First,
    Period,
    Other,
}

/// The period of a certificate, looked for line by line. In version 3 marked walks stand before it.
#[derive(Drop)]
struct PeriodScan {
    line: [u8; KEPT],
    count: usize,
    next: NextHeader,
    period: Option<u32>,
}

impl PeriodScan {
    /// Nothing is read yet.
    fn new() -> PeriodScan {
        PeriodScan {
            line: [0; KEPT],
            count: 0,
            next: NextHeader::First,
            period: None,
        }
    }

    /// Takes what comes next, until the period is found or can't stand there any more.
    fn add(&mut self, bytes: &[u8]) {
        for byte in bytes {
            if self.next == NextHeader::Other {
                return;
            }
            self.add_byte(*byte);
        }
    }

    /// Takes a byte; of a longer line the beginning is kept.
    fn add_byte(&mut self, byte: u8) {
        if byte == b'\n' {
            self.end_line();
        } else if let Some(place) = self.line.get_mut(self.count) {
            *place = byte;
            self.count = self.count.saturating_add(1);
        }
    }

    /// Takes the line that is read.
    fn end_line(&mut self) {
        let line = str::from_utf8(self.line.get(..self.count).unwrap_or(b"")).unwrap_or("");
        if self.next == NextHeader::Period {
            self.period = period_in(line);
        }
        self.next = next_behind(self.next, line);
        self.count = 0;
    }
}

/// The period that a line of a certificate tells, where it tells one.
fn period_in(line: &str) -> Option<u32> {
    line.strip_prefix("period ")?.parse().ok()
}

/// What comes behind a line of a certificate.
fn next_behind(next: NextHeader, line: &str) -> NextHeader {
    let is_first = line.starts_with("pesp-certificate ");
    let is_front = line.starts_with("scale ") || line.starts_with("walk ");
    match next {
        NextHeader::First if is_first => NextHeader::Period,
        NextHeader::Period if is_first || is_front => NextHeader::Period,
        _ => NextHeader::Other,
    }
}

/// A reader that looks for the period of the certificate that it gives.
#[derive(Drop)]
pub struct Beginning<S> {
    inner: S,
    kept: PeriodScan,
}

impl<S: Read> Beginning<S> {
    /// The reader, of which nothing is read yet.
    pub fn of(inner: S) -> Beginning<S> {
        Beginning {
            inner,
            kept: PeriodScan::new(),
        }
    }

    /// Whether the reader is closed, which is asked by reading no byte. So a closed standard input is told before its number is
    /// given to a file that is opened.
    pub fn is_closed(&mut self) -> bool {
        let mut nothing = [0_u8; 0];
        match self.inner.read(&mut nothing) {
            Ok(_) => false,
            Err(error) => error.kind() != ErrorKind::Interrupted,
        }
    }

    /// The period of the certificate, where one was given.
    fn period(&self) -> Option<u32> {
        self.kept.period
    }
}

impl<S: Read> Read for Beginning<S> {
    ghost remaining = { λ b. S.remaining b.inner };

    fn read(&mut self, buf: &mut [u8]) -> io::Result<usize> {
        let read = self.inner.read(buf);
        if let Ok(count) = &read {
            self.kept.add(buf.get(..*count).unwrap_or(b""));
        }
        read
    }
}

/// That times were taken for another period than that of their certificate.
#[derive(Drop)]
struct OtherPeriod {
    found: u32,
    asked: u32,
}

impl fmt::Display for OtherPeriod {
    fn fmt<W: fmt::Write>(&self, f: &mut fmt::Formatter<W>) -> fmt::Result {
        let OtherPeriod { found, asked } = *self;
        write!(
            f,
            "warning: the certificate has period {found}, and its times are taken for period {asked}"
        )
    }
}

/// Warns on standard error where the times that were read stand in a certificate of another period than the one that is asked
/// for. A line that can't be written is dropped.
pub fn warn_of_period<R: Eprint, S: Read>(rt: &R, input: &Beginning<S>, asked: u32) {
    if let Some(found) = input.period() {
        if found != asked {
            let _ = rt.eprintln(OtherPeriod { found, asked });
        }
    }
}
