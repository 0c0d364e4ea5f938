//! The piece of a text that was read last.
ghost use Rattle.std.specs.Prelude.{◌≡◌, ◌↔◌, IsTrue, ◌<◌, ◌≤◌, ◌+◌, ◌++◌, ℕ, List, length, [], IfOk, OnOk, OnErr, slice_range, min};
ghost use Rattle.std.specs.Io.KnownBytes.{Consumes, IsAtEnd};
ghost use Rattle.pesp_stream.specs.Counts.{Worked, Failed};
ghost use Rattle.pesp_cert_lines.specs.Lines.{LONGEST};
ghost use Rattle.pesp_cert_items.specs.Fronts.{CutsAt};

use pesp_stream::{Source, Unread, read_repeating};
use std::alloc::AllocError;
use std::marker::Model;

const SIZE: usize = 65_536;

/// The longest line, in bytes before its LF.
const LONGEST: usize = 100_000_000;

/// What stands at the front of a chunk.
#[derive(Clone, Copy)]
pub enum Front {
    /// The rest of a line, and its LF.
    Line,
    /// More than a line may have.
    Long,
    /// A part of a line.
    Part,
}

/// The bytes of the piece that was read last and are not yet handed out.
#[derive(Drop)]
pub struct Chunk {
    bytes: [u8; SIZE],
    start: usize,
    end: usize,
}

impl Model for Chunk {
    ghost Value = { List ℕ };

    ghost view = { λ c. slice_range c.bytes c.start c.end };

    ghost invariant = { λ c. (c.start ≤ c.end) × (c.end ≤ 65536) };
}

/// The first place of an LF.
fn first_lf(bytes: &[u8]) -> Option<usize>
    ensures { CutsAt result bytes.now }
{
    bytes.iter().position(|b| *b == b'\n')
}

impl Chunk {
    ghost use Rattle.pesp_cert_items.specs.Cuts.{MovesChunk};

    /// Nothing was read.
    pub fn new() -> Chunk
        ensures { result ≡ [] }
    {
        Chunk {
            bytes: [0; SIZE],
            start: 0,
            end: 0,
        }
    }

    /// Whether all was handed out.
    pub fn is_empty(&self) -> bool
        ensures { IsTrue result ↔ (self.now ≡ []) }
    {
        self.start == self.end
    }

    /// Reads the next piece, of no more than `limit` bytes; how many it has. 0 with a limit above 0 says that the text ends.
    pub fn fill<S: Source>(
        &mut self,
        source: &mut S,
        limit: usize,
        most: u64,
    ) -> Result<usize, Unread>
        requires failed_fits { (S.calls source.old).failed < u64.MAX }
        requires interrupted_fits { (S.calls source.old).interrupted ≤ most }
        requires most_fits { most < u64.MAX }
        ensures length { IfOk result (λ n. (n ≡ length self.new) × (n ≤ limit)) }
        ensures bytes { OnOk result
            (Consumes (S.remaining source.old) (S.remaining source.new) self.new) }
        ensures end { IfOk result (λ n. n ≡ 0 → 0 < limit → IsAtEnd (S.remaining source.new)) }
        ensures counts { OnOk result (Worked (S.calls source.old) most (S.calls source.new)) }
        ensures fault { OnErr result (Failed (S.calls source.old) most (S.calls source.new)) }
    {
        let room = limit.min(SIZE);
        self.start = 0;
        self.end = 0;
        let n = read_repeating(source, &mut self.bytes[..room], most)?;
        self.end = n;
        Ok(n)
    }

    /// Moves what stands before the first LF behind the line so far, and drops that LF.
    pub fn take_front(&mut self, line: &mut Vec<u8>) -> Result<Front, AllocError>
        requires { length line.old.items ≤ LONGEST }
        ensures { IfOk result
            (λ front. MovesChunk front self.old line.old.items self.new line.new.items) }
    {
        let held = &self.bytes[self.start..self.end];
        match first_lf(held) {
            Some(at) => {
                if at > LONGEST - line.len() {
                    return Ok(Front::Long);
                }
                line.extend_from_slice(&held[..at])?;
                self.start += at + 1;
                Ok(Front::Line)
            }
            None => {
                if held.len() > LONGEST - line.len() {
                    return Ok(Front::Long);
                }
                line.extend_from_slice(held)?;
                self.start = self.end;
                Ok(Front::Part)
            }
        }
    }
}
