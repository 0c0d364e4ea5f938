//! The lines of a text that a reader gives in pieces.

ghost use Rattle.std.specs.Prelude.{◌≡◌, ◌<◌, ◌≤◌, [], IfOk, IfErr, OnOk, OnErr};
ghost use Rattle.pesp_stream.specs.Counts.{Worked, Failed};
ghost use Rattle.pesp_cert_items.specs.Cuts.{Advances, EndsHere, Blames};

use crate::chunk::{Chunk, Front};
use pesp_stream::{Source, Unread};
use std::alloc::{AllocError, Global};

/// How many bytes are read and judged.
const MOST: usize = 1_073_741_824;

/// What stands next in a text.
#[derive(Clone, Copy)]
pub enum Next {
    /// A line with its LF.
    Line,
    /// More than a line may have.
    Long,
    /// The end, perhaps behind a line without LF.
    End,
}

/// Why the next line was not read.
#[derive(Drop)]
pub enum LinesFault {
    Memory,
    Device,
}

impl From<AllocError> for LinesFault {
    ghost use Rattle.std.specs.Prelude.{◌≡◌};
    ghost use Rattle.pesp_cert_items.specs.declared.lines.LinesFault.TheVariants as faults;

    ghost from_gives = { λ _ e. e ≡ faults.Memory };

    fn from(_refused: AllocError) -> LinesFault {
        LinesFault::Memory
    }
}

impl From<Unread> for LinesFault {
    ghost use Rattle.std.specs.Prelude.{◌≡◌};
    ghost use Rattle.pesp_cert_items.specs.declared.lines.LinesFault.TheVariants as faults;

    ghost from_gives = { λ _ e. e ≡ faults.Device };

    fn from(_failed: Unread) -> LinesFault {
        LinesFault::Device
    }
}

/// Reads up to the next LF: `chunk` has what was read and not yet handed out, `line` becomes the line without its LF, and
/// `left` is how many bytes may still be read.
fn advance<S: Source>(
    chunk: &mut Chunk,
    line: &mut Vec<u8>,
    left: &mut usize,
    source: &mut S,
    most: u64,
) -> Result<Next, LinesFault>
    requires failed_fits { (S.calls source.old).failed < u64.MAX }
    requires interrupted_fits { (S.calls source.old).interrupted ≤ most }
    requires most_fits { most < u64.MAX }
    ensures ok { IfOk result (Advances (S.remaining source.old) (S.remaining source.new) left.old
        left.new chunk.old chunk.new line.new.items) }
    ensures counts { OnOk result (Worked (S.calls source.old) most (S.calls source.new)) }
    ensures fault { IfErr result
        (λ e. Blames e (S.calls source.old) most (S.calls source.new)) }
{
    line.clear();
    loop {
        match chunk.take_front(line)? {
            Front::Line => return Ok(Next::Line),
            Front::Long => return Ok(Next::Long),
            Front::Part => {}
        }
        let read = chunk.fill(source, *left, most)?;
        if read == 0 {
            return Ok(Next::End);
        }
        *left -= read;
    }
}

/// The line that was read last, and what was read behind it.
#[derive(Drop)]
pub struct LineBuffer {
    chunk: Chunk,
    line: Vec<u8>,
    left: usize,
}

impl LineBuffer {
    /// Nothing was read.
    pub fn new(alloc: Global) -> LineBuffer
        ensures held { result.chunk ≡ [] }
        ensures left { result.left ≡ 1073741824 }
    {
        LineBuffer {
            chunk: Chunk::new(),
            line: Vec::new(alloc),
            left: MOST,
        }
    }

    /// The line that was read last, without its LF.
    pub fn line(&self) -> &[u8]
        ensures { result.now ≡ self.now.line.items }
    {
        self.line.as_slice()
    }

    /// Reads up to the next LF.
    pub fn advance<S: Source>(&mut self, source: &mut S, most: u64) -> Result<Next, LinesFault>
        requires failed_fits { (S.calls source.old).failed < u64.MAX }
        requires interrupted_fits { (S.calls source.old).interrupted ≤ most }
        requires most_fits { most < u64.MAX }
        ensures ok { IfOk result (Advances (S.remaining source.old) (S.remaining source.new)
            self.old.left self.new.left self.old.chunk self.new.chunk self.new.line.items) }
        ensures counts { OnOk result (Worked (S.calls source.old) most (S.calls source.new)) }
        ensures fault { IfErr result
            (λ e. Blames e (S.calls source.old) most (S.calls source.new)) }
    {
        advance(
            &mut self.chunk,
            &mut self.line,
            &mut self.left,
            source,
            most,
        )
    }

    /// Whether no byte stands behind the line that was read last.
    pub fn is_over<S: Source>(&mut self, source: &mut S, most: u64) -> Result<bool, Unread>
        requires failed_fits { (S.calls source.old).failed < u64.MAX }
        requires interrupted_fits { (S.calls source.old).interrupted ≤ most }
        requires most_fits { most < u64.MAX }
        ensures ok { IfOk result (λ over. EndsHere (S.remaining source.old) (S.remaining source.new)
            self.old.left self.new.left self.old.chunk over) }
        ensures counts { OnOk result (Worked (S.calls source.old) most (S.calls source.new)) }
        ensures fault { OnErr result (Failed (S.calls source.old) most (S.calls source.new)) }
    {
        if !self.chunk.is_empty() {
            return Ok(false);
        }
        let read = self.chunk.fill(source, self.left, most)?;
        self.left -= read;
        Ok(read == 0)
    }
}
