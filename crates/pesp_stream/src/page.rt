//! Pieces of a text, gathered so that a writer is called once a page.
ghost use Rattle.std.specs.Prelude.{◌≡◌, ◌<◌, ◌≤◌, ◌+◌, ◌++◌, ℕ, List, length, [], take, OnOk, OnErr};
ghost use Rattle.pesp_stream.specs.Counts.{Worked, Failed};
ghost use Rattle.pesp_stream.specs.Writing.{Writes, AppendsFront, Moves};

use crate::sink::Sink;
use crate::write_loop::{WriteFault, write_all};
use std::marker::Model;

const SIZE: usize = 16384;

/// Bytes that are kept back, and are still to be written.
#[derive(Drop)]
pub struct Page {
    bytes: [u8; SIZE],
    len: usize,
}

impl Model for Page {
    ghost Value = { List ℕ };

    ghost view = { λ p. take p.len p.bytes };

    ghost invariant = { λ p. p.len ≤ 16384 };
}

impl Page {
    /// A page that keeps nothing back.
    pub fn new() -> Page
        ensures { result ≡ [] }
    {
        Page {
            bytes: [0; SIZE],
            len: 0,
        }
    }

    /// Adds a piece. Where it doesn't fit behind what is kept back, the writer is called first; a piece that is longer
    /// than a page goes to the writer at once. An interrupted write is repeated while no more than `most` calls of the
    /// writer were interrupted. After a fault a front of what was kept back and the piece is written.
    pub fn put<W: Sink>(&mut self, sink: &mut W, piece: &[u8], most: u64) -> Result<(), WriteFault>
        requires failed_fits { (W.calls sink.old).failed < u64.MAX }
        requires interrupted_fits { (W.calls sink.old).interrupted ≤ most }
        requires most_fits { most < u64.MAX }
        ensures ok { OnOk result
            (Moves (W.contents sink.old) (W.contents sink.new) self.old piece.now self.new) }
        ensures front { OnErr result
            (AppendsFront (W.contents sink.old) (W.contents sink.new) (self.old ++ piece.now)) }
        ensures counts { OnOk result (Worked (W.calls sink.old) most (W.calls sink.new)) }
        ensures fault { OnErr result (Failed (W.calls sink.old) most (W.calls sink.new)) }
    {
        if piece.len() <= SIZE - self.len {
            self.keep(piece);
            return Ok(());
        }
        self.finish(sink, most)?;
        if piece.len() <= SIZE {
            self.keep(piece);
            return Ok(());
        }
        write_all(sink, piece, most)?;
        Ok(())
    }

    fn keep(&mut self, piece: &[u8])
        requires { length self.old + length piece.now ≤ 16384 }
        ensures { self.new ≡ self.old ++ piece.now }
    {
        let end = self.len + piece.len();
        self.bytes[self.len..end].copy_from_slice(piece);
        self.len = end;
    }

    /// Writes all that is kept back. The page keeps nothing back then, after a fault too.
    pub fn finish<W: Sink>(&mut self, sink: &mut W, most: u64) -> Result<(), WriteFault>
        requires failed_fits { (W.calls sink.old).failed < u64.MAX }
        requires interrupted_fits { (W.calls sink.old).interrupted ≤ most }
        requires most_fits { most < u64.MAX }
        ensures emptied { self.new ≡ [] }
        ensures text { Writes (W.contents sink.old) (W.contents sink.new) self.old result }
        ensures counts { OnOk result (Worked (W.calls sink.old) most (W.calls sink.new)) }
        ensures fault { OnErr result (Failed (W.calls sink.old) most (W.calls sink.new)) }
    {
        let len = self.len;
        self.len = 0;
        write_all(sink, &self.bytes[..len], most)
    }
}
