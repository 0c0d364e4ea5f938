//! The loop that writes a whole text.
ghost use Rattle.std.specs.Prelude.{◌<◌, ◌≤◌, OnOk, OnErr};
ghost use Rattle.pesp_stream.specs.Counts.{Worked, Failed};
ghost use Rattle.pesp_stream.specs.Writing.{Writes};

use crate::sink::Sink;
use std::io::ErrorKind;

/// The writer failed.
#[derive(Clone, Copy, PartialEq, Eq)]
pub struct WriteFault;

/// Writes all bytes. A write that is interrupted is repeated, while no more than `most` calls of the writer were; so
/// one `most` serves a text that goes out in pieces. After a fault a front of the bytes went out.
pub fn write_all<W: Sink>(sink: &mut W, bytes: &[u8], most: u64) -> Result<(), WriteFault>
    requires failed_fits { (W.calls sink.old).failed < u64.MAX }
    requires interrupted_fits { (W.calls sink.old).interrupted ≤ most }
    requires most_fits { most < u64.MAX }
    ensures text { Writes (W.contents sink.old) (W.contents sink.new) bytes.now result }
    ensures counts { OnOk result (Worked (W.calls sink.old) most (W.calls sink.new)) }
    ensures fault { OnErr result (Failed (W.calls sink.old) most (W.calls sink.new)) }
{
    let mut rest = bytes;
    while !rest.is_empty() {
        match sink.write(rest) {
            Ok(0) => return Err(WriteFault),
            Ok(n) => rest = &rest[n..],
            Err(e) => {
                if e.kind() != ErrorKind::Interrupted || sink.interrupted_writes() > most {
                    return Err(WriteFault);
                }
            }
        }
    }
    Ok(())
}
