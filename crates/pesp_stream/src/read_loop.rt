//! The loop that reads a whole text.
ghost use Rattle.std.specs.Prelude.{◌≡◌, ◌+◌, ◌<◌, ◌≤◌, ◌^◌, ◌⊎◌, length, take, IfOk, IfErr, OnOk, OnErr, IfSome};
ghost use Rattle.std.specs.Io.{ReadsAtMost};
ghost use Rattle.std.specs.Io.KnownBytes.{Consumes, Keeps, IsAtEnd, ReadConsumes};
ghost use Rattle.pesp_stream.specs.Counts.{FewerThan, Worked, Failed, HasWorked};
ghost use Rattle.pesp_stream.specs.Reading.{ReadsText, ReadFaults};

use crate::source::Source;
use std::alloc::{AllocError, AllocFailed, Global};
use std::io::ErrorKind;

/// How many interrupted calls of one reader or writer a run repeats.
pub const MOST_INTERRUPTED: u64 = 1000;

const CHUNK: usize = 65536;

/// Why a text was not read to its end.
#[derive(Clone, Copy, Debug, PartialEq, Eq)]
pub enum ReadFault {
    /// A growth was refused.
    Memory,
    /// The reader failed.
    Device,
}

/// The reader failed, or was interrupted once too often.
#[derive(Drop)]
pub struct Unread;

/// One read, repeated while it is interrupted and no more than `most` calls of the reader were. It gives how many bytes were
/// read into the front of `buf`; 0, where `buf` has room, at the end.
pub fn read_repeating<S: Source>(source: &mut S, buf: &mut [u8], most: u64) -> Result<usize, Unread>
    requires failed_fits { (S.calls source.old).failed < u64.MAX }
    requires interrupted_fits { (S.calls source.old).interrupted ≤ most }
    requires most_fits { most < u64.MAX }
    ensures bound { IfOk result (λ n. n ≤ length buf.new) }
    ensures length { length buf.new ≡ length buf.old }
    ensures bytes { ReadConsumes (S.remaining source.old) (S.remaining source.new) result buf.new }
    ensures counts { OnOk result (Worked (S.calls source.old) most (S.calls source.new)) }
    ensures fault { OnErr result (Failed (S.calls source.old) most (S.calls source.new)) }
{
    loop {
        match source.read(buf) {
            Ok(n) => return Ok(n),
            Err(e) => {
                if e.kind() != ErrorKind::Interrupted || source.interrupted_reads() > most {
                    return Err(Unread);
                }
            }
        }
    }
}

/// Reads to the end, but no more than `limit` bytes. A read that is interrupted is repeated, at most 1000 times.
pub fn read_all<S: Source>(
    alloc: Global,
    source: &mut S,
    limit: usize,
) -> Result<Vec<u8>, ReadFault>
    requires fits { FewerThan (2 ^ 63) (S.calls source.old) }
    ensures ok { IfOk result
        (λ bytes. ReadsText (S.remaining source.old) (S.remaining source.new) limit bytes.items) }
    ensures counts { OnOk result (HasWorked (S.calls source.old) (S.calls source.new)) }
    ensures fault { IfErr result
        (λ e. ReadFaults e (S.calls source.old) (S.calls source.new)) }
{
    let most = source.interrupted_reads() + MOST_INTERRUPTED;
    let mut bytes = Vec::new(alloc);
    let mut chunk = [0u8; CHUNK];
    while bytes.len() < limit {
        let room = (limit - bytes.len()).min(CHUNK);
        let read = match read_repeating(source, &mut chunk[..room], most) {
            Ok(n) => n,
            Err(Unread) => return Err(ReadFault::Device),
        };
        if read == 0 {
            break;
        }
        if bytes.extend_from_slice(&chunk[..read]).is_err() {
            return Err(ReadFault::Memory);
        }
    }
    Ok(bytes)
}
