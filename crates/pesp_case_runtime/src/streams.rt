//! Numbers, words and lines, and bytes in and out.

use crate::devices::{Device, device_of};
use crate::reader::reader_of;
use crate::writer::{MemoryWriter, writer_of};
use pesp_part_tests::{Case, add_joined, bytes_of, tell_number};
use pesp_stream::{Bytes, Lines, Words, count_words, is_word, natural, print_to, read_all, whole};
use std::alloc::Global;

/// Tells the natural and the whole number that a word spells.
pub fn ask_number(case: Case<'_>, told: &mut String) -> Option<()> {
    let word = bytes_of(case.alloc, case.rest)?;
    tell_number(natural(&word), told)?;
    told.push_str(",").ok()?;
    tell_number(whole(&word), told)
}

/// How many words of a line are `time`.
fn named_time(line: &[u8]) -> u32 {
    let mut named = 0u32;
    for word in Words::new(line) {
        if is_word(word, "time") {
            named = named.saturating_add(1);
        }
    }
    named
}

/// Tells how many words a line has that single spaces part.
/// Tells how many of them are `time`.
pub fn ask_words(case: Case<'_>, told: &mut String) -> Option<()> {
    let line = bytes_of(case.alloc, case.rest)?;
    match count_words(&line) {
        Some(count) => write!(told, " {count}, {} of them time", named_time(&line)).ok(),
        None => told.push_str(" none").ok(),
    }
}

/// Tells how many lines the input has, and how many bytes are in them.
pub fn ask_lines(case: Case<'_>, told: &mut String) -> Option<()> {
    let text = case.text("input")?;
    let mut count = 0usize;
    let mut bytes = 0usize;
    for line in Lines::new(&text) {
        count = count.wrapping_add(1);
        bytes = bytes.wrapping_add(line.len());
    }
    write!(told, " {count} lines, {bytes} bytes").ok()
}

/// Tells the bytes that are read of the input up to a limit.
pub fn ask_bytes(case: Case<'_>, told: &mut String) -> Option<()> {
    let limit = case.rest.parse().ok()?;
    let device = device_of(case, "input")?;
    let text = case.text("input")?;
    let mut reader = reader_of(&text, device);
    told.push_str(" ").ok()?;
    match read_all(case.alloc, &mut reader, limit) {
        Ok(bytes) => add_joined(&bytes, told),
        Err(fault) => write!(told, "{fault:?}").ok(),
    }
}

/// The lines of a text without their ends, one behind another.
fn unbroken(alloc: Global, text: &[u8]) -> Option<Vec<u8>> {
    let mut bytes = Vec::new(alloc);
    for line in Lines::new(text) {
        bytes.extend_from_slice(line).ok()?;
    }
    Some(bytes)
}

/// The lines of a text, each without its end as a piece of its own.
fn pieces_of<'a>(alloc: Global, text: &'a [u8]) -> Option<Vec<Bytes<'a>>> {
    let mut pieces = Vec::new(alloc);
    for line in Lines::new(text) {
        pieces.push(Bytes(line)).ok()?;
    }
    Some(pieces)
}

/// Prints pieces on a device: whether all went out, and the writer's end.
fn printed(alloc: Global, pieces: &[Bytes<'_>], device: Device) -> (bool, MemoryWriter) {
    let mut writer = writer_of(alloc, device);
    let whole = print_to(&mut writer, &pieces).is_ok();
    (whole, writer.into_inner())
}

/// Prints the lines of the input, each as a piece without its end.
/// Tells whether all went out, and how many bytes by how many calls.
/// Tells too whether these bytes begin what was to go out.
pub fn ask_pages(case: Case<'_>, told: &mut String) -> Option<()> {
    let alloc = case.alloc;
    let device = device_of(case, "output")?;
    let text = case.text("input")?;
    let (whole, writer) = printed(alloc, &pieces_of(alloc, &text)?, device);
    let front = unbroken(alloc, &text)?.starts_with(&writer.taken);
    let calls = device.calls.wrapping_sub(writer.device.calls);
    let count = writer.taken.len();
    write!(
        told,
        " all out {whole}, {count} bytes by {calls} calls, in order {front}"
    )
    .ok()
}
