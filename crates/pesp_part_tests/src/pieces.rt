//! Texts by pieces.
//!
//! - `|TEXT` is a line and its end.
//! - `+TEXT` is the text alone.
//! - `*N TEXT` is the text N times.
//! - `#N TEXT` is the text N times, with the next number, from 0, for each `%`.
//!
//! In a text `\n` and `\r` stand for a line's end and a return.
//! `\t` and `\s` stand for a tab and a space.
//! `\m` and `\\` stand for a byte order mark and the backslash.

use crate::words::split_word;
use std::alloc::Global;

/// Whether a line of a case is a piece of a text.
pub(crate) fn is_piece(line: &str) -> bool {
    matches!(line.as_bytes().first(), Some(b'|' | b'+' | b'*' | b'#'))
}

/// What stands for a letter behind a backslash.
fn escaped(letter: u8) -> Option<&'static [u8]> {
    match letter {
        b'n' => Some(b"\n"),
        b'r' => Some(b"\r"),
        b't' => Some(b"\t"),
        b's' => Some(b" "),
        b'm' => Some(b"\xef\xbb\xbf"),
        b'\\' => Some(b"\\"),
        _ => None,
    }
}

/// The bytes of a text.
pub fn bytes_of(alloc: Global, text: &str) -> Option<Vec<u8>> {
    let mut bytes = Vec::new(alloc);
    let mut escape = false;
    for byte in text.as_bytes() {
        if escape {
            bytes.extend_from_slice(escaped(*byte)?).ok()?;
            escape = false;
        } else if *byte == b'\\' {
            escape = true;
        } else {
            bytes.push(*byte).ok()?;
        }
    }
    Some(bytes)
}

/// Adds bytes so many times.
fn add_often(bytes: &mut Vec<u8>, part: &[u8], count: u32) -> Option<()> {
    for _ in 0..count {
        bytes.extend_from_slice(part).ok()?;
    }
    Some(())
}

/// Adds bytes with the next number for each `%`: the number after the last one.
fn add_counted(alloc: Global, bytes: &mut Vec<u8>, part: &[u8], start: u32) -> Option<u32> {
    let mut next = start;
    for byte in part {
        if *byte == b'%' {
            let number = format!(in alloc; "{next}").ok()?;
            bytes.extend_from_slice(number.as_bytes()).ok()?;
            next = next.checked_add(1)?;
        } else {
            bytes.push(*byte).ok()?;
        }
    }
    Some(next)
}

/// Adds numbered bytes so many times.
fn add_numbered(alloc: Global, bytes: &mut Vec<u8>, part: &[u8], count: u32) -> Option<()> {
    let mut next = 0;
    for _ in 0..count {
        next = add_counted(alloc, bytes, part, next)?;
    }
    Some(())
}

/// Adds a text so many times.
fn add_text(alloc: Global, bytes: &mut Vec<u8>, text: &str, count: u32) -> Option<()> {
    add_often(bytes, &bytes_of(alloc, text)?, count)
}

/// Adds the piece of a line.
pub(crate) fn add_piece(alloc: Global, bytes: &mut Vec<u8>, line: &str) -> Option<()> {
    let (mark, text) = line.split_at_checked(1)?;
    let (count, part) = split_word(text);
    match mark {
        "|" => {
            add_text(alloc, bytes, text, 1)?;
            bytes.push(b'\n').ok()
        }
        "*" => add_text(alloc, bytes, part, count.parse().ok()?),
        "#" => add_numbered(alloc, bytes, &bytes_of(alloc, part)?, count.parse().ok()?),
        _ => add_text(alloc, bytes, text, 1),
    }
}
