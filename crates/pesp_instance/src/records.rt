//! Which delimiter a text has, and which of its records say something.

ghost use Rattle.std.specs.Prelude.{◌≡◌, ◌==◌, ◌&&◌};
ghost use Rattle.std.specs.List.{list_all, list_any};
ghost use Rattle.csv.specs.Records.{fields_of};
ghost use Rattle.csv.specs.Reading.{strip_bom};
ghost use Rattle.pesp_instance.specs.Number.{all_blank};
ghost use Rattle.pesp_instance.specs.Records.{lead_of};
ghost use Rattle.pesp_instance.specs.Records as spec;

use crate::activity::is_blank_at;
use crate::number::skip_blanks;
use csv::ByteRecord;

/// Whether a byte stands anywhere in a text.
fn has_byte(byte: u8, text: &[u8]) -> bool
    ensures { result ≡ spec.has_byte byte text.now }
{
    text.iter().any(|b| *b == byte)
}

/// ';' where a text has one, else tab where it has one, else ','.
pub fn delimiter_of(text: &[u8]) -> u8
    ensures { result ≡ spec.delimiter_of (strip_bom text.now) }
{
    if has_byte(b';', text) {
        b';'
    } else if has_byte(b'\t', text) {
        b'\t'
    } else {
        b','
    }
}

/// Whether all fields of a record are blank.
fn is_blank_record(line: &ByteRecord) -> bool
    ensures { result ≡ list_all all_blank (fields_of line.now) }
{
    for index in 0..line.len() {
        if !is_blank_at(line, index) {
            return false;
        }
    }
    true
}

/// The first byte of a record that is no blank, if its first field has one.
fn lead(line: &ByteRecord) -> Option<u8>
    ensures { result ≡ lead_of (fields_of line.now) }
{
    match line.get(0) {
        Some(field) => skip_blanks(field).first().copied(),
        None => None,
    }
}

/// Whether a record is blank or a comment.
pub fn is_skipped(line: &ByteRecord) -> bool
    ensures { result ≡ spec.is_skipped (fields_of line.now) }
{
    is_blank_record(line) || lead(line) == Some(b'#')
}

/// Whether a record is a header, where one may come.
pub fn names_columns(may_be_header: bool, line: &ByteRecord) -> bool
    ensures { result ≡ may_be_header && spec.is_header (fields_of line.now) }
{
    may_be_header && is_header(line)
}

/// Whether a record begins with a letter, as a header does.
fn is_header(line: &ByteRecord) -> bool
    ensures { result ≡ spec.is_header (fields_of line.now) }
{
    match lead(line) {
        Some(b'A'..=b'Z' | b'a'..=b'z') => true,
        _ => false,
    }
}
