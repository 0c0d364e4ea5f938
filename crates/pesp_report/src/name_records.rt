//! Reading names from a text, record by record.

use crate::names::{Name, Names};
use crate::names_refusal::NamesRefusal;
use csv::{ByteRecord, Reader, ReaderBuilder};
use pesp_instance::{delimiter_of, is_skipped, names_columns, parse_number};
use std::alloc::Global;

/// The most bytes of a text.
const MAX_TEXT: usize = 16_777_216;

/// The most fields of a record that aren't blank: an event's label, its name, its line, its station and the station's distance.
const FIELDS: usize = 5;

/// The greatest distance.
const MOST_DISTANCE: i64 = 1_000_000_000;

/// Reads names: one event a line, as label, name, and where they are told line, station, and how far the station is along the
/// way. Delimiters, comments, blank records, a header and numbers are read as those of an instance; names, lines and stations
/// have no blanks at their ends. Where several records name an event, the first of them counts; events that no record names
/// have no name. A distance is a whole number from 0 to 1000000000, and blank where it isn't told.
///
/// `TextTooLong` comes first; then the first record with a fault is told. `Memory` may come in place of any of these but the
/// first.
pub fn read_names(alloc: Global, text: &[u8]) -> Result<Names, NamesRefusal> {
    if text.len() > MAX_TEXT {
        return Err(NamesRefusal::TextTooLong);
    }
    let entries = read_records(alloc, text)?;
    Ok(Names::of(alloc, entries)?)
}

/// Adds what the records of a text tell, from the reader on.
fn add_records(
    alloc: Global,
    reader: &mut Reader<&[u8]>,
    line: &mut ByteRecord,
    entries: &mut Vec<Name>,
) -> Result<(), NamesRefusal> {
    let mut may_be_header = true;
    for at in 1..u32::MAX {
        match reader.read_byte_record(line) {
            Ok(true) => {}
            Ok(false) => return Ok(()),
            Err(_) => return Err(NamesRefusal::Memory),
        }
        if is_skipped(line) {
            continue;
        }
        if names_columns(may_be_header, line) {
            may_be_header = false;
            continue;
        }
        may_be_header = false;
        entries.push(read_name(alloc, at, line)?)?;
    }
    Ok(())
}

/// What the records of a text tell.
fn read_records(alloc: Global, text: &[u8]) -> Result<Vec<Name>, NamesRefusal> {
    let mut reader = ReaderBuilder::new()
        .has_headers(false)
        .flexible(true)
        .delimiter(delimiter_of(text))
        .from_reader(alloc, text);
    let mut line = ByteRecord::new(alloc);
    let mut entries = Vec::new(alloc);
    add_records(alloc, &mut reader, &mut line, &mut entries)?;
    Ok(entries)
}

/// Whether a record has two to five fields, and blank ones behind them.
fn has_fields(line: &ByteRecord) -> bool {
    if line.len() < 2 {
        return false;
    }
    for index in FIELDS..line.len() {
        if let Some(field) = line.get(index) {
            if !field.trim_ascii().is_empty() {
                return false;
            }
        }
    }
    true
}

/// What a record tells of an event.
fn read_name(alloc: Global, at: u32, line: &ByteRecord) -> Result<Name, NamesRefusal> {
    if !has_fields(line) {
        return Err(NamesRefusal::FieldCount { at });
    }
    let Some(event) = line.get(0).and_then(|field| parse_number(field)) else {
        return Err(NamesRefusal::NotANumber { at });
    };
    let name = read_text(alloc, at, line, 1)?;
    let of_line = read_text(alloc, at, line, 2)?;
    let station = read_text(alloc, at, line, 3)?;
    let distance = read_distance(at, line)?;
    Ok(Name {
        event,
        name,
        line: of_line,
        station,
        distance,
        record: at,
    })
}

/// The distance in the last field; none where that is blank, or isn't there.
fn read_distance(at: u32, line: &ByteRecord) -> Result<Option<u32>, NamesRefusal> {
    let field = line.get(FIELDS - 1).unwrap_or(b"");
    if field.trim_ascii().is_empty() {
        return Ok(None);
    }
    match parse_number(field).and_then(|number| distance_from(number)) {
        Some(distance) => Ok(Some(distance)),
        None => Err(NamesRefusal::NotANumber { at }),
    }
}

/// The distance that a number is, if it is one.
fn distance_from(number: i64) -> Option<u32> {
    if number > MOST_DISTANCE {
        return None;
    }
    u32::try_from(number).ok()
}

/// The text of a field without the blanks at its ends; empty where there is no such field.
fn read_text(
    alloc: Global,
    at: u32,
    line: &ByteRecord,
    index: usize,
) -> Result<String, NamesRefusal> {
    let field = line.get(index).unwrap_or(b"");
    match str::from_utf8(field) {
        Ok(text) => Ok(String::from_str(alloc, text.trim())?),
        Err(_) => Err(NamesRefusal::NotText { at }),
    }
}
