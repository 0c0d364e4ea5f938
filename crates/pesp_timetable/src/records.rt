//! The records of a timetable, in memory.

ghost use Rattle.std.specs.Prelude.{◌≡◌, ◌++◌, ℕ, List, map, option_copied, IfOk, OnOk};
ghost use Rattle.csv.specs.Writing.{default_writer, row_text};
ghost use Rattle.pesp_report.specs.Report.{records_text};
ghost use Rattle.pesp_report.specs.Written.{HasWritten};
ghost use Rattle.pesp_timetable.specs.Timetable.{entry_fields, timetable_header, timetable_text, told_fields};

use crate::entry::Entry;
use crate::words::{
    changes_of, clock_of, direction_of, kind_of, line_of, name_of, station_of, told_at,
};
use csv::Writer;
use itoa::Buffer;
use pesp_problem::Memory;
use pesp_railway::Told;
use std::alloc::Global;

/// Writes a record of these fields.
fn write_fields(writer: &mut Writer<Vec<u8>>, fields: &[&[u8]]) -> Result<(), Memory>
    ensures { (before : List ℕ) → HasWritten writer.old before
        → OnOk result (HasWritten writer.new
        (before ++ row_text default_writer (map (λ f. f.now) fields.now))) }
{
    match writer.write_fields(fields) {
        Ok(()) => Ok(()),
        Err(_) => Err(Memory),
    }
}

/// Writes the header.
fn write_header(writer: &mut Writer<Vec<u8>>) -> Result<(), Memory>
    ensures { (before : List ℕ) → HasWritten writer.old before
        → OnOk result (HasWritten writer.new
        (before ++ row_text default_writer timetable_header)) }
{
    write_fields(
        writer,
        &[
            b"way",
            b"line",
            b"direction",
            b"stop",
            b"station",
            b"kind",
            b"event",
            b"name",
            b"time",
            b"clock",
            b"changes",
        ],
    )
}

/// Writes an event of which this is told, at this time of the day.
fn write_told(
    writer: &mut Writer<Vec<u8>>,
    told: Option<&Told>,
    entry: &Entry,
    clock: &[u8],
) -> Result<(), Memory>
    ensures { (before : List ℕ) → HasWritten writer.old before
        → OnOk result (HasWritten writer.new (before
        ++ row_text default_writer (told_fields (option_copied told.entry) entry.now clock.now))) }
{
    let (mut way, mut stop) = (Buffer::new(), Buffer::new());
    let (mut label, mut time) = (Buffer::new(), Buffer::new());
    write_fields(
        writer,
        &[
            way.format(entry.way).as_bytes(),
            line_of(told).as_bytes(),
            direction_of(told).as_bytes(),
            stop.format(entry.stop).as_bytes(),
            station_of(told).as_bytes(),
            kind_of(told).as_bytes(),
            label.format(entry.label).as_bytes(),
            name_of(told).as_bytes(),
            time.format(entry.time).as_bytes(),
            clock,
            changes_of(told).as_bytes(),
        ],
    )
}

/// Writes an event.
fn write_entry(
    alloc: Global,
    writer: &mut Writer<Vec<u8>>,
    tolds: &[Told],
    entry: &Entry,
) -> Result<(), Memory>
    ensures { (before : List ℕ) → HasWritten writer.old before
        → OnOk result (HasWritten writer.new
        (before ++ row_text default_writer (entry_fields tolds.now entry.now))) }
{
    let clock = clock_of(alloc, entry.running)?;
    let told = told_at(tolds, entry.event as usize);
    write_told(writer, told, entry, clock.as_bytes())
}

/// Writes these events in their order.
fn write_entries(
    alloc: Global,
    writer: &mut Writer<Vec<u8>>,
    tolds: &[Told],
    entries: &[Entry],
) -> Result<(), Memory>
    ensures { (before : List ℕ) → HasWritten writer.old before
        → OnOk result (HasWritten writer.new
        (before ++ records_text (map (entry_fields tolds.now) entries.now))) }
{
    for entry in entries {
        write_entry(alloc, writer, tolds, entry)?;
    }
    Ok(())
}

/// The text of the header and these events.
pub fn text_of(alloc: Global, tolds: &[Told], entries: &[Entry]) -> Result<Vec<u8>, Memory>
    ensures { IfOk result (λ text. text.items ≡ timetable_text tolds.now entries.now) }
{
    let mut writer = Writer::from_writer(Vec::new(alloc));
    write_header(&mut writer)?;
    write_entries(alloc, &mut writer, tolds, entries)?;
    match writer.into_inner() {
        Ok(text) => Ok(text),
        Err(_) => Err(Memory),
    }
}
