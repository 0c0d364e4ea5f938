//! The records of a report, in memory.

ghost use Rattle.std.specs.Prelude.{◌≡◌, ◌++◌, [], ◌∷◌, List, ℕ, Some, map, IfOk, OnOk};
ghost use Rattle.csv.specs.Writing.{default_writer, row_text};
ghost use Rattle.pesp_report.specs.Report.{header, line_fields, records_text, report_text, total_fields};
ghost use Rattle.pesp_report.specs.Written.{HasWritten};

use crate::line::Line;
use csv::Writer;
use itoa::Buffer;
use pesp_problem::Memory;
use std::alloc::Global;

/// Writes a record of these fields.
pub fn write_fields(writer: &mut Writer<Vec<u8>>, fields: &[&[u8]]) -> Result<(), Memory>
    ensures { (before : List ℕ) → HasWritten writer.old before
        → OnOk result (HasWritten writer.new
        (before ++ row_text default_writer (map (λ f. f.now) fields.now))) }
{
    match writer.write_fields(fields) {
        Ok(()) => Ok(()),
        Err(_) => Err(Memory),
    }
}

/// Writes the header.
fn write_header(writer: &mut Writer<Vec<u8>>) -> Result<(), Memory>
    ensures { (before : List ℕ) → HasWritten writer.old before
        → OnOk result (HasWritten writer.new (before ++ row_text default_writer header)) }
{
    write_fields(
        writer,
        &[
            b"row",
            b"label",
            b"tail",
            b"head",
            b"duration",
            b"slack",
            b"weight",
            b"weighted",
        ],
    )
}

/// Writes a line.
fn write_line(writer: &mut Writer<Vec<u8>>, line: &Line) -> Result<(), Memory>
    ensures { (before : List ℕ) → HasWritten writer.old before
        → OnOk result (HasWritten writer.new
        (before ++ row_text default_writer (line_fields line.now))) }
{
    let (mut row, mut label, mut tail) = (Buffer::new(), Buffer::new(), Buffer::new());
    let (mut head, mut duration, mut slack) = (Buffer::new(), Buffer::new(), Buffer::new());
    let (mut weight, mut weighted) = (Buffer::new(), Buffer::new());
    write_fields(
        writer,
        &[
            row.format(line.row).as_bytes(),
            label.format(line.label).as_bytes(),
            tail.format(line.tail).as_bytes(),
            head.format(line.head).as_bytes(),
            duration.format(line.duration).as_bytes(),
            slack.format(line.slack).as_bytes(),
            weight.format(line.weight).as_bytes(),
            weighted.format(line.weighted).as_bytes(),
        ],
    )
}

/// Writes the lines in their order.
fn write_lines(writer: &mut Writer<Vec<u8>>, lines: &[Line]) -> Result<(), Memory>
    ensures { (before : List ℕ) → HasWritten writer.old before
        → OnOk result (HasWritten writer.new (before ++ records_text (map line_fields lines.now))) }
{
    for line in lines {
        write_line(writer, line)?;
    }
    Ok(())
}

/// Writes the total: the sum of the slacks, and the cost.
fn write_total(writer: &mut Writer<Vec<u8>>, slacks: u64, cost: u64) -> Result<(), Memory>
    ensures { (before : List ℕ) → HasWritten writer.old before
        → OnOk result (HasWritten writer.new
        (before ++ row_text default_writer (total_fields slacks cost))) }
{
    let mut sum = Buffer::new();
    let mut total = Buffer::new();
    write_fields(
        writer,
        &[
            b"total",
            b"",
            b"",
            b"",
            b"",
            sum.format(slacks).as_bytes(),
            b"",
            total.format(cost).as_bytes(),
        ],
    )
}

/// The text of a report with these lines and sums.
pub fn text_of(alloc: Global, lines: &[Line], slacks: u64, cost: u64) -> Result<Vec<u8>, Memory>
    ensures { IfOk result (λ text. text.items ≡ report_text lines.now slacks cost) }
{
    let mut writer = Writer::from_writer(Vec::new(alloc));
    write_header(&mut writer)?;
    write_lines(&mut writer, lines)?;
    write_total(&mut writer, slacks, cost)?;
    match writer.into_inner() {
        Ok(text) => Ok(text),
        Err(_) => Err(Memory),
    }
}
