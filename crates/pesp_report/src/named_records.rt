//! The records of a report with names, in memory.

ghost use Rattle.std.specs.Prelude.{◌≡◌, ◌++◌, List, ℕ, map, IfOk, OnOk};
ghost use Rattle.csv.specs.Writing.{default_writer, row_text};
ghost use Rattle.pesp_report.specs.Report.{records_text};
ghost use Rattle.pesp_report.specs.Naming.{name_of};
ghost use Rattle.pesp_report.specs.Named.{named_fields, named_header, named_text, named_total};
ghost use Rattle.pesp_report.specs.Written.{HasWritten};

use crate::line::Line;
use crate::names::Names;
use crate::records::write_fields;
use csv::Writer;
use itoa::Buffer;
use pesp_problem::Memory;
use std::alloc::Global;

/// Writes the header.
fn write_named_header(writer: &mut Writer<Vec<u8>>) -> Result<(), Memory>
    ensures { (before : List ℕ) → HasWritten writer.old before
        → OnOk result (HasWritten writer.new (before ++ row_text default_writer named_header)) }
{
    write_fields(
        writer,
        &[
            b"row",
            b"label",
            b"tail",
            b"head",
            b"duration",
            b"slack",
            b"weight",
            b"weighted",
            b"tail_name",
            b"head_name",
        ],
    )
}

/// Writes a line.
fn write_named_line(writer: &mut Writer<Vec<u8>>, names: &Names, line: &Line) -> Result<(), Memory>
    ensures { (before : List ℕ) → HasWritten writer.old before
        → OnOk result (HasWritten writer.new
        (before ++ row_text default_writer (named_fields (name_of names.now) line.now))) }
{
    let (mut row, mut label, mut tail) = (Buffer::new(), Buffer::new(), Buffer::new());
    let (mut head, mut duration, mut slack) = (Buffer::new(), Buffer::new(), Buffer::new());
    let (mut weight, mut weighted) = (Buffer::new(), Buffer::new());
    write_fields(
        writer,
        &[
            row.format(line.row).as_bytes(),
            label.format(line.label).as_bytes(),
            tail.format(line.tail).as_bytes(),
            head.format(line.head).as_bytes(),
            duration.format(line.duration).as_bytes(),
            slack.format(line.slack).as_bytes(),
            weight.format(line.weight).as_bytes(),
            weighted.format(line.weighted).as_bytes(),
            names.name_of(line.tail),
            names.name_of(line.head),
        ],
    )
}

/// Writes the lines in their order.
fn write_named_lines(
    writer: &mut Writer<Vec<u8>>,
    names: &Names,
    lines: &[Line],
) -> Result<(), Memory>
    ensures { (before : List ℕ) → HasWritten writer.old before
        → OnOk result (HasWritten writer.new
        (before ++ records_text (map (named_fields (name_of names.now)) lines.now))) }
{
    for line in lines {
        write_named_line(writer, names, line)?;
    }
    Ok(())
}

/// Writes the total: the sum of the slacks, and the cost.
fn write_named_total(writer: &mut Writer<Vec<u8>>, slacks: u64, cost: u64) -> Result<(), Memory>
    ensures { (before : List ℕ) → HasWritten writer.old before
        → OnOk result (HasWritten writer.new
        (before ++ row_text default_writer (named_total slacks cost))) }
{
    let mut sum = Buffer::new();
    let mut total = Buffer::new();
    write_fields(
        writer,
        &[
            b"total",
            b"",
            b"",
            b"",
            b"",
            sum.format(slacks).as_bytes(),
            b"",
            total.format(cost).as_bytes(),
            b"",
            b"",
        ],
    )
}

/// The text of a report with these names, lines and sums.
pub fn named_text_of(
    alloc: Global,
    names: &Names,
    lines: &[Line],
    slacks: u64,
    cost: u64,
) -> Result<Vec<u8>, Memory>
    ensures { IfOk result (λ text. text.items ≡ named_text (name_of names.now) lines.now slacks cost) }
{
    let mut writer = Writer::from_writer(Vec::new(alloc));
    write_named_header(&mut writer)?;
    write_named_lines(&mut writer, names, lines)?;
    write_named_total(&mut writer, slacks, cost)?;
    match writer.into_inner() {
        Ok(text) => Ok(text),
        Err(_) => Err(Memory),
    }
}
