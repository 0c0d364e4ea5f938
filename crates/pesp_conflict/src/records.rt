//! The records of listed activities.

ghost use Rattle.std.specs.Prelude.{◌≡◌, ◌++◌, ℕ, List, All, length, map, option_copied, IfOk, OnOk};
ghost use Rattle.csv.specs.Writing.{default_writer, row_text};
ghost use Rattle.pesp_problem.specs.Walks.{Names as Numbers};
ghost use Rattle.pesp_report.specs.Report.{records_text};
ghost use Rattle.pesp_report.specs.Written.{HasWritten};
ghost use Rattle.pesp_report.specs.Naming.{naming_of};
ghost use Rattle.pesp_conflict.specs.Lists.{list_header, list_text, listed_fields};
ghost use Rattle.pesp_conflict.specs.Lists as spec;

use crate::listed::{Listed, lines_of};
use csv::Writer;
use itoa::Buffer;
use pesp_problem::{Instance, Memory};
use pesp_report::Names;
use std::alloc::Global;

/// Writes a record of these fields.
fn write_fields(writer: &mut Writer<Vec<u8>>, fields: &[&[u8]]) -> Result<(), Memory>
    ensures { (before : List ℕ) → HasWritten writer.old before
        → OnOk result (HasWritten writer.new
        (before ++ row_text default_writer (map (λ f. f.now) fields.now))) }
{
    match writer.write_fields(fields) {
        Ok(()) => Ok(()),
        Err(_) => Err(Memory),
    }
}

/// Writes the header, with two fields more where names are told.
fn write_header(writer: &mut Writer<Vec<u8>>, names: Option<&Names>) -> Result<(), Memory>
    ensures { (before : List ℕ) → HasWritten writer.old before
        → OnOk result (HasWritten writer.new (before
        ++ row_text default_writer (list_header (naming_of (option_copied names.entry))))) }
{
    match names {
        None => write_fields(
            writer,
            &[b"row", b"label", b"tail", b"head", b"lower", b"upper"],
        ),
        Some(_) => write_fields(
            writer,
            &[
                b"row",
                b"label",
                b"tail",
                b"head",
                b"lower",
                b"upper",
                b"tail_name",
                b"head_name",
            ],
        ),
    }
}

/// Writes a listed activity, with the names of its events where they are told.
fn write_listed(
    writer: &mut Writer<Vec<u8>>,
    names: Option<&Names>,
    line: &Listed,
) -> Result<(), Memory>
    ensures { (before : List ℕ) → HasWritten writer.old before
        → OnOk result (HasWritten writer.new (before
        ++ row_text default_writer (listed_fields (naming_of (option_copied names.entry)) line.now))) }
{
    let (mut row, mut label, mut tail) = (Buffer::new(), Buffer::new(), Buffer::new());
    let (mut head, mut lower, mut upper) = (Buffer::new(), Buffer::new(), Buffer::new());
    let row = row.format(line.row).as_bytes();
    let label = label.format(line.label).as_bytes();
    let tail = tail.format(line.tail).as_bytes();
    let head = head.format(line.head).as_bytes();
    let lower = lower.format(line.lower).as_bytes();
    let upper = upper.format(line.upper).as_bytes();
    match names {
        None => write_fields(writer, &[row, label, tail, head, lower, upper]),
        Some(names) => write_fields(
            writer,
            &[
                row,
                label,
                tail,
                head,
                lower,
                upper,
                names.name_of(line.tail),
                names.name_of(line.head),
            ],
        ),
    }
}

/// Writes these activities in their order.
fn write_lines(
    writer: &mut Writer<Vec<u8>>,
    names: Option<&Names>,
    lines: &[Listed],
) -> Result<(), Memory>
    ensures { (before : List ℕ) → HasWritten writer.old before
        → OnOk result (HasWritten writer.new
        (before ++ records_text (map (listed_fields (naming_of (option_copied names.entry))) lines.now))) }
{
    for line in lines {
        write_listed(writer, names, line)?;
    }
    Ok(())
}

/// The text of the header and these activities.
fn text_of(alloc: Global, names: Option<&Names>, lines: &[Listed]) -> Result<Vec<u8>, Memory>
    ensures { IfOk result
        (λ text. text.items ≡ list_text (naming_of (option_copied names.entry)) lines.now) }
{
    let mut writer = Writer::from_writer(Vec::new(alloc));
    write_header(&mut writer, names)?;
    write_lines(&mut writer, names, lines)?;
    match writer.into_inner() {
        Ok(text) => Ok(text),
        Err(_) => Err(Memory),
    }
}

/// The text of records of csv: the header `row,label,tail,head,lower,upper`, and a record for each row that is listed, in the
/// order of the list. Events are told by their labels; where names are told, the names of both events stand behind these fields,
/// as `tail_name` and `head_name`, each empty where the event has none. `Memory` where a growth was refused.
pub fn text_of_listed(
    alloc: Global,
    instance: &Instance,
    rows: &[u32],
    names: Option<&Names>,
) -> Result<Vec<u8>, Memory>
    requires { All (Numbers (length instance.now.rows)) rows.now }
    ensures { IfOk result (λ text. text.items
        ≡ list_text (naming_of (option_copied names.entry)) (spec.listed_lines instance.now rows.now)) }
{
    let lines = lines_of(alloc, instance, rows)?;
    text_of(alloc, names, &lines)
}
