//! The records of violated activities, in memory.

ghost use Rattle.std.specs.Prelude.{◌≡◌, ◌++◌, [], ℕ, List, map, int_lt, pos, if◌then◌else◌, option_copied, IfOk, OnOk};
ghost use Rattle.std.specs.Fmt.{decimal, signed_decimal};
ghost use Rattle.csv.specs.Writing.{default_writer, row_text};
ghost use Rattle.pesp_report.specs.Report.{records_text};
ghost use Rattle.pesp_report.specs.Naming.{name_of, naming_of};
ghost use Rattle.pesp_report.specs.Violations.{violation_fields, violation_header, violations_text};
ghost use Rattle.pesp_report.specs.Written.{HasWritten};

use crate::names::Names;
use crate::records::write_fields;
use crate::violation::Violation;
use csv::Writer;
use itoa::Buffer;
use pesp_problem::Memory;
use std::alloc::Global;

/// Writes the header, with two fields more where names are told.
fn write_violation_header(writer: &mut Writer<Vec<u8>>, names: Option<&Names>) -> Result<(), Memory>
    ensures { (before : List ℕ) → HasWritten writer.old before
        → OnOk result (HasWritten writer.new (before
        ++ row_text default_writer (violation_header (naming_of (option_copied names.entry))))) }
{
    match names {
        None => write_fields(
            writer,
            &[
                b"row",
                b"label",
                b"tail",
                b"head",
                b"duration",
                b"lower",
                b"upper",
                b"excess",
                b"short",
                b"long",
            ],
        ),
        Some(_) => write_fields(
            writer,
            &[
                b"row",
                b"label",
                b"tail",
                b"head",
                b"duration",
                b"lower",
                b"upper",
                b"excess",
                b"short",
                b"long",
                b"tail_name",
                b"head_name",
            ],
        ),
    }
}

/// The digits of how much an activity is too short, or nothing where it is less too long.
fn short_field<'a>(violation: &Violation, digits: &'a [u8]) -> &'a [u8]
    ensures { result.now ≡ (if int_lt violation.now.excess (pos violation.now.short) then [] else digits.now) }
{
    if violation.excess < i64::from(violation.short) {
        b""
    } else {
        digits
    }
}

/// The digits of how much an activity is too long, or nothing where it is less too short.
fn long_field<'a>(violation: &Violation, digits: &'a [u8]) -> &'a [u8]
    ensures { result.now ≡ (if int_lt (pos violation.now.short) violation.now.excess then [] else digits.now) }
{
    if i64::from(violation.short) < violation.excess {
        b""
    } else {
        digits
    }
}

/// The digits of a number.
fn signed<'a>(buffer: &'a mut Buffer, number: &i64) -> &'a [u8]
    ensures { result.now ≡ signed_decimal number.now }
{
    buffer.format(*number).as_bytes()
}

/// The name of an event.
fn named<'a>(names: &'a Names, event: &i64) -> &'a [u8]
    ensures { result.now ≡ name_of names.now event.now }
{
    names.name_of(*event)
}

/// The digits of a number that isn't below 0.
fn counted(buffer: &mut Buffer, number: u32) -> &[u8]
    ensures { result.now ≡ decimal number }
{
    buffer.format(number).as_bytes()
}

/// Writes a violated activity, with the names of its events where they are told.
fn write_violation(
    writer: &mut Writer<Vec<u8>>,
    names: Option<&Names>,
    violation: &Violation,
) -> Result<(), Memory>
    ensures { (before : List ℕ) → HasWritten writer.old before
        → OnOk result (HasWritten writer.new (before
        ++ row_text default_writer (violation_fields (naming_of (option_copied names.entry)) violation.now))) }
{
    let (mut row, mut label, mut tail) = (Buffer::new(), Buffer::new(), Buffer::new());
    let (mut head, mut duration, mut lower) = (Buffer::new(), Buffer::new(), Buffer::new());
    let (mut upper, mut excess, mut short) = (Buffer::new(), Buffer::new(), Buffer::new());
    let row = counted(&mut row, violation.row);
    let label = signed(&mut label, &violation.label);
    let tail = signed(&mut tail, &violation.tail);
    let head = signed(&mut head, &violation.head);
    let duration = signed(&mut duration, &violation.duration);
    let lower = signed(&mut lower, &violation.lower);
    let upper = signed(&mut upper, &violation.upper);
    let excess = signed(&mut excess, &violation.excess);
    let short = short_field(violation, counted(&mut short, violation.short));
    let long = long_field(violation, excess);
    match names {
        None => write_fields(
            writer,
            &[
                row, label, tail, head, duration, lower, upper, excess, short, long,
            ],
        ),
        Some(names) => write_fields(
            writer,
            &[
                row,
                label,
                tail,
                head,
                duration,
                lower,
                upper,
                excess,
                short,
                long,
                named(names, &violation.tail),
                named(names, &violation.head),
            ],
        ),
    }
}

/// Writes these activities in their order.
fn write_violations(
    writer: &mut Writer<Vec<u8>>,
    names: Option<&Names>,
    violations: &[Violation],
) -> Result<(), Memory>
    ensures { (before : List ℕ) → HasWritten writer.old before
        → OnOk result (HasWritten writer.new
        (before ++ records_text (map (violation_fields (naming_of (option_copied names.entry))) violations.now))) }
{
    for violation in violations {
        write_violation(writer, names, violation)?;
    }
    Ok(())
}

/// The text of the header and these activities, with the names of their events where they are told.
pub fn text_of_violations(
    alloc: Global,
    names: Option<&Names>,
    violations: &[Violation],
) -> Result<Vec<u8>, Memory>
    ensures { IfOk result
        (λ text. text.items ≡ violations_text (naming_of (option_copied names.entry)) violations.now) }
{
    let mut writer = Writer::from_writer(Vec::new(alloc));
    write_violation_header(&mut writer, names)?;
    write_violations(&mut writer, names, violations)?;
    match writer.into_inner() {
        Ok(text) => Ok(text),
        Err(_) => Err(Memory),
    }
}
