//! The activity of one record.

ghost use Rattle.std.specs.Prelude.{◌≡◌, ◌<◌, ◌≤◌, [], true, take, Ok, Err, IfOk, IfErr, length, slice_index_or};
ghost use Rattle.csv.specs.Records.{fields_of};
ghost use Rattle.pesp_instance.specs.Number.{all_blank, number_of};
ghost use Rattle.pesp_instance.specs.Activities.{activity_of, assembled, fits, numbers_from, out_of_range, unless_refused};
ghost use Rattle.pesp_instance.specs.Activities as spec;

use crate::number::{is_all_blank, parse_number};
use crate::refusal::ReadRefusal;
use arrayvec::ArrayVec;
use csv::ByteRecord;

/// The fields of a record.
const FIELDS: usize = 6;

/// The greatest label by amount.
const MAX_LABEL: i64 = 1_000_000_000_000;

/// The greatest bound by amount.
const MAX_BOUND: i64 = 1_000_000;

/// The greatest weight.
const MAX_WEIGHT: i64 = 1_000_000_000;

/// What a record says of an activity, with the labels of its events.
#[derive(Clone, Copy)]
pub struct Activity {
    pub label: i64,
    pub tail: i64,
    pub head: i64,
    pub lower: i64,
    pub upper: i64,
    pub weight: u64,
}

/// The number that a field of a record spells, if it spells one.
fn number_at(line: &ByteRecord, index: usize) -> Option<i64>
    requires { index < length (fields_of line.now) }
    ensures { result ≡ number_of (slice_index_or (fields_of line.now) index []) }
{
    match line.get(index) {
        Some(field) => parse_number(field),
        None => None,
    }
}

/// The numbers of the first six fields of a record, or the first field that is none.
fn read_numbers(at: u32, line: &ByteRecord) -> Result<ArrayVec<i64, 6>, ReadRefusal>
    requires { 6 ≤ length (fields_of line.now) }
    ensures six { IfOk result (λ numbers. length numbers.items ≡ 6) }
    ensures numbers { IfOk result
        (λ numbers. numbers_from at 1 (take 6 (fields_of line.now)) ≡ Ok numbers.items) }
    ensures refused { IfErr result (λ e. numbers_from at 1 (take 6 (fields_of line.now)) ≡ Err e) }
{
    let mut numbers = ArrayVec::new();
    for index in 0..FIELDS {
        match number_at(line, index) {
            Some(number) => numbers.push(number),
            None => {
                return Err(ReadRefusal::NotANumber {
                    at,
                    field: index as u32 + 1,
                });
            }
        }
    }
    Ok(numbers)
}

/// Whether a number keeps the limits of its field: three labels, two bounds and a weight.
fn is_within(field: u32, number: i64) -> bool
    ensures { result ≡ spec.is_within field number }
{
    if field <= 3 {
        -MAX_LABEL <= number && number <= MAX_LABEL
    } else if field <= 5 {
        -MAX_BOUND <= number && number <= MAX_BOUND
    } else {
        0 <= number && number <= MAX_WEIGHT
    }
}

/// Refuses the first number that is past its limits.
fn check_range(at: u32, numbers: &[i64]) -> Result<(), ReadRefusal>
    requires { length numbers.now ≡ 6 }
    ensures { result ≡ unless_refused (out_of_range at 1 numbers.now) tt }
{
    let mut field = 1;
    for number in numbers {
        if !is_within(field, *number) {
            return Err(ReadRefusal::OutOfRange { at, field });
        }
        field += 1;
    }
    Ok(())
}

/// The activity that six numbers make, or their first fault.
fn assemble(at: u32, numbers: &[i64]) -> Result<Activity, ReadRefusal>
    requires { length numbers.now ≡ 6 }
    ensures { result ≡ assembled at numbers.now }
{
    check_range(at, numbers)?;
    if numbers[4] < numbers[3] {
        return Err(ReadRefusal::BoundsCrossed { at });
    }
    Ok(Activity {
        label: numbers[0],
        tail: numbers[1],
        head: numbers[2],
        lower: numbers[3],
        upper: numbers[4],
        weight: numbers[5] as u64,
    })
}

/// Whether a field of a record is blank.
pub fn is_blank_at(line: &ByteRecord, index: usize) -> bool
    requires { index < length (fields_of line.now) }
    ensures { result ≡ all_blank (slice_index_or (fields_of line.now) index []) }
{
    match line.get(index) {
        Some(field) => is_all_blank(field),
        None => true,
    }
}

/// Whether a record has six fields, or a blank seventh.
fn has_six_fields(line: &ByteRecord) -> bool
    ensures fits { result ≡ fits (fields_of line.now) }
    ensures enough { result ≡ true → 6 ≤ length (fields_of line.now) }
{
    let count = line.len();
    count == FIELDS || count == FIELDS + 1 && is_blank_at(line, FIELDS)
}

/// The activity of a record, or its first fault.
pub fn read_activity(at: u32, line: &ByteRecord) -> Result<Activity, ReadRefusal>
    ensures { result ≡ activity_of at (fields_of line.now) }
{
    if !has_six_fields(line) {
        return Err(ReadRefusal::FieldCount { at });
    }
    let numbers = read_numbers(at, line)?;
    assemble(at, numbers.as_slice())
}
