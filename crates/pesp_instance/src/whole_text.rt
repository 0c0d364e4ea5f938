//! Reading an instance from a text, record by record.

ghost use Rattle.std.specs.Prelude.{◌≡◌, ◌≤◌, ◌⊎◌, [], List, Ok, Err, IfOk, IfErr, length};
ghost use Rattle.pesp_problem.specs.declared.limits.TheConstants.{MOST_PERIOD};
ghost use Rattle.pesp_instance.specs.Activities.{activities_after};
ghost use Rattle.pesp_instance.specs.Tables.{Holds, RefusesActivities};
ghost use Rattle.pesp_instance.specs.Instance.{instance_of, pesp_of};
ghost use Rattle.pesp_instance.specs.Reading.{AreActivities, IsFirstRefusal};
ghost use Rattle.pesp_instance.specs.Records.{records_of};
ghost use Rattle.pesp_instance.specs.declared.activity.Activity.{Activity};
ghost use Rattle.pesp_instance.specs.declared.refusal.ReadRefusal.TheVariants.{Memory, Period, TextTooLong};

use crate::records::{delimiter_of, is_skipped, names_columns};
use crate::refusal::ReadRefusal;
use crate::table::Table;
use csv::{ByteRecord, ReaderBuilder};
use pesp_problem::Instance;
use std::alloc::Global;

/// The greatest period.
const MAX_PERIOD: u32 = 10_000;

/// The most bytes of a text.
const MAX_TEXT: usize = 16_777_216;

/// Reads an instance: one activity a line, as label, tail, head, lower bound, upper bound and weight, with the period,
/// which the text does not tell.
///
/// `Period` and `TextTooLong` come first, in this order. Then the first record with a fault is told, and within it the
/// first fault in the order of `ReadRefusal`, at the least field. `Memory` may come in place of any of these but the first
/// two.
pub fn read_instance(alloc: Global, text: &[u8], period: u32) -> Result<Instance, ReadRefusal>
    ensures exact { (result ≡ instance_of text.now period) ⊎ (result ≡ Err Memory) }

    // In the words of the records: the instance is that of their activities, and a refusal tells their first fault.
    ensures activities { IfOk result (λ v. (activities : List Activity)
        × AreActivities (records_of text.now) activities × (v ≡ pesp_of period activities)) }
    ensures first_fault { 1 ≤ period → period ≤ MOST_PERIOD → length text.now ≤ 16777216
        → IfErr result (λ e. (e ≡ Memory) ⊎ IsFirstRefusal (records_of text.now) e) }

    // These two take no memory, so no refusal of memory comes in their place.
    ensures period { ¬ ((1 ≤ period) × (period ≤ MOST_PERIOD)) → result ≡ Err Period }
    ensures too_long { 1 ≤ period → period ≤ MOST_PERIOD → ¬ (length text.now ≤ 16777216)
        → result ≡ Err TextTooLong }
{
    if period < 1 || period > MAX_PERIOD {
        return Err(ReadRefusal::Period);
    }
    if text.len() > MAX_TEXT {
        return Err(ReadRefusal::TextTooLong);
    }
    let table = read_table(alloc, text)?;
    let events = table.labels(alloc)?;
    Ok(Instance::new(period, events, table.rows))
}

/// The table of a text's records, or the first fault.
fn read_table(alloc: Global, text: &[u8]) -> Result<Table, ReadRefusal>
    requires { length text.now ≤ 16777216 }
    ensures table { IfOk result (Holds (activities_after [] (records_of text.now))) }
    ensures refused { IfErr result (RefusesActivities (activities_after [] (records_of text.now))) }
{
    let mut reader = ReaderBuilder::new()
        .has_headers(false)
        .flexible(true)
        .delimiter(delimiter_of(text))
        .from_reader(alloc, text);
    let mut line = ByteRecord::new(alloc);
    let mut table = Table::new(alloc);
    let mut at: u32 = 0;
    let mut may_be_header = true;
    'lines: loop {
        match reader.read_byte_record(&mut line) {
            Ok(true) => {}
            Ok(false) => return Ok(table),
            Err(_) => return Err(ReadRefusal::Memory),
        }
        at += 1;
        if is_skipped(&line) {
            continue;
        }
        if names_columns(may_be_header, &line) {
            may_be_header = false;
            continue;
        }
        may_be_header = false;
        table.read(at, &line)?;
    }
}
