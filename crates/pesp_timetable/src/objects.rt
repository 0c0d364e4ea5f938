//! A timetable as JSON, in memory.

ghost use Rattle.std.specs.Prelude.{◌≡◌, [], ◌∷◌, ◌++◌, map, option_copied, decimal, IfOk, OnOk};
ghost use Rattle.std.specs.List.{flat_map};
ghost use Rattle.std.specs.Fmt.{signed_decimal};
ghost use Rattle.json.specs.Token.{key as key_token, string, number};
ghost use Rattle.json.specs.Tree.{json_tokens};
ghost use Rattle.pesp_timetable.specs.Objects.{Adds, entry_object, timetable_json, told_members, told_stop, told_time};

use crate::entry::Entry;
use crate::words::{
    changes_of, clock_of, direction_of, kind_of, line_of, name_of, station_of, told_at,
};
use json::Writer;
use pesp_problem::Memory;
use pesp_railway::Told;
use std::alloc::{AllocError, Global};

/// Writes a member with a number.
fn write_number(writer: &mut Writer, key: &str, value: u64) -> Result<(), AllocError>
    ensures { OnOk result
        (Adds writer.old writer.new (key_token key.now ∷ number (decimal value) ∷ [])) }
{
    writer.key(key)?;
    writer.u64(value)
}

/// Writes a member with a number that may be below 0.
fn write_signed(writer: &mut Writer, key: &str, value: &i64) -> Result<(), AllocError>
    ensures { OnOk result (Adds writer.old writer.new
        (key_token key.now ∷ number (signed_decimal value.now) ∷ [])) }
{
    writer.key(key)?;
    writer.i64(*value)
}

/// Writes a member with a text.
fn write_text(writer: &mut Writer, key: &str, text: &str) -> Result<(), AllocError>
    ensures { OnOk result
        (Adds writer.old writer.new (key_token key.now ∷ string text.now ∷ [])) }
{
    writer.key(key)?;
    writer.string(text)
}

/// Writes the members that tell where an event stands on the way of a train.
fn write_stop(writer: &mut Writer, told: Option<&Told>, entry: &Entry) -> Result<(), AllocError>
    ensures { OnOk result
        (Adds writer.old writer.new (told_stop (option_copied told.entry) entry.now)) }
{
    write_number(writer, "way", u64::from(entry.way))?;
    write_text(writer, "line", line_of(told))?;
    write_text(writer, "direction", direction_of(told))?;
    write_number(writer, "stop", u64::from(entry.stop))?;
    write_text(writer, "station", station_of(told))?;
    write_text(writer, "kind", kind_of(told))
}

/// Writes the members that tell an event and its time, at this time of the day.
fn write_time(
    writer: &mut Writer,
    told: Option<&Told>,
    entry: &Entry,
    clock: &str,
) -> Result<(), AllocError>
    ensures { OnOk result
        (Adds writer.old writer.new (told_time (option_copied told.entry) entry.now clock.now)) }
{
    write_signed(writer, "event", &entry.label)?;
    write_text(writer, "name", name_of(told))?;
    write_number(writer, "time", u64::from(entry.time))?;
    write_text(writer, "clock", clock)?;
    write_text(writer, "changes", changes_of(told))
}

/// Writes an event of which this is told, at this time of the day.
fn write_object(
    writer: &mut Writer,
    told: Option<&Told>,
    entry: &Entry,
    clock: &str,
) -> Result<(), AllocError>
    ensures { OnOk result (Adds writer.old writer.new
        (json_tokens (told_members (option_copied told.entry) entry.now clock.now))) }
{
    writer.begin_object()?;
    write_stop(writer, told, entry)?;
    write_time(writer, told, entry, clock)?;
    writer.end_object()
}

/// Writes an event.
fn write_entry(
    alloc: Global,
    writer: &mut Writer,
    tolds: &[Told],
    entry: &Entry,
) -> Result<(), Memory>
    ensures { OnOk result
        (Adds writer.old writer.new (json_tokens (entry_object tolds.now entry.now))) }
{
    let clock = clock_of(alloc, entry.running)?;
    let told = told_at(tolds, entry.event as usize);
    write_object(writer, told, entry, clock.as_str())?;
    Ok(())
}

/// Writes these events in their order.
fn write_entries(
    alloc: Global,
    writer: &mut Writer,
    tolds: &[Told],
    entries: &[Entry],
) -> Result<(), Memory>
    ensures { OnOk result (Adds writer.old writer.new
        (flat_map json_tokens (map (entry_object tolds.now) entries.now))) }
{
    for entry in entries {
        write_entry(alloc, writer, tolds, entry)?;
    }
    Ok(())
}

/// The text of an array of these events, and a line feed behind it.
pub fn json_of(alloc: Global, tolds: &[Told], entries: &[Entry]) -> Result<Vec<u8>, Memory>
    ensures { IfOk result (λ text. text.items ≡ timetable_json tolds.now entries.now) }
{
    let mut writer = Writer::new(Vec::new(alloc));
    writer.begin_array()?;
    write_entries(alloc, &mut writer, tolds, entries)?;
    writer.end_array()?;
    let mut text = writer.into_inner();
    text.push(b'\n')?;
    Ok(text)
}
