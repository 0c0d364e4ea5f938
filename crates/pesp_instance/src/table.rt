//! The rows and the events of the records that were read so far.

ghost use Rattle.std.specs.Prelude.{◌≡◌, ◌≤◌, [], List, IfOk, IfErr, OnOk};
ghost use Rattle.pesp_problem.specs.declared.limits.TheConstants.{MOST_EVENTS};
ghost use Rattle.csv.specs.Records.{fields_of};
ghost use Rattle.indexmap.specs.IndexSet.{index_set_len};
ghost use Rattle.pesp_instance.specs.Activities.{activity_of, admit, and_then};
ghost use Rattle.pesp_instance.specs.Tables.{Holds, IsTable, RefusesActivities};
ghost use Rattle.pesp_instance.specs.declared.activity.Activity.{Activity};
ghost use Rattle.pesp_instance.specs.declared.refusal.ReadRefusal.TheVariants.{Memory};

use crate::activity::{Activity, read_activity};
use crate::refusal::ReadRefusal;
use csv::ByteRecord;
use indexmap::IndexSet;
use pesp_problem::Row;
use std::alloc::{AllocError, Global};

/// The most rows.
const MAX_ROWS: usize = 100_000;

/// The most events.
const MAX_EVENTS: usize = 100_000;

/// The rows of some activities, and their events in the order in which they first appear.
#[derive(Drop)]
pub struct Table {
    pub rows: Vec<Row>,
    pub events: IndexSet<i64>,
}

impl Table {
    /// The table of no activities.
    pub fn new(alloc: Global) -> Table
        ensures table { IsTable result.rows.items result.events.keys [] }
        ensures few { index_set_len result.events ≤ MOST_EVENTS }
    {
        Table {
            rows: Vec::new(alloc),
            events: IndexSet::new(alloc),
        }
    }

    /// Adds the record `at`.
    pub fn read(&mut self, at: u32, line: &ByteRecord) -> Result<(), ReadRefusal>
        requires { index_set_len self.old.events ≤ MOST_EVENTS }
        ensures few { IfOk result (λ _. index_set_len self.new.events ≤ MOST_EVENTS) }
        ensures added { (before : List Activity)
            → IsTable self.old.rows.items self.old.events.keys before
            → OnOk result (Holds (and_then (activity_of at (fields_of line.now)) (admit before at))
            self.new) }
        ensures refused { (before : List Activity)
            → IsTable self.old.rows.items self.old.events.keys before
            → IfErr result (RefusesActivities
            (and_then (activity_of at (fields_of line.now)) (admit before at))) }
    {
        match read_activity(at, line) {
            Ok(activity) => self.add(at, activity),
            Err(refusal) => Err(refusal),
        }
    }

    /// Adds the activity of the record `at`.
    fn add(&mut self, at: u32, activity: Activity) -> Result<(), ReadRefusal>
        requires { index_set_len self.old.events ≤ MOST_EVENTS }
        ensures few { IfOk result (λ _. index_set_len self.new.events ≤ MOST_EVENTS) }
        ensures added { (before : List Activity) → IsTable self.old.rows.items self.old.events.keys
            before → OnOk result (Holds (admit before at activity) self.new) }
        ensures refused { (before : List Activity) → IsTable self.old.rows.items
            self.old.events.keys before → IfErr result (RefusesActivities (admit before at activity)) }
    {
        if self.rows.len() >= MAX_ROWS {
            return Err(ReadRefusal::TooManyRows { at });
        }
        let (tail, _) = self.events.insert_full(activity.tail)?;
        let (head, _) = self.events.insert_full(activity.head)?;
        if self.events.len() > MAX_EVENTS {
            return Err(ReadRefusal::TooManyEvents { at });
        }
        self.rows.push(Row {
            label: activity.label,
            tail: tail as u32,
            head: head as u32,
            lower: activity.lower,
            upper: activity.upper,
            weight: activity.weight,
        })?;
        Ok(())
    }

    /// The labels of the events, in order.
    pub fn labels(&self, alloc: Global) -> Result<Vec<i64>, AllocError>
        ensures { IfOk result (λ labels. labels.items ≡ self.now.events.keys) }
    {
        self.events.as_slice().to_vec(alloc)
    }
}
