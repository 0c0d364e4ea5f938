//! Instances.

ghost use Rattle.std.specs.Prelude.{◌≡◌, ◌-◌, ◌≤◌, length, IfOk};
ghost use Rattle.pesp_problem.specs.Limits.{KeepsLimits};
ghost use Rattle.pesp_problem.specs.Timetables.{row_at};
ghost use Rattle.pesp_problem.specs.Walks.{Names};
ghost use Rattle.pesp_problem.specs.Arcs as spec;

use crate::arc::{Arc, arc_of};
use crate::memory::Memory;
use crate::row::Row;
use std::alloc::Global;
use std::marker::Model;

/// A periodic event scheduling problem (Serafini and Ukovich 1989) within its limits: a period, rows, and the labels of
/// the events that the rows name by place.
#[derive(Drop)]
pub struct Instance {
    period: u32,
    events: Vec<i64>,
    rows: Vec<Row>,
}

impl Model for Instance {
    ghost use Rattle.pesp_problem.specs.Timetables.{Pesp};
    ghost use Rattle.pesp_problem.specs.Limits.{KeepsLimits};

    ghost Value = { Pesp };

    ghost view = { λ s. record {
      period = s.period;
      events = s.events.items;
      rows = s.rows.items;
    } };

    ghost invariant = { λ s. KeepsLimits (record {
      period = s.period;
      events = s.events.items;
      rows = s.rows.items;
    }) };
}

impl Instance {
    /// The instance of these parts, which keep the limits.
    pub fn new(period: u32, events: Vec<i64>, rows: Vec<Row>) -> Instance
        requires { KeepsLimits
            (record { period = period; events = events.items; rows = rows.items }) }
        ensures { result ≡ record { period = period; events = events.items; rows = rows.items } }
    {
        Instance {
            period,
            events,
            rows,
        }
    }

    /// The period, in the instance's own unit.
    pub fn period(&self) -> u32
        ensures period { result ≡ self.now.period }
        ensures limits { KeepsLimits self.now }
    {
        self.period
    }

    /// The labels of the events, in the order in which the rows first name them.
    pub fn events(&self) -> &[i64]
        ensures events { result.now ≡ self.now.events }
        ensures limits { KeepsLimits self.now }
    {
        &self.events
    }

    /// The rows in the order of the text.
    pub fn rows(&self) -> &[Row]
        ensures rows { result.now ≡ self.now.rows }
        ensures limits { KeepsLimits self.now }
    {
        &self.rows
    }

    /// The span of a row, which is named by its number from 1: the lesser of `upper - lower` and the greatest slack, the
    /// period less 1.
    pub fn span(&self, row: u32) -> u32
        requires { Names (length self.now.rows) row }
        ensures { result ≡ spec.span self.now.period (row_at self.now.rows (row - 1)) }
    {
        arc_of(self.period, &self.rows[row as usize - 1]).span
    }

    /// The arcs of the rows, in the order of the text.
    pub fn arcs(&self, alloc: Global) -> Result<Vec<Arc>, Memory>
        ensures { IfOk result (λ arcs. arcs.items ≡ spec.arcs_of self.now) }
    {
        let period = self.period();
        let rows = self.rows();
        let mut arcs = Vec::with_capacity(alloc, rows.len())?;
        for row in rows {
            arcs.push(arc_of(period, row))?;
        }
        Ok(arcs)
    }
}
