//! Pivots (Cunningham 1976: strongly feasible trees).

use crate::basis::{Basis, PivotEnd};
use crate::row::{FREE, PivotStep};
use pesp_forest::{Frame, NONE};

/// A closed way: a step, from where it ends up to an event of the tree, and from there down to where it begins.
#[derive(Clone, Copy)]
struct ClosedWay {
    step: PivotStep,
    from: u32,
    to: u32,
    top: u32,
}

/// How many units one side of a closed way takes, and the event whose row upwards takes no more.
#[derive(Clone, Copy)]
struct Room {
    event: u32,
    units: i64,
}

/// What became of a pivot: where its closed way has no end, nothing was done.
#[derive(Clone, Copy)]
enum Pivot {
    Done,
    Endless(ClosedWay),
}

impl Basis {
    /// The closed way of a step.
    fn round(&self, step: PivotStep) -> Option<ClosedWay> {
        let row = self.rows.get(step.row as usize)?;
        let (from, to) = if step.forward {
            (row.tail, row.head)
        } else {
            (row.head, row.tail)
        };
        let top = self.tree.meeting(from, to)?;
        Some(ClosedWay {
            step,
            from,
            to,
            top,
        })
    }

    /// The room down to where a step begins, at the lowest of the rows that have least.
    fn room_down(&self, round: ClosedWay) -> Option<Room> {
        let mut room = Room {
            event: NONE,
            units: FREE,
        };
        let mut event = round.from;
        for _ in 0..self.tree.events() {
            if event == round.top {
                return Some(room);
            }
            let place = self.tree.place(event)?;
            let row = self.rows.get(place.by as usize)?;
            let units = row.room(row.head == event);
            if units < room.units {
                room = Room { event, units };
            }
            event = place.up;
        }
        None
    }

    /// The room up from where a step ends, at the highest of the rows that have least.
    fn room_up(&self, round: ClosedWay) -> Option<Room> {
        let mut room = Room {
            event: NONE,
            units: FREE,
        };
        let mut event = round.to;
        for _ in 0..self.tree.events() {
            if event == round.top {
                return Some(room);
            }
            let place = self.tree.place(event)?;
            let row = self.rows.get(place.by as usize)?;
            let units = row.room(row.tail == event);
            if units <= room.units {
                room = Room { event, units };
            }
            event = place.up;
        }
        None
    }

    /// More flow on a row, or less.
    fn add(&mut self, row: u32, more: bool, units: i64) -> Option<()> {
        let row = self.row_mut(row)?;
        row.flow = if more {
            row.flow.checked_add(units)?
        } else {
            row.flow.checked_sub(units)?
        };
        Some(())
    }

    /// So many units more up from an event to another, or down from there.
    fn send_along(&mut self, from: u32, top: u32, upwards: bool, units: i64) -> Option<()> {
        let mut event = from;
        for _ in 0..self.tree.events() {
            if event == top {
                return Some(());
            }
            let place = self.tree.place(event)?;
            let leads_up = self.rows.get(place.by as usize)?.tail == event;
            self.add(place.by, leads_up == upwards, units)?;
            event = place.up;
        }
        None
    }

    /// So many units more along a closed way.
    fn send(&mut self, round: ClosedWay, units: i64) -> Option<()> {
        if units == 0 {
            return Some(());
        }
        self.add(round.step.row, round.step.forward, units)?;
        self.send_along(round.to, round.top, true, units)?;
        self.send_along(round.from, round.top, false, units)
    }

    /// Notes by how much the circulation becomes cheaper where so many units more go along a step's closed way.
    fn note_fall(&mut self, step: PivotStep, units: i64) {
        let cost = i128::from(step.cost).saturating_mul(i128::from(units));
        self.fall = self.fall.saturating_sub(cost);
    }

    /// Takes the row up from an event out of the tree, and a step's row in; `inner` is the step's end below the event.
    fn swap(
        &mut self,
        frame: &Frame,
        event: u32,
        upwards: bool,
        enters: u32,
        inner: u32,
        outer: u32,
    ) -> Option<()> {
        let by = self.tree.place(event)?.by;
        let leaving = self.row_mut(by)?;
        let leads_up = leaving.tail == event;
        leaving.bend = leaving.bend_at(leads_up == upwards);
        leaving.is_basic = false;
        self.row_mut(enters)?.is_basic = true;
        self.tree.rehang(inner, event, outer, enters)?;
        self.settle_below(frame, inner)
    }

    /// Sends what a step's closed way takes, and takes the step's row into the tree in place of the last one along the way
    /// that takes no more.
    fn pivot(&mut self, frame: &Frame, step: PivotStep) -> Option<Pivot> {
        let round = self.round(step)?;
        let row = self.row_mut(step.row)?;
        row.part = row.part_of(step.forward);
        let own = row.room(step.forward);
        let down = self.room_down(round)?;
        let up = self.room_up(round)?;
        let units = own.min(down.units).min(up.units);
        if units == FREE {
            return Some(Pivot::Endless(round));
        }
        self.send(round, units)?;
        self.note_fall(step, units);
        if up.units == units {
            self.swap(frame, up.event, true, step.row, round.to, round.from)?;
        } else if own == units {
            let row = self.row_mut(step.row)?;
            row.bend = row.bend_at(step.forward);
        } else {
            self.swap(frame, down.event, false, step.row, round.from, round.to)?;
        }
        Some(Pivot::Done)
    }

    /// No flow but one unit along a closed way.
    fn keep_only(&mut self, round: ClosedWay) -> Option<()> {
        for place in 0..self.rows.len() {
            self.row_mut(u32::try_from(place).ok()?)?.flow = 0;
        }
        self.send(round, 1)
    }

    /// Makes the circulation cheaper by so many pivots at most, and ends where it has become as much cheaper as is enough; the
    /// closed way of the first step that has no end, where there is one.
    fn run(&mut self, frame: &Frame, most: u32, enough: i128) -> Result<PivotEnd, ClosedWay> {
        for _ in 0..most {
            if self.fall >= enough {
                return Ok(PivotEnd::Open);
            }
            let Some(step) = self.entering() else {
                return Ok(PivotEnd::Best);
            };
            match self.pivot(frame, step) {
                Some(Pivot::Done) => {}
                Some(Pivot::Endless(round)) => return Err(round),
                None => return Ok(PivotEnd::Open),
            }
        }
        Ok(PivotEnd::Open)
    }

    /// Makes the circulation cheaper by so many pivots at most. Where it ends `Endless` the flow is one unit along a closed
    /// way that costs less than nothing, and the basis is no longer one.
    pub fn solve(&mut self, frame: &Frame, most: u32) -> PivotEnd {
        self.solve_within(frame, most, i128::MAX)
    }

    /// The same, and it ends `Open` where the circulation has become as much cheaper as is enough since the basis was the same
    /// as another one.
    pub fn solve_within(&mut self, frame: &Frame, most: u32, enough: i128) -> PivotEnd {
        match self.run(frame, most, enough) {
            Ok(ended) => ended,
            Err(round) => match self.keep_only(round) {
                Some(()) => PivotEnd::Endless,
                None => PivotEnd::Open,
            },
        }
    }

    /// Makes the circulation cheaper by so many pivots at most. Where it ends `Endless` the circulation and its basis are
    /// those that the pivots led to.
    pub fn approach(&mut self, frame: &Frame, most: u32) -> PivotEnd {
        self.run(frame, most, i128::MAX)
            .unwrap_or(PivotEnd::Endless)
    }
}
