//! What a text has to be, judged by reading it.

ghost use Rattle.std.specs.Prelude.{◌≡◌, ◌+◌, ◌<◌, ◌≤◌, ℕ, length, IsTrue, IfOk};
ghost use Rattle.pesp_problem.specs.Timetables.{row_at};
ghost use Rattle.pesp_report.specs.Report.{label_at};
ghost use Rattle.pesp_report_run.specs.Fixed.{HoldsEvents, IsHolding, IsText, IsSameActivity};

use pesp_instance::{ReadRefusal, read_instance};
use pesp_problem::{Instance, Memory, Row};
use std::alloc::Global;

/// Whether an activity leads from the first event, which is the clock, with equal bounds and weight 0.
fn is_holding(row: &Row) -> bool
    ensures { IsTrue result → IsHolding row.now }
{
    row.tail == 0 && row.lower == row.upper && row.weight == 0
}

/// Whether events of two instances have one label.
fn is_same_event(instance: &Instance, event: u32, other: &Instance, place: u32) -> bool
    requires event { event < length instance.now.events }
    requires place { place < length other.now.events }
    ensures { IsTrue result
        → label_at instance.now.events event ≡ label_at other.now.events place }
{
    instance.events()[event as usize] == other.events()[place as usize]
}

/// Whether two activities have one label, the same bounds and the same weight.
fn has_same_numbers(row: &Row, other: &Row) -> bool
    ensures label { IsTrue result → row.now.label ≡ other.now.label }
    ensures lower { IsTrue result → row.now.lower ≡ other.now.lower }
    ensures upper { IsTrue result → row.now.upper ≡ other.now.upper }
    ensures weight { IsTrue result → row.now.weight ≡ other.now.weight }
{
    row.label == other.label
        && row.lower == other.lower
        && row.upper == other.upper
        && row.weight == other.weight
}

/// Whether the activity at a place of an instance is that at another place of another one.
fn is_same(instance: &Instance, place: usize, other: &Instance, at: usize) -> bool
    requires place { place < length instance.now.rows }
    requires at { at < length other.now.rows }
    ensures { IsTrue result → IsSameActivity instance.now other.now
        (row_at instance.now.rows place) (row_at other.now.rows at) }
{
    let (row, found) = (&instance.rows()[place], &other.rows()[at]);
    has_same_numbers(row, found)
        && is_same_event(instance, row.tail, other, found.tail)
        && is_same_event(instance, row.head, other, found.head)
}

/// Whether the first so many activities hold events.
fn are_holding(fixed: &Instance, more: usize) -> bool
    requires { more ≤ length fixed.now.rows }
    ensures { IsTrue result → (i : ℕ) → i < more → IsHolding (row_at fixed.now.rows i) }
{
    for place in 0..more {
        if !is_holding(&fixed.rows()[place]) {
            return false;
        }
    }
    true
}

/// Whether the activities of an instance stand in their order behind the first so many of another one.
fn are_kept(instance: &Instance, fixed: &Instance, more: usize) -> bool
    requires { length fixed.now.rows ≡ more + length instance.now.rows }
    ensures { IsTrue result → (i : ℕ) → i < length instance.now.rows
        → IsSameActivity instance.now fixed.now (row_at instance.now.rows i)
        (row_at fixed.now.rows (more + i)) }
{
    let _limits = fixed.rows();
    for place in 0..instance.rows().len() {
        if !is_same(instance, place, fixed, more + place) {
            return false;
        }
    }
    true
}

/// Whether an instance is another one with activities in front that hold events.
fn holds(instance: &Instance, fixed: &Instance) -> bool
    ensures { IsTrue result → HoldsEvents instance.now fixed.now }
{
    let Some(more) = fixed.rows().len().checked_sub(instance.rows().len()) else {
        return false;
    };
    fixed.period() == instance.period()
        && are_holding(fixed, more)
        && are_kept(instance, fixed, more)
}

/// Whether a text is that of an instance with activities in front that hold events.
pub fn is_text(alloc: Global, instance: &Instance, text: &[u8]) -> Result<bool, Memory>
    ensures { IfOk result (λ is. IsTrue is → IsText instance.now text.now) }
{
    match read_instance(alloc, text, instance.period()) {
        Ok(fixed) => Ok(holds(instance, &fixed)),
        Err(ReadRefusal::Memory) => Err(Memory),
        Err(_) => Ok(false),
    }
}
