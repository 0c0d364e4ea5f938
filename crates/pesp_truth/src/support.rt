//! The question of the pass.

ghost use Rattle.std.specs.Prelude.{◌≡◌, ◌≢◌, ℕ, ◌+◌, ◌*◌, ◌<◌, ◌≤◌, ◌↔◌, length, true, All, IfOk, IsTrue};
ghost use Rattle.pesp_problem.specs.declared.limits.TheConstants.{MOST_EVENTS, MOST_PERIOD};
ghost use Rattle.pesp_problem.specs.Arcs.{net_of};
ghost use Rattle.pesp_problem.specs.Limits.{KeepsLimits};
ghost use Rattle.pesp_problem.specs.Families.{NoFamilyIsSupported};
ghost use Rattle.pesp_truth.specs.Sets.{is_set, padded_period, family_at};
ghost use Rattle.pesp_truth.specs.Supports.{IsStart};

use crate::bits::{remove, words_for};
use crate::firsts::firsts_of;
use crate::rounds::is_emptied;
use pesp_problem::{Arc, Instance, Memory};
use std::alloc::Global;
use std::marker::Model;

/// The rows of an instance, with room for one set of time differences for each event: a bit for each difference.
#[derive(Drop)]
pub struct Support {
    period: u32,
    events: u32,
    arcs: Vec<Arc>,
    firsts: Vec<u32>,
    words: Vec<u64>,
    before: Vec<bool>,
    now: Vec<bool>,
}

impl Model for Support {
    ghost use Rattle.std.specs.Prelude.{length};
    ghost use Rattle.pesp_truth.specs.Supports.{Rows, AreReadyForRounds};

    ghost Value = { Rows };

    ghost view = { λ s. record {
      net = record { period = s.period; arcs = s.arcs.items };
      events = s.events;
    } };

    ghost invariant = { λ s. AreReadyForRounds (record {
      net = record { period = s.period; arcs = s.arcs.items };
      events = s.events;
    })
        s.firsts.items (length s.words.items) (length s.before.items) (length s.now.items) };
}

/// Puts every place into the set.
fn fill(words: &mut [u64])
    ensures { (place : ℕ) → place < 64 * length words.old → is_set words.new place ≡ true }
{
    for k in 0..words.len() {
        words[k] = u64::MAX;
    }
}

/// Takes from an event every difference but 0, where it is the first of its component.
fn start_one(words: &mut [u64], period: usize, event: usize, first: usize)
    requires period { period ≤ MOST_PERIOD }
    requires event { event ≤ MOST_EVENTS }
    requires long { event * padded_period period + padded_period period ≤ 64 * length words.old }
    ensures alone { first ≡ event → (d : ℕ) → family_at period words.new event d ≡ true → d ≡ 0 }
    ensures whole { first ≢ event → words.new ≡ words.old }
    ensures zero { family_at period words.new event 0 ≡ family_at period words.old event 0 }
    ensures others { (other d : ℕ) → other ≢ event
        → family_at period words.new other d ≡ family_at period words.old other d }
{
    if first != event {
        return;
    }
    for difference in 1..period {
        let _had = remove(words, period, event, difference);
    }
}

/// The sets at the start: 0 alone for a component's first event, every difference for the others.
fn start(words: &mut [u64], period: usize, firsts: &[u32])
    requires period { (0 < period) × (period ≤ MOST_PERIOD) }
    requires events { length firsts.now ≤ MOST_EVENTS }
    requires long { length firsts.now * padded_period period ≤ 64 * length words.old }
    ensures { IsStart period firsts.now (length firsts.now) (family_at period words.new) }
{
    fill(words);
    for event in 0..firsts.len() {
        start_one(words, period, event, firsts[event] as usize);
    }
}

impl Support {
    /// The rows of an instance, made ready for the question. `Memory` only where a growth was refused.
    pub fn of(alloc: Global, instance: &Instance) -> Result<Support, Memory>
        ensures { IfOk result
            (λ s. s ≡ record { net = net_of instance.now; events = length instance.now.events }) }
    {
        let period = instance.period();
        let events = instance.events().len();
        let arcs = instance.arcs(alloc)?;
        let firsts = firsts_of(alloc, events as u32, &arcs)?;
        let words = vec![in alloc; 0u64; words_for(period as usize, events)]?;
        let before = vec![in alloc; false; events]?;
        let now = vec![in alloc; false; events]?;
        Ok(Support {
            period,
            events: events as u32,
            arcs,
            firsts,
            words,
            before,
            now,
        })
    }

    /// Whether under these slack ranges, one for each row, the rows support no family of sets of time differences without
    /// an empty set (arc consistency, Mackworth 1977). A range whose low end is above its high end is empty. Where it
    /// answers true, no timetable has its slacks in the ranges. Each question is asked anew from full sets, and takes no
    /// memory.
    pub fn supports_none(&mut self, ranges: &[(u32, u32)]) -> bool
        requires { length ranges.now ≡ length self.old.net.arcs }
        ensures exact { IsTrue result
            ↔ NoFamilyIsSupported self.old.net ranges.now self.old.events }
        ensures same { self.new ≡ self.old }
    {
        let period = self.period as usize;
        start(&mut self.words, period, &self.firsts);
        is_emptied(
            &mut self.words,
            period,
            &self.arcs,
            ranges,
            &mut self.before,
            &mut self.now,
        )
    }
}
