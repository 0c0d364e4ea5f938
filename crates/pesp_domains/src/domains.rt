//! Sets of possible time differences.

ghost use Rattle.std.specs.Prelude.{◌≡◌, ℕ, ◌+◌, ◌-◌, ◌*◌, ◌/◌, ◌<◌, ◌≤◌, ◌≢◌, ◌↔◌, length, true, false, IfOk};
ghost use Rattle.pesp_problem.specs.declared.limits.TheConstants.{MOST_PERIOD};
ghost use Rattle.pesp_network.specs.Networks.{net_of_network};
ghost use Rattle.pesp_domains.specs.Domains.{SetRows, width_of, family_of, HaveSizes, Revised, AreKept};
ghost use Rattle.pesp_domains.specs.Full.{IsFull};
ghost use Rattle.pesp_domains.specs.Filling.{AreFull};

use crate::counts::Counts;
use crate::revise::{self, Changed};
use crate::step;
use pesp_network::Network;
use pesp_problem::{Arc, Memory};
use std::alloc::Global;
use std::marker::Model;

/// For each event the set of its possible time differences to the first event of its component, as one row of 64-bit
/// words, and beside it how many there are.
#[derive(Drop)]
pub struct Domains {
    period: u32,
    events: u32,
    words: Vec<u64>,
    counts: Counts,
    beside: Vec<u64>,
    twice: Vec<u64>,
}

impl Model for Domains {
    ghost use Rattle.std.specs.Prelude.{length};
    ghost use Rattle.pesp_domains.specs.Domains.{SetRows, AreKept, HasScratchRoom};

    ghost Value = { SetRows };

    ghost view = { λ d. record { period = d.period; events = d.events; words = d.words.items } };

    ghost invariant = { λ d. AreKept (record {
      period = d.period;
      events = d.events;
      words = d.words.items;
    })
        × HasScratchRoom d.period (length d.beside.items) (length d.twice.items) };
}

/// How many words a set has.
fn width_of(period: u32) -> usize
    requires { period ≤ MOST_PERIOD }
    ensures { result ≡ width_of period }
{
    (period as usize).div_ceil(64)
}

/// The sets of so many events: 0 alone for a component's first event, every difference for the others.
fn fill_sets(words: &mut [u64], network: &Network)
    requires { length words.old ≡ network.now.events * width_of network.now.period }
    ensures { AreFull (net_of_network network.now) network.now.events words.new }
{
    let period = network.period();
    let width = width_of(period);
    for event in 0..network.events() {
        let first = network.first_of(event);
        let count = if first == event { 1 } else { period as usize };
        let base = event as usize * width;
        step::fill(&mut words[base..base + width], count);
    }
}

/// How many differences each event has before anything is known.
fn full_counts(alloc: Global, network: &Network) -> Result<Counts, Memory> {
    let mut counts = Vec::new(alloc);
    for event in 0..network.events() {
        let is_first = network.first_of(event) == event;
        counts.push(if is_first { 1 } else { network.period() })?;
    }
    Counts::of(alloc, counts)
}

/// How many numbers a set has.
fn count_of(set: &[u64]) -> u32 {
    let mut count = 0u32;
    for word in set.iter() {
        count = count.saturating_add(word.count_ones());
    }
    count
}

impl Domains {
    /// The sets before anything is known, with these counts.
    fn full_sets(alloc: Global, network: &Network, counts: Counts) -> Result<Domains, Memory>
        ensures sizes { IfOk result (HaveSizes network.now.period network.now.events) }
        ensures full { IfOk result
            (λ d. IsFull (net_of_network network.now) network.now.events (family_of d)) }
    {
        let period = network.period();
        let events = network.events();
        let width = width_of(period);
        let mut words = vec![in alloc; 0u64; events as usize * width]?;
        let beside = vec![in alloc; 0u64; width]?;
        let twice = vec![in alloc; 0u64; 2 * width]?;
        fill_sets(&mut words, network);
        Ok(Domains {
            period,
            events,
            words,
            counts,
            beside,
            twice,
        })
    }

    /// The domains before anything is known: a component's first event has the difference 0 alone, and every other event
    /// has every difference below the period.
    pub fn full(alloc: Global, network: &Network) -> Result<Domains, Memory>
        ensures sizes { IfOk result (HaveSizes network.now.period network.now.events) }
        ensures full { IfOk result
            (λ d. IsFull (net_of_network network.now) network.now.events (family_of d)) }
    {
        let counts = full_counts(alloc, network)?;
        Domains::full_sets(alloc, network, counts)
    }

    /// Whether a time difference of an event to the first event of its component is still possible; false for an event or
    /// a difference that doesn't exist.
    pub fn has(&self, event: u32, difference: u32) -> bool
        ensures has { result ≡ family_of self.now event difference }
        ensures event { self.now.events ≤ event → result ≡ false }
        ensures difference { self.now.period ≤ difference → result ≡ false }
    {
        if event >= self.events || difference >= self.period {
            return false;
        }
        let word = self.words[event as usize * width_of(self.period) + difference as usize / 64];
        (word >> (difference % 64)) & 1 == 1
    }

    /// How many events there are.
    pub fn events(&self) -> u32
        ensures { result ≡ self.now.events }
    {
        self.events
    }

    /// The period.
    pub fn period(&self) -> u32
        ensures period { result ≡ self.now.period }
        ensures kept { AreKept self.now }
    {
        self.period
    }

    /// Whether an event has no possible difference left.
    pub(crate) fn has_none(&self, event: u32) -> bool
        requires { event < self.now.events }
        ensures none { result ≡ true → (difference : ℕ)
            → family_of self.now event difference ≡ false }
        ensures some { result ≡ false
            → (difference : ℕ) × (family_of self.now event difference ≡ true) }
    {
        let width = width_of(self.period);
        let base = event as usize * width;
        revise::has_none(&self.words[base..base + width])
    }

    /// Counts the differences of an event anew.
    fn recount(&mut self, event: u32)
        requires { event < self.old.events }
        ensures { self.new ≡ self.old }
    {
        let width = width_of(self.period);
        let base = event as usize * width;
        let count = count_of(&self.words[base..base + width]);
        self.counts.set(event, count);
    }

    /// Counts the differences at the ends of an arc anew, where they changed.
    fn recount_ends(&mut self, arc: &Arc, changed: Changed)
        requires tail { arc.now.tail < self.old.events }
        requires head { arc.now.head < self.old.events }
        ensures { self.new ≡ self.old }
    {
        if changed.tail {
            self.recount(arc.tail);
        }
        if changed.head {
            self.recount(arc.head);
        }
    }

    /// Takes from the sets at both ends of an arc each difference with no partner.
    pub(crate) fn revise(&mut self, arc: &Arc, range: (u32, u32)) -> Changed
        requires tail { arc.now.tail < self.old.events }
        requires head { arc.now.head < self.old.events }
        ensures { Revised arc.now range self.old self.new result.tail result.head }
    {
        let changed = self.narrow_ends(arc, range);
        self.recount_ends(arc, changed);
        changed
    }

    /// Takes from the sets at both ends of an arc each difference with no partner, and counts none anew.
    fn narrow_ends(&mut self, arc: &Arc, range: (u32, u32)) -> Changed
        requires tail { arc.now.tail < self.old.events }
        requires head { arc.now.head < self.old.events }
        ensures { Revised arc.now range self.old self.new result.tail result.head }
    {
        let period = self.period as usize;
        revise::revise(
            &mut self.words,
            &mut self.beside,
            &mut self.twice,
            period,
            arc,
            range,
        )
    }

    /// How many differences of an event are still possible.
    pub fn count(&self, event: u32) -> u32 {
        self.counts.number(event)
    }

    /// Whether a difference of a block of events was counted anew since this was asked of it.
    pub fn was_recounted(&mut self, block: usize) -> bool
        ensures { self.new ≡ self.old }
    {
        self.counts.take_change(block)
    }

    /// The least difference of an event that is still possible, 0 where there is none.
    pub fn least(&self, event: u32) -> u32
        requires { event < self.now.events }
    {
        let width = width_of(self.period);
        let base = event as usize * width;
        let mut passed = 0u32;
        for word in self.words[base..base + width].iter() {
            if *word != 0 {
                return passed.saturating_add(word.trailing_zeros());
            }
            passed = passed.saturating_add(64);
        }
        0
    }

    /// Takes all differences of an event away but this one.
    pub fn keep_alone(&mut self, event: u32, difference: u32)
        requires { event < self.old.events }
        ensures { HaveSizes self.old.period self.old.events self.new }
    {
        let width = width_of(self.period);
        let place = difference as usize / 64;
        revise::keep_bits(
            &mut self.words,
            width,
            event as usize,
            place,
            1 << (difference % 64),
            0,
        );
        self.recount(event);
    }

    /// Takes a difference of an event away.
    pub fn remove(&mut self, event: u32, difference: u32)
        requires { event < self.old.events }
        ensures { HaveSizes self.old.period self.old.events self.new }
    {
        let width = width_of(self.period);
        let place = difference as usize / 64;
        let bit: u64 = 1 << (difference % 64);
        revise::keep_bits(
            &mut self.words,
            width,
            event as usize,
            place,
            !bit,
            u64::MAX,
        );
        self.recount(event);
    }

    /// The same sets once more.
    pub fn copy(&self, alloc: Global) -> Result<Domains, Memory>
        ensures { IfOk result (λ d. d ≡ self.now) }
    {
        let words = Vec::from_slice(alloc, &self.words)?;
        let counts = self.counts.copy(alloc)?;
        let beside = Vec::from_slice(alloc, &self.beside)?;
        let twice = Vec::from_slice(alloc, &self.twice)?;
        Ok(Domains {
            period: self.period,
            events: self.events,
            words,
            counts,
            beside,
            twice,
        })
    }

    /// Takes on the sets of other domains.
    pub fn copy_from(&mut self, other: &Domains)
        requires { HaveSizes other.now.period other.now.events self.old }
        ensures { self.new ≡ other.now }
    {
        self.words.copy_from_slice(&other.words);
        self.counts.copy_from(&other.counts);
    }
}
