//! Queues of items by their values, some of which are parked.

ghost use Rattle.std.specs.Prelude.{◌≡◌, ℕ, ◌+◌, ◌<◌, ◌≤◌, ◌++◌, ◌∷◌, [], length, take, drop, filter, nat_lt, IsOk, OnOk, OnErr, IfSome, IfNone, MatchOption, vec_len, vec_capacity};
ghost use Rattle.std.specs.List.{Contains};
ghost use Rattle.std.specs.List.Sorted.{IsPermutation};
ghost use Rattle.pesp_tree.specs.Entries.{entry, HasItem, IsFirst, IsLeastValue};
ghost use Rattle.pesp_tree.specs.Queues.{all_of, front, QueueKeepsLimits, KeepsRoom};

use crate::entry::Entry;
use crate::heap::least_of;
use crate::steps::{add, find, join, leave, place_of, take_out};
use pesp_problem::Memory;
use std::alloc::Global;
use std::marker::Model;

/// Items by their values, each waiting or parked; no item stands in it twice.
///
/// The first entries are a binary heap of the items that wait, and the others are parked, so an item that waits again
/// needs no more memory. A place is kept for each item's number (Briggs and Torczon 1993), so a parked item is found at
/// once.
#[derive(Drop)]
pub struct Queue {
    entries: Vec<Entry>,
    waiting: usize,
    places: Vec<u32>,
    room: usize,
}

impl Model for Queue {
    ghost use Rattle.std.specs.Prelude.{length, take, drop, vec_capacity};
    ghost use Rattle.pesp_tree.specs.Queues.{QueueValue};
    ghost use Rattle.pesp_tree.specs.Held.{HeapIsHeld};

    ghost Value = { QueueValue };

    ghost view = { λ q. record {
      waiting = take q.waiting q.entries.items;
      parked = drop q.waiting q.entries.items;
      numbers = length q.places.items;
      room = q.room;
    } };

    ghost invariant = { λ q. HeapIsHeld q.entries.items q.waiting q.places.items q.room
        (vec_capacity q.entries) };
}

impl Queue {
    /// A queue with no items, and room for none.
    pub fn new(alloc: Global) -> Queue
        ensures { result ≡ record { waiting = []; parked = []; numbers = 0; room = 0 } }
    {
        Queue {
            entries: Vec::new(alloc),
            waiting: 0,
            places: Vec::new(alloc),
            room: 0,
        }
    }

    /// Makes room for so many more items than there are, of numbers below `numbers`. Refused as Memory where a growth is
    /// refused; the queue is as it was then.
    pub fn reserve(&mut self, numbers: u32, more: u32) -> Result<(), Memory>
        ensures waiting { self.new.waiting ≡ self.old.waiting }
        ensures parked { self.new.parked ≡ self.old.parked }
        ensures numbers { OnOk result (numbers ≤ self.new.numbers) }
        ensures room { OnOk result (length (all_of self.old) + more ≤ self.new.room) }
        ensures keeps_numbers { self.old.numbers ≤ self.new.numbers }
        ensures keeps_room { self.old.room ≤ self.new.room }
        ensures refused { OnErr result (self.new ≡ self.old) }
        ensures succeeds { numbers ≤ self.old.numbers
            → length (all_of self.old) + more ≤ self.old.room → IsOk result }
    {
        let room = self.entries.len() + more as usize;
        self.entries.reserve(more as usize)?;
        if self.places.len() < numbers as usize {
            self.places.resize(numbers as usize, 0)?;
        }
        self.room = self.room.max(room);
        Ok(())
    }

    /// Adds an item that isn't there yet, which waits. Takes no memory.
    pub fn insert(&mut self, item: u32, value: u64)
        requires number { item < self.old.numbers }
        requires room { length (all_of self.old) < self.old.room }
        requires fresh { ¬ HasItem (all_of self.old) item }
        ensures waiting { IsPermutation (entry item value ∷ self.old.waiting) self.new.waiting }
        ensures parked { IsPermutation self.old.parked self.new.parked }
        ensures room { KeepsRoom self.old self.new }
    {
        add(&mut self.entries, &mut self.places, Entry { item, value });
        let last = self.entries.len() - 1;
        join(&mut self.entries, &mut self.places, self.waiting, last);
        self.waiting += 1;
    }

    /// The least value of all items, waiting or parked; None where there is none.
    #[tactic(auto, using(crate::proofs::Limits::limits))]
    pub fn least(&self) -> Option<u64>
        ensures least { MatchOption result (all_of self.now ≡ []) (IsLeastValue (all_of self.now)) }
        ensures limits { QueueKeepsLimits self.now }
    {
        least_of(&self.entries, self.waiting)
    }

    /// A waiting item of least value; None where none waits.
    #[tactic(auto, using(crate::proofs::Limits::limits))]
    pub fn first(&self) -> Option<Entry>
        ensures first { MatchOption result (self.now.waiting ≡ []) (IsFirst self.now.waiting) }
        ensures front { result ≡ front self.now }
        ensures limits { QueueKeepsLimits self.now }
    {
        if self.waiting == 0 {
            return None;
        }
        Some(self.entries[0])
    }

    /// How many items wait with a value below this.
    pub fn waiting_below(&self, value: u64) -> usize
        ensures { result ≡ length (filter (λ e. nat_lt e.value value) self.now.waiting) }
    {
        self.entries[..self.waiting]
            .iter()
            .filter(|e| e.value < value)
            .count()
    }

    /// Parks the item that `first` gives, and gives it; None where none waits. Takes no memory.
    pub fn park(&mut self) -> Option<Entry>
        ensures first { MatchOption result (self.old.waiting ≡ []) (IsFirst self.old.waiting) }
        ensures front { result ≡ front self.old }
        ensures waiting { IfSome result
            (λ e. IsPermutation self.old.waiting (e ∷ self.new.waiting)) }
        ensures parked { IfSome result (λ e. IsPermutation (e ∷ self.old.parked) self.new.parked) }
        ensures room { KeepsRoom self.old self.new }
        ensures none { IfNone result (self.new ≡ self.old) }
    {
        if self.waiting == 0 {
            return None;
        }
        let first = self.entries[0];
        let left = self.waiting - 1;
        leave(&mut self.entries, &mut self.places, left);
        self.waiting = left;
        Some(first)
    }

    /// The value of a parked item; None where the item isn't parked.
    #[tactic(auto, using(crate::proofs::Limits::limits))]
    pub fn parked_value(&self, item: u32) -> Option<u64>
        ensures value { MatchOption result (¬ HasItem self.now.parked item)
            (λ value. Contains self.now.parked (entry item value)) }
        ensures limits { QueueKeepsLimits self.now }
    {
        let at = find(&self.entries, &self.places, item)?;
        if at < self.waiting {
            return None;
        }
        Some(self.entries[at].value)
    }

    /// The value of a waiting item; None where the item doesn't wait.
    #[tactic(auto, using(crate::proofs::Limits::limits))]
    pub fn waiting_value(&self, item: u32) -> Option<u64>
        ensures value { MatchOption result (¬ HasItem self.now.waiting item)
            (λ value. Contains self.now.waiting (entry item value)) }
        ensures limits { QueueKeepsLimits self.now }
    {
        let at = find(&self.entries, &self.places, item)?;
        if at >= self.waiting {
            return None;
        }
        Some(self.entries[at].value)
    }

    /// Lets a parked item wait again, and gives its value. Takes no memory.
    pub fn unpark(&mut self, item: u32) -> u64
        requires { HasItem self.old.parked item }
        ensures parked { IsPermutation self.old.parked (entry item result ∷ self.new.parked) }
        ensures waiting { IsPermutation (entry item result ∷ self.old.waiting) self.new.waiting }
        ensures room { KeepsRoom self.old self.new }
    {
        let at = place_of(&self.entries, &self.places, self.waiting, item);
        let value = self.entries[at].value;
        join(&mut self.entries, &mut self.places, self.waiting, at);
        self.waiting += 1;
        value
    }

    /// Takes a parked item out, and gives its value. Takes no memory.
    pub fn remove(&mut self, item: u32) -> u64
        requires { HasItem self.old.parked item }
        ensures parked { IsPermutation self.old.parked (entry item result ∷ self.new.parked) }
        ensures waiting { self.new.waiting ≡ self.old.waiting }
        ensures room { KeepsRoom self.old self.new }
    {
        let at = place_of(&self.entries, &self.places, self.waiting, item);
        let value = self.entries[at].value;
        take_out(&mut self.entries, &mut self.places, at);
        value
    }
}
