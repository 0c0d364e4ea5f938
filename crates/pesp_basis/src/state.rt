//! Where a simplex stands.

use crate::members::Member;
use crate::updates::Update;
use std::alloc::{AllocError, Global};

/// Where a slack or a line stands: its value, which is a line's sum; its price, which is a slack's reduced cost or a line's
/// multiplier; its place among the basic slacks or the tight lines; and where it is at an end, whether that is the greater one.
#[derive(Clone, Copy)]
pub struct Standing {
    pub value: i64,
    pub price: i64,
    pub place: Option<u32>,
    pub is_up: bool,
}

/// What stands at a place that no slack or line has any longer.
pub const VACANT: u32 = u32::MAX;

/// Where a simplex stands: the basic slacks and the tight lines, by place; all slacks and lines; the value; and how many
/// exchanges were made since the inverse was built. It is of the inverse of this number, with so many of its changes, and with
/// these behind them.
#[derive(Drop)]
pub struct State {
    pub basic: Vec<u32>,
    pub tight: Vec<u32>,
    pub slacks: Vec<Standing>,
    pub sums: Vec<Standing>,
    pub value: i64,
    pub since: u32,
    pub inverse: u64,
    pub kept: usize,
    pub updates: Vec<Update>,
}

/// A price that counts as 0.
const NO_PRICE: i64 = 64;

impl Standing {
    /// At its lesser end, without a place.
    pub fn at(value: i64, price: i64) -> Standing {
        Standing {
            value,
            price,
            place: None,
            is_up: false,
        }
    }

    /// Is at the end that its price wants; at the lesser one where it has no greater one.
    pub fn choose_end(&mut self, has_greater: bool) {
        if !has_greater || self.price > NO_PRICE {
            self.is_up = false;
        } else if self.price < -NO_PRICE {
            self.is_up = true;
        }
    }
}

/// A place is vacant.
fn vacate_at(numbers: &mut [u32], place: u32) {
    if let Some(slot) = numbers.get_mut(place as usize) {
        *slot = VACANT;
    }
}

impl State {
    /// Where nothing is.
    pub fn new(alloc: Global) -> State {
        State {
            basic: Vec::new(alloc),
            tight: Vec::new(alloc),
            slacks: Vec::new(alloc),
            sums: Vec::new(alloc),
            value: 0,
            since: 0,
            inverse: 0,
            kept: 0,
            updates: Vec::new(alloc),
        }
    }

    /// Copies another one into its place, but for changes of the inverse.
    pub fn copy(&mut self, other: &State) -> Result<(), AllocError> {
        self.basic.clear();
        self.basic.extend_from_slice(&other.basic)?;
        self.tight.clear();
        self.tight.extend_from_slice(&other.tight)?;
        self.slacks.clear();
        self.slacks.extend_from_slice(&other.slacks)?;
        self.sums.clear();
        self.sums.extend_from_slice(&other.sums)?;
        self.value = other.value;
        self.since = other.since;
        self.inverse = other.inverse;
        Ok(())
    }

    /// Where a slack or a line stands.
    pub fn standing(&self, member: Member) -> Option<Standing> {
        match member {
            Member::Slack(number) => self.slacks.get(number as usize).copied(),
            Member::Line(number) => self.sums.get(number as usize).copied(),
        }
    }

    /// The same, to be changed.
    fn standing_mut(&mut self, member: Member) -> Option<&mut Standing> {
        match member {
            Member::Slack(number) => self.slacks.get_mut(number as usize),
            Member::Line(number) => self.sums.get_mut(number as usize),
        }
    }

    /// The place of a slack among the basic ones, or of a line among the tight ones.
    pub fn place_of(&self, member: Member) -> Option<u32> {
        self.standing(member)?.place
    }

    /// Sets the place of a slack, or of a line.
    pub fn set_place(&mut self, member: Member, place: Option<u32>) {
        if let Some(standing) = self.standing_mut(member) {
            standing.place = place;
        }
    }

    /// A slack is basic, at a new place.
    pub fn push_slack(&mut self, slack: u32) -> Result<(), AllocError> {
        let place = u32::try_from(self.basic.len()).unwrap_or(VACANT);
        self.basic.push(slack)?;
        self.set_place(Member::Slack(slack), Some(place));
        Ok(())
    }

    /// A line is tight, at a new place.
    pub fn push_line(&mut self, line: u32) -> Result<(), AllocError> {
        let place = u32::try_from(self.tight.len()).unwrap_or(VACANT);
        self.tight.push(line)?;
        self.set_place(Member::Line(line), Some(place));
        Ok(())
    }

    /// The place of a slack or of a line is vacant.
    pub fn vacate(&mut self, member: Member) {
        let Some(place) = self.place_of(member) else {
            return;
        };
        self.set_place(member, None);
        match member {
            Member::Slack(_) => vacate_at(&mut self.basic, place),
            Member::Line(_) => vacate_at(&mut self.tight, place),
        }
    }

    /// Nothing has a place.
    pub fn clear_places(&mut self) {
        for slack in self.slacks.iter_mut() {
            slack.place = None;
        }
        for sum in self.sums.iter_mut() {
            sum.place = None;
        }
    }

    /// No slack stands at its span.
    pub fn clear_up(&mut self) {
        for slack in self.slacks.iter_mut() {
            slack.is_up = false;
        }
    }

    /// Slacks that should be basic and aren't stay at 0.
    pub fn lower(&mut self, basic: &[u32]) {
        for number in basic {
            if let Some(slack) = self.slacks.get_mut(*number as usize)
                && slack.place.is_none()
            {
                slack.is_up = false;
            }
        }
    }

    /// Whether a slack or a line is at its greater end.
    pub fn is_up(&self, member: Member) -> bool {
        match self.standing(member) {
            Some(standing) => standing.is_up,
            None => false,
        }
    }

    /// Sets at which end a slack or a line is.
    pub fn set_end(&mut self, member: Member, is_up: bool) {
        if let Some(standing) = self.standing_mut(member) {
            standing.is_up = is_up;
        }
    }

    /// Sets the reduced cost of a slack, or the multiplier of a line.
    pub fn set_price(&mut self, member: Member, price: i64) {
        if let Some(standing) = self.standing_mut(member) {
            standing.price = price;
        }
    }

    /// The new numbers of the lines that are marked or tight.
    pub fn numbers_kept(
        &self,
        alloc: Global,
        marks: &[bool],
    ) -> Result<Vec<Option<u32>>, AllocError> {
        let mut numbers = Vec::with_capacity(alloc, self.sums.len())?;
        let mut next = 0u32;
        for (place, sum) in self.sums.iter().enumerate() {
            let is_marked = marks.get(place).copied().unwrap_or(true);
            if is_marked || sum.place.is_some() {
                numbers.push(Some(next))?;
                next = next.wrapping_add(1);
            } else {
                numbers.push(None)?;
            }
        }
        Ok(numbers)
    }

    /// Gives the tight lines their new numbers.
    pub fn rename(&mut self, numbers: &[Option<u32>]) {
        for tight in self.tight.iter_mut() {
            if let Some(Some(number)) = numbers.get(*tight as usize).copied() {
                *tight = number;
            }
        }
    }
}
