//! The numbers of what two certificates name, in the one that comes of both.

use pesp_problem::{Memory, Pair};
use pesp_truth::TreeLine;
use std::alloc::Global;

/// Which of a certificate's cycles and marked walks are named, and which of its lemmas.
#[derive(Drop)]
pub(crate) struct Named {
    cycles: Vec<bool>,
    walks: Vec<bool>,
    lemmas: Vec<bool>,
}

/// The pairs of a line.
fn pairs_of(line: &TreeLine) -> &[Pair] {
    match line {
        TreeLine::Bound(pairs) | TreeLine::Nothing(pairs) => pairs.as_slice(),
        _ => &[],
    }
}

/// Marks a place.
fn mark_at(marks: &mut [bool], place: usize) {
    if let Some(slot) = marks.get_mut(place) {
        *slot = true;
    }
}

impl Named {
    /// None of so many cycles, marked walks and lemmas is named.
    pub(crate) fn none(
        alloc: Global,
        cycles: usize,
        walks: usize,
        lemmas: usize,
    ) -> Result<Named, Memory> {
        Ok(Named {
            cycles: vec![in alloc; false; cycles]?,
            walks: vec![in alloc; false; walks]?,
            lemmas: vec![in alloc; false; lemmas]?,
        })
    }

    /// Marks what has a number: cycles are numbered from 1, marked walks on from them, and lemmas on from these.
    fn mark(&mut self, number: u32) {
        let place = (number as usize).wrapping_sub(1);
        let Some(walk) = place.checked_sub(self.cycles.len()) else {
            mark_at(&mut self.cycles, place);
            return;
        };
        match walk.checked_sub(self.walks.len()) {
            Some(lemma) => mark_at(&mut self.lemmas, lemma),
            None => mark_at(&mut self.walks, walk),
        }
    }

    /// How many lemmas there are up to the last that is named.
    fn wanted_lemmas(&self) -> usize {
        let mut wanted = 0usize;
        for (place, is_named) in self.lemmas.iter().enumerate() {
            if *is_named {
                wanted = place.saturating_add(1);
            }
        }
        wanted
    }

    /// Marks what a line names.
    fn mark_line(&mut self, line: &TreeLine) {
        if let TreeLine::Offset { cycle, .. } | TreeLine::Gap(cycle) = line {
            self.mark(*cycle);
        }
        self.mark_pairs(pairs_of(line));
    }

    /// Marks what pairs name.
    pub(crate) fn mark_pairs(&mut self, pairs: &[Pair]) {
        for pair in pairs {
            self.mark(pair.cycle);
        }
    }

    /// Marks what lines name.
    pub(crate) fn mark_lines(&mut self, lines: &[TreeLine]) {
        for line in lines {
            self.mark_line(line);
        }
    }

    /// Marks our walks that are among the others' named ones.
    fn mark_matched(&mut self, others: &Named, matched: &[Option<u32>]) {
        for (walk, place) in matched.iter().enumerate() {
            if let Some(place) = place
                && let Some(true) = others.walks.get(walk)
            {
                mark_at(&mut self.walks, *place as usize);
            }
        }
    }
}

/// The places of the other certificate's cycles, marked walks and lemmas among ours; None where there is none.
#[derive(Clone, Copy)]
pub(crate) struct Common<'a> {
    pub(crate) cycles: &'a [Option<u32>],
    pub(crate) walks: &'a [Option<u32>],
    pub(crate) lemmas: &'a [Option<u32>],
}

/// The number of each cycle, each marked walk and each lemma of both certificates, `u32::MAX` where it is left out; which of the other
/// one's cycles stand behind ours, which of our walks are kept, and which of the other one's stand behind them; and the same of
/// lemmas, with the numbers that these have among themselves, from 1.
#[derive(Drop)]
pub(crate) struct Numbering {
    pub(crate) own: Vec<u32>,
    pub(crate) other: Vec<u32>,
    pub(crate) new_cycles: Vec<u32>,
    pub(crate) kept_walks: Vec<u32>,
    pub(crate) new_walks: Vec<u32>,
    pub(crate) own_lemmas: Vec<u32>,
    pub(crate) other_lemmas: Vec<u32>,
    pub(crate) kept_lemmas: Vec<u32>,
    pub(crate) new_lemmas: Vec<u32>,
}

/// A place as a number.
fn number_of(place: usize) -> u32 {
    u32::try_from(place).unwrap_or(u32::MAX)
}

/// The other certificate's cycles or walks: which are named, which of ours each is, the numbers of ours, and the first number of
/// those that are new.
#[derive(Clone, Copy)]
struct Theirs<'a> {
    named: &'a [bool],
    matched: &'a [Option<u32>],
    ours: &'a [u32],
    first: u32,
}

impl Theirs<'_> {
    /// Whether the one at a place is named.
    fn is_named(&self, place: usize) -> bool {
        self.named.get(place).copied().unwrap_or(false)
    }

    /// Puts their numbers into a list, and the places of those that are named and new into another.
    fn number(&self, new: &mut Vec<u32>, numbers: &mut Vec<u32>) -> Result<(), Memory> {
        for (place, ours) in self.matched.iter().enumerate() {
            let number = match ours {
                Some(ours) => self.ours.get(*ours as usize).copied().unwrap_or(u32::MAX),
                None if self.is_named(place) => {
                    let rank = number_of(new.len());
                    new.push(number_of(place))?;
                    self.first.saturating_add(rank)
                }
                None => u32::MAX,
            };
            numbers.push(number)?;
        }
        Ok(())
    }
}

impl Numbering {
    /// Nothing is numbered yet.
    fn empty(alloc: Global) -> Numbering {
        Numbering {
            own: Vec::new(alloc),
            other: Vec::new(alloc),
            new_cycles: Vec::new(alloc),
            kept_walks: Vec::new(alloc),
            new_walks: Vec::new(alloc),
            own_lemmas: Vec::new(alloc),
            other_lemmas: Vec::new(alloc),
            kept_lemmas: Vec::new(alloc),
            new_lemmas: Vec::new(alloc),
        }
    }

    /// Our cycles keep their numbers.
    fn number_our_cycles(&mut self, cycles: usize) -> Result<(), Memory> {
        for place in 0..cycles {
            self.own.push(number_of(place).saturating_add(1))?;
        }
        Ok(())
    }

    /// Those of the other certificate that are named and aren't ours come behind them.
    fn number_their_cycles(
        &mut self,
        named: &[bool],
        matched: &[Option<u32>],
    ) -> Result<(), Memory> {
        let first = number_of(self.own.len()).saturating_add(1);
        let theirs = Theirs {
            named,
            matched,
            ours: &self.own,
            first,
        };
        theirs.number(&mut self.new_cycles, &mut self.other)
    }

    /// Our walks that are named are numbered on from all cycles.
    fn number_our_walks(&mut self, first: u32, named: &[bool]) -> Result<(), Memory> {
        for (place, is_named) in named.iter().enumerate() {
            if *is_named {
                let rank = number_of(self.kept_walks.len());
                self.own.push(first.saturating_add(rank))?;
                self.kept_walks.push(number_of(place))?;
            } else {
                self.own.push(u32::MAX)?;
            }
        }
        Ok(())
    }

    /// The others' walks that are named and aren't ours come behind them; `cycles` is how many cycles are ours.
    fn number_their_walks(
        &mut self,
        first: u32,
        cycles: usize,
        named: &[bool],
        matched: &[Option<u32>],
    ) -> Result<(), Memory> {
        let theirs = Theirs {
            named,
            matched,
            ours: self.own.get(cycles..).unwrap_or(&[]),
            first,
        };
        theirs.number(&mut self.new_walks, &mut self.other)
    }

    /// Our lemmas keep their order.
    fn number_our_lemmas(&mut self, behind: u32, lemmas: usize) -> Result<(), Memory> {
        for place in 0..lemmas {
            let number = number_of(place).saturating_add(1);
            self.own_lemmas.push(number)?;
            self.own.push(behind.saturating_add(number))?;
            self.kept_lemmas.push(number_of(place))?;
        }
        Ok(())
    }

    /// The number of a lemma that is new.
    fn new_lemma(&self) -> u32 {
        let before = self.kept_lemmas.len().saturating_add(self.new_lemmas.len());
        number_of(before).saturating_add(1)
    }

    /// The first so many of the others' lemmas come behind them, where they aren't ours: their trees may name those before them.
    fn number_their_lemmas(
        &mut self,
        behind: u32,
        wanted: usize,
        matched: &[Option<u32>],
    ) -> Result<(), Memory> {
        for (place, ours) in matched.iter().enumerate() {
            let number = match ours {
                Some(ours) => ours.saturating_add(1),
                None if place < wanted => {
                    let number = self.new_lemma();
                    self.new_lemmas.push(number_of(place))?;
                    number
                }
                None => u32::MAX,
            };
            self.other_lemmas.push(number)?;
            self.other.push(behind.saturating_add(number))?;
        }
        Ok(())
    }

    /// Numbers cycles and walks that are named; how many these are.
    fn number_walks(
        &mut self,
        own: &Named,
        other: &Named,
        common: Common<'_>,
    ) -> Result<u32, Memory> {
        let count = own.cycles.len();
        self.number_our_cycles(count)?;
        self.number_their_cycles(&other.cycles, common.cycles)?;
        let all = number_of(count.saturating_add(self.new_cycles.len()));
        let first = all.saturating_add(1);
        self.number_our_walks(first, &own.walks)?;
        let behind = first.saturating_add(number_of(self.kept_walks.len()));
        self.number_their_walks(behind, count, &other.walks, common.walks)?;
        let walks = self.kept_walks.len().saturating_add(self.new_walks.len());
        Ok(all.saturating_add(number_of(walks)))
    }

    /// Numbers what is named, and our lemmas.
    fn number_all(&mut self, own: &Named, other: &Named, common: Common<'_>) -> Result<(), Memory> {
        let behind = self.number_walks(own, other, common)?;
        self.number_our_lemmas(behind, own.lemmas.len())?;
        self.number_their_lemmas(behind, other.wanted_lemmas(), common.lemmas)
    }

    /// The numbers of what is named, where these of the other certificate's cycles, walks and lemmas are ours.
    pub(crate) fn of(
        alloc: Global,
        own: &mut Named,
        other: &Named,
        common: Common<'_>,
    ) -> Result<Numbering, Memory> {
        own.mark_matched(other, common.walks);
        let mut numbering = Numbering::empty(alloc);
        match numbering.number_all(own, other, common) {
            Ok(()) => Ok(numbering),
            Err(refused) => {
                drop(numbering);
                Err(refused)
            }
        }
    }
}
