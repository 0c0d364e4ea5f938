//! Lines of a base that are kept as they are, by the numbers of the new certificate.

use crate::copies::{copied_lemmas, copied_marked};
use crate::scales::growth_of;
use pesp_cert::{Fronted, ShownLemma};
use pesp_network::Network;
use pesp_offset_tree::SharpLine;
use pesp_problem::{MarkedWalk, Memory, Pair, Pairs};
use pesp_truth::TreeLine;
use std::alloc::Global;

/// The lines of a base of which some are kept: how many cycles the base has, for each of its marked walks its place among those
/// that kept lines name, how many these are, its lemmas, whether kept lines name one, and by what the multipliers grow of leaves
/// that name a marked walk or a lemma.
#[derive(Drop)]
pub struct KeptLines<'a> {
    tree: &'a [TreeLine],
    marked: &'a [MarkedWalk],
    lemmas: &'a [ShownLemma],
    cycles: u32,
    ranks: Vec<Option<u32>>,
    walks: u32,
    name_lemmas: bool,
    factor: i64,
}

/// The marked walks of a front.
fn marked_of(base: &Fronted) -> &[MarkedWalk] {
    match &base.front {
        Some(front) => front.marks().walks(),
        None => &[],
    }
}

/// The lemmas of a front.
fn lemmas_of(base: &Fronted) -> &[ShownLemma] {
    match &base.front {
        Some(front) => front.lemmas(),
        None => &[],
    }
}

/// The pairs of a line.
fn pairs_of(line: &TreeLine) -> &[Pair] {
    match line {
        TreeLine::Bound(pairs) | TreeLine::Nothing(pairs) => pairs.as_slice(),
        _ => &[],
    }
}

/// Whether pairs name a marked walk or a lemma.
pub(crate) fn name_walk(cycles: u32, pairs: &[Pair]) -> bool {
    for pair in pairs {
        if pair.cycle > cycles {
            return true;
        }
    }
    false
}

/// The place of what a pair names among the marked walks and the lemmas behind them.
fn marked_place(cycles: u32, pair: &Pair) -> Option<usize> {
    let behind = pair.cycle.checked_sub(cycles)?;
    Some(behind.checked_sub(1)? as usize)
}

/// Marks the walks that a line names.
fn mark(cycles: u32, line: &TreeLine, named: &mut [bool]) {
    for pair in pairs_of(line) {
        if let Some(place) = marked_place(cycles, pair)
            && let Some(slot) = named.get_mut(place)
        {
            *slot = true;
        }
    }
}

/// How many are marked.
fn count_marked(named: &[bool]) -> u32 {
    let mut count = 0u32;
    for is_named in named {
        if *is_named {
            count = count.wrapping_add(1);
        }
    }
    count
}

/// Whether one is marked behind the first so many.
fn marks_behind(named: &[bool], first: usize) -> bool {
    let behind = named.get(first..).unwrap_or(&[]);
    count_marked(behind) > 0
}

/// The places among those that are marked.
fn ranks_of(alloc: Global, named: &[bool]) -> Result<Vec<Option<u32>>, Memory> {
    let mut ranks = Vec::with_capacity(alloc, named.len())?;
    let mut next = 0u32;
    for is_named in named {
        if *is_named {
            ranks.push(Some(next))?;
            next = next.wrapping_add(1);
        } else {
            ranks.push(None)?;
        }
    }
    Ok(ranks)
}

impl<'a> KeptLines<'a> {
    /// The lines of a base of which these lines keep some.
    pub fn of(
        alloc: Global,
        network: &Network,
        base: &'a Fronted,
        lines: &[SharpLine],
    ) -> Result<KeptLines<'a>, Memory> {
        let marked = marked_of(base);
        let lemmas = lemmas_of(base);
        let cycles = u32::try_from(base.certificate.cycles().len()).unwrap_or(u32::MAX);
        let mut kept = KeptLines {
            tree: base.certificate.tree(),
            marked,
            lemmas,
            cycles,
            ranks: Vec::new(alloc),
            walks: 0,
            name_lemmas: false,
            factor: growth_of(base, network),
        };
        let mut named = vec![in alloc; false; marked.len().saturating_add(lemmas.len())]?;
        for line in lines {
            kept.mark_run(line, &mut named);
        }
        let walks = named.get(..marked.len()).unwrap_or(&[]);
        kept.ranks = ranks_of(alloc, walks)?;
        kept.walks = count_marked(walks);
        kept.name_lemmas = marks_behind(&named, marked.len());
        Ok(kept)
    }

    /// The lines of the base that a line keeps.
    fn run(&self, line: &SharpLine) -> &'a [TreeLine] {
        match line {
            SharpLine::Kept { first, count, .. } => {
                let first = *first as usize;
                let end = first.saturating_add(*count as usize);
                self.tree.get(first..end).unwrap_or(&[])
            }
            _ => &[],
        }
    }

    /// Marks the walks and lemmas that the lines name that a line keeps.
    fn mark_run(&self, line: &SharpLine, named: &mut [bool]) {
        for kept in self.run(line) {
            mark(self.cycles, kept, named);
        }
    }

    /// The marked walks that kept lines name, behind these.
    pub fn add_walks(&self, alloc: Global, walks: &mut Vec<MarkedWalk>) -> Result<(), Memory> {
        for (place, walk) in self.marked.iter().enumerate() {
            if let Some(Some(_)) = self.ranks.get(place) {
                walks.push(copied_marked(alloc, walk)?)?;
            }
        }
        Ok(())
    }

    /// Copies of the lemmas, where kept lines name one; they stand behind all walks.
    pub fn lemmas(&self, alloc: Global) -> Result<Vec<ShownLemma>, Memory> {
        if !self.name_lemmas {
            return Ok(Vec::new(alloc));
        }
        copied_lemmas(alloc, self.lemmas)
    }

    /// The place of a lemma among what is kept, where it stands at this place behind the base's cycles.
    fn lemma_rank(&self, place: usize) -> u32 {
        let lemma = u32::try_from(place.saturating_sub(self.ranks.len())).unwrap_or(u32::MAX);
        self.walks.saturating_add(lemma)
    }

    /// The number of what a pair names, where the marked walks that are kept stand behind so many cycles and walks.
    fn number(&self, pair: &Pair, behind: u32) -> u32 {
        let Some(place) = marked_place(self.cycles, pair) else {
            return pair.cycle;
        };
        let rank = match self.ranks.get(place).copied() {
            Some(Some(rank)) => rank,
            Some(None) => u32::MAX,
            None => self.lemma_rank(place),
        };
        behind.saturating_add(rank).saturating_add(1)
    }

    /// Pairs by these numbers.
    fn renumbered(&self, alloc: Global, pairs: &[Pair], behind: u32) -> Result<Pairs, Memory> {
        let factor = if name_walk(self.cycles, pairs) {
            self.factor
        } else {
            1
        };
        let mut renumbered = Vec::with_capacity(alloc, pairs.len())?;
        for pair in pairs {
            renumbered.push(Pair {
                cycle: self.number(pair, behind),
                mult: pair.mult.wrapping_mul(factor),
            })?;
        }
        Ok(Pairs::new(renumbered))
    }

    /// A line by these numbers.
    fn line(&self, alloc: Global, line: &TreeLine, behind: u32) -> Result<TreeLine, Memory> {
        match line {
            TreeLine::Bound(pairs) => {
                let pairs = self.renumbered(alloc, pairs.as_slice(), behind)?;
                Ok(TreeLine::Bound(pairs))
            }
            TreeLine::Nothing(pairs) => {
                let pairs = self.renumbered(alloc, pairs.as_slice(), behind)?;
                Ok(TreeLine::Nothing(pairs))
            }
            TreeLine::Slack { row, k } => Ok(TreeLine::Slack { row: *row, k: *k }),
            TreeLine::Offset { cycle, k } => Ok(TreeLine::Offset {
                cycle: *cycle,
                k: *k,
            }),
            TreeLine::Gap(cycle) => Ok(TreeLine::Gap(*cycle)),
            TreeLine::Propagated => Ok(TreeLine::Propagated),
        }
    }

    /// The lines that a line keeps, behind others; the marked walks that are kept stand behind so many cycles and walks.
    pub(crate) fn add_lines(
        &self,
        alloc: Global,
        tree: &mut Vec<TreeLine>,
        line: &SharpLine,
        behind: u32,
    ) -> Result<(), Memory> {
        for kept in self.run(line) {
            tree.push(self.line(alloc, kept, behind)?)?;
        }
        Ok(())
    }
}
