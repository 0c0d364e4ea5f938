//! Two certificates that are one leaf each behind lemmas, as one leaf that names the lemmas of both.

use crate::answers::{answer_of, copied_times, lesser};
use crate::factors::{Factors, factors_of};
use crate::fronts::{joined_cycles, joined_walks, walks_of};
use crate::lemmas::{common_lemmas, joined_lemmas, lemmas_of};
use crate::lines::Retelling;
use crate::merged::{common_cycles, common_walks};
use crate::names::{Common, Named, Numbering};
use pesp_cert::{Certificate, Front, Fronted, Marks};
use pesp_problem::{Memory, Pair, Pairs};
use pesp_truth::{Answer, TreeLine};
use std::alloc::Global;

/// A certificate that is one bound leaf behind lemmas, the pairs of that leaf, and by what their multipliers grow.
#[derive(Clone, Copy)]
struct LemmaLeaf<'a> {
    fronted: &'a Fronted,
    pairs: &'a [Pair],
    factor: i64,
}

/// Two of them, which of the other one's cycles, marked walks and lemmas are ours, and the scale of both.
#[derive(Clone, Copy)]
struct LeafPair<'a> {
    own: LemmaLeaf<'a>,
    other: LemmaLeaf<'a>,
    common: Common<'a>,
    scale: u32,
}

/// The pairs of a certificate that is one bound leaf behind lemmas; None of any other one.
fn pairs_of(fronted: &Fronted) -> Option<&[Pair]> {
    let tree = fronted.certificate.tree();
    if tree.len() != 1 || lemmas_of(&fronted.front).is_empty() {
        return None;
    }
    match tree.first() {
        Some(TreeLine::Bound(pairs)) => Some(pairs.as_slice()),
        _ => None,
    }
}

/// The lesser of two multipliers of one sign; 0 where their signs differ.
fn lesser_of(a: i64, b: i64) -> i64 {
    if a > 0 && b > 0 {
        a.min(b)
    } else if a < 0 && b < 0 {
        a.max(b)
    } else {
        0
    }
}

/// A place among ours, where there is one.
fn place_in(matched: &[Option<u32>], place: usize) -> Option<usize> {
    match matched.get(place) {
        Some(Some(ours)) => Some(*ours as usize),
        _ => None,
    }
}

impl<'a> LemmaLeaf<'a> {
    /// The certificate behind the front.
    fn certificate(&self) -> &'a Certificate {
        let fronted = self.fronted;
        &fronted.certificate
    }

    /// The front.
    fn front(&self) -> &'a Option<Front> {
        let fronted = self.fronted;
        &fronted.front
    }

    /// How many cycles there are.
    fn cycles(&self) -> usize {
        self.certificate().cycles().len()
    }

    /// How many cycles and marked walks there are.
    fn behind(&self) -> usize {
        self.cycles().saturating_add(walks_of(self.front()).len())
    }

    /// The place of what a pair names among cycles, marked walks and lemmas.
    fn place(&self, pair: &Pair) -> usize {
        (pair.cycle as usize).wrapping_sub(1)
    }

    /// Whether a pair names a lemma.
    fn is_lemma(&self, pair: &Pair) -> bool {
        self.place(pair) >= self.behind()
    }

    /// The multiplier of a pair in the scale of both.
    fn multiplier(&self, pair: &Pair) -> i64 {
        pair.mult.saturating_mul(self.factor)
    }

    /// The pairs that name lemmas, in the scale of both.
    fn add_lemmas(&self, pairs: &mut Vec<Pair>) -> Result<(), Memory> {
        for pair in self.pairs {
            if self.is_lemma(pair) {
                pairs.push(Pair {
                    cycle: pair.cycle,
                    mult: self.multiplier(pair),
                })?;
            }
        }
        Ok(())
    }

    /// Which of its cycles, marked walks and lemmas pairs name.
    fn named(&self, alloc: Global, pairs: &[Pair]) -> Result<Named, Memory> {
        let walks = walks_of(self.front()).len();
        let lemmas = lemmas_of(self.front()).len();
        let mut named = Named::none(alloc, self.cycles(), walks, lemmas)?;
        named.mark_pairs(pairs);
        Ok(named)
    }

    /// Pairs by new numbers; None where they can't be told.
    fn retold(
        &self,
        alloc: Global,
        pairs: &[Pair],
        numbers: &[u32],
    ) -> Result<Option<Pairs>, Memory> {
        let retelling = Retelling {
            cycles: self.cycles(),
            first: 0,
            behind: 0,
            numbers,
            factor: 1,
        };
        retelling.pairs(alloc, pairs)
    }
}

impl LeafPair<'_> {
    /// The place among ours of a cycle or a marked walk that the other leaf names; None where there is none.
    fn ours(&self, pair: &Pair) -> Option<usize> {
        let place = self.other.place(pair);
        match place.checked_sub(self.other.cycles()) {
            None => place_in(self.common.cycles, place),
            Some(walk) => Some(place_in(self.common.walks, walk)?.saturating_add(
                self.own.cycles(),
            )),
        }
    }

    /// The other leaf's multipliers of our cycles and marked walks; 0 where it names them not.
    fn others(&self, alloc: Global) -> Result<Vec<i64>, Memory> {
        let mut multipliers = vec![in alloc; 0i64; self.own.behind()]?;
        for pair in self.other.pairs {
            if let Some(place) = self.ours(pair)
                && let Some(slot) = multipliers.get_mut(place)
            {
                *slot = self.other.multiplier(pair);
            }
        }
        Ok(multipliers)
    }

    /// What both leaves name of our cycles and marked walks, each with the lesser multiplier, and our lemmas.
    fn own_pairs(&self, alloc: Global) -> Result<Vec<Pair>, Memory> {
        let others = self.others(alloc)?;
        let mut pairs = Vec::new(alloc);
        for pair in self.own.pairs {
            let other = others.get(self.own.place(pair)).copied().unwrap_or(0);
            let mult = lesser_of(self.own.multiplier(pair), other);
            if mult != 0 {
                pairs.push(Pair {
                    cycle: pair.cycle,
                    mult,
                })?;
            }
        }
        self.own.add_lemmas(&mut pairs)?;
        Ok(pairs)
    }

    /// The other leaf's lemmas.
    fn other_pairs(&self, alloc: Global) -> Result<Vec<Pair>, Memory> {
        let mut pairs = Vec::new(alloc);
        self.other.add_lemmas(&mut pairs)?;
        Ok(pairs)
    }

    /// The numbers of what these pairs name.
    fn numbering(
        &self,
        alloc: Global,
        own_pairs: &[Pair],
        other_pairs: &[Pair],
    ) -> Result<Numbering, Memory> {
        let mut own = self.own.named(alloc, own_pairs)?;
        match self.other.named(alloc, other_pairs) {
            Ok(other) => {
                let numbering = Numbering::of(alloc, &mut own, &other, self.common);
                drop(own);
                drop(other);
                numbering
            }
            Err(refused) => {
                drop(own);
                Err(refused)
            }
        }
    }

    /// The answer: no lesser bound than either's, beside the cheaper times.
    fn answer(&self) -> Answer {
        let own = self.own.certificate().answer();
        let other = self.other.certificate().answer();
        answer_of(
            own.least()
                .unwrap_or(u64::MAX)
                .max(other.least().unwrap_or(u64::MAX)),
            lesser(own.cost(), other.cost()),
        )
    }

    /// The cheaper times.
    fn times(&self, alloc: Global) -> Result<Vec<(i64, u32)>, Memory> {
        let own = self.own.certificate().answer().cost();
        let other = self.other.certificate().answer().cost();
        let from = if lesser(own, other) == own {
            self.own
        } else {
            self.other
        };
        copied_times(alloc, from.certificate().times())
    }

    /// The certificate behind the front, whose tree is this leaf; None where it would pass a limit.
    fn certificate(
        &self,
        alloc: Global,
        numbering: &Numbering,
        leaf: TreeLine,
    ) -> Result<Option<Certificate>, Memory> {
        let own = self.own.certificate();
        let other = self.other.certificate();
        let mut tree = Vec::new(alloc);
        tree.push(leaf)?;
        let cycles = joined_cycles(alloc, own.cycles(), other.cycles(), numbering)?;
        let times = self.times(alloc)?;
        let version = own.version().max(other.version());
        Ok(Certificate::new(version, own.period(), self.answer(), times, cycles, tree).ok())
    }

    /// The scale and the marked walks; None where they would pass a limit.
    fn marks(&self, alloc: Global, numbering: &Numbering) -> Result<Option<Marks>, Memory> {
        let own = walks_of(self.own.front());
        let other = walks_of(self.other.front());
        let walks = joined_walks(alloc, own, other, numbering)?;
        Ok(Marks::new(self.scale, walks).ok())
    }

    /// The front; None where it would pass a limit.
    fn front(&self, alloc: Global, numbering: &Numbering) -> Result<Option<Front>, Memory> {
        let Some(marks) = self.marks(alloc, numbering)? else {
            return Ok(None);
        };
        let own = lemmas_of(self.own.front());
        let other = lemmas_of(self.other.front());
        match joined_lemmas(alloc, own, other, numbering) {
            Ok(Some(lemmas)) => Ok(Front::new(marks, lemmas).ok()),
            Ok(None) => {
                drop(marks);
                Ok(None)
            }
            Err(refused) => {
                drop(marks);
                Err(refused)
            }
        }
    }

    /// The certificate with its front, whose tree is this leaf; None where a part would pass a limit.
    fn fronted(
        &self,
        alloc: Global,
        numbering: &Numbering,
        leaf: TreeLine,
    ) -> Result<Option<Fronted>, Memory> {
        let Some(certificate) = self.certificate(alloc, numbering, leaf)? else {
            return Ok(None);
        };
        match self.front(alloc, numbering) {
            Ok(Some(front)) => Ok(Some(Fronted {
                front: Some(front),
                certificate,
            })),
            Ok(None) => {
                drop(certificate);
                Ok(None)
            }
            Err(refused) => {
                drop(certificate);
                Err(refused)
            }
        }
    }

    /// The leaf of these pairs by these numbers; None where it can't be told.
    fn leaf(
        &self,
        alloc: Global,
        own_pairs: &[Pair],
        other_pairs: &[Pair],
        numbering: &Numbering,
    ) -> Result<Option<TreeLine>, Memory> {
        let Some(own) = self.own.retold(alloc, own_pairs, &numbering.own)? else {
            return Ok(None);
        };
        let Some(other) = self.other.retold(alloc, other_pairs, &numbering.other)? else {
            return Ok(None);
        };
        Ok(Some(joined_leaf(alloc, &own, &other)?))
    }

    /// What comes of both by these pairs; None where a part would pass a limit.
    fn joined(
        &self,
        alloc: Global,
        own_pairs: &[Pair],
        other_pairs: &[Pair],
    ) -> Result<Option<Fronted>, Memory> {
        let numbering = self.numbering(alloc, own_pairs, other_pairs)?;
        let fronted = match self.leaf(alloc, own_pairs, other_pairs, &numbering) {
            Ok(Some(leaf)) => self.fronted(alloc, &numbering, leaf),
            Ok(None) => Ok(None),
            Err(refused) => Err(refused),
        };
        drop(numbering);
        fronted
    }
}

/// A leaf of the pairs of two, in rising order; where both name the same lemma once.
fn joined_leaf(alloc: Global, own: &Pairs, other: &Pairs) -> Result<TreeLine, Memory> {
    let mut pairs = Vec::from_slice(alloc, own.as_slice())?;
    for pair in other.as_slice() {
        if !own.as_slice().iter().any(|ours| ours.cycle == pair.cycle) {
            pairs.push(*pair)?;
        }
    }
    pairs.sort_unstable_by_key(|pair| pair.cycle);
    Ok(TreeLine::Bound(Pairs::new(pairs)))
}

/// What comes of two such leaves, where this is common to both.
fn with_common(
    alloc: Global,
    own: LemmaLeaf<'_>,
    other: LemmaLeaf<'_>,
    common: Common<'_>,
    scale: u32,
) -> Result<Option<Fronted>, Memory> {
    let leaves = LeafPair {
        own,
        other,
        common,
        scale,
    };
    let own_pairs = leaves.own_pairs(alloc)?;
    let other_pairs = leaves.other_pairs(alloc)?;
    leaves.joined(alloc, &own_pairs, &other_pairs)
}

/// What comes of two such leaves.
fn of_both(
    alloc: Global,
    own: LemmaLeaf<'_>,
    other: LemmaLeaf<'_>,
    scale: u32,
) -> Result<Option<Fronted>, Memory> {
    let cycles = common_cycles(alloc, own.certificate(), other.certificate())?;
    let walks = common_walks(alloc, own.front(), other.front())?;
    let ours = lemmas_of(own.front());
    let lemmas = common_lemmas(alloc, ours, lemmas_of(other.front()))?;
    if lemmas.iter().all(|place| place.is_some()) {
        return Ok(None);
    }
    let common = Common {
        cycles: &cycles,
        walks: &walks,
        lemmas: &lemmas,
    };
    with_common(alloc, own, other, common, scale)
}

/// Two certificates that are one leaf each behind lemmas, as one whose leaf names the lemmas of both. Of cycles and marked walks it
/// names those that both leaves do, with the lesser multiplier: so where lemmas of one took the place of walks that the other one
/// names, they go on to do so. None where one of both is no such leaf, the other one has no lemma that isn't ours, or a part would
/// pass a limit. The answer tells the greater bound of both, and the leaf may show more.
pub fn merge_leaves(
    alloc: Global,
    own: &Fronted,
    other: &Fronted,
) -> Result<Option<Fronted>, Memory> {
    let Factors {
        scale,
        own: own_factor,
        other: other_factor,
    } = factors_of(&own.front, &other.front);
    let (Some(own_pairs), Some(other_pairs)) = (pairs_of(own), pairs_of(other)) else {
        return Ok(None);
    };
    let own = LemmaLeaf {
        fronted: own,
        pairs: own_pairs,
        factor: own_factor,
    };
    let other = LemmaLeaf {
        fronted: other,
        pairs: other_pairs,
        factor: other_factor,
    };
    of_both(alloc, own, other, scale)
}
