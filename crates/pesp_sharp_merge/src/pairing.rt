//! Two certificates whose trees are walked through together, as one.

use crate::answers::{answer_of, copied_times, lesser};
use crate::factors::{Factors, factors_of};
use crate::fronts::{joined_cycles, joined_walks, walks_of};
use crate::lemmas::{joined_lemmas, lemmas_of};
use crate::lines::Retelling;
use crate::names::{Common, Named, Numbering};
use crate::runs::{Run, Trees};
use pesp_cert::{Certificate, Front, Fronted, Marks, ShownLemma};
use pesp_problem::Memory;
use pesp_truth::{Answer, TreeLine};
use std::alloc::Global;

/// A certificate, and for each line of its tree what it shows, where it is a bound leaf.
#[derive(Clone, Copy)]
pub struct ShownCertificate<'a> {
    pub fronted: &'a Fronted,
    pub costs: &'a [Option<u64>],
}

/// Two certificates whose trees were walked through.
#[derive(Clone, Copy)]
pub(crate) struct Pairing<'a> {
    pub(crate) own: ShownCertificate<'a>,
    pub(crate) other: ShownCertificate<'a>,
    pub(crate) trees: Trees<'a>,
    pub(crate) runs: &'a [Run],
    pub(crate) common: Common<'a>,
}

impl<'a> ShownCertificate<'a> {
    /// The certificate behind the front.
    pub(crate) fn certificate(&self) -> &'a Certificate {
        let fronted = self.fronted;
        &fronted.certificate
    }

    /// The front.
    pub(crate) fn front(&self) -> &'a Option<Front> {
        let fronted = self.fronted;
        &fronted.front
    }

    /// The cost of its times.
    pub(crate) fn cost(&self) -> Option<u64> {
        self.certificate().answer().cost()
    }
}

impl Pairing<'_> {
    /// What of a certificate's the lines name that are taken from it.
    fn named(&self, alloc: Global, of_other: bool) -> Result<Named, Memory> {
        let from = if of_other { self.other } else { self.own };
        let cycles = from.certificate().cycles().len();
        let walks = walks_of(from.front()).len();
        let lemmas = lemmas_of(from.front()).len();
        let mut named = Named::none(alloc, cycles, walks, lemmas)?;
        for run in self.runs {
            if run.is_other == of_other {
                named.mark_lines(self.trees.lines(run));
            }
        }
        Ok(named)
    }

    /// The numbers of what is named.
    fn numbering(&self, alloc: Global) -> Result<Numbering, Memory> {
        let mut own = self.named(alloc, false)?;
        match self.named(alloc, true) {
            Ok(other) => {
                let numbering = Numbering::of(alloc, &mut own, &other, self.common);
                drop(own);
                drop(other);
                numbering
            }
            Err(refused) => {
                drop(own);
                Err(refused)
            }
        }
    }

    /// Adds the lines of a run; false where one can't be told.
    fn add_run(
        &self,
        alloc: Global,
        tree: &mut Vec<TreeLine>,
        run: &Run,
        retelling: Retelling<'_>,
    ) -> Result<bool, Memory> {
        for line in self.trees.lines(run) {
            match retelling.line(alloc, line)? {
                Some(line) => tree.push(line)?,
                None => return Ok(false),
            }
        }
        Ok(true)
    }

    /// The lines of the tree; None where one can't be told.
    fn tree(
        &self,
        alloc: Global,
        numbering: &Numbering,
        factors: Factors,
    ) -> Result<Option<Vec<TreeLine>>, Memory> {
        let own = Retelling {
            cycles: self.own.certificate().cycles().len(),
            first: 0,
            behind: 0,
            numbers: &numbering.own,
            factor: factors.own,
        };
        let other = Retelling {
            cycles: self.other.certificate().cycles().len(),
            first: 0,
            behind: 0,
            numbers: &numbering.other,
            factor: factors.other,
        };
        let mut tree = Vec::new(alloc);
        for run in self.runs {
            let retelling = if run.is_other { other } else { own };
            if !self.add_run(alloc, &mut tree, run, retelling)? {
                return Ok(None);
            }
        }
        Ok(Some(tree))
    }

    /// Whether the other certificate's times cost less.
    pub(crate) fn times_are_cheaper(&self) -> bool {
        match (self.other.cost(), self.own.cost()) {
            (Some(cost), Some(ours)) => cost < ours,
            (Some(_), None) => true,
            (None, _) => false,
        }
    }

    /// The cheaper times.
    fn times(&self, alloc: Global) -> Result<Vec<(i64, u32)>, Memory> {
        let from = if self.times_are_cheaper() {
            self.other
        } else {
            self.own
        };
        copied_times(alloc, from.certificate().times())
    }

    /// The certificate behind the front; None where it would pass a limit.
    fn certificate(
        &self,
        alloc: Global,
        numbering: &Numbering,
        factors: Factors,
    ) -> Result<Option<Certificate>, Memory> {
        let (own, other) = (self.own.certificate(), self.other.certificate());
        let Some(tree) = self.tree(alloc, numbering, factors)? else {
            return Ok(None);
        };
        let cycles = joined_cycles(alloc, own.cycles(), other.cycles(), numbering)?;
        let times = self.times(alloc)?;
        let version = own.version().max(other.version());
        Ok(Certificate::new(version, own.period(), self.answer(), times, cycles, tree).ok())
    }

    /// The scale and the marked walks; None where they would pass a limit.
    fn marks(
        &self,
        alloc: Global,
        numbering: &Numbering,
        factors: Factors,
    ) -> Result<Option<Marks>, Memory> {
        let own = walks_of(self.own.front());
        let other = walks_of(self.other.front());
        let walks = joined_walks(alloc, own, other, numbering)?;
        Ok(Marks::new(factors.scale, walks).ok())
    }

    /// The lemmas; None where one can't be told.
    fn lemmas(
        &self,
        alloc: Global,
        numbering: &Numbering,
    ) -> Result<Option<Vec<ShownLemma>>, Memory> {
        let own = lemmas_of(self.own.front());
        let other = lemmas_of(self.other.front());
        joined_lemmas(alloc, own, other, numbering)
    }

    /// The front; None where it would pass a limit.
    fn front(
        &self,
        alloc: Global,
        numbering: &Numbering,
        factors: Factors,
    ) -> Result<Option<Front>, Memory> {
        let Some(marks) = self.marks(alloc, numbering, factors)? else {
            return Ok(None);
        };
        match self.lemmas(alloc, numbering) {
            Ok(Some(lemmas)) => Ok(Front::new(marks, lemmas).ok()),
            Ok(None) => {
                drop(marks);
                Ok(None)
            }
            Err(refused) => {
                drop(marks);
                Err(refused)
            }
        }
    }

    /// The certificate by these numbers, with its front.
    fn numbered(&self, alloc: Global, numbering: &Numbering) -> Result<Option<Fronted>, Memory> {
        let factors = factors_of(self.own.front(), self.other.front());
        let Some(certificate) = self.certificate(alloc, numbering, factors)? else {
            return Ok(None);
        };
        match self.front(alloc, numbering, factors) {
            Ok(Some(front)) => Ok(Some(Fronted {
                front: some_front(front),
                certificate,
            })),
            Ok(None) => {
                drop(certificate);
                Ok(None)
            }
            Err(refused) => {
                drop(certificate);
                Err(refused)
            }
        }
    }

    /// The certificate with its front, where it has a walk or a lemma; None where a part would pass a limit.
    pub(crate) fn fronted(&self, alloc: Global) -> Result<Option<Fronted>, Memory> {
        let numbering = self.numbering(alloc)?;
        let fronted = self.numbered(alloc, &numbering);
        drop(numbering);
        fronted
    }

    /// What the tree shows beside the cheaper times.
    fn answer(&self) -> Answer {
        let cost = lesser(self.own.cost(), self.other.cost());
        answer_of(self.trees.bound(self.runs), cost)
    }

    /// Whether the first certificate says as much.
    pub(crate) fn is_nothing_new(&self) -> bool {
        !self.times_are_cheaper()
            && self.answer() == self.own.certificate().answer()
            && self.runs.iter().all(|run| !run.is_other)
    }
}

/// A front, where it has a walk or a lemma.
fn some_front(front: Front) -> Option<Front> {
    if front.marks().walks().is_empty() && front.lemmas().is_empty() {
        drop(front);
        None
    } else {
        Some(front)
    }
}
