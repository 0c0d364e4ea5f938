//! What a tree shows, as a certificate with a front.

use crate::answers::{answer_of, labelled, some_front};
use crate::best::Best;
use pesp_cert::{Certificate, Front, Fronted, Marks, ShownLemma};
use pesp_offset_tree::Sharpened;
use pesp_problem::{Memory, Walk};
use pesp_sharp_trees::{
    CertificateNumbers, KeptLines, Left, copied_walks, lifted_of, lines_of, marked_of,
    offset_shifts, scale_walk, some_wants_scale,
};
use pesp_truth::TreeLine;
use std::alloc::Global;

/// What certificates of trees are made of: an instance and what is left of it, what was found, its scale, the best timetable, and
/// the certificate whose tree was taken up, where one was.
#[derive(Clone, Copy)]
pub struct TreeParts<'a> {
    pub left: Left<'a>,
    pub sharpened: &'a Sharpened,
    pub scale: u32,
    pub best: &'a Option<Best>,
    pub base: Option<&'a Fronted>,
}

/// Puts walks behind others.
fn add_walks(walks: &mut Vec<Walk>, more: Vec<Walk>) -> Result<(), Memory> {
    for walk in more {
        walks.push(walk)?;
    }
    Ok(())
}

impl<'a> TreeParts<'a> {
    /// The cycles of the instance: those of the base, and behind them the others that the tree names, lifted; None where these
    /// would pass a limit.
    fn cycles(&self, alloc: Global) -> Result<Option<Vec<Walk>>, Memory> {
        let Some(base) = self.base else {
            return lifted_of(alloc, self.left.reduced, &self.sharpened.cycles);
        };
        let given = base.certificate.cycles();
        let own = self.sharpened.cycles.get(given.len()..).unwrap_or(&[]);
        let Some(lifted) = lifted_of(alloc, self.left.reduced, own)? else {
            return Ok(None);
        };
        let mut cycles = copied_walks(alloc, given)?;
        add_walks(&mut cycles, lifted)?;
        Ok(Some(cycles))
    }

    /// The lines of a base that are kept.
    fn kept(&self, alloc: Global) -> Result<Option<KeptLines<'a>>, Memory> {
        match self.base {
            Some(base) => {
                let lines = &self.sharpened.lines;
                Ok(Some(KeptLines::of(alloc, self.left.network, base, lines)?))
            }
            None => Ok(None),
        }
    }

    /// The lines of the tree, for these cycles.
    fn tree(
        &self,
        alloc: Global,
        cycles: &[Walk],
        kept: &Option<KeptLines<'a>>,
    ) -> Result<Vec<TreeLine>, Memory> {
        let own = &self.sharpened.cycles;
        let shifts = offset_shifts(self.left, own, cycles)?;
        let numbers = CertificateNumbers {
            cycles: u32::try_from(cycles.len()).unwrap_or(u32::MAX),
            walks: u32::try_from(self.sharpened.walks.len()).unwrap_or(u32::MAX),
            shifts: &shifts,
        };
        lines_of(alloc, numbers, &self.sharpened.lines, kept)
    }

    /// The version of the certificate: that of the base, whose lines may be kept.
    fn version(&self) -> u32 {
        match self.base {
            Some(base) => base.certificate.version(),
            None => 1,
        }
    }

    /// The certificate behind the front; None where it would pass a limit.
    fn certificate(
        &self,
        alloc: Global,
        kept: &Option<KeptLines<'a>>,
    ) -> Result<Option<Certificate>, Memory> {
        let answer = answer_of(self.sharpened, self.best);
        let period = self.left.instance.period();
        let times = labelled(alloc, self.left.instance, self.best)?;
        let Some(cycles) = self.cycles(alloc)? else {
            return Ok(None);
        };
        match self.tree(alloc, &cycles, kept) {
            Ok(tree) => {
                Ok(Certificate::new(self.version(), period, answer, times, cycles, tree).ok())
            }
            Err(refused) => {
                drop(cycles);
                Err(refused)
            }
        }
    }

    /// The scale and the marked walks; None where they would pass a limit.
    fn marks(&self, alloc: Global, kept: &Option<KeptLines<'a>>) -> Result<Option<Marks>, Memory> {
        let Some(mut walks) = marked_of(alloc, self.left.reduced, &self.sharpened.walks)? else {
            return Ok(None);
        };
        if some_wants_scale(&self.sharpened.lines) {
            walks.push(scale_walk(alloc)?)?;
        }
        if let Some(kept) = kept {
            kept.add_walks(alloc, &mut walks)?;
        }
        Ok(Marks::new(self.scale, walks).ok())
    }

    /// The front; None where it would pass a limit.
    fn front(&self, alloc: Global, kept: &Option<KeptLines<'a>>) -> Result<Option<Front>, Memory> {
        let Some(marks) = self.marks(alloc, kept)? else {
            return Ok(None);
        };
        match lemmas_of(alloc, kept) {
            Ok(lemmas) => Ok(Front::new(marks, lemmas).ok()),
            Err(refused) => {
                drop(marks);
                Err(refused)
            }
        }
    }

    /// What was found beside the best timetable, as a certificate with a front; None where a part would pass a limit.
    pub fn fronted(&self, alloc: Global) -> Result<Option<Fronted>, Memory> {
        let kept = self.kept(alloc)?;
        let Some(certificate) = self.certificate(alloc, &kept)? else {
            return Ok(None);
        };
        match self.front(alloc, &kept) {
            Ok(Some(front)) => Ok(Some(Fronted {
                front: some_front(front),
                certificate,
            })),
            Ok(None) => {
                drop(certificate);
                Ok(None)
            }
            Err(refused) => {
                drop(certificate);
                Err(refused)
            }
        }
    }
}

/// The lemmas of a base, where lines that are kept name one.
fn lemmas_of(alloc: Global, kept: &Option<KeptLines<'_>>) -> Result<Vec<ShownLemma>, Memory> {
    match kept {
        Some(kept) => kept.lemmas(alloc),
        None => Ok(Vec::new(alloc)),
    }
}
