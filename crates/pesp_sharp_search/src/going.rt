//! Searches that go on piece by piece.

ghost use Rattle.std.specs.Prelude.{◌≡◌, false, IsTrue, IfOk, IfErr, IfSome};
ghost use Rattle.pesp_truth.specs.Certificates.{IsValid};
ghost use Rattle.pesp_branching.specs.Turns.{IsOpenAnswer};
ghost use Rattle.pesp_search.specs.Refusals.{MeetsLimit};
ghost use Rattle.pesp_search.specs.Solving.{CostsNoMore, IsSearchRefusal};
ghost use Rattle.pesp_sharp_work.specs.Ranks.{IsNoWorse};
ghost use Rattle.pesp_sharp_search.specs.Solving.{IsPlainAnswer, MayStand};

use crate::choice::{first_standing, without_front};
use pesp_cert::Fronted;
use pesp_problem::{Instance, Memory};
use pesp_search::{FirstLook, Observer, Pace, SharpWatcher, Sharpener, SolveRefusal, look_first};
use pesp_truth::Answer;
use std::alloc::Global;
use std::marker::Model;
use std::mem::replace;

/// A search that sharpens and goes on piece by piece, with the best certificate that it has so far. It is seen as that certificate.
#[derive(Drop)]
pub struct Going {
    /// The best certificate so far.
    fronted: Fronted,
    /// The certificate with which it began, where it has a better one.
    base: Option<Fronted>,
    /// Whether the sharpener had nothing left to be done when it went on last.
    is_done: bool,
}

impl Model for Going {
    ghost use Rattle.pesp_cert.specs.Fronted.{Fronted as SpecFronted};

    ghost Value = { SpecFronted };

    ghost view = { λ g. g.fronted };
}

/// Whether an answer leaves something to be found.
fn is_open(answer: Answer) -> bool
    ensures { (IsOpenAnswer answer → ⊥) → result ≡ false }
{
    matches!(answer, Answer::Bounded { .. })
}

/// Searches on from the certificate with which it began, and what is found that may stand in the place of what it has.
fn searched<F: Sharpener, W: SharpWatcher>(
    alloc: Global,
    instance: &Instance,
    fronted: &Fronted,
    base: &Option<Fronted>,
    sharpener: &mut F,
    watcher: &mut W,
) -> Result<Option<Fronted>, Memory>
    ensures { IfOk result (λ found. IfSome found
        (MayStand instance.now fronted.now.content.answer 4294967295)) }
{
    let base = base.as_ref().unwrap_or(fronted);
    sharpener.sharpen(alloc, instance, base, watcher)?;
    let answer = fronted.certificate.answer();
    if !sharpener.exceeds(answer) {
        return Ok(None);
    }
    let proposals = sharpener.proposals(alloc, instance, base, fronted)?;
    first_standing(alloc, instance, answer, proposals, u32::MAX)
}

impl Going {
    /// A search that begins with a first look, and with times that are given: one for each event of the instance, in the instance's
    /// order, from 0 to one less than the period. A sharpener proposes, and looks for times of what is left of the instance; an
    /// observer looks on.
    ///
    /// It has a certificate that is valid for the instance, one that `solve_from` has for some forest within 0 steps. Where the
    /// times are a timetable of the instance, the answer has a cost, at most theirs. Refused as `solve_sharp` is.
    pub fn begin<F: Sharpener, O: Observer>(
        alloc: Global,
        instance: &Instance,
        times: &[u32],
        sharpener: &mut F,
        observer: &mut O,
    ) -> Result<Going, SolveRefusal>
        ensures valid { IfOk result (λ going. IsValid going.front instance.now going.content) }
        ensures plain { IfOk result (IsPlainAnswer instance.now) }
        ensures improved { IfOk result (λ going. CostsNoMore instance.now times.now going.content) }
        ensures refused { IfErr result (IsSearchRefusal instance.now 0) }
        ensures passed { IfErr result (MeetsLimit instance.now 0) }
    {
        let FirstLook { solved, reduced } = look_first(
            alloc, instance, times, sharpener, observer,
        )?;
        let plain = without_front(solved.certificate);
        match sharpener.sharpen_root(alloc, instance, &plain, reduced, Pace::Turns) {
            Ok(()) => Ok(Going {
                fronted: plain,
                base: None,
                is_done: false,
            }),
            Err(_) => {
                drop(plain);
                Err(SolveRefusal::Memory)
            }
        }
    }

    /// A search that goes on from a certificate of an instance, with or without marked walks. It has that certificate. A sharpener
    /// proposes, and looks for times of what is left of the instance. The one refusal is of memory.
    pub fn begin_from<F: Sharpener>(
        alloc: Global,
        instance: &Instance,
        base: Fronted,
        sharpener: &mut F,
    ) -> Result<Going, Memory>
        ensures { IfOk result (λ going. going ≡ base) }
    {
        match sharpener.sharpen_from(alloc, instance, &base, None, Pace::Turns) {
            Ok(()) => Ok(Going {
                fronted: base,
                base: None,
                is_done: false,
            }),
            Err(refused) => {
                drop(base);
                Err(refused)
            }
        }
    }

    /// The best certificate so far.
    pub fn has(&self) -> &Fronted
        ensures { result.now ≡ self.now }
    {
        &self.fronted
    }

    /// Whether nothing is left to be found: the answer isn't open, or the search has nothing left to be done.
    pub fn is_over(&self) -> bool
        ensures { (IsOpenAnswer self.now.content.answer → ⊥) → IsTrue result }
    {
        self.is_done || !is_open(self.fronted.certificate.answer())
    }

    /// Has this in the place of what it has. What it began with is kept, since what is found later may rest on that.
    fn take(&mut self, found: Fronted)
        ensures { self.new ≡ found }
    {
        let old = replace(&mut self.fronted, found);
        if self.base.is_none() {
            self.base = Some(old);
        }
    }

    /// Goes on until the watcher ends this piece of the search, or nothing is left to be found: leaves are split, that of least value
    /// first, and sharpened by marked walks, and timetables are looked for. The sharpener is the one with which it began. What
    /// is found is judged, and is had from then on where it is better.
    ///
    /// What it has is valid for the instance with its marked walks, its bound isn't below the one before, and its cost isn't above
    /// the one before; none counts as above every number. That holds too where a growth was refused, which is the one refusal.
    pub fn go_on<F: Sharpener, W: SharpWatcher>(
        &mut self,
        alloc: Global,
        instance: &Instance,
        sharpener: &mut F,
        watcher: &mut W,
    ) -> Result<(), Memory>
        requires { IsValid self.old.front instance.now self.old.content }
        ensures valid { IsValid self.new.front instance.now self.new.content }
        ensures no_worse { IsNoWorse self.old.content.answer self.new.content.answer }
    {
        let found = searched(
            alloc,
            instance,
            &self.fronted,
            &self.base,
            sharpener,
            watcher,
        )?;
        self.is_done = sharpener.is_sharpened();
        if let Some(found) = found {
            self.take(found);
        }
        Ok(())
    }
}
