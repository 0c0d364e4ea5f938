//! The search: what sharpens, and the best timetable so far. What looks for times is handed in.

ghost use Rattle.std.specs.Prelude.{◌≡◌};

use crate::bounding::{Bounding, may_have_regions};
use pesp_cert::{Certificate, Fronted};
use pesp_forest::{Effort, TimesFinder};
use pesp_offset_tree::{SharpLine, Sharpened};
use pesp_problem::{Memory, Score, Share, score};
use pesp_regions::{NextTurn, Turns};
use pesp_search::{Pace, SharpWatcher, Standing};
use pesp_sharp_certificates::{Best, offer, shown_by};
use pesp_sharp_trees::{Left, given_of};
use pesp_sharpening::{Sharpening, Step};
use pesp_simplex::{Improved, SimplexRefusal, improve};
use pesp_truth::Answer;
use std::mem::replace;

/// After how many steps times are looked for again, for the first time; then after twice as many, and so on.
const FIRST_BATCH_AFTER: u32 = 128;

/// How many rounds make times cheaper that were met with.
const MET_ROUNDS: u32 = 4;

/// How many leaves are looked at at most in a piece of the search.
const MOST_TURNS: u32 = 10_000_000;

/// By what the choices of the search are drawn.
const SEED: u64 = 1;

/// What a search does next: it sharpens the root, takes up the tree of a certificate, or splits leaves; or nothing is left to be
/// done.
#[derive(Clone, Copy, PartialEq, Eq)]
pub(crate) enum NextTask {
    Root,
    Base,
    Leaves,
    Nothing,
}

/// Some leaves of a certificate's tree: all but those of which the cost is told that they show; and the bound from which on none is
/// split, where one is named.
#[derive(Drop)]
pub(crate) struct Chosen {
    pub(crate) spared: Vec<Option<u64>>,
    pub(crate) until: Option<u64>,
}

/// A search that sharpens what is left of an instance: what it does next, whether it has taken up a tree, how many leaves were
/// split, and after how many times are to be looked for where that is due.
#[derive(Drop)]
pub(crate) struct SharpSearch {
    pub(crate) sharpening: Box<Sharpening>,
    pub(crate) best: Option<Best>,
    /// Regions beside the tree, where there are some.
    pub(crate) bounding: Option<Box<Bounding>>,
    pub(crate) has_taken_up: bool,
    pub(crate) next: NextTask,
    pub(crate) chosen: Option<Chosen>,
    /// Whether regions alone are searched.
    pub(crate) is_shared: bool,
    pace: Pace,
    turns: Turns,
    used: u32,
    due: Option<u32>,
}

/// Whether times are looked for after so many steps.
fn is_due(used: u32) -> bool {
    used >= FIRST_BATCH_AFTER && used & (used - 1) == 0
}

/// Times that were met with, made cheaper; None where they are no timetable of what is left.
fn improved(left: Left<'_>, met: Option<&Vec<u32>>) -> Result<Option<Vec<u32>>, Memory> {
    let Some(times) = met else {
        return Ok(None);
    };
    match improve(left.alloc, left.network, times, MET_ROUNDS) {
        Ok(Improved { times, .. }) => Ok(Some(times)),
        Err(SimplexRefusal::NotFeasible) => Ok(None),
        Err(SimplexRefusal::Memory) => Err(Memory),
    }
}

/// The times of a timetable, for what is left of the instance; None where they are none.
fn lowered(left: Left<'_>, times: &[u32]) -> Result<Option<Vec<u32>>, Memory>
    requires { left.reduced.now.original ≡ left.instance.now }
{
    match score(left.instance, times) {
        Score::Feasible { .. } => Ok(Some(left.reduced.lower_times(left.alloc, times)?)),
        _ => Ok(None),
    }
}

/// Whether a certificate is one leaf behind lemmas, which can't be split.
fn is_leaf_of_lemmas(base: &Fronted) -> bool {
    match &base.front {
        Some(front) => !front.lemmas().is_empty() && base.certificate.tree().len() == 1,
        None => false,
    }
}

/// Whether a certificate is one leaf that names marked walks and no lemma.
fn is_sharp_root(base: &Fronted) -> bool {
    match &base.front {
        Some(front) => front.lemmas().is_empty() && base.certificate.tree().len() == 1,
        None => false,
    }
}

/// The root that a certificate tells, where it tells no more.
fn told_root(left: Left<'_>, base: &Fronted) -> Result<Option<Sharpened>, Memory> {
    if !is_sharp_root(base) {
        return Ok(None);
    }
    let root = given_of(left, base, &[])?;
    match root.lines.first() {
        Some(SharpLine::Bound(_)) => Ok(Some(root)),
        _ => {
            drop(root);
            Ok(None)
        }
    }
}

impl SharpSearch {
    /// A search by this scale, and what it does first. It knows no timetable.
    pub(crate) fn new(
        left: Left<'_>,
        scale: u32,
        next: NextTask,
        pace: Pace,
    ) -> Result<SharpSearch, Memory> {
        let sharpening = Sharpening::new(left.alloc, left.network, SEED, scale)?;
        Ok(SharpSearch {
            sharpening: Box::new(left.alloc, sharpening)?,
            best: None,
            bounding: None,
            has_taken_up: false,
            next,
            chosen: None,
            is_shared: false,
            pace,
            turns: Turns::new(left.network.rows().len()),
            used: 0,
            due: None,
        })
    }

    /// Begins with the timetable that a certificate shows.
    pub(crate) fn begin_with(
        &mut self,
        left: Left<'_>,
        certificate: &Certificate,
    ) -> Result<(), Memory> {
        self.best = shown_by(left.alloc, left.instance, certificate)?;
        Ok(())
    }

    /// Has a finder look for times of what is left, beginning with those of the best timetable.
    pub(crate) fn begin_times<F: TimesFinder>(
        &self,
        left: Left<'_>,
        finder: &mut F,
    ) -> Result<(), Memory>
        requires { left.reduced.now.original ≡ left.instance.now }
    {
        finder.look_at(left.network)?;
        if let Pace::Turns = self.pace {
            finder.set_effort(Effort::Short);
        }
        let Some(best) = &self.best else {
            return finder.begin();
        };
        match lowered(left, &best.times)? {
            Some(times) => finder.take(times),
            None => Ok(()),
        }
    }

    /// Parts what is left into regions by the root that a certificate tells, or by one that is sharpened.
    fn part_by(&mut self, left: Left<'_>, base: &Fronted) -> Result<Option<Box<Bounding>>, Memory> {
        if !may_have_regions(left) {
            return Ok(None);
        }
        if let Some(root) = told_root(left, base)? {
            let scale = self.sharpening.scale();
            return Bounding::by_root(left, root, &[], scale, 0);
        }
        let cost = self.cost();
        self.sharpening.look_at_root(cost)?;
        Bounding::of(left, &self.sharpening)
    }

    /// Tells regions of the best timetable.
    fn offer_best(&mut self, left: Left<'_>) -> Result<(), Memory>
        requires { left.reduced.now.original ≡ left.instance.now }
    {
        let Some(best) = &self.best else {
            return Ok(());
        };
        match lowered(left, &best.times)? {
            Some(times) => self.offer_regions(&times),
            None => Ok(()),
        }
    }

    /// Has a share of the regions searched alone, without a look at the tree and for times.
    pub(crate) fn begin_share(
        &mut self,
        left: Left<'_>,
        base: &Fronted,
        share: Share,
    ) -> Result<(), Memory>
        requires { left.reduced.now.original ≡ left.instance.now }
    {
        self.is_shared = true;
        self.next = NextTask::Leaves;
        let bounding = self.part_by(left, base)?;
        drop(replace(&mut self.bounding, bounding));
        let Some(bounding) = &mut self.bounding else {
            return Ok(());
        };
        bounding.regions.keep_share(left.network, share)?;
        self.offer_best(left)
    }

    /// The cost of the best timetable so far.
    fn cost(&self) -> Option<u64> {
        Some(self.best.as_ref()?.cost)
    }

    /// The bound from which on no leaf is split, where one is named.
    fn until(&self) -> Option<u64> {
        self.chosen.as_ref()?.until
    }

    /// From which cost on no leaf is split.
    fn limit(&self) -> Option<u64> {
        match (self.cost(), self.until()) {
            (Some(cost), Some(until)) => Some(cost.min(until)),
            (cost, until) => cost.or(until),
        }
    }

    /// What the tree or the regions show.
    pub(crate) fn bound(&self) -> u64 {
        let tree = self.sharpening.bound();
        match &self.bounding {
            Some(bounding) => tree.max(bounding.bound),
            None => tree,
        }
    }

    /// How far the search is.
    pub(crate) fn standing(&self) -> Standing {
        Standing {
            steps_used: self.used,
            bound: self.bound(),
            cost: self.cost(),
        }
    }

    /// Whether more is known than an answer tells: a greater bound, or a cheaper timetable.
    pub(crate) fn exceeds(&self, answer: Answer) -> bool {
        let bound = self.bound();
        let is_sharper = answer.least().is_some_and(|least| bound > least);
        match self.cost() {
            Some(cost) => is_sharper || answer.cost().is_none_or(|old| cost < old),
            None => is_sharper,
        }
    }

    /// Takes up times that are a timetable of what is left.
    fn take<F: TimesFinder>(
        &mut self,
        left: Left<'_>,
        times: Vec<u32>,
        finder: &mut F,
    ) -> Result<(), Memory> {
        offer(left, &times, &mut self.best)?;
        self.offer_regions(&times)?;
        finder.take(times)
    }

    /// Tells regions of times that are a timetable of what is left.
    fn offer_regions(&mut self, times: &[u32]) -> Result<(), Memory> {
        match &mut self.bounding {
            Some(bounding) => bounding.regions.offer(times),
            None => Ok(()),
        }
    }

    /// Takes up the times that the tree met with, where they are a timetable of what is left, made cheaper.
    fn take_met<F: TimesFinder>(&mut self, left: Left<'_>, finder: &mut F) -> Result<(), Memory> {
        for place in 0..self.sharpening.times_met().len() {
            let met = self.sharpening.times_met().get(place);
            if let Some(better) = improved(left, met)? {
                self.take(left, better, finder)?;
            }
        }
        Ok(())
    }

    /// Takes up the best times that a finder has.
    fn take_best<F: TimesFinder>(&mut self, left: Left<'_>, finder: &F) -> Result<(), Memory> {
        let Some(times) = finder.best()? else {
            return Ok(());
        };
        offer(left, &times, &mut self.best)?;
        self.offer_regions(&times)
    }

    /// Makes what is left of the first batch.
    fn end_first<F: TimesFinder>(&mut self, left: Left<'_>, finder: &mut F) -> Result<(), Memory> {
        finder.end_first()?;
        self.take_best(left, finder)
    }

    /// Notes after how many steps times are looked for, where that is due.
    fn note_due(&mut self) {
        if let Pace::Steps { before, .. } = self.pace {
            let branches = before.saturating_add(self.used);
            if is_due(branches) {
                self.due = Some(branches);
            }
        }
    }

    /// Looks for times where that is due and the first batch is over; what was due before is made up then.
    fn look_for_times<F: TimesFinder>(
        &mut self,
        left: Left<'_>,
        finder: &mut F,
    ) -> Result<(), Memory> {
        self.note_due();
        if finder.owes_first() {
            return self.take_best(left, finder);
        }
        if let Some(branches) = self.due {
            finder.go_on(branches)?;
        }
        self.due = None;
        self.take_best(left, finder)
    }

    /// Has a finder make a piece of its search.
    fn make_piece<F: TimesFinder>(
        &mut self,
        left: Left<'_>,
        finder: &mut F,
    ) -> Result<Step, Memory> {
        finder.make_piece()?;
        self.take_best(left, finder)?;
        Ok(Step::Readied)
    }

    /// Makes what is left of the first batch where a search of so many steps ends and is open, unless regions alone are searched.
    fn end_times<F: TimesFinder>(&mut self, left: Left<'_>, finder: &mut F) -> Result<(), Memory> {
        let Pace::Steps { .. } = self.pace else {
            return Ok(());
        };
        if self.is_shared || self.is_shown() {
            return Ok(());
        }
        self.end_first(left, finder)
    }

    /// Sharpens the root.
    fn look_at_root<F: TimesFinder>(
        &mut self,
        left: Left<'_>,
        finder: &mut F,
    ) -> Result<(), Memory> {
        let cost = self.cost();
        self.sharpening.look_at_root(cost)?;
        self.take_met(left, finder)
    }

    /// Parts what is left into regions, by the root, unless that shows enough; and tells them of the best times that a finder has.
    fn begin_regions<F: TimesFinder>(&mut self, left: Left<'_>, finder: &F) -> Result<(), Memory> {
        if self.is_shown() {
            return Ok(());
        }
        let Some(bounding) = Bounding::of(left, &self.sharpening)? else {
            return Ok(());
        };
        drop(replace(&mut self.bounding, Some(bounding)));
        match finder.best()? {
            Some(times) => self.offer_regions(&times),
            None => Ok(()),
        }
    }

    /// Looks at the root, and parts what is left into regions.
    fn begin_anew<F: TimesFinder>(&mut self, left: Left<'_>, finder: &mut F) -> Result<(), Memory> {
        self.look_at_root(left, finder)?;
        self.begin_regions(left, finder)
    }

    /// Makes a step in a region, where it is the regions' turn; None where it isn't, or nothing is left to be done in them.
    fn step_in_region(&mut self) -> Result<Option<Step>, Memory> {
        let (bound, work) = (self.sharpening.bound(), self.sharpening.work());
        let Some(bounding) = &mut self.bounding else {
            return Ok(None);
        };
        if !bounding.is_next(bound, work) {
            return Ok(None);
        }
        match bounding.step()? {
            Step::Over => Ok(None),
            step => Ok(Some(step)),
        }
    }

    /// The best times that a finder has, with the cheapest that a region met with in the place of its own, made cheaper; None where there
    /// are none.
    fn patched<F: TimesFinder>(
        &mut self,
        left: Left<'_>,
        finder: &F,
    ) -> Result<Option<Vec<u32>>, Memory> {
        let Some(bounding) = &mut self.bounding else {
            return Ok(None);
        };
        if !bounding.regions.has_found() {
            return Ok(None);
        }
        let Some(times) = finder.best()? else {
            return Ok(None);
        };
        let patched = bounding.regions.patched(left.network, &times)?;
        improved(left, patched.as_ref())
    }

    /// Takes up the timetable that comes of what a region met with.
    fn take_patched<F: TimesFinder>(
        &mut self,
        left: Left<'_>,
        finder: &mut F,
    ) -> Result<(), Memory> {
        match self.patched(left, finder)? {
            Some(better) => self.take(left, better, finder),
            None => Ok(()),
        }
    }

    /// Makes a step in a region of the share; over where nothing is left to be done in these.
    fn step_in_share(&mut self) -> Result<Step, Memory> {
        if self.is_shown() {
            return Ok(Step::Over);
        }
        let Some(bounding) = &mut self.bounding else {
            return Ok(Step::Over);
        };
        let step = bounding.step()?;
        if step == Step::Made {
            self.used = self.used.saturating_add(1);
        }
        Ok(step)
    }

    /// Whether the bound that is shown reaches the cost of the best timetable.
    fn is_shown(&self) -> bool {
        self.bound() >= self.cost().unwrap_or(u64::MAX)
    }

    /// Makes a step in a region where it is their turn; else splits the open leaf of least bound, where there is one below the best
    /// cost, or finds the slacks of that leaf, where it was taken up.
    fn step<F: TimesFinder>(&mut self, left: Left<'_>, finder: &mut F) -> Result<Step, Memory> {
        if self.bounding.is_some() && self.is_shown() {
            return Ok(Step::Over);
        }
        if let Some(step) = self.step_in_region()? {
            self.take_patched(left, finder)?;
            return self.counted(left, step, finder);
        }
        let limit = self.limit();
        let step = self.sharpening.step(limit)?;
        if step != Step::Over {
            self.take_met(left, finder)?;
        }
        self.counted(left, step, finder)
    }

    /// Counts a step that was made, and looks for times where that is due.
    fn counted<F: TimesFinder>(
        &mut self,
        left: Left<'_>,
        step: Step,
        finder: &mut F,
    ) -> Result<Step, Memory> {
        if step == Step::Made {
            self.used = self.used.saturating_add(1);
            self.look_for_times(left, finder)?;
        }
        Ok(step)
    }

    /// What lies between the bound and the cost of the best timetable; None where there is none.
    fn gap(&self) -> Option<u64> {
        let cost = self.cost()?;
        Some(cost.saturating_sub(self.bound()))
    }

    /// Whose turn it is: an anneal that has begun is ended first.
    fn next_turn<F: TimesFinder>(&self, finder: &F) -> NextTurn {
        match self.pace {
            _ if finder.is_annealing() => NextTurn::Times,
            Pace::Steps { .. } => self.turns.next_by_part(),
            Pace::Turns => self.turns.next_by_worth(),
        }
    }

    /// All work so far of the one whose turn it is, in numbers that were looked at.
    fn work_of<F: TimesFinder>(&self, turn: NextTurn, finder: &F) -> u64 {
        match turn {
            NextTurn::Tree => self.bounding_work(),
            NextTurn::Times => finder.work(),
        }
    }

    /// The work of the tree and of regions.
    fn bounding_work(&self) -> u64 {
        let regions = match &self.bounding {
            Some(bounding) => bounding.regions.work(),
            None => 0,
        };
        self.sharpening.work().saturating_add(regions)
    }

    /// Takes the next turn, and notes its work and what is left of the gap.
    fn take_turn<F: TimesFinder>(
        &mut self,
        left: Left<'_>,
        finder: &mut F,
    ) -> Result<Step, Memory> {
        let turn = self.next_turn(finder);
        let before = self.work_of(turn, finder);
        let step = match turn {
            NextTurn::Tree => self.step(left, finder)?,
            NextTurn::Times => self.make_piece(left, finder)?,
        };
        let gap = self.gap();
        let work = self.work_of(turn, finder).saturating_sub(before);
        self.turns.note(turn, gap, work);
        Ok(step)
    }

    /// Goes on by what is next: a step in a region, where these alone are searched; a turn, where there is no limit or the first batch
    /// isn't over; else a step of the tree.
    fn advance<F: TimesFinder>(&mut self, left: Left<'_>, finder: &mut F) -> Result<Step, Memory> {
        match self.pace {
            _ if self.is_shared => self.step_in_share(),
            Pace::Steps { .. } if !finder.owes_first() => self.step(left, finder),
            _ => self.take_turn(left, finder),
        }
    }

    /// Whether as many leaves were split as may be, and the slacks are known of the one that is next.
    fn is_done(&self) -> bool {
        match self.pace {
            Pace::Steps { most, .. } => self.used >= most && !self.sharpening.is_cold(),
            Pace::Turns => false,
        }
    }

    /// Takes up the tree of a certificate, but for the leaves that are spared. Where none can be taken up the root is sharpened.
    fn take_up<F: TimesFinder>(
        &mut self,
        left: Left<'_>,
        base: &Fronted,
        finder: &mut F,
    ) -> Result<(), Memory> {
        let given = match &self.chosen {
            Some(chosen) => given_of(left, base, &chosen.spared)?,
            None => given_of(left, base, &[])?,
        };
        let limit = self.limit();
        let taken = self.sharpening.take_up(&given, limit);
        drop(given);
        self.has_taken_up = taken?;
        // Nothing more is done where the tree was taken up.
        self.look_at_root(left, finder)
    }

    /// Begins with a certificate. Where it has no marked walks the root is sharpened first, so that its leaves get the
    /// inequalities of that. One that is a leaf behind lemmas is begun anew, unless leaves were chosen.
    fn begin_at<F: TimesFinder>(
        &mut self,
        left: Left<'_>,
        base: &Fronted,
        finder: &mut F,
    ) -> Result<(), Memory> {
        self.take_best(left, finder)?;
        if self.chosen.is_none() && is_leaf_of_lemmas(base) {
            return self.begin_anew(left, finder);
        }
        if base.front.is_none() {
            self.look_at_root(left, finder)?;
            if self.passes_over(base) {
                return Ok(());
            }
        }
        self.take_up(left, base, finder)
    }

    /// Whether the tree of a certificate is left alone, as the root shows enough: no less than it; or, where some of its leaves
    /// are chosen, all that is left to be found.
    fn passes_over(&self, base: &Fronted) -> bool {
        let bound = self.sharpening.bound();
        match (&self.chosen, base.certificate.answer().least()) {
            (Some(_), _) => bound >= self.cost().unwrap_or(u64::MAX),
            (None, Some(least)) => bound >= least,
            (None, None) => false,
        }
    }

    /// Splits leaves until so many were split and the slacks are known of the one that is next, none is open below the best cost,
    /// or the watcher ends it.
    fn split<F: TimesFinder, W: SharpWatcher>(
        &mut self,
        left: Left<'_>,
        finder: &mut F,
        watcher: &mut W,
    ) -> Result<(), Memory> {
        for _turn in 0..MOST_TURNS {
            if !watcher.goes_on(self.standing()) {
                return Ok(());
            }
            if self.is_done() {
                return self.end_times(left, finder);
            }
            if self.advance(left, finder)? == Step::Over {
                self.next = NextTask::Nothing;
                return self.end_times(left, finder);
            }
        }
        Ok(())
    }

    /// Does what is next, and splits leaves then, until so many were split in all, none is open below the best cost, or the
    /// watcher ends this piece of the search. The finder is the one with which it began.
    pub(crate) fn go_on<F: TimesFinder, W: SharpWatcher>(
        &mut self,
        left: Left<'_>,
        base: &Fronted,
        finder: &mut F,
        watcher: &mut W,
    ) -> Result<(), Memory> {
        match self.next {
            NextTask::Root => self.begin_anew(left, finder)?,
            NextTask::Base => self.begin_at(left, base, finder)?,
            NextTask::Leaves => {}
            NextTask::Nothing => return Ok(()),
        }
        self.next = NextTask::Leaves;
        self.split(left, finder, watcher)
    }
}
