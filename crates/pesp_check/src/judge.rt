//! The judge of a text's lines, one after another.

ghost use Rattle.std.specs.Prelude.{◌≡◌, ◌≢◌, ℕ, ◌<◌, ◌≤◌, ◌+◌, ◌^◌, List, ◌∷◌, [], pos, true, false, length, map, All, Option, IfOk, OnOk, MatchOption};
ghost use Rattle.std.specs.Option.{ForSome, is_some};
ghost use Rattle.pesp_problem.specs.declared.limits.TheConstants.{MOST_SIGNED_ROWS};
ghost use Rattle.pesp_problem.specs.Walks.{RowExists};
ghost use Rattle.pesp_truth.specs.Certificates.{Front, Content, ShowsAnswer};
ghost use Rattle.pesp_cert_lines.specs.declared.item.Item.{Item as LineItem};
ghost use Rattle.pesp_cert_lines.specs.declared.item.Item.TheVariants as items;
ghost use Rattle.pesp_cert.specs.Texts.{HasText, tree_item};
ghost use Rattle.pesp_cert_items.specs.Lent.{item_said, listed, pairs_left_in, rows_in};
ghost use Rattle.pesp_problem.specs.Nets.{AreZeros, AreSmallCounts};
ghost use Rattle.pesp_truth.specs.Limits.{weights_keep_limits};
ghost use Rattle.pesp_leaves.specs.Taken.{HaveRows};
ghost use Rattle.pesp_whole_check.specs.Inner.{IsHeadFault};
ghost use Rattle.pesp_whole_check.specs.Rooms.{FitsRoom};
ghost use Rattle.pesp_judges.specs.SaidLines.{KeepsSaidLimits};
ghost use Rattle.pesp_judges.specs.Faults.{IsVerdict};
ghost use Rattle.pesp_check.specs.Said.{pairs_of, tree_line};
ghost use Rattle.pesp_check.specs.Items.{KeepsItemLimits, begins_later, begins_tree, ends_lemma, is_mark};
ghost use Rattle.pesp_check.specs.declared.stage.Stage.TheVariants as stages;
ghost use Rattle.pesp_check.specs.Judging.{JudgedAt, items_left, is_front, is_before_tree};

use crate::elements::{PairsLeft, RowsLeft};
use crate::lemma_lines::{add_fact, ends_lemma, fact_in, show_line};
use crate::marks_draft::{MarksDraft, front_of, note_line};
use crate::said_line::said_line;
use crate::stage::Stage;
use pesp_cert_items::{Item, LinePairs, SignedRows, TextLine};
use pesp_judges::{
    Checker, LemmaJudge, Nets, NodeWalk, Refusal, SaidLine, Verdict, add_nets, judge_answer,
    judge_cycle, root, take_line,
};
use pesp_problem::{Instance, MOST_CYCLES, Memory};
use pesp_truth::{Answer, Lemma, Marks};
use pesp_whole_check::{Room, claim_over, room_for, walks_fault};
use std::alloc::{AllocError, Global};
use std::mem::replace;

/// What is kept of a text while its lines come: the number of the last line, what the lines of a front said, of its lemmas those
/// that were shown and the one that is being shown, the period, the answer, the times and the net counts of the cycles; for the
/// tree the front, room for what leaves behind it ask for, and the present node with the way to it. The list
/// of places is kept for all cycles.
#[derive(Drop)]
pub struct Judge<'a> {
    instance: &'a Instance,
    line: u64,
    draft: MarksDraft,
    lemma: Option<LemmaJudge<'a>>,
    facts: Vec<Lemma>,
    front: Option<Marks>,
    period: u32,
    answer: Answer,
    times: Vec<(i64, u32)>,
    table: Vec<Nets>,
    places: Vec<u32>,
    room: Room,
    walk: Option<NodeWalk<'a>>,
    stage: Stage,
    ghost small: { All (AreSmallCounts (length instance.now.rows)) table.items },
    ghost few: { length table.items ≤ line },
    ghost begun: { is_before_tree stage ≡ true → is_some walk ≡ false },
    ghost standing: { ForSome walk (λ w. (w.problem ≡ instance.now)
        × (w.cycles ≡ length table.items)) },
    ghost roomy: { is_some walk ≡ true → ForSome front (λ _. FitsRoom instance.now room) },
    ghost exist: { is_some walk ≡ true → ForSome front
        (λ marks. All (λ path. All (λ s. RowExists room.arcs.items s.signed) path) marks.walks) },
    ghost named: { HaveRows (length instance.now.rows) facts.items },
    ghost apart: { is_front stage ≡ false → is_some lemma ≡ false },
    ghost shown: { ForSome lemma (λ l. l.instance.now ≡ instance.now) },
}

/// What is wrong with a period, or with an answer and the times that are shown with it.
fn head_fault(
    alloc: Global,
    instance: &Instance,
    period: u32,
    answer: Answer,
    times: &[(i64, u32)],
) -> Result<Option<Refusal>, AllocError>
    ensures { IfOk result (λ found. MatchOption found
        ((period ≡ instance.now.period)
        × ShowsAnswer instance.now answer (map (λ t. t.0) times.now) (map (λ t. t.1) times.now))
        (λ refusal. IsHeadFault instance.now period answer (map (λ t. t.0) times.now)
        (map (λ t. t.1) times.now) refusal)) }
{
    if period != instance.period() {
        return Ok(Some(Refusal::OtherPeriod));
    }
    judge_answer(alloc, instance, answer, times)
}

impl<'a> Judge<'a> {
    ghost use Rattle.pesp_check.specs.Views.{kept};

    /// Nothing came so far.
    pub fn new(alloc: Global, instance: &'a Instance) -> Judge<'a>
        ensures instance { result.instance.now ≡ instance.now }
        ensures line { result.line ≡ 0 }
        ensures judged { (front : Option Front) (c : Content)
            → JudgedAt result.stage instance.now front c (items_left front c) (kept result) }
    {
        Judge {
            instance,
            line: 0,
            draft: MarksDraft::new(alloc),
            lemma: None,
            facts: Vec::new(alloc),
            front: None,
            period: 0,
            answer: Answer::Infeasible,
            times: Vec::new(alloc),
            table: Vec::new(alloc),
            places: Vec::new(alloc),
            room: Room::none(alloc),
            walk: None,
            stage: Stage::Front,
        }
    }

    /// All times came: judges the period, the answer and the times, where they are not judged yet.
    fn end_front(&mut self, alloc: Global) -> Result<(), Memory>
        requires none { is_some self.old.lemma ≡ false }
        ensures instance { self.new.instance.now ≡ self.old.instance.now }
        ensures line { self.new.line ≡ self.old.line }
        ensures past { OnOk result (is_front self.new.stage ≡ false) }
        ensures judged { OnOk result
            ((front : Option Front) (c : Content) (rest : List LineItem) → begins_later rest ≡ true
            → JudgedAt self.old.stage self.old.instance.now front c rest (kept self.old)
            → JudgedAt self.new.stage self.old.instance.now front c rest (kept self.new)) }
    {
        if self.stage != Stage::Front {
            return Ok(());
        }
        let found = head_fault(alloc, self.instance, self.period, self.answer, &self.times)?;
        if let Some(refusal) = found {
            self.stage = Stage::Refused(refusal);
            return Ok(());
        }
        self.stage = Stage::Cycles;
        Ok(())
    }

    /// Makes the front, judges its marked walks and goes to the root of the tree.
    fn begin_tree(&mut self, alloc: Global, working: &mut [i128]) -> Result<(), Memory>
        requires stage { self.old.stage ≡ stages.Cycles }
        requires few { self.old.line < 2 ^ 31 }
        requires long { length working.old ≡ length self.old.instance.now.rows }
        requires zeros { AreZeros working.old }
        ensures instance { self.new.instance.now ≡ self.old.instance.now }
        ensures line { self.new.line ≡ self.old.line }
        ensures zeros { OnOk result (AreZeros working.new) }
        ensures past { OnOk result (is_before_tree self.new.stage ≡ false) }
        ensures judged { OnOk result ((front : Option Front) (c : Content) (rest : List LineItem)
            → HasText front c → begins_tree rest ≡ true
            → JudgedAt self.old.stage self.old.instance.now front c rest (kept self.old)
            → JudgedAt self.new.stage self.old.instance.now front c rest (kept self.new)) }
    {
        let draft = replace(&mut self.draft, MarksDraft::new(alloc));
        self.front = front_of(draft);
        // A text has no more cycles.
        let cycles = self.table.len().min(MOST_CYCLES);
        let found = walks_fault(alloc, self.instance, cycles, self.front.as_ref(), working)?;
        if let Some(refusal) = found {
            self.stage = Stage::Refused(refusal);
            return Ok(());
        }
        self.room = room_for(alloc, self.instance, self.front.is_some())?;
        let ranges = root(alloc, self.instance, &self.table)?;
        self.walk = Some(NodeWalk::new(alloc, self.instance, ranges));
        self.stage = Stage::Tree;
        Ok(())
    }

    /// All cycles came: goes on to the tree, where it has not gone there yet.
    fn end_cycles(&mut self, alloc: Global, working: &mut [i128]) -> Result<(), Memory>
        requires past { is_front self.old.stage ≡ false }
        requires few { self.old.line < 2 ^ 31 }
        requires long { length working.old ≡ length self.old.instance.now.rows }
        requires zeros { AreZeros working.old }
        ensures instance { self.new.instance.now ≡ self.old.instance.now }
        ensures line { self.new.line ≡ self.old.line }
        ensures zeros { OnOk result (AreZeros working.new) }
        ensures past { OnOk result (is_before_tree self.new.stage ≡ false) }
        ensures judged { OnOk result ((front : Option Front) (c : Content) (rest : List LineItem)
            → HasText front c → begins_tree rest ≡ true
            → JudgedAt self.old.stage self.old.instance.now front c rest (kept self.old)
            → JudgedAt self.new.stage self.old.instance.now front c rest (kept self.new)) }
    {
        if self.stage == Stage::Cycles {
            return self.begin_tree(alloc, working);
        }
        Ok(())
    }

    /// Judges a cycle, and keeps its net counts.
    fn judge_walk(
        &mut self,
        alloc: Global,
        rows: SignedRows<'_>,
        working: &mut [i128],
    ) -> Result<(), Memory>
        requires stage { self.old.stage ≡ stages.Cycles }
        requires short { length (rows_in rows) ≤ MOST_SIGNED_ROWS }
        requires few { self.old.line < 2 ^ 31 }
        requires long { length working.old ≡ length self.old.instance.now.rows }
        requires zeros { AreZeros working.old }
        ensures instance { self.new.instance.now ≡ self.old.instance.now }
        ensures line { OnOk result (self.new.line ≡ self.old.line + 1) }
        ensures zeros { OnOk result (AreZeros working.new) }
        ensures judged { OnOk result ((front : Option Front) (c : Content) (rest : List LineItem)
            → JudgedAt self.old.stage self.old.instance.now front c
            (items.Cycle (rows_in rows.entry) ∷ rest) (kept self.old)
            → JudgedAt self.new.stage self.old.instance.now front c rest (kept self.new)) }
    {
        let number = self.table.len() as u32 + 1;
        let line = self.line + 1;
        self.line = line;
        let rows = RowsLeft(rows);
        let places = &mut self.places;
        let nets = match judge_cycle(alloc, self.instance, rows, number, line, places, working)? {
            Ok(nets) => nets,
            Err(refusal) => {
                self.stage = Stage::Refused(refusal);
                return Ok(());
            }
        };
        add_nets(&mut self.table, nets)?;
        Ok(())
    }

    /// Takes a cycle.
    fn take_cycle(
        &mut self,
        alloc: Global,
        rows: SignedRows<'_>,
        working: &mut [i128],
    ) -> Result<(), Memory>
        requires short { length (rows_in rows) ≤ MOST_SIGNED_ROWS }
        requires none { is_some self.old.lemma ≡ false }
        requires few { self.old.line < 2 ^ 31 }
        requires long { length working.old ≡ length self.old.instance.now.rows }
        requires zeros { AreZeros working.old }
        ensures instance { self.new.instance.now ≡ self.old.instance.now }
        ensures line { OnOk result (self.new.line ≡ self.old.line + 1) }
        ensures zeros { OnOk result (AreZeros working.new) }
        ensures judged { OnOk result ((front : Option Front) (c : Content) (rest : List LineItem)
            → JudgedAt self.old.stage self.old.instance.now front c
            (items.Cycle (rows_in rows.entry) ∷ rest) (kept self.old)
            → JudgedAt self.new.stage self.old.instance.now front c rest (kept self.new)) }
    {
        self.end_front(alloc)?;
        if self.stage == Stage::Cycles {
            return self.judge_walk(alloc, rows, working);
        }
        self.line += 1;
        Ok(())
    }

    /// Judges a line of the tree at the first of the nodes that wait.
    fn judge_line(
        &mut self,
        alloc: Global,
        said: SaidLine<PairsLeft<'_>>,
        working: &mut [i128],
    ) -> Result<(), Memory>
        requires stage { self.old.stage ≡ stages.Tree }
        requires limits { KeepsSaidLimits pairs_of said }
        requires few { self.old.line < 2 ^ 31 }
        requires long { length working.old ≡ length self.old.instance.now.rows }
        requires zeros { AreZeros working.old }
        ensures instance { self.new.instance.now ≡ self.old.instance.now }
        ensures line { OnOk result (self.new.line ≡ self.old.line + 1) }
        ensures zeros { OnOk result (AreZeros working.new) }
        ensures judged { OnOk result
            ((front : Option Front) (c : Content) (rest : List LineItem) → HasText front c
            → JudgedAt self.old.stage self.old.instance.now front c
            (tree_item (tree_line pairs_of said.entry) ∷ rest) (kept self.old)
            → JudgedAt self.new.stage self.old.instance.now front c rest (kept self.new)) }
    {
        let least = self.answer.least();
        self.line += 1;
        // A text has no more cycles.
        if self.table.len() > MOST_CYCLES {
            return Ok(());
        }
        let Some(walk) = &mut self.walk else {
            return Ok(());
        };
        if walk.is_done() {
            return Ok(());
        }
        let marks = self.front.as_ref();
        let claim = claim_over(
            marks,
            &self.facts,
            &self.room.arcs,
            &self.room.weights,
            least,
        );
        let checker = Checker::new(self.instance, &self.table, claim);
        let rates = &mut self.room.rates;
        let found = take_line(alloc, &checker, walk, said, self.line, working, rates)?;
        if let Some(refusal) = found {
            self.stage = Stage::Refused(refusal);
            return Ok(());
        }
        Ok(())
    }

    /// Takes a line of the tree.
    fn take_line(
        &mut self,
        alloc: Global,
        said: SaidLine<PairsLeft<'_>>,
        working: &mut [i128],
    ) -> Result<(), Memory>
        requires limits { KeepsSaidLimits pairs_of said }
        requires none { is_some self.old.lemma ≡ false }
        requires few { self.old.line < 2 ^ 31 }
        requires long { length working.old ≡ length self.old.instance.now.rows }
        requires zeros { AreZeros working.old }
        ensures instance { self.new.instance.now ≡ self.old.instance.now }
        ensures line { OnOk result (self.new.line ≡ self.old.line + 1) }
        ensures zeros { OnOk result (AreZeros working.new) }
        ensures judged { OnOk result
            ((front : Option Front) (c : Content) (rest : List LineItem) → HasText front c
            → JudgedAt self.old.stage self.old.instance.now front c
            (tree_item (tree_line pairs_of said.entry) ∷ rest) (kept self.old)
            → JudgedAt self.new.stage self.old.instance.now front c rest (kept self.new)) }
    {
        self.end_front(alloc)?;
        self.end_cycles(alloc, working)?;
        if self.stage == Stage::Tree {
            return self.judge_line(alloc, said, working);
        }
        self.line += 1;
        Ok(())
    }

    /// Takes a line of the front itself, whose marked walks are judged when all cycles came.
    fn take_mark(&mut self, alloc: Global, line: TextLine<'_>) -> Result<(), Memory>
        requires mark { is_mark line ≡ true }
        requires none { is_some self.old.lemma ≡ false }
        requires few { self.old.line < 2 ^ 31 }
        ensures instance { self.new.instance.now ≡ self.old.instance.now }
        ensures line { OnOk result (self.new.line ≡ self.old.line + 1) }
        ensures judged { OnOk result ((front : Option Front) (c : Content) (rest : List LineItem)
            → JudgedAt self.old.stage self.old.instance.now front c (item_said line.entry ∷ rest)
            (kept self.old)
            → JudgedAt self.new.stage self.old.instance.now front c rest (kept self.new)) }
    {
        note_line(alloc, &mut self.draft, &line)?;
        self.line += 1;
        Ok(())
    }

    /// Takes a line that is none of a front, where no lemma is being shown.
    fn take_item(
        &mut self,
        alloc: Global,
        item: Item<'_>,
        working: &mut [i128],
    ) -> Result<(), Memory>
        requires limits { KeepsItemLimits (listed item) }
        requires none { is_some self.old.lemma ≡ false }
        requires few { self.old.line < 2 ^ 31 }
        requires long { length working.old ≡ length self.old.instance.now.rows }
        requires zeros { AreZeros working.old }
        ensures instance { self.new.instance.now ≡ self.old.instance.now }
        ensures line { OnOk result (self.new.line ≡ self.old.line + 1) }
        ensures zeros { OnOk result (AreZeros working.new) }
        ensures judged { OnOk result
            ((front : Option Front) (c : Content) (rest : List LineItem) → HasText front c
            → JudgedAt self.old.stage self.old.instance.now front c (listed item.entry ∷ rest)
            (kept self.old)
            → JudgedAt self.new.stage self.old.instance.now front c rest (kept self.new)) }
    {
        match item {
            Item::Version(_) => {
                self.line += 1;
                Ok(())
            }
            Item::Period(period) => {
                self.period = period;
                self.line += 1;
                Ok(())
            }
            Item::Answer(answer) => {
                self.answer = answer;
                self.line += 1;
                Ok(())
            }
            Item::Time(label, time) => {
                self.times.push((label, time))?;
                self.line += 1;
                Ok(())
            }
            Item::Cycle(rows) => self.take_cycle(alloc, rows, working),
            line => self.take_line(alloc, said_line(line), working),
        }
    }

    /// The lemma that is being shown is whole, where the next line stands behind it: the trees behind it may name it.
    fn end_lemma(&mut self, next: &TextLine<'_>) -> Result<(), Memory>
        ensures instance { self.new.instance.now ≡ self.old.instance.now }
        ensures line { self.new.line ≡ self.old.line }
        ensures none { OnOk result (ends_lemma (item_said next.now) ≡ true → is_some self.new.lemma ≡ false) }
        ensures judged { OnOk result
            ((front : Option Front) (c : Content) (rest : List LineItem) → HasText front c
            → JudgedAt self.old.stage self.old.instance.now front c (item_said next.now ∷ rest)
            (kept self.old)
            → JudgedAt self.new.stage self.old.instance.now front c (item_said next.now ∷ rest)
            (kept self.new)) }
    {
        if !ends_lemma(next) {
            return Ok(());
        }
        let Some(lemma) = self.lemma.take() else {
            return Ok(());
        };
        add_fact(&mut self.facts, lemma.into_lemma())?;
        Ok(())
    }

    /// Takes the rows of a lemma, with their weights.
    fn begin_lemma(&mut self, alloc: Global, pairs: LinePairs<'_>) -> Result<(), Memory>
        requires limits { weights_keep_limits (pairs_left_in pairs) ≡ true }
        requires none { is_some self.old.lemma ≡ false }
        requires few { self.old.line < 2 ^ 31 }
        ensures instance { self.new.instance.now ≡ self.old.instance.now }
        ensures line { OnOk result (self.new.line ≡ self.old.line + 1) }
        ensures judged { OnOk result ((front : Option Front) (c : Content) (rest : List LineItem)
            → JudgedAt self.old.stage self.old.instance.now front c
            (items.Lemma (pairs_left_in pairs.entry) ∷ rest) (kept self.old)
            → JudgedAt self.new.stage self.old.instance.now front c rest (kept self.new)) }
    {
        self.line += 1;
        if self.stage != Stage::Front {
            return Ok(());
        }
        let fact = fact_in(alloc, pairs)?;
        let lemma = match LemmaJudge::new(alloc, self.instance, fact, self.line) {
            Ok(lemma) => lemma,
            Err(refusal) => {
                self.stage = Stage::Refused(refusal);
                return Ok(());
            }
        };
        drop(self.lemma.replace(lemma));
        Ok(())
    }

    /// Takes a line of the lemma that is being shown.
    fn show(
        &mut self,
        alloc: Global,
        line: TextLine<'_>,
        working: &mut [i128],
    ) -> Result<(), Memory>
        requires limits { KeepsItemLimits (item_said line) }
        requires goes_on { ends_lemma (item_said line) ≡ false }
        requires some { is_some self.old.lemma ≡ true }
        requires few { self.old.line < 2 ^ 31 }
        requires long { length working.old ≡ length self.old.instance.now.rows }
        requires zeros { AreZeros working.old }
        ensures instance { self.new.instance.now ≡ self.old.instance.now }
        ensures line { OnOk result (self.new.line ≡ self.old.line + 1) }
        ensures zeros { OnOk result (AreZeros working.new) }
        ensures judged { OnOk result
            ((front : Option Front) (c : Content) (rest : List LineItem) → HasText front c
            → JudgedAt self.old.stage self.old.instance.now front c (item_said line.entry ∷ rest)
            (kept self.old)
            → JudgedAt self.new.stage self.old.instance.now front c rest (kept self.new)) }
    {
        self.line += 1;
        let Some(lemma) = &mut self.lemma else {
            return Ok(());
        };
        let found = show_line(alloc, lemma, &self.facts, line, self.line, working)?;
        if let Some(refusal) = found {
            drop(self.lemma.take());
            self.stage = Stage::Refused(refusal);
            return Ok(());
        }
        Ok(())
    }

    /// Takes a line, where no lemma is being shown.
    fn take_next(
        &mut self,
        alloc: Global,
        line: TextLine<'_>,
        working: &mut [i128],
    ) -> Result<(), Memory>
        requires limits { KeepsItemLimits (item_said line) }
        requires none { is_some self.old.lemma ≡ false }
        requires few { self.old.line < 2 ^ 31 }
        requires long { length working.old ≡ length self.old.instance.now.rows }
        requires zeros { AreZeros working.old }
        ensures instance { self.new.instance.now ≡ self.old.instance.now }
        ensures line { OnOk result (self.new.line ≡ self.old.line + 1) }
        ensures zeros { OnOk result (AreZeros working.new) }
        ensures judged { OnOk result
            ((front : Option Front) (c : Content) (rest : List LineItem) → HasText front c
            → JudgedAt self.old.stage self.old.instance.now front c (item_said line.entry ∷ rest)
            (kept self.old)
            → JudgedAt self.new.stage self.old.instance.now front c rest (kept self.new)) }
    {
        match line {
            TextLine::Own(item) => self.take_item(alloc, item, working),
            TextLine::Lemma(pairs) => self.begin_lemma(alloc, pairs),
            TextLine::Front => self.take_mark(alloc, TextLine::Front),
            TextLine::Scale(scale) => self.take_mark(alloc, TextLine::Scale(scale)),
            TextLine::Walk(rows) => self.take_mark(alloc, TextLine::Walk(rows)),
            TextLine::Least(least) => self.take_mark(alloc, TextLine::Least(least)),
        }
    }

    /// Takes the next line. The working numbers, one a row, are 0 before and after.
    pub fn take(
        &mut self,
        alloc: Global,
        line: TextLine<'_>,
        working: &mut [i128],
    ) -> Result<(), Memory>
        requires limits { KeepsItemLimits (item_said line) }
        requires few { self.old.line < 2 ^ 31 }
        requires long { length working.old ≡ length self.old.instance.now.rows }
        requires zeros { AreZeros working.old }
        ensures instance { self.new.instance.now ≡ self.old.instance.now }
        ensures line { OnOk result (self.new.line ≡ self.old.line + 1) }
        ensures zeros { OnOk result (AreZeros working.new) }
        ensures judged { OnOk result
            ((front : Option Front) (c : Content) (rest : List LineItem) → HasText front c
            → JudgedAt self.old.stage self.old.instance.now front c (item_said line.entry ∷ rest)
            (kept self.old)
            → JudgedAt self.new.stage self.old.instance.now front c rest (kept self.new)) }
    {
        self.end_lemma(&line)?;
        if self.lemma.is_some() {
            return self.show(alloc, line, working);
        }
        self.take_next(alloc, line, working)
    }

    /// The answer of the text.
    pub fn answer(&self) -> Answer
        ensures { (front : Option Front) (c : Content) → HasText front c
            → JudgedAt self.now.stage self.now.instance.now front c (items.End ∷ []) (kept self.now)
            → result ≡ c.answer }
    {
        self.answer
    }

    /// What the checker says of the text, where all its items came.
    pub fn verdict(&self) -> Verdict
        ensures { (front : Option Front) (c : Content) → HasText front c
            → JudgedAt self.now.stage self.now.instance.now front c (items.End ∷ []) (kept self.now)
            → IsVerdict front self.now.instance.now c result }
    {
        match self.stage {
            Stage::Refused(refusal) => Verdict::Refused(refusal),
            Stage::Front | Stage::Cycles | Stage::Tree => Verdict::Accepted,
        }
    }
}
