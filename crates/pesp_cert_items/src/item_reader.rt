//! The lines of a text whose reader is lent for each call.
ghost use Rattle.std.specs.Prelude.{List, ℕ, Option, ◌≡◌, ◌≢◌, ◌+◌, ◌<◌, ◌≤◌, ◌^◌, ◌↔◌, [], true, false, length, IsOk, OnOk, OnErr, IfOk, IfErr, MatchResult, codes, Ok, Err};
ghost use Rattle.std.below.core.specs.declared.int.u64.TheConstants.{MAX};
ghost use Rattle.std.specs.Borrow.{sem};
ghost use Rattle.std.specs.Io.BufRead.{Rests};
ghost use Rattle.pesp_stream.specs.Counts.{Worked};
ghost use Rattle.pesp_cert_lines.specs.Counts.{ProgressIsKept, beginning};
ghost use Rattle.pesp_cert_lines.specs.Lines.{LONGEST};
ghost use Rattle.pesp_cert_items.specs.Plain.{IsPlain};
ghost use Rattle.pesp_cert_items.specs.declared.stage.Stage.TheVariants as stages;
ghost use Rattle.pesp_cert_items.specs.Readings.{is_going};

use crate::fault::ItemFault;
use crate::item::Item;
use crate::lent_item::{bare_line, line_in, own_in};
use crate::lines::{LineBuffer, LinesFault, Next};
use crate::stage::Stage;
use crate::text_line::TextLine;
use pesp_cert::{CertRefusal, refusal_at};
use pesp_cert_lines::{LineFault, Progress, Versions, take_line};
use pesp_stream::Source;
use std::alloc::Global;

/// The lines of a text that are still to come, up to the one before `end`. The text comes from a reader that is lent for each
/// call, the same each time.
#[derive(Drop)]
pub struct ItemReader {
    lines: LineBuffer,
    most: u64,
    n: u64,
    progress: Progress,
    said: TextLine<'static>,
    stage: Stage,
    ghost most_fits: { most < MAX },
    ghost kept: { ProgressIsKept progress },
    ghost counted: { is_going stage ≡ true → n + (lines.left + length lines.chunk) ≤ 1073741824 },
}

impl ItemReader {
    ghost use Rattle.pesp_cert_items.specs.contracts.item_reader.ItemReader.{the_row};
    ghost use Rattle.pesp_cert_items.specs.Views.{reading, reading_line};
    ghost use Rattle.pesp_cert_items.specs.Lent.{listed, item_said, line_back, is_own, IsLineSpelt, told_by};
    ghost use Rattle.pesp_cert_items.specs.Readings.{AnswersNext, GivesItem, Lines, Says, IsItemFault, Blamed, stepped};

    /// The lines of a reader's text, where these versions are taken; no more than `most` of its calls may be interrupted.
    pub fn new(alloc: Global, most: u64, versions: Versions) -> ItemReader
        requires most_fits { most < u64.MAX }
        ensures most { result.most ≡ most }
        ensures begins { (told : Option (List ℕ))
            → reading told result ≡ record {
              told = told;
              left = 1073741824;
              held = [];
              n = 0;
              progress = beginning versions;
              stage = stages.Going;
            } }
    {
        ItemReader {
            lines: LineBuffer::new(alloc),
            most,
            n: 0,
            progress: Progress::new(versions),
            said: TextLine::Front,
            stage: Stage::Going,
        }
    }

    /// Reads the next line.
    fn read_line<S: Source>(&mut self, source: &mut S) -> Result<(), ItemFault>
        requires open { is_going self.old.stage ≡ true }
        requires failed_fits { (S.calls source.old).failed < u64.MAX }
        requires interrupted_fits { (S.calls source.old).interrupted ≤ self.old.most }
        ensures most { self.new.most ≡ self.old.most }
        ensures failed { OnOk result
            (Worked (S.calls source.old) self.old.most (S.calls source.new)) }
        ensures same { OnOk result ((self.new.stage ≡ self.old.stage) × (self.new.n ≡ self.old.n)) }
        ensures progress { self.new.progress ≡ self.old.progress }
        ensures counted { OnOk result
            ((self.new.n + 1) + (self.new.lines.left + length self.new.lines.chunk) ≤ 1073741824) }
        ensures line { OnOk result (Lines (reading (S.remaining source.old) self.old)
            (reading_line (S.remaining source.new) self.new) self.new.lines.line.items) }
        ensures stage { IfErr result (λ fault. self.new.stage ≡ stages.Failed fault) }
        ensures fault { IfErr result (λ fault. IsItemFault (reading (S.remaining source.old) self.old)
            (reading (S.remaining source.new) self.new) fault) }
        ensures blamed { IfErr result (λ fault. Blamed fault (S.calls source.old)
            self.old.most (S.calls source.new)) }
    {
        let n = self.n + 1;
        match self.lines.advance(source, self.most) {
            Ok(Next::Line) => Ok(()),
            Ok(Next::Long) => {
                let fault = ItemFault::Text(CertRefusal::Limit { n });
                self.stage = Stage::Failed(fault);
                Err(fault)
            }
            Ok(Next::End) => {
                let fault = ItemFault::Text(CertRefusal::Truncated);
                self.stage = Stage::Failed(fault);
                Err(fault)
            }
            Err(LinesFault::Memory) => {
                let fault = ItemFault::Text(CertRefusal::Memory);
                self.stage = Stage::Failed(fault);
                Err(fault)
            }
            Err(LinesFault::Device) => {
                self.stage = Stage::Failed(ItemFault::Read);
                Err(ItemFault::Read)
            }
        }
    }

    /// Judges the line that was read last; false where it ends the text.
    fn judge_line(&mut self) -> Result<bool, LineFault>
        requires { length self.old.lines.line.items ≤ LONGEST }
        ensures most { self.new.most ≡ self.old.most }
        ensures same { (self.new.stage ≡ self.old.stage) × (self.new.n ≡ self.old.n) }
        ensures lines { self.new.lines ≡ self.old.lines }
        ensures says { Says self.old.progress self.new.progress self.old.lines.line.items self.new.said result }
    {
        let item = take_line(&mut self.progress, self.lines.line())?;
        match bare_line(&item) {
            Some(line) => {
                self.said = line;
                Ok(true)
            }
            None => Ok(false),
        }
    }

    /// Reads and judges the next line; false where it is the last one and nothing stands behind it.
    fn go<S: Source>(&mut self, source: &mut S) -> Result<bool, ItemFault>
        requires going { self.old.stage ≡ stages.Going }
        requires failed_fits { (S.calls source.old).failed < u64.MAX }
        requires interrupted_fits { (S.calls source.old).interrupted ≤ self.old.most }
        ensures most { self.new.most ≡ self.old.most }
        ensures failed { OnOk result
            (Worked (S.calls source.old) self.old.most (S.calls source.new)) }
        ensures gives { GivesItem (reading (S.remaining source.old) self.old)
            (reading (S.remaining source.new) self.new)
            (stepped (line_back self.new.said self.new.lines.line.items) result) }
        ensures spelt { IfOk result
            (λ more. more ≡ true → IsLineSpelt self.new.said self.new.lines.line.items) }
        ensures blamed { IfErr result (λ fault. Blamed fault (S.calls source.old)
            self.old.most (S.calls source.new)) }
        ensures plain { IsPlain self.old.progress → IsPlain self.new.progress
            × IfOk result (λ more. more ≡ true → is_own self.new.said ≡ true) }
    {
        self.read_line(source)?;
        self.n += 1;
        match self.judge_line() {
            Ok(true) => Ok(true),
            Ok(false) => match self.lines.is_over(source, self.most) {
                Ok(true) => {
                    self.stage = Stage::Ended;
                    Ok(false)
                }
                Ok(false) => {
                    let fault = ItemFault::Text(CertRefusal::Trailing { n: self.n + 1 });
                    self.stage = Stage::Failed(fault);
                    Err(fault)
                }
                Err(_) => {
                    self.stage = Stage::Failed(ItemFault::Read);
                    Err(ItemFault::Read)
                }
            },
            Err(fault) => {
                let fault = ItemFault::Text(refusal_at(self.n, fault));
                self.stage = Stage::Failed(fault);
                Err(fault)
            }
        }
    }

    /// Reads and judges the next line; false where none comes any more.
    pub fn step<S: Source>(&mut self, source: &mut S) -> Result<bool, ItemFault>
        requires failed_fits { is_going self.old.stage ≡ true
            → (S.calls source.old).failed < u64.MAX }
        requires interrupted_fits { is_going self.old.stage ≡ true
            → (S.calls source.old).interrupted ≤ self.old.most }
        ensures most { self.new.most ≡ self.old.most }
        ensures failed { OnOk result (((S.calls source.new).failed ≡ (S.calls source.old).failed)
            × (is_going self.old.stage ≡ true → (S.calls source.new).interrupted ≤ self.old.most)) }
        ensures answers { AnswersNext self.old.stage (reading (S.remaining source.old) self.old)
            (reading (S.remaining source.new) self.new)
            (stepped (line_back self.new.said self.new.lines.line.items) result) }
        ensures spelt { IfOk result
            (λ more. more ≡ true → IsLineSpelt self.new.said self.new.lines.line.items) }
        ensures blamed { is_going self.old.stage ≡ true
            → IfErr result (λ fault. Blamed fault (S.calls source.old)
            self.old.most (S.calls source.new)) }
        ensures idle { is_going self.old.stage ≡ false → source.new ≡ source.old }
        ensures plain { IsPlain self.old.progress → IsPlain self.new.progress
            × IfOk result (λ more. more ≡ true → is_own self.new.said ≡ true) }
    {
        match self.stage {
            Stage::Going => self.go(source),
            Stage::Ended => Ok(false),
            Stage::Failed(fault) => Err(fault),
        }
    }

    /// The line that was read last.
    fn line(&self) -> TextLine<'_>
        requires { IsLineSpelt self.now.said self.now.lines.line.items }
        ensures { item_said result ≡ line_back self.now.said self.now.lines.line.items }
    {
        line_in(&self.said, self.lines.line())
    }

    /// The item of the line that was read last, where it is none of a front.
    pub(crate) fn item(&self) -> Item<'_>
        requires own { is_own self.now.said ≡ true }
        requires spelt { IsLineSpelt self.now.said self.now.lines.line.items }
        ensures { listed result ≡ line_back self.now.said self.now.lines.line.items }
    {
        own_in(&self.said, self.lines.line())
    }

    /// The next line, which is lent until the next call; None behind the last one. After a fault each call answers that
    /// fault, after None it answers None.
    pub fn next_from<S: Source>(
        &mut self,
        source: &mut S,
    ) -> Result<Option<TextLine<'_>>, ItemFault>
        requires failed_fits { is_going self.old.stage ≡ true
            → (S.calls source.old).failed < u64.MAX }
        requires interrupted_fits { is_going self.old.stage ≡ true
            → (S.calls source.old).interrupted ≤ self.old.most }
        ensures* after_borrow { sem 𝓛 (Rests the_row self.entry (λ new. (new.most ≡ self.old.most)
            × OnOk result (((S.calls source.new).failed ≡ (S.calls source.old).failed)
            × (is_going self.old.stage ≡ true → (S.calls source.new).interrupted ≤ self.old.most))
            × AnswersNext self.old.stage (reading (S.remaining source.old) self.old)
            (reading (S.remaining source.new) new) (told_by result)
            × (is_going self.old.stage ≡ true → IfErr result
            (λ fault. Blamed fault (S.calls source.old)
            self.old.most (S.calls source.new)))
            × (is_going self.old.stage ≡ false → source.new ≡ source.old))) }
    {
        if !self.step(source)? {
            return Ok(None);
        }
        Ok(Some(self.line()))
    }
}
