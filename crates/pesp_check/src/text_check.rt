//! The check of a certificate's text while it is read, of all versions or of those without a front.

ghost use Rattle.std.specs.Prelude.{◌≡◌, ◌≢◌, ◌≤◌, ◌+◌, ◌<◌, ◌^◌, length, Option, IfOk, IfErr, OnOk};
ghost use Rattle.pesp_stream.specs.Counts.{FewerThan, HasWorked, DeviceFailed};
ghost use Rattle.pesp_problem.specs.Nets.{AreZeros};
ghost use Rattle.pesp_truth.specs.Certificates.{Front, Content};
ghost use Rattle.pesp_cert_lines.specs.declared.versions.Versions.TheVariants.{Plain};
ghost use Rattle.pesp_check.specs.Judging.{JudgedAt, items_left};
ghost use Rattle.pesp_check.specs.Texts.{ChecksText, Faults};
ghost use Rattle.pesp_check.specs.Views.{kept};

use crate::check_fault::CheckFault;
use crate::judge::Judge;
use pesp_cert::Versions;
use pesp_cert_items::ItemReader;
use pesp_judges::{Verdict, zeros};
use pesp_problem::Instance;
use pesp_stream::{MOST_INTERRUPTED, Source};
use pesp_truth::Answer;
use pesp_truth::laws::valid_is_true;
use std::alloc::Global;

/// Judges the lines of a text until it ends, by a new judge.
fn judge_lines<S: Source>(
    alloc: Global,
    source: &mut S,
    versions: Versions,
    judge: &mut Judge<'_>,
    working: &mut [i128],
) -> Result<(Verdict, Answer), CheckFault>
    requires fits { FewerThan (2 ^ 63) (S.calls source.old) }
    requires period { 1 ≤ judge.old.instance.now.period }
    requires line { judge.old.line ≡ 0 }
    requires judged { (front : Option Front) (c : Content)
        → JudgedAt judge.old.stage judge.old.instance.now front c (items_left front c) (kept judge.old) }
    requires long { length working.old ≡ length judge.old.instance.now.rows }
    requires zeros { AreZeros working.old }
    ensures ok { IfOk result (λ found. ChecksText versions (S.remaining source.old)
        (S.remaining source.new) judge.old.instance.now found.0 found.1) }
    ensures counts { OnOk result (HasWorked (S.calls source.old) (S.calls source.new)) }
    ensures counts_else { IfErr result (λ fault. fault ≢ CheckFault.Read → HasWorked (S.calls source.old) (S.calls source.new)) }
    ensures fault { IfErr result
        (λ fault. Faults versions fault (S.remaining source.old) (S.remaining source.new)
        (DeviceFailed (S.calls source.old) (S.calls source.new))) }
{
    valid_is_true();
    let most = source.interrupted_reads() + MOST_INTERRUPTED;
    let mut lines = ItemReader::new(alloc, most, versions);
    loop {
        match lines.next_from(source) {
            Ok(None) => return Ok((judge.verdict(), judge.answer())),
            Ok(Some(line)) => judge.take(alloc, line, working)?,
            Err(fault) => return Err(CheckFault::from(fault)),
        }
    }
}

/// Judges a certificate's text, whoever made it, while it is read, where its version is taken: the verdict that `check_sharp`
/// has for the certificate and the front that `parse_text` reads from it, and its answer. At most 1,073,741,824 bytes of the
/// reader are read, and those are judged.
///
/// `Text` is the text's first fault; it is told also where an item before it is wrong, so the text is read on behind such an
/// item. `Read` says that the reader failed, `Memory` that a growth was refused. It keeps one line, the marked walks of the
/// front, the answer, the times, the net counts of the cycles, the ranges of the present node, for each branch on the way to it
/// the one range that the branch changed, and, where a leaf is closed by propagation, one family of sets of time differences.
pub fn check_text_of<S: Source>(
    alloc: Global,
    instance: &Instance,
    source: &mut S,
    versions: Versions,
) -> Result<(Verdict, Answer), CheckFault>
    requires fits { FewerThan (2 ^ 63) (S.calls source.old) }
    ensures ok { IfOk result (λ found. ChecksText versions (S.remaining source.old)
        (S.remaining source.new) instance.now found.0 found.1) }
    ensures counts { OnOk result (HasWorked (S.calls source.old) (S.calls source.new)) }
    ensures counts_else { IfErr result (λ fault. fault ≢ CheckFault.Read → HasWorked (S.calls source.old) (S.calls source.new)) }
    ensures fault { IfErr result
        (λ fault. Faults versions fault (S.remaining source.old) (S.remaining source.new)
        (DeviceFailed (S.calls source.old) (S.calls source.new))) }
{
    let mut working = zeros(alloc, instance.rows().len())?;
    let mut judge = Judge::new(alloc, instance);
    let found = judge_lines(alloc, source, versions, &mut judge, &mut working);
    drop(judge);
    found
}

/// Judges the text of a certificate without a front, as `check_text_of` does: the verdict that `check` has for the certificate
/// that `parse` reads from it, and its answer.
pub fn check_text<S: Source>(
    alloc: Global,
    instance: &Instance,
    source: &mut S,
) -> Result<(Verdict, Answer), CheckFault>
    requires fits { FewerThan (2 ^ 63) (S.calls source.old) }
    ensures ok { IfOk result (λ found. ChecksText Plain (S.remaining source.old) (S.remaining source.new)
        instance.now found.0 found.1) }
    ensures counts { OnOk result (HasWorked (S.calls source.old) (S.calls source.new)) }
    ensures counts_else { IfErr result (λ fault. fault ≢ CheckFault.Read → HasWorked (S.calls source.old) (S.calls source.new)) }
    ensures fault { IfErr result
        (λ fault. Faults Plain fault (S.remaining source.old) (S.remaining source.new)
        (DeviceFailed (S.calls source.old) (S.calls source.new))) }
{
    check_text_of(alloc, instance, source, Versions::Plain)
}
