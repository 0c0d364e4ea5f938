//! One line at its place.

ghost use Rattle.std.specs.Prelude.{◌≡◌, ◌≤◌, Result, IfOk, OnErr, length};
ghost use Rattle.pesp_stream.specs.Words.{words_of};
ghost use Rattle.pesp_cert_lines.specs.Items.{is_form, is_answer_form};
ghost use Rattle.pesp_cert_lines.specs.Counts.{progress_after, ProgressIsKept};
ghost use Rattle.pesp_cert_lines.specs.Lines.{begins_front, is_cut, line_at, line_judged, as_line, words_judged, LONGEST, ReadsLine};

use crate::fault::LineFault;
use crate::item::Item;
use crate::judge::judge_numbers;
use crate::kind::Kind;
use crate::kinds::kind_of;
use crate::progress::{Progress, allows, counted, is_behind_front, is_in_front};
use pesp_stream::{Words, count_words, is_word};

/// Whether so many words may stand behind `answer`, by the first of them.
#[tactic(auto, unfolding(crate::specs::Items::is_answer_form))]
fn is_answer_form(mut words: Words<'_>, number: usize) -> bool
    requires { number ≡ length words }
    ensures { result ≡ is_answer_form words.entry }
{
    let Some(first) = words.next() else {
        return false;
    };
    if is_word(first, "optimal") {
        number == 2
    } else if is_word(first, "infeasible") {
        number == 1
    } else if is_word(first, "open") {
        number == 3
    } else {
        false
    }
}

/// Whether so many words behind the first have the form of its kind.
fn is_form(kind: Kind, words: Words<'_>, number: usize) -> bool
    requires { number ≡ length words }
    ensures { result ≡ is_form kind words.entry }
{
    match kind {
        Kind::Front => false,
        Kind::Scale | Kind::Least | Kind::Version | Kind::Period | Kind::Gap => number == 1,
        Kind::Answer => is_answer_form(words, number),
        Kind::Time | Kind::Slack | Kind::Offset => number == 2,
        Kind::Cycle | Kind::Walk => number >= 1,
        Kind::Lemma | Kind::Bound | Kind::Nothing => number % 2 == 0,
        Kind::Propagated | Kind::End => number == 0,
    }
}

/// A fault as one of the line's form, where it is that of a first line that has to be right.
fn as_line(strict: bool, judged: Result<Item<'_>, LineFault>) -> Result<Item<'_>, LineFault>
    ensures { result ≡ as_line strict judged.entry }
{
    match judged {
        Ok(item) => Ok(item),
        Err(fault) => Err(if strict { LineFault::Line } else { fault }),
    }
}

/// What the words of a line say at its place, or their first fault.
fn judge_words<'a>(progress: &Progress, line: &'a [u8]) -> Result<Item<'a>, LineFault>
    requires { length line.now ≤ LONGEST }
    ensures { result ≡ words_judged progress.now (words_of line.now) }
{
    let Some(number) = count_words(line) else {
        return Err(LineFault::Line);
    };
    let mut words = Words::new(line);
    let Some(first) = words.next() else {
        return Err(LineFault::Line);
    };
    let Some(kind) = kind_of(first) else {
        return Err(LineFault::Line);
    };
    if allows(progress, kind) && is_form(kind, words.again(), number - 1) {
        as_line(
            is_behind_front(progress.place, progress.shows, kind),
            judge_numbers(kind, words),
        )
    } else {
        Err(LineFault::Line)
    }
}

/// Whether this is the first line of version 3, where it may stand.
fn begins_front(progress: &Progress, line: &[u8]) -> bool
    ensures { result ≡ begins_front progress.now line.now }
{
    allows(progress, Kind::Front) && is_word(line, "pesp-certificate 3")
}

/// Whether the line ends a certificate whose tree is not whole.
fn is_cut(progress: &Progress, line: &[u8]) -> bool
    ensures { result ≡ is_cut progress.now line.now }
{
    is_word(line, "end") && progress.needs != 0 && !is_in_front(progress.place, progress.shows)
}

/// What a line says at its place without the counts, or its first fault.
fn judge_whole<'a>(progress: &Progress, line: &'a [u8]) -> Result<Item<'a>, LineFault>
    requires { length line.now ≤ LONGEST }
    ensures { result ≡ line_judged progress.now line.now }
{
    if begins_front(progress, line) {
        return Ok(Item::Front);
    }
    judge_words(progress, line)
}

/// What the next line says at its place, or its first fault.
#[tactic(auto, unfolding(crate::specs::Lines::line_at))]
fn judge_line<'a>(progress: &mut Progress, line: &'a [u8]) -> Result<Item<'a>, LineFault>
    requires short { length line.now ≤ LONGEST }
    requires kept { ProgressIsKept progress.old }
    ensures exact { result ≡ line_at progress.old line.now }
    ensures goes { IfOk result (λ item. progress.new ≡ progress_after progress.old item) }
    ensures kept { IfOk result (λ item. ProgressIsKept progress.new) }
    ensures stays { OnErr result (progress.new ≡ progress.old) }
{
    if is_cut(progress, line) {
        return Err(LineFault::Truncated);
    }
    let item = judge_whole(progress, line)?;
    match counted(progress, &item) {
        None => Err(LineFault::Limit),
        Some(next) => {
            *progress = next;
            Ok(item)
        }
    }
}

/// Takes the next line of a text, without its LF: what it says, or its first fault. The lists of the answer are read from
/// the line itself. After a fault the progress is as it was.
pub fn take_line<'a>(progress: &mut Progress, line: &'a [u8]) -> Result<Item<'a>, LineFault>
    requires short { length line.now ≤ LONGEST }
    requires kept { ProgressIsKept progress.old }
    // An item is read exactly where the line is its spelling and it may stand here.
    ensures spelt { ReadsLine progress.old line.now result }
    // Which fault it is.
    ensures exact { result ≡ line_at progress.old line.now }
    ensures goes { IfOk result (λ item. progress.new ≡ progress_after progress.old item) }
    ensures kept { IfOk result (λ item. ProgressIsKept progress.new) }
    ensures stays { OnErr result (progress.new ≡ progress.old) }
{
    judge_line(progress, line)
}
