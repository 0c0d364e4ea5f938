//! Reading works.

ghost use Rattle.std.specs.Prelude.{◌≡◌, ◌+◌, ◌<◌, ◌^◌, ◌∷◌, [], ◌++◌, IfOk, IfErr, OnOk, length};
ghost use Rattle.pesp_cert.specs.Drafts.{blank};
ghost use Rattle.pesp_cert.specs.Texts.{is_end};
ghost use Rattle.pesp_cert_items.specs.Works as works;
ghost use Rattle.pesp_cert_items.specs.Refusals.{Front, Job, Inside, made, works_of_text, IsTextOfWorks, ReadsListsOfWorks, RefusesFirstWork, ReadsWorks};
ghost use Rattle.pesp_cert_items.specs.Steps.{GoesOn, Ends, RefusesWork};

use crate::cursor::{Cursor, take_bytes, take_header};
use crate::job::job_at;
use crate::work_line::{opening, take_work_line};
use crate::work_text::WorkText;
use pesp_cert::{CertRefusal, Draft, refusal_at};
use pesp_cert_lines::Item;
use pesp_problem::Memory;
use std::alloc::Global;

/// Whether this is the last line of a work.
fn is_end(item: &Item<'_>) -> bool
    ensures { result ≡ is_end item.now }
{
    matches!(item, Item::End)
}

/// The work that lines add up to.
fn made(job: u64, draft: Draft) -> WorkText
    ensures { result ≡ made job draft }
{
    let Draft { times, tree, .. } = draft;
    WorkText { job, times, tree }
}

/// Takes the line of a job.
fn take_job(cursor: &mut Cursor<'_>) -> Result<u64, CertRefusal>
    requires { cursor.old.n + length cursor.old.rest.now < 2 ^ 64 }
    ensures goes { IfOk result (λ job. GoesOn cursor.old.n Job cursor.old.rest.now cursor.new.n
        (Inside job works.work_progress blank) cursor.new.rest.now) }
    ensures refused { IfErr result (RefusesWork cursor.old.n Job cursor.old.rest.now) }
{
    let n = cursor.n;
    let line = take_bytes(cursor)?;
    match job_at(line) {
        Err(fault) => Err(refusal_at(n, fault)),
        Ok(job) => Ok(job),
    }
}

/// Takes the lines behind a job's, up to the end of the work.
fn take_lines(alloc: Global, job: u64, cursor: &mut Cursor<'_>) -> Result<WorkText, CertRefusal>
    requires { cursor.old.n + length cursor.old.rest.now < 2 ^ 64 }
    ensures ends { IfOk result (λ work. Ends cursor.old.n (Inside job works.work_progress blank)
        cursor.old.rest.now work cursor.new.n cursor.new.rest.now) }
    ensures refused { IfErr result
        (RefusesWork cursor.old.n (Inside job works.work_progress blank) cursor.old.rest.now) }
{
    let mut draft = Draft::new(alloc);
    let mut progress = opening();
    loop {
        let n = cursor.n;
        let line = take_bytes(cursor)?;
        let item = match take_work_line(&mut progress, line) {
            Err(fault) => return Err(refusal_at(n, fault)),
            Ok(item) => item,
        };
        if is_end(&item) {
            return Ok(made(job, draft));
        }
        draft.add(alloc, item)?;
    }
}

/// Takes a work.
fn take_work(alloc: Global, cursor: &mut Cursor<'_>) -> Result<WorkText, CertRefusal>
    requires some { 0 < length cursor.old.rest.now }
    requires fits { cursor.old.n + length cursor.old.rest.now < 2 ^ 64 }
    ensures ends { IfOk result (λ work. Ends cursor.old.n Front cursor.old.rest.now work
        cursor.new.n cursor.new.rest.now) }
    ensures refused { IfErr result (RefusesWork cursor.old.n Front cursor.old.rest.now) }
{
    take_header(cursor)?;
    let job = take_job(cursor)?;
    take_lines(alloc, job, cursor)
}

/// Puts a work behind those that were taken.
fn keep(works: &mut Vec<WorkText>, work: WorkText) -> Result<(), Memory>
    ensures { OnOk result (works.new.items ≡ works.old.items ++ work ∷ []) }
{
    works.push(work)?;
    Ok(())
}

/// The works of a whole text.
fn read_works(alloc: Global, text: &[u8]) -> Result<Vec<WorkText>, CertRefusal>
    ensures { ReadsWorks result (works_of_text text.now) }
{
    let mut works = Vec::new(alloc);
    let mut cursor = Cursor { rest: text, n: 1 };
    while !cursor.rest.is_empty() {
        let work = take_work(alloc, &mut cursor)?;
        keep(&mut works, work)?;
    }
    Ok(works)
}

/// The works whose texts stand one behind the other, none for an empty text; or why they are no works': the first fault of
/// the first line with a fault, in the lines of the whole text. The limits of counts hold for each work. The text is read once
/// from its front to its end. `Memory` where a growth was refused.
pub fn parse_works(alloc: Global, text: &[u8]) -> Result<Vec<WorkText>, CertRefusal>
    // What is read are the works whose text this is.
    ensures found { IfOk result (λ works. IsTextOfWorks text.now works.items) }
    // The text of works is read, unless a growth was refused.
    ensures only { ReadsListsOfWorks text.now result }
    // Which refusal it is.
    ensures refused { IfErr result (RefusesFirstWork text.now) }
{
    read_works(alloc, text)
}
