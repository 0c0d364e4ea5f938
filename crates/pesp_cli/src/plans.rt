//! Plans, written or kept in a file.

ghost use Rattle.std.specs.Prelude.{◌≡◌, ◌≢◌, ◌⊎◌, ◌<◌, ◌^◌, None, IfOk, IfErr, IfSome};
ghost use Rattle.pesp_stream.specs.Counts.{FewerThan};
ghost use Rattle.pesp_check.specs.Devices.{over};
ghost use Rattle.pesp_cli.specs.Answers.{AnswersPlan, AnswersKept};
ghost use Rattle.pesp_cli.specs.Stops.{StopsPlan, StopsKept};

use crate::answers::{done, search};
use pesp_files::{Lockable, ShelfRefusal};
use pesp_looks::Overseer;
use pesp_old_times::{FromOldTimes, Listener};
use pesp_plan::{FileShelf, KeptPlan, Plan, run_on_standing};
use pesp_planner::{Again, Hearer, Planner};
use pesp_request::Planning;
use pesp_runs::Fault;
use pesp_sharp_search::Sharpener;
use pesp_stream::{Counted, Sink, Source};
use std::rt::{Clock, Files};

/// The fault that a file can't be a shelf. Where another plan has it, that is told besides.
fn fault_of<R: Eprint>(rt: &R, refusal: ShelfRefusal) -> Fault
    ensures { (result ≡ Fault.NoFile) ⊎ (result ≡ Fault.Memory) }
{
    match refusal {
        ShelfRefusal::Memory => Fault::Memory,
        ShelfRefusal::Taken => {
            let _ = rt.eprintln(refusal);
            Fault::NoFile
        }
        ShelfRefusal::Device => Fault::NoFile,
    }
}

/// The shelf of a file, on which nothing counts as standing yet.
fn shelf_of<'a, R: AllocGlobal + Eprint + Files>(
    rt: &'a R,
    file: &str,
) -> Result<FileShelf<'a, R>, Fault>
where
    R::File: Lockable,
    ensures shelf { IfOk result (λ shelf. shelf.standing ≡ None) }
    ensures refused { IfErr result (λ fault. (fault ≡ Fault.NoFile) ⊎ (fault ≡ Fault.Memory)) }
{
    match FileShelf::open(rt, file) {
        Ok(shelf) => Ok(shelf),
        Err(refusal) => Err(fault_of(rt, refusal)),
    }
}

/// The certificate that stands on a shelf, to be read, where one does.
fn found_on<R: Eprint + Files>(
    rt: &R,
    shelf: &FileShelf<'_, R>,
) -> Result<Option<Counted<R::File>>, Fault>
    ensures failed { IfOk result (λ found. IfSome found (λ file. file.calls.failed ≡ 0)) }
    ensures interrupted { IfOk result (λ found. IfSome found (λ file. file.calls.interrupted ≡ 0)) }
    ensures refused { IfErr result (λ fault. (fault ≡ Fault.NoFile) ⊎ (fault ≡ Fault.Memory)) }
{
    match shelf.found() {
        Ok(Some(file)) => Ok(Some(Counted::new(file))),
        Ok(None) => Ok(None),
        Err(refusal) => Err(fault_of(rt, refusal)),
    }
}

/// Makes a plan of the instance that the reader gives, and keeps it in a file: from the certificate that stands there, or its times
/// where it is of other activities; where none stands there, from the times in a file where one is named.
fn kept_in<
    R: AllocGlobal + Eprint + Files,
    I: Source,
    W: Sink,
    F: Sharpener + Drop,
    K: Overseer + Drop,
    L: Listener,
>(
    rt: &R,
    reader: &mut I,
    writer: &mut W,
    period: u32,
    file: &str,
    from: Option<&str>,
    sharpener: F,
    overseer: K,
    start: &mut FromOldTimes<L>,
) -> Result<u8, Fault>
where
    R::File: Lockable,
    requires reads_fit { FewerThan (2 ^ 62) (I.calls reader.old) }
    requires writes_fit { FewerThan (2 ^ 62) (W.calls writer.old) }
    ensures answered { IfOk result (AnswersKept from.entry period
        (over (I.remaining reader.old) (I.remaining reader.new)
        (I.calls reader.old) (I.calls reader.new))
        (over (W.contents writer.old) (W.contents writer.new)
        (W.calls writer.old) (W.calls writer.new))) }
    ensures stopped { IfErr result (λ fault. StopsKept from.entry fault period
        (over (I.remaining reader.old) (I.remaining reader.new)
        (I.calls reader.old) (I.calls reader.new))
        (over (W.contents writer.old) (W.contents writer.new)
        (W.calls writer.old) (W.calls writer.new))) }
    ensures silent { IfErr result (λ fault. fault ≢ Fault.Write → writer.new ≡ writer.old) }
{
    let shelf = shelf_of(rt, file)?;
    let found = found_on(rt, &shelf);
    let alloc = rt.alloc();
    let mut plan = KeptPlan {
        shelf,
        sharpener,
        overseer,
    };
    match found {
        Ok(None) => {
            let answer = search(rt, reader, writer, period, from, &mut plan, start);
            drop(plan);
            answer
        }
        Ok(Some(mut base)) => {
            let listener = &mut start.listener;
            let answer = done(run_on_standing(
                alloc, &mut plan, reader, &mut base, writer, period, listener,
            ));
            drop(plan);
            answer
        }
        Err(fault) => {
            drop(plan);
            Err(fault)
        }
    }
}

/// Makes the plan that is asked for, of the instance that the reader gives.
pub(crate) fn of_plan<
    R: AllocGlobal + Eprint + Files + Clock,
    I: Source,
    W: Sink,
    F: Sharpener + Drop,
>(
    rt: &R,
    reader: &mut I,
    writer: &mut W,
    period: u32,
    asked: Planning<'_>,
    sharpener: F,
) -> Result<u8, Fault>
where
    R::File: Lockable,
    requires reads_fit { FewerThan (2 ^ 62) (I.calls reader.old) }
    requires writes_fit { FewerThan (2 ^ 62) (W.calls writer.old) }
    ensures answered { IfOk result (AnswersPlan asked.entry.output asked.entry.from period
        (over (I.remaining reader.old) (I.remaining reader.new)
        (I.calls reader.old) (I.calls reader.new))
        (over (W.contents writer.old) (W.contents writer.new)
        (W.calls writer.old) (W.calls writer.new))) }
    ensures stopped { IfErr result (λ fault. StopsPlan asked.entry.output asked.entry.from fault period
        (over (I.remaining reader.old) (I.remaining reader.new)
        (I.calls reader.old) (I.calls reader.new))
        (over (W.contents writer.old) (W.contents writer.new)
        (W.calls writer.old) (W.calls writer.new))) }
    ensures silent { IfErr result (λ fault. fault ≢ Fault.Write → writer.new ≡ writer.old) }
{
    let Planning {
        seconds,
        output,
        from,
        quiet,
        instance,
    } = asked;
    let again = Again {
        period,
        output,
        instance,
    };
    let overseer = Planner::new(rt, seconds, quiet, again);
    let mut start = FromOldTimes {
        listener: Hearer::new(rt, quiet),
    };
    match output {
        None => {
            let mut plan = Plan {
                sharpener,
                overseer,
            };
            let answer = search(rt, reader, writer, period, from, &mut plan, &mut start);
            drop(plan);
            answer
        }
        Some(file) => kept_in(
            rt, reader, writer, period, file, from, sharpener, overseer, &mut start,
        ),
    }
}
