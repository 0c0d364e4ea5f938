//! What the program does for each request, over any readers and writers.

ghost use Rattle.std.specs.Prelude.{◌≡◌, ◌≢◌, ◌<◌, ◌≤◌, ◌^◌, Ok, Err, IfOk, IfErr, MatchResult};
ghost use Rattle.std.specs.Io.KnownBytes.{Appends};
ghost use Rattle.pesp_problem.specs.declared.limits.TheConstants.{MOST_STEPS};
ghost use Rattle.pesp_stream.specs.Counts.{FewerThan};
ghost use Rattle.pesp_check.specs.Devices.{over};
ghost use Rattle.pesp_check.specs.Verdicts.{verdict_status};
ghost use Rattle.pesp_runs.specs.FaultLines.{verdict_fault};
ghost use Rattle.pesp_runs.specs.Runs.{OverBase, OverBaseCause};
ghost use Rattle.pesp_request.specs.Requests.{InstanceWithin, CertificateWithin, LeavesWithin};
ghost use Rattle.pesp_cli.specs.Answers.{AnswersConflict, AnswersSearch, AnswersInstance, AnswersCertificate, AnswersLeaves, AnswersTimes, AnswersReport, AnswersViolations, AnswersFix, AnswersWorks, violations_status};
ghost use Rattle.pesp_report_run.specs.Fixing.{FixCause};
ghost use Rattle.pesp_cli.specs.Stops.{OrNoNames, OrNamesOf, StopsConflict, StopsSearch, StopsInstance, StopsCertificate, StopsLeaves, StopsTimes, StopsReport, StopsViolations, StopsWorks};

use crate::plans::of_plan;
use crate::telling::{tell_sums, told_conflict, told_fix};
use pesp_check::{VerdictFault, run_check, run_check_sharp, status_of_verdict};
use pesp_files::{Beginning, Headed, Lockable, warn_of_period};
use pesp_fixed::Wanted;
use pesp_judges::Verdict;
use pesp_planner::{Teller, Watch};
use pesp_report::Names;
use pesp_report_run::{
    Diagrams, HtmlPage, NamedReport, Picture, Report, Timetable, read_whole_names, run_conflict,
    run_fix, run_sheet, run_violations, status_of_told,
};
use pesp_request::{OfCertificate, OfInstance, OfLeaves, OfTimes, OfWorks};
use pesp_runs::{
    Fault, FromTimetable, OnBase, Search, Start, run_alone, run_from_times, run_on_base,
    run_on_works,
};
use pesp_sharp_search::Sharpener;
use pesp_stream::{Counted, Sink, Source};
use pesp_tasks::{
    Gap, GapJson, GraftSharp, Resume, ResumeSharp, Solve, SolveSharp, Split, SplitSharp, WorkSharp,
    WorkTask, run_graft,
};
use std::alloc::Global;
use std::fs::File;
use std::rt::{Clock, Files};

/// The status of a run that has none of its own: 0.
pub(crate) fn done(run: Result<(), Fault>) -> Result<u8, Fault>
    ensures { MatchResult run (λ _. result ≡ Ok 0) (λ fault. result ≡ Err fault) }
{
    match run {
        Ok(()) => Ok(0),
        Err(fault) => Err(fault),
    }
}

/// The status of a run that judges a certificate: that of its verdict.
fn judged(run: Result<Verdict, VerdictFault>) -> Result<u8, Fault>
    ensures { MatchResult run (λ verdict. result ≡ Ok (verdict_status verdict)) (λ fault. result ≡ Err (verdict_fault fault)) }
{
    match run {
        Ok(verdict) => Ok(status_of_verdict(verdict)),
        Err(found) => Err(Fault::from(found)),
    }
}

/// Searches for the instance that the reader gives, from the times in a file where one is named.
#[tactic(auto, using(crate::proofs::Ends::finished))]
pub(crate) fn search<R: AllocGlobal + Eprint + Files, I: Source, W: Sink, S: Search, N: Start>(
    rt: &R,
    reader: &mut I,
    writer: &mut W,
    period: u32,
    from: Option<&str>,
    task: &mut S,
    start: &mut N,
) -> Result<u8, Fault>
    requires within { S.within task.old }
    requires reads_fit { FewerThan (2 ^ 62) (I.calls reader.old) }
    requires writes_fit { FewerThan (2 ^ 62) (W.calls writer.old) }
    ensures answered { IfOk result (AnswersSearch N.reads (S.writes task.old task.new) from.entry period
        (over (I.remaining reader.old) (I.remaining reader.new)
        (I.calls reader.old) (I.calls reader.new))
        (over (W.contents writer.old) (W.contents writer.new)
        (W.calls writer.old) (W.calls writer.new))) }
    ensures stopped { IfErr result (λ fault. StopsSearch N.reads N.refused (S.stops task.old) (S.writes task.old task.new)
        from.entry fault period
        (over (I.remaining reader.old) (I.remaining reader.new)
        (I.calls reader.old) (I.calls reader.new))
        (over (W.contents writer.old) (W.contents writer.new)
        (W.calls writer.old) (W.calls writer.new))) }
    ensures silent { IfErr result (λ fault. fault ≢ Fault.Write → writer.new ≡ writer.old) }
{
    let alloc = rt.alloc();
    match from {
        None => done(run_alone(alloc, task, reader, writer, period)),
        Some(file) => {
            let mut times = opened_times(rt, file)?;
            let run = run_from_times(alloc, task, start, reader, &mut times, writer, period);
            warn_of_period(rt, &times.into_inner(), period);
            done(run)
        }
    }
}

/// Looks for a conflict in the instance that the reader gives, and tells it with the names in a file where one is named.
fn conflict<R: AllocGlobal + Eprint + Files, I: Source, W: Sink, E: Sink, F: Sharpener + Drop>(
    rt: &R,
    reader: &mut I,
    writer: &mut W,
    teller: &mut E,
    period: u32,
    steps: u32,
    names: Option<&str>,
    mut sharpener: F,
) -> Result<u8, Fault>
    requires steps { steps ≤ MOST_STEPS }
    requires reads_fit { FewerThan (2 ^ 62) (I.calls reader.old) }
    requires writes_fit { FewerThan (2 ^ 62) (W.calls writer.old) }
    requires tellings_fit { FewerThan (2 ^ 62) (E.calls teller.old) }
    ensures answered { IfOk result (AnswersConflict names.entry steps period
        (over (I.remaining reader.old) (I.remaining reader.new)
        (I.calls reader.old) (I.calls reader.new))
        (over (W.contents writer.old) (W.contents writer.new)
        (W.calls writer.old) (W.calls writer.new))
        (over (E.contents teller.old) (E.contents teller.new)
        (E.calls teller.old) (E.calls teller.new))
        (writer.new ≡ writer.old)) }
    ensures stopped { IfErr result (λ fault. StopsConflict names.entry fault steps period
        (over (I.remaining reader.old) (I.remaining reader.new)
        (I.calls reader.old) (I.calls reader.new))
        (over (W.contents writer.old) (W.contents writer.new)
        (W.calls writer.old) (W.calls writer.new))) }
    ensures silent { IfErr result (λ fault. fault ≢ Fault.Write → writer.new ≡ writer.old) }
{
    let alloc = rt.alloc();
    let mut sums = String::new(alloc);
    match names {
        None => {
            let finder = &mut sharpener;
            let told = run_conflict(
                alloc, reader, writer, period, steps, None, &mut sums, finder,
            )?;
            told_conflict(teller, told);
            Ok(status_of_told(told))
        }
        Some(file) => {
            let names = names_in(rt, file)?;
            let run = run_conflict(
                alloc,
                reader,
                writer,
                period,
                steps,
                Some(&names),
                &mut sums,
                &mut sharpener,
            );
            drop(names);
            let told = run?;
            told_conflict(teller, told);
            tell_sums(rt, &sums);
            Ok(status_of_told(told))
        }
    }
}

/// Does what is asked of the instance that the reader gives.
pub(crate) fn of_instance<
    R: AllocGlobal + Eprint + Files + Clock,
    I: Source,
    W: Sink,
    E: Sink,
    F: Sharpener + Drop,
>(
    rt: &R,
    reader: &mut I,
    writer: &mut W,
    teller: &mut E,
    period: u32,
    asked: OfInstance<'_>,
    sharpener: F,
) -> Result<u8, Fault>
where
    R::File: Lockable,
    requires within { InstanceWithin asked }
    requires reads_fit { FewerThan (2 ^ 62) (I.calls reader.old) }
    requires writes_fit { FewerThan (2 ^ 62) (W.calls writer.old) }
    requires tellings_fit { FewerThan (2 ^ 62) (E.calls teller.old) }
    ensures answered { IfOk result (AnswersInstance asked.entry period
        (over (I.remaining reader.old) (I.remaining reader.new)
        (I.calls reader.old) (I.calls reader.new))
        (over (W.contents writer.old) (W.contents writer.new)
        (W.calls writer.old) (W.calls writer.new))
        (over (E.contents teller.old) (E.contents teller.new)
        (E.calls teller.old) (E.calls teller.new))
        (writer.new ≡ writer.old)) }
    ensures stopped { IfErr result (λ fault. StopsInstance asked.entry fault period
        (over (I.remaining reader.old) (I.remaining reader.new)
        (I.calls reader.old) (I.calls reader.new))
        (over (W.contents writer.old) (W.contents writer.new)
        (W.calls writer.old) (W.calls writer.new))) }
    ensures silent { IfErr result (λ fault. fault ≢ Fault.Write → writer.new ≡ writer.old) }
{
    let timetable = &mut FromTimetable;
    match asked {
        OfInstance::Solve {
            steps,
            from,
            progress,
        } => {
            let mut task = Solve {
                steps,
                finder: sharpener,
                observer: Teller::begin(rt, progress),
            };
            let answer = search(rt, reader, writer, period, from, &mut task, timetable);
            drop(task);
            answer
        }
        OfInstance::SolveSharp {
            steps,
            from,
            progress,
        } => {
            let mut sharp = SolveSharp {
                steps,
                sharpener,
                observer: Teller::begin(rt, progress),
            };
            let answer = search(rt, reader, writer, period, from, &mut sharp, timetable);
            drop(sharp);
            answer
        }
        OfInstance::Plan(asked) => of_plan(rt, reader, writer, period, asked, sharpener),
        OfInstance::Conflict { steps, names } => {
            conflict(rt, reader, writer, teller, period, steps, names, sharpener)
        }
    }
}

/// Does a task with the certificate that the reader gives, for the instance of the other reader.
#[tactic(auto, using(crate::proofs::Ends::finished))]
pub(crate) fn on_base<I: Source, S: Source, W: Sink, T: OnBase>(
    alloc: Global,
    instance: &mut I,
    reader: &mut S,
    writer: &mut W,
    period: u32,
    task: &mut T,
) -> Result<u8, Fault>
    requires within { T.within task.old }
    requires instance_fits { FewerThan (2 ^ 62) (I.calls instance.old) }
    requires reads_fit { FewerThan (2 ^ 62) (S.calls reader.old) }
    requires writes_fit { FewerThan (2 ^ 62) (W.calls writer.old) }
    ensures answered { IfOk result (λ status. OverBase T.Base.reads
        (I.remaining instance.old) (I.remaining instance.new)
        (S.remaining reader.old) (S.remaining reader.new) period
        (λ p base. T.writes task.old task.new p base
        (Appends (W.contents writer.old) (W.contents writer.new)))
        × (status ≡ 0)) }
    ensures stopped { IfErr result (λ fault. OverBaseCause T.Base.reads T.Base.refused fault
        (over (I.remaining instance.old) (I.remaining instance.new)
        (I.calls instance.old) (I.calls instance.new))
        (over (S.remaining reader.old) (S.remaining reader.new)
        (S.calls reader.old) (S.calls reader.new))
        (over (W.contents writer.old) (W.contents writer.new)
        (W.calls writer.old) (W.calls writer.new))
        period (reader.new ≡ reader.old)
        (T.stops task.old) (T.writes task.old task.new)) }
    ensures silent { IfErr result (λ fault. fault ≢ Fault.Write → writer.new ≡ writer.old) }
{
    done(run_on_base(alloc, task, instance, reader, writer, period))
}

/// Does what is asked of the certificate that the reader gives, for the instance of the other reader.
pub(crate) fn of_certificate<
    R: AllocGlobal + Eprint + Clock,
    I: Source,
    S: Source,
    W: Sink,
    F: Sharpener + Drop,
>(
    rt: &R,
    instance: &mut I,
    reader: &mut S,
    writer: &mut W,
    period: u32,
    asked: OfCertificate,
    mut sharpener: F,
) -> Result<u8, Fault>
    requires within { CertificateWithin asked }
    requires instance_fits { FewerThan (2 ^ 62) (I.calls instance.old) }
    requires reads_fit { FewerThan (2 ^ 62) (S.calls reader.old) }
    requires writes_fit { FewerThan (2 ^ 62) (W.calls writer.old) }
    ensures answered { IfOk result (AnswersCertificate asked period
        (over (I.remaining instance.old) (I.remaining instance.new)
        (I.calls instance.old) (I.calls instance.new))
        (over (S.remaining reader.old) (S.remaining reader.new)
        (S.calls reader.old) (S.calls reader.new))
        (over (W.contents writer.old) (W.contents writer.new)
        (W.calls writer.old) (W.calls writer.new))) }
    ensures stopped { IfErr result (λ fault. StopsCertificate asked fault period
        (over (I.remaining instance.old) (I.remaining instance.new)
        (I.calls instance.old) (I.calls instance.new))
        (over (S.remaining reader.old) (S.remaining reader.new)
        (S.calls reader.old) (S.calls reader.new))
        (over (W.contents writer.old) (W.contents writer.new)
        (W.calls writer.old) (W.calls writer.new))
        (reader.new ≡ reader.old)) }
    ensures silent { IfErr result (λ fault. fault ≢ Fault.Write → writer.new ≡ writer.old) }
{
    let alloc = rt.alloc();
    match asked {
        OfCertificate::Check => judged(run_check(alloc, instance, reader, writer, period)),
        OfCertificate::CheckSharp => {
            judged(run_check_sharp(alloc, instance, reader, writer, period))
        }
        OfCertificate::Gap => on_base(alloc, instance, reader, writer, period, &mut Gap),
        OfCertificate::GapJson => { on_base(alloc, instance, reader, writer, period, &mut GapJson) }
        OfCertificate::Resume {
            steps,
            seconds,
            progress,
        } => {
            let mut task = Resume {
                steps,
                sharpener,
                watcher: Watch::new(rt, progress, seconds),
            };
            on_base(alloc, instance, reader, writer, period, &mut task)
        }
        OfCertificate::ResumeSharp {
            steps,
            seconds,
            progress,
            share,
        } => {
            sharpener.take_share(share);
            let mut task = ResumeSharp {
                steps,
                sharpener,
                watcher: Watch::new(rt, progress, seconds),
            };
            on_base(alloc, instance, reader, writer, period, &mut task)
        }
        OfCertificate::Split => on_base(alloc, instance, reader, writer, period, &mut Split),
        OfCertificate::SplitSharp => {
            on_base(alloc, instance, reader, writer, period, &mut SplitSharp)
        }
    }
}

/// Does what is asked of open leaves of the certificate that the reader gives, for the instance of the other reader.
pub(crate) fn of_leaves<R: AllocGlobal, I: Source, S: Source, W: Sink, F: Sharpener + Drop>(
    rt: &R,
    instance: &mut I,
    reader: &mut S,
    writer: &mut W,
    period: u32,
    asked: OfLeaves,
    sharpener: F,
) -> Result<u8, Fault>
    requires within { LeavesWithin asked }
    requires instance_fits { FewerThan (2 ^ 62) (I.calls instance.old) }
    requires reads_fit { FewerThan (2 ^ 62) (S.calls reader.old) }
    requires writes_fit { FewerThan (2 ^ 62) (W.calls writer.old) }
    ensures answered { IfOk result (AnswersLeaves asked period
        (over (I.remaining instance.old) (I.remaining instance.new)
        (I.calls instance.old) (I.calls instance.new))
        (over (S.remaining reader.old) (S.remaining reader.new)
        (S.calls reader.old) (S.calls reader.new))
        (over (W.contents writer.old) (W.contents writer.new)
        (W.calls writer.old) (W.calls writer.new))) }
    ensures stopped { IfErr result (λ fault. StopsLeaves asked fault period
        (over (I.remaining instance.old) (I.remaining instance.new)
        (I.calls instance.old) (I.calls instance.new))
        (over (S.remaining reader.old) (S.remaining reader.new)
        (S.calls reader.old) (S.calls reader.new))
        (over (W.contents writer.old) (W.contents writer.new)
        (W.calls writer.old) (W.calls writer.new))
        (reader.new ≡ reader.old)) }
    ensures silent { IfErr result (λ fault. fault ≢ Fault.Write → writer.new ≡ writer.old) }
{
    let alloc = rt.alloc();
    match asked {
        OfLeaves::Work { steps, until, jobs } => {
            let jobs = jobs.as_slice();
            let mut task = WorkTask {
                steps,
                until,
                jobs,
                finder: sharpener,
            };
            let answer = on_base(alloc, instance, reader, writer, period, &mut task);
            drop(task);
            answer
        }
        OfLeaves::WorkSharp { steps, until, jobs } => {
            let jobs = jobs.as_slice();
            let mut task = WorkSharp {
                steps,
                until,
                jobs,
                sharpener,
            };
            let answer = on_base(alloc, instance, reader, writer, period, &mut task);
            drop(task);
            answer
        }
    }
}

/// Lists the activities that the times of the reader violate, with the names in a file where one is named.
fn violated<R: AllocGlobal + Files, I: Source, S: Source, W: Sink>(
    rt: &R,
    instance: &mut I,
    reader: &mut S,
    writer: &mut W,
    period: u32,
    names: Option<&str>,
) -> Result<u8, Fault>
    requires instance_fits { FewerThan (2 ^ 62) (I.calls instance.old) }
    requires reads_fit { FewerThan (2 ^ 62) (S.calls reader.old) }
    requires writes_fit { FewerThan (2 ^ 62) (W.calls writer.old) }
    ensures answered { IfOk result (AnswersViolations names.entry period
        (over (I.remaining instance.old) (I.remaining instance.new)
        (I.calls instance.old) (I.calls instance.new))
        (over (S.remaining reader.old) (S.remaining reader.new)
        (S.calls reader.old) (S.calls reader.new))
        (over (W.contents writer.old) (W.contents writer.new)
        (W.calls writer.old) (W.calls writer.new))) }
    ensures stopped { IfErr result (λ fault. StopsViolations names.entry fault period
        (over (I.remaining instance.old) (I.remaining instance.new)
        (I.calls instance.old) (I.calls instance.new))
        (over (S.remaining reader.old) (S.remaining reader.new)
        (S.calls reader.old) (S.calls reader.new))
        (over (W.contents writer.old) (W.contents writer.new)
        (W.calls writer.old) (W.calls writer.new))
        (reader.new ≡ reader.old)) }
    ensures silent { IfErr result (λ fault. fault ≢ Fault.Write → writer.new ≡ writer.old) }
{
    let alloc = rt.alloc();
    match names {
        None => {
            let count = run_violations(alloc, instance, reader, writer, period, None)?;
            Ok(status_of_violations(count))
        }
        Some(file) => {
            let names = names_in(rt, file)?;
            let run = run_violations(alloc, instance, reader, writer, period, Some(&names));
            drop(names);
            let count = run?;
            Ok(status_of_violations(count))
        }
    }
}

/// Writes the report of the times of the reader, with the names in a file where one is named.
#[tactic(auto, using(crate::proofs::Ends::finished))]
fn reported<R: AllocGlobal + Files, I: Source, S: Source, W: Sink>(
    rt: &R,
    instance: &mut I,
    reader: &mut S,
    writer: &mut W,
    period: u32,
    names: Option<&str>,
) -> Result<u8, Fault>
    requires instance_fits { FewerThan (2 ^ 62) (I.calls instance.old) }
    requires reads_fit { FewerThan (2 ^ 62) (S.calls reader.old) }
    requires writes_fit { FewerThan (2 ^ 62) (W.calls writer.old) }
    ensures answered { IfOk result (AnswersReport names.entry period
        (over (I.remaining instance.old) (I.remaining instance.new)
        (I.calls instance.old) (I.calls instance.new))
        (over (S.remaining reader.old) (S.remaining reader.new)
        (S.calls reader.old) (S.calls reader.new))
        (over (W.contents writer.old) (W.contents writer.new)
        (W.calls writer.old) (W.calls writer.new))) }
    ensures stopped { IfErr result (λ fault. StopsReport names.entry fault period
        (over (I.remaining instance.old) (I.remaining instance.new)
        (I.calls instance.old) (I.calls instance.new))
        (over (S.remaining reader.old) (S.remaining reader.new)
        (S.calls reader.old) (S.calls reader.new))
        (over (W.contents writer.old) (W.contents writer.new)
        (W.calls writer.old) (W.calls writer.new))
        (reader.new ≡ reader.old)) }
    ensures silent { IfErr result (λ fault. fault ≢ Fault.Write → writer.new ≡ writer.old) }
{
    let alloc = rt.alloc();
    match names {
        None => done(run_sheet(alloc, &Report, instance, reader, writer, period)),
        Some(file) => {
            let names = names_in(rt, file)?;
            let sheet = NamedReport(&names);
            done(run_sheet(alloc, &sheet, instance, reader, writer, period))
        }
    }
}

/// Fixes what is wanted in the instance, with the names in a file where one is named; tells on standard error why that can't be had.
fn fix<R: AllocGlobal + Eprint + Files, I: Source, S: Source, W: Sink>(
    rt: &R,
    instance: &mut I,
    reader: &mut S,
    writer: &mut W,
    period: u32,
    names: Option<&str>,
    wanted: Wanted<'_>,
) -> Result<u8, Fault>
    requires instance_fits { FewerThan (2 ^ 62) (I.calls instance.old) }
    requires reads_fit { FewerThan (2 ^ 62) (S.calls reader.old) }
    requires writes_fit { FewerThan (2 ^ 62) (W.calls writer.old) }
    ensures answered { IfOk result (AnswersFix period
        (over (I.remaining instance.old) (I.remaining instance.new)
        (I.calls instance.old) (I.calls instance.new))
        (over (S.remaining reader.old) (S.remaining reader.new)
        (S.calls reader.old) (S.calls reader.new))
        (over (W.contents writer.old) (W.contents writer.new)
        (W.calls writer.old) (W.calls writer.new))) }
    ensures stopped { IfErr result (λ fault. OrNamesOf names.entry fault (FixCause fault
        (over (I.remaining instance.old) (I.remaining instance.new)
        (I.calls instance.old) (I.calls instance.new))
        (over (S.remaining reader.old) (S.remaining reader.new)
        (S.calls reader.old) (S.calls reader.new))
        (over (W.contents writer.old) (W.contents writer.new)
        (W.calls writer.old) (W.calls writer.new))
        period (reader.new ≡ reader.old))) }
    ensures silent { IfErr result (λ fault. fault ≢ Fault.Write → writer.new ≡ writer.old) }
{
    let alloc = rt.alloc();
    let told = names_of(rt, names)?;
    let run = run_fix(
        alloc,
        instance,
        reader,
        writer,
        period,
        told.as_ref(),
        wanted,
    );
    drop(told);
    let refused = run?;
    Ok(told_fix(rt, refused))
}

/// Does what is asked of the times that the reader gives, for the instance of the other reader.
#[tactic(auto, using(crate::proofs::Ends::finished))]
pub(crate) fn of_times<R: AllocGlobal + Eprint + Files, I: Source, S: Source, W: Sink>(
    rt: &R,
    instance: &mut I,
    reader: &mut S,
    writer: &mut W,
    period: u32,
    asked: OfTimes<'_>,
) -> Result<u8, Fault>
    requires instance_fits { FewerThan (2 ^ 62) (I.calls instance.old) }
    requires reads_fit { FewerThan (2 ^ 62) (S.calls reader.old) }
    requires writes_fit { FewerThan (2 ^ 62) (W.calls writer.old) }
    ensures answered { IfOk result (AnswersTimes asked.entry period
        (over (I.remaining instance.old) (I.remaining instance.new)
        (I.calls instance.old) (I.calls instance.new))
        (over (S.remaining reader.old) (S.remaining reader.new)
        (S.calls reader.old) (S.calls reader.new))
        (over (W.contents writer.old) (W.contents writer.new)
        (W.calls writer.old) (W.calls writer.new))) }
    ensures stopped { IfErr result (λ fault. StopsTimes asked.entry fault period
        (over (I.remaining instance.old) (I.remaining instance.new)
        (I.calls instance.old) (I.calls instance.new))
        (over (S.remaining reader.old) (S.remaining reader.new)
        (S.calls reader.old) (S.calls reader.new))
        (over (W.contents writer.old) (W.contents writer.new)
        (W.calls writer.old) (W.calls writer.new))
        (reader.new ≡ reader.old)) }
    ensures silent { IfErr result (λ fault. fault ≢ Fault.Write → writer.new ≡ writer.old) }
{
    let alloc = rt.alloc();
    match asked {
        OfTimes::Violations { names } => { violated(rt, instance, reader, writer, period, names) }
        OfTimes::Report { names } => reported(rt, instance, reader, writer, period, names),
        OfTimes::Picture { rows, names: file } => {
            let told = names_of(rt, file)?;
            let names = told.as_ref();
            let sheet = Picture { rows, names };
            done(run_sheet(alloc, &sheet, instance, reader, writer, period))
        }
        OfTimes::Diagrams { names: file, along } => {
            let told = names_in(rt, file)?;
            let names = &told;
            let sheet = Diagrams { names, along };
            done(run_sheet(alloc, &sheet, instance, reader, writer, period))
        }
        OfTimes::Timetable { names: file, json } => {
            let told = names_of(rt, file)?;
            let names = told.as_ref();
            let sheet = Timetable { names, json };
            done(run_sheet(alloc, &sheet, instance, reader, writer, period))
        }
        OfTimes::Fix {
            names,
            events,
            lines,
        } => {
            let wanted = Wanted { events, lines };
            fix(rt, instance, reader, writer, period, names, wanted)
        }
        OfTimes::Page { names: file } => {
            let told = names_of(rt, file)?;
            let sheet = HtmlPage(told.as_ref());
            done(run_sheet(alloc, &sheet, instance, reader, writer, period))
        }
    }
}

/// The exit status of the program for so many violated activities: 1 where there are any.
fn status_of_violations(count: usize) -> u8
    ensures { result ≡ violations_status count }
{
    if count == 0 { 0 } else { 1 }
}

/// Does what is asked of the works that the reader gives, which belong to the certificate of the second reader, for the
/// instance of the first one.
#[tactic(auto, using(crate::proofs::Ends::finished))]
pub(crate) fn of_works<R: AllocGlobal, I: Source, B: Source, S: Source, W: Sink, E: Sink>(
    rt: &R,
    instance: &mut I,
    base: &mut B,
    reader: &mut S,
    writer: &mut W,
    teller: &mut E,
    period: u32,
    asked: OfWorks,
) -> Result<u8, Fault>
    requires instance_fits { FewerThan (2 ^ 62) (I.calls instance.old) }
    requires base_fits { FewerThan (2 ^ 62) (B.calls base.old) }
    requires reads_fit { FewerThan (2 ^ 62) (S.calls reader.old) }
    requires writes_fit { FewerThan (2 ^ 62) (W.calls writer.old) }
    requires tellings_fit { FewerThan (2 ^ 62) (E.calls teller.old) }
    ensures answered { IfOk result (AnswersWorks asked period
        (over (I.remaining instance.old) (I.remaining instance.new)
        (I.calls instance.old) (I.calls instance.new))
        (over (B.remaining base.old) (B.remaining base.new)
        (B.calls base.old) (B.calls base.new))
        (over (S.remaining reader.old) (S.remaining reader.new)
        (S.calls reader.old) (S.calls reader.new))
        (over (W.contents writer.old) (W.contents writer.new)
        (W.calls writer.old) (W.calls writer.new))
        (over (E.contents teller.old) (E.contents teller.new)
        (E.calls teller.old) (E.calls teller.new))) }
    ensures stopped { IfErr result (λ fault. StopsWorks asked fault period
        (over (I.remaining instance.old) (I.remaining instance.new)
        (I.calls instance.old) (I.calls instance.new))
        (over (B.remaining base.old) (B.remaining base.new)
        (B.calls base.old) (B.calls base.new))
        (over (S.remaining reader.old) (S.remaining reader.new)
        (S.calls reader.old) (S.calls reader.new))
        (over (W.contents writer.old) (W.contents writer.new)
        (W.calls writer.old) (W.calls writer.new))
        (over (E.contents teller.old) (E.contents teller.new)
        (E.calls teller.old) (E.calls teller.new))
        (base.new ≡ base.old) (reader.new ≡ reader.old)) }
    ensures silent { IfErr result (λ fault. fault ≢ Fault.Write → writer.new ≡ writer.old) }
{
    let alloc = rt.alloc();
    match asked {
        OfWorks::Graft => done(run_graft(alloc, instance, base, reader, writer, teller, period)),
        OfWorks::GraftSharp => {
            let task = &GraftSharp;
            done(run_on_works(alloc, task, instance, base, reader, writer, teller, period))
        }
    }
}

/// Opens a file; where it can't be opened for any cause, that is told.
pub(crate) fn opened<R: Files>(rt: &R, file: &str) -> Result<Counted<R::File>, Fault>
    ensures failed { IfOk result (λ file. file.calls.failed ≡ 0) }
    ensures interrupted { IfOk result (λ file. file.calls.interrupted ≡ 0) }
    ensures stopped { IfErr result (λ fault. fault ≡ Fault.NoFile) }
{
    match File::open(rt, file) {
        Ok(opened) => Ok(Counted::new(opened)),
        Err(_) => Err(Fault::NoFile),
    }
}

/// Opens a file with an instance, of which a header is told where that is wanted.
pub(crate) fn opened_headed<'a, R: Eprint + Files>(
    rt: &'a R,
    file: &str,
    tells: bool,
) -> Result<Counted<Headed<'a, R, R::File>>, Fault>
    ensures failed { IfOk result (λ file. file.calls.failed ≡ 0) }
    ensures interrupted { IfOk result (λ file. file.calls.interrupted ≡ 0) }
    ensures stopped { IfErr result (λ fault. fault ≡ Fault.NoFile) }
{
    let instance = opened(rt, file)?;
    let teller = if tells { Some(rt) } else { None };
    Ok(Counted::new(Headed::of(instance.into_inner(), teller)))
}

/// Opens a file with times, of which the beginning is kept.
fn opened_times<R: Files>(rt: &R, file: &str) -> Result<Counted<Beginning<R::File>>, Fault>
    ensures failed { IfOk result (λ file. file.calls.failed ≡ 0) }
    ensures interrupted { IfOk result (λ file. file.calls.interrupted ≡ 0) }
    ensures stopped { IfErr result (λ fault. fault ≡ Fault.NoFile) }
{
    let times = opened(rt, file)?;
    Ok(Counted::new(Beginning::of(times.into_inner())))
}

/// The names that a file tells.
fn names_in<R: AllocGlobal + Files>(rt: &R, file: &str) -> Result<Names, Fault>
    ensures { IfErr result (λ fault. OrNoNames fault ⊥) }
{
    let mut reader = opened(rt, file)?;
    read_whole_names(rt.alloc(), &mut reader)
}

/// The names that a file tells, where one is named.
fn names_of<R: AllocGlobal + Files>(rt: &R, file: Option<&str>) -> Result<Option<Names>, Fault>
    ensures { IfErr result (λ fault. OrNamesOf file.entry fault ⊥) }
{
    match file {
        None => Ok(None),
        Some(file) => {
            let names = names_in(rt, file)?;
            Ok(Some(names))
        }
    }
}
