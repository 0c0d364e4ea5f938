//! The command line.

ghost use Rattle.std.specs.Prelude.{◌≤◌, IfOk, IfSome};
ghost use Rattle.std.specs.List.Sorted.{IsStrictlyIncreasing};
ghost use Rattle.pesp_request.specs.Requests.{InstanceWithin, CertificateWithin, LeavesWithin, TimesWithin, AskedWithin, IsWithinLimits};

use crate::options::{
    along_option, base_argument, file_argument, fix_option, from_option, graft_sharp_option,
    jobs_argument, json_option, lock_option, names_argument, names_option, optional_file,
    output_option, period_option, plan_seconds_option, progress_option, quiet_option, rows_option,
    seconds_option, share_option, sharp_option, sharpen_option, solve_steps_option, steps_option,
    until_option, violations_option, work_sharpen_option,
};
use crate::request::{
    Asked, OfCertificate, OfInstance, OfLeaves, OfTimes, OfWorks, Planning, Request,
};
use clap::error::ErrorKind;
use clap::{ArgMatches, Command, Error};
use pesp_problem::{MOST_PERIOD, MOST_STEPS, Share};
use pesp_runs::{jobs_of, period_within, rows_within, seconds_within, share_of, steps_within};
use std::alloc::{AllocError, Global};

/// The program's version, and the versions of certificates that it writes and reads.
const VERSION: &str =
    "0.2.0\ncertificates: versions 1, 2 and 3; solve writes version 3 with --sharp alone, and check, split, work and graft take it with --sharp alone";

/// How many leaves are split where nothing is said, and where marked walks sharpen them.
const USUAL_STEPS: u32 = 1000;

const USUAL_SHARP_STEPS: u32 = 100;

/// What is said of a word that names no open leaf.
const NO_JOB: &str =
    "invalid value for '<JOB>...': neither a number from 0 to 999999 nor a range of them, as 3-17";

/// What is said of a word that names no share.
const NO_SHARE: &str =
    "invalid value for '--share <K/N>': with --sharp alone, K from 1 to N, and N at most 10000, as 2/4";

const INSTANCES: &str = "\
An instance is one activity a line, with six fields between ';', tabs or ',':
  label; tail event; head event; least duration; greatest duration; weight
Times are counted modulo the period, in the unit of the durations. For example
  printf '1; 1; 2; 0; 9; 3\\n' | pesp solve --period 10

Exit status: 0 the certificate is written; 1 the times to begin with violate a row;
2 the command line; 3 a text is refused; 4 memory, a device, or a limit of the search";

const PLANS: &str = "\
With --output the certificate is written anew at each better timetable or bound, so
whatever ends the run, the file is a whole certificate; the same words go on from it.
  pesp plan --seconds 600 --output trains.certificate trains.csv
  pesp check --sharp trains.csv < trains.certificate
Standard error tells seconds, cost, bound and gap, at most once in five seconds.

Exit status: 0 the certificate is written; 1 the file's certificate isn't valid, or the
times to begin with violate a row; 2 the command line; 3 a text is refused; 4 memory, a
device, a limit of the search, or another plan that writes the same file";

const CONFLICTS: &str = "\
A list is written as CSV: row, label, tail, head, lower, upper, and with --names the
names of both events. Standard error tells how many activities there are, and whether
each of them is needed; with --names it adds up those that make up one closed way.

Exit status: 0 a list is written; 1 no conflict was found; 2 the command line; 3 the
instance is refused; 4 memory, a device, or a limit of the search";

const FIXES: &str = "\
Line 1 stays as it is, and event 1131 comes at 23:
  pesp fix --fix 1131=23 --lock 1 --names trains.names trains.csv \\
    < trains.certificate > fixed.csv
  pesp solve fixed.csv > fixed.certificate
Each is held at a time of a clock, an event of its own that stands first; see its line
'time' in the certificate, which is at 0.

Exit status: 0 the instance is written; 2 the command line, or there is no such event
or line; 3 a text is refused; 4 memory or a device";

const ROUND_TRIP: &str = "\
A whole round, for an instance in trains.csv with the period 60:
  pesp plan --output trains.certificate trains.csv
  pesp check --sharp trains.csv < trains.certificate
  pesp report trains.csv < trains.certificate > trains.report.csv
  pesp timetable trains.csv < trains.certificate > trains.timetable.csv
  pesp draw trains.csv < trains.certificate > trains.svg
and with names of events in trains.names, one a line as event,name,line,station
  pesp diagram trains.csv trains.names < trains.certificate > trains.lines.svg
  pesp page --names trains.names trains.csv < trains.certificate > trains.html
or with a pipe
  pesp solve trains.csv | pesp check trains.csv

Exit status: 0 the answer is written, or the certificate is accepted; 1 the
certificate is refused, or the times violate a row; 2 the command line; 3 a text
is refused; 4 memory, a device, or a limit of the search";

const OUTSIDE: &str = "\
A whole round, for an instance in trains.csv with the period 60:
  pesp solve --steps 100 trains.csv > base
  pesp split trains.csv < base > jobs
  pesp work trains.csv 0-9 < base > work.0
  (and so on for the other jobs, each on a machine of its own, and by any solver)
  cat work.* | pesp graft trains.csv base > better
  pesp check trains.csv < better
Nobody has to trust the solvers: what isn't valid is refused, and changes nothing.

Exit status: 0 the answer is written; 1 the certificate isn't valid; 2 the command
line; 3 a text is refused, or there is no such job; 4 memory or a device";

fn solve_command<'a>(alloc: Global) -> Result<Command<'a>, AllocError> {
    Command::new(alloc, "solve")
        .about("Reads an instance and writes a best timetable with its certificate")
        .after_help(INSTANCES)
        .arg(period_option(alloc))?
        .arg(solve_steps_option(alloc))?
        .arg(sharpen_option(alloc))?
        .arg(from_option(alloc))?
        .arg(progress_option(alloc))?
        .arg(optional_file(alloc))
}

fn plan_command<'a>(alloc: Global) -> Result<Command<'a>, AllocError> {
    Command::new(alloc, "plan")
        .about(
            "Reads an instance and makes the best timetable and bound that it finds within some seconds",
        )
        .after_help(PLANS)
        .arg(period_option(alloc))?
        .arg(plan_seconds_option(alloc))?
        .arg(output_option(alloc))?
        .arg(from_option(alloc))?
        .arg(quiet_option(alloc))?
        .arg(optional_file(alloc))
}

fn conflict_command<'a>(alloc: Global) -> Result<Command<'a>, AllocError> {
    Command::new(alloc, "conflict")
        .about(
            "Reads an instance and lists activities that have no timetable together, as few as it can",
        )
        .after_help(CONFLICTS)
        .arg(period_option(alloc))?
        .arg(steps_option(alloc))?
        .arg(names_option(alloc))?
        .arg(optional_file(alloc))
}

/// A command that reads an instance from a file, and something of it from standard input, as its usage says.
fn file_command<'a>(
    alloc: Global,
    name: &'a str,
    usage: &'a str,
    about: &'a str,
) -> Result<Command<'a>, AllocError> {
    Command::new(alloc, name)
        .override_usage(usage)
        .about(about)
        .after_help(ROUND_TRIP)
        .arg(period_option(alloc))?
        .arg(file_argument(alloc))
}

/// A command for work from outside, with the instance's file.
fn outside_command<'a>(
    alloc: Global,
    name: &'a str,
    usage: &'a str,
    about: &'a str,
) -> Result<Command<'a>, AllocError> {
    Command::new(alloc, name)
        .override_usage(usage)
        .about(about)
        .after_help(OUTSIDE)
        .arg(period_option(alloc))?
        .arg(file_argument(alloc))
}

fn split_command<'a>(alloc: Global) -> Result<Command<'a>, AllocError> {
    outside_command(
        alloc,
        "split",
        "pesp split [OPTIONS] <FILE> < CERTIFICATE",
        "Reads a certificate from standard input and lists its open leaves as jobs",
    )?
    .arg(sharp_option(alloc))
}

fn work_command<'a>(alloc: Global) -> Result<Command<'a>, AllocError> {
    outside_command(
        alloc,
        "work",
        "pesp work [OPTIONS] <FILE> <JOB>... < CERTIFICATE",
        "Reads a certificate from standard input, works on its open leaves JOB.. and writes a work for each",
    )?
    .arg(work_sharpen_option(alloc))?
    .arg(solve_steps_option(alloc))?
    .arg(until_option(alloc))?
    .arg(jobs_argument(alloc))
}

fn graft_command<'a>(alloc: Global) -> Result<Command<'a>, AllocError> {
    outside_command(
        alloc,
        "graft",
        "pesp graft [OPTIONS] <FILE> <BASE> < WORKS",
        "Reads works from standard input and grafts them onto the certificate in BASE",
    )?
    .arg(graft_sharp_option(alloc))?
    .arg(base_argument(alloc))
}

fn check_command<'a>(alloc: Global) -> Result<Command<'a>, AllocError> {
    file_command(
        alloc,
        "check",
        "pesp check [OPTIONS] <FILE> < CERTIFICATE",
        "Reads a certificate from standard input and says whether it is valid for the instance in FILE",
    )?
    .arg(sharp_option(alloc))
}

fn resume_command<'a>(alloc: Global) -> Result<Command<'a>, AllocError> {
    file_command(
        alloc,
        "resume",
        "pesp resume [OPTIONS] <FILE> < CERTIFICATE",
        "Reads a certificate from standard input, goes on with its search and writes the certificate that comes of it",
    )?
    .arg(sharpen_option(alloc))?
    .arg(share_option(alloc))?
    .arg(solve_steps_option(alloc))?
    .arg(seconds_option(alloc))?
    .arg(progress_option(alloc))
}

fn gap_command<'a>(alloc: Global) -> Result<Command<'a>, AllocError> {
    file_command(
        alloc,
        "gap",
        "pesp gap [OPTIONS] <FILE> < CERTIFICATE",
        "Reads a certificate from standard input and says how good its answer is",
    )?
    .arg(json_option(alloc))
}

fn report_command<'a>(alloc: Global) -> Result<Command<'a>, AllocError> {
    file_command(
        alloc,
        "report",
        "pesp report [OPTIONS] <FILE> < TIMES",
        "Reads time lines or a certificate from standard input and lists the slack of each activity in FILE",
    )?
    .arg(violations_option(alloc))?
    .arg(names_option(alloc))
}

fn draw_command<'a>(alloc: Global) -> Result<Command<'a>, AllocError> {
    file_command(
        alloc,
        "draw",
        "pesp draw [OPTIONS] <FILE> < TIMES",
        "Reads time lines or a certificate from standard input and draws the timetable of FILE in SVG",
    )?
    .arg(rows_option(alloc))?
    .arg(names_option(alloc))
}

fn diagram_command<'a>(alloc: Global) -> Result<Command<'a>, AllocError> {
    file_command(
        alloc,
        "diagram",
        "pesp diagram [OPTIONS] <FILE> <NAMES> < TIMES",
        "Reads time lines or a certificate from standard input and draws a time-distance diagram in SVG for each line that NAMES tells",
    )?
    .arg(along_option(alloc))?
    .arg(names_argument(alloc))
}

fn timetable_command<'a>(alloc: Global) -> Result<Command<'a>, AllocError> {
    file_command(
        alloc,
        "timetable",
        "pesp timetable [OPTIONS] <FILE> < TIMES",
        "Reads time lines or a certificate from standard input and writes the timetable of FILE as CSV, a record for each event along the ways of trains",
    )?
    .arg(json_option(alloc))?
    .arg(names_option(alloc))
}

fn page_command<'a>(alloc: Global) -> Result<Command<'a>, AllocError> {
    file_command(
        alloc,
        "page",
        "pesp page [OPTIONS] <FILE> < TIMES",
        "Reads time lines or a certificate from standard input and writes a page in HTML with the timetable of FILE, its diagrams and its slack",
    )?
    .arg(names_option(alloc))
}

fn fix_command<'a>(alloc: Global) -> Result<Command<'a>, AllocError> {
    Command::new(alloc, "fix")
        .override_usage("pesp fix [OPTIONS] <FILE> < TIMES")
        .about(
            "Reads time lines or a certificate from standard input and writes the instance in FILE with activities in front that hold events",
        )
        .after_help(FIXES)
        .arg(period_option(alloc))?
        .arg(file_argument(alloc))?
        .arg(fix_option(alloc))?
        .arg(lock_option(alloc))?
        .arg(names_option(alloc))
}

/// A command with one more subcommand.
fn with<'a>(
    command: Command<'a>,
    subcommand: Result<Command<'a>, AllocError>,
) -> Result<Command<'a>, AllocError> {
    command.subcommand(subcommand?)
}

/// The program with its commands for an instance alone and for what belongs to it.
fn with_round_trip<'a>(alloc: Global) -> Result<Command<'a>, AllocError> {
    let pesp = Command::new(alloc, "pesp")
        .version(VERSION)
        .about("Periodic timetables with certificates that can be checked")
        .after_help(ROUND_TRIP)
        .subcommand_required(true);
    let pesp = with(pesp, plan_command(alloc))?;
    let pesp = with(pesp, solve_command(alloc))?;
    let pesp = with(pesp, resume_command(alloc))?;
    let pesp = with(pesp, conflict_command(alloc))?;
    let pesp = with(pesp, check_command(alloc))?;
    let pesp = with(pesp, gap_command(alloc))?;
    with_sheets(alloc, pesp)
}

/// The program with its commands for what is written of times.
fn with_sheets<'a>(alloc: Global, pesp: Command<'a>) -> Result<Command<'a>, AllocError> {
    let pesp = with(pesp, report_command(alloc))?;
    let pesp = with(pesp, timetable_command(alloc))?;
    let pesp = with(pesp, draw_command(alloc))?;
    let pesp = with(pesp, diagram_command(alloc))?;
    let pesp = with(pesp, page_command(alloc))?;
    with(pesp, fix_command(alloc))
}

/// The program with all its commands.
fn pesp<'a>(alloc: Global) -> Result<Command<'a>, AllocError> {
    let pesp = with_round_trip(alloc)?;
    let pesp = with(pesp, split_command(alloc))?;
    let pesp = with(pesp, work_command(alloc))?;
    with(pesp, graft_command(alloc))
}

fn period_of(matches: &ArgMatches<'_>) -> u32
    ensures least { 1 ≤ result }
    ensures greatest { result ≤ MOST_PERIOD }
{
    period_within(matches.get_one::<u32>("period"))
}

fn steps_of(matches: &ArgMatches<'_>) -> u32
    ensures { result ≤ MOST_STEPS }
{
    steps_within(matches.get_one::<u32>("steps"), USUAL_STEPS)
}

/// The steps of a search that sharpens, each of which takes longer.
fn sharp_steps_of(matches: &ArgMatches<'_>) -> u32
    ensures { result ≤ MOST_STEPS }
{
    steps_within(matches.get_one::<u32>("steps"), USUAL_SHARP_STEPS)
}

fn rows_of(matches: &ArgMatches<'_>) -> u32
    ensures least { 1 ≤ result }
    ensures most { result ≤ 1000 }
{
    rows_within(matches.get_one::<u32>("rows"))
}

/// The file with the instance.
fn file_of<'a>(matches: &ArgMatches<'a>) -> &'a str {
    matches.get_str("file").unwrap_or("")
}

/// What is asked of an instance, as the words behind a command say.
fn instance_of<'a>(matches: &ArgMatches<'a>, asked: OfInstance<'a>) -> Asked<'a>
    requires { InstanceWithin asked }
    ensures { AskedWithin result }
{
    Asked::Instance {
        file: matches.get_str("file"),
        asked,
    }
}

/// What is asked of a certificate, as the words behind a command say.
fn certificate_of<'a>(matches: &ArgMatches<'a>, asked: OfCertificate) -> Asked<'a>
    requires { CertificateWithin asked }
    ensures { AskedWithin result }
{
    Asked::Certificate {
        file: file_of(matches),
        asked,
    }
}

/// What is asked of times, as the words behind a command say.
fn times_of<'a>(matches: &ArgMatches<'a>, asked: OfTimes<'a>) -> Asked<'a>
    requires { TimesWithin asked }
    ensures { AskedWithin result }
{
    Asked::Times {
        file: file_of(matches),
        asked,
    }
}

/// What the words behind `solve` ask for.
fn solve_of<'a>(matches: &ArgMatches<'a>) -> OfInstance<'a>
    ensures { InstanceWithin result }
{
    let from = matches.get_str("from");
    let progress = matches.get_flag("progress");
    if matches.get_flag("sharp") {
        OfInstance::SolveSharp {
            steps: sharp_steps_of(matches),
            from,
            progress,
        }
    } else {
        OfInstance::Solve {
            steps: steps_of(matches),
            from,
            progress,
        }
    }
}

/// What the words behind `plan` ask for.
fn plan_of<'a>(matches: &ArgMatches<'a>) -> OfInstance<'a>
    ensures { InstanceWithin result }
{
    OfInstance::Plan(Planning {
        seconds: seconds_within(matches.get_one::<u32>("seconds")),
        output: matches.get_str("output"),
        from: matches.get_str("from"),
        quiet: matches.get_flag("quiet"),
        instance: matches.get_str("file"),
    })
}

/// What the words behind `conflict` ask for.
fn conflict_of<'a>(matches: &ArgMatches<'a>) -> OfInstance<'a>
    ensures { InstanceWithin result }
{
    OfInstance::Conflict {
        steps: steps_of(matches),
        names: matches.get_str("names"),
    }
}

/// What the words behind `resume` ask for, where they name this share, if any.
fn resume_by(matches: &ArgMatches<'_>, share: Option<Share>) -> OfCertificate
    ensures { CertificateWithin result }
{
    let seconds = matches.get_one::<u32>("seconds");
    let progress = matches.get_flag("progress");
    if matches.get_flag("sharp") {
        OfCertificate::ResumeSharp {
            steps: sharp_steps_of(matches),
            seconds,
            progress,
            share,
        }
    } else {
        OfCertificate::Resume {
            steps: steps_of(matches),
            seconds,
            progress,
        }
    }
}

/// What the words behind `resume` ask for; None where a word names no share, or names one without `--sharp`.
fn resume_of<'a>(matches: &ArgMatches<'a>) -> Option<Asked<'a>>
    ensures { IfSome result AskedWithin }
{
    let share = match matches.get_str("share") {
        None => None,
        Some(_) if !matches.get_flag("sharp") => return None,
        Some(word) => Some(share_of(word)?),
    };
    Some(certificate_of(matches, resume_by(matches, share)))
}

/// What the words behind `report` ask for.
fn report_of<'a>(matches: &ArgMatches<'a>) -> OfTimes<'a>
    ensures { TimesWithin result }
{
    let names = matches.get_str("names");
    if matches.get_flag("violations") {
        OfTimes::Violations { names }
    } else {
        OfTimes::Report { names }
    }
}

/// What the words behind `draw` ask for.
fn picture_of<'a>(matches: &ArgMatches<'a>) -> OfTimes<'a>
    ensures { TimesWithin result }
{
    OfTimes::Picture {
        rows: rows_of(matches),
        names: matches.get_str("names"),
    }
}

/// What the words behind `diagram` ask for.
fn diagrams_of<'a>(matches: &ArgMatches<'a>) -> OfTimes<'a>
    ensures { TimesWithin result }
{
    OfTimes::Diagrams {
        names: matches.get_str("names").unwrap_or(""),
        along: matches.get_str("along"),
    }
}

/// What the words behind `timetable` ask for.
fn timetable_of<'a>(matches: &ArgMatches<'a>) -> OfTimes<'a>
    ensures { TimesWithin result }
{
    OfTimes::Timetable {
        names: matches.get_str("names"),
        json: matches.get_flag("json"),
    }
}

/// What the words behind `fix` ask for.
fn fix_of<'a>(matches: &ArgMatches<'a>) -> OfTimes<'a>
    ensures { TimesWithin result }
{
    OfTimes::Fix {
        names: matches.get_str("names"),
        events: matches.get_str("fix").unwrap_or(""),
        lines: matches.get_str("lock").unwrap_or(""),
    }
}

/// What the words behind `page` ask for.
fn page_of<'a>(matches: &ArgMatches<'a>) -> OfTimes<'a>
    ensures { TimesWithin result }
{
    OfTimes::Page {
        names: matches.get_str("names"),
    }
}

/// What the words behind `check` ask for.
fn check_of(matches: &ArgMatches<'_>) -> OfCertificate
    ensures { CertificateWithin result }
{
    if matches.get_flag("sharp") {
        OfCertificate::CheckSharp
    } else {
        OfCertificate::Check
    }
}

/// What the words behind `gap` ask for.
fn gap_of(matches: &ArgMatches<'_>) -> OfCertificate
    ensures { CertificateWithin result }
{
    if matches.get_flag("json") {
        OfCertificate::GapJson
    } else {
        OfCertificate::Gap
    }
}

/// What the words behind `split` ask for.
fn split_of(matches: &ArgMatches<'_>) -> OfCertificate
    ensures { CertificateWithin result }
{
    if matches.get_flag("sharp") {
        OfCertificate::SplitSharp
    } else {
        OfCertificate::Split
    }
}

/// What the words behind `graft` ask for.
fn graft_of<'a>(matches: &ArgMatches<'a>) -> Asked<'a>
    ensures { AskedWithin result }
{
    let asked = if matches.get_flag("sharp") {
        OfWorks::GraftSharp
    } else {
        OfWorks::Graft
    };
    Asked::Works {
        file: file_of(matches),
        base: matches.get_str("base").unwrap_or(""),
        asked,
    }
}

/// What is asked by the words behind a command, other than `work` and `resume`.
fn asked_by<'a>(command: &str, matches: &ArgMatches<'a>) -> Asked<'a>
    ensures { AskedWithin result }
{
    match command {
        "plan" => instance_of(matches, plan_of(matches)),
        "conflict" => instance_of(matches, conflict_of(matches)),
        "check" => certificate_of(matches, check_of(matches)),
        "gap" => certificate_of(matches, gap_of(matches)),
        "split" => certificate_of(matches, split_of(matches)),
        "report" => times_of(matches, report_of(matches)),
        "timetable" => times_of(matches, timetable_of(matches)),
        "draw" => times_of(matches, picture_of(matches)),
        "diagram" => times_of(matches, diagrams_of(matches)),
        "page" => times_of(matches, page_of(matches)),
        "fix" => times_of(matches, fix_of(matches)),
        "graft" => graft_of(matches),
        _ => instance_of(matches, solve_of(matches)),
    }
}

/// What is asked of leaves by the words behind `work`, where these are the numbers of the leaves.
fn leaves_of(matches: &ArgMatches<'_>, jobs: Vec<u64>) -> OfLeaves
    requires { IsStrictlyIncreasing jobs.items }
    ensures { LeavesWithin result }
{
    let until = matches.get_one::<u64>("until");
    if matches.get_flag("sharp") {
        OfLeaves::WorkSharp {
            steps: sharp_steps_of(matches),
            until,
            jobs,
        }
    } else {
        OfLeaves::Work {
            steps: steps_of(matches),
            until,
            jobs,
        }
    }
}

/// What is asked by the words behind `work`; None where one of them names no job.
fn work_of<'a>(alloc: Global, matches: &ArgMatches<'a>) -> Result<Option<Asked<'a>>, AllocError>
    ensures { IfOk result (λ found. IfSome found AskedWithin) }
{
    let Some(words) = matches.get_strs("job") else {
        return Ok(None);
    };
    let Some(jobs) = jobs_of(alloc, words)? else {
        return Ok(None);
    };
    Ok(Some(Asked::Leaves {
        file: file_of(matches),
        asked: leaves_of(matches, jobs),
    }))
}

/// What the words ask for, the program's name first; or clap's error, with the text that it prints.
pub fn request_of<'a>(alloc: Global, words: &'a [String]) -> Result<Request<'a>, Error>
    ensures { IfOk result IsWithinLimits }
{
    let mut command = pesp(alloc)?;
    let matches = command.try_get_matches_from_mut(words)?;
    let (name, found) = matches.subcommand().unwrap_or(("solve", &matches));
    let (asked, wrong) = match name {
        "work" => (work_of(alloc, found)?, NO_JOB),
        "resume" => (resume_of(found), NO_SHARE),
        _ => (Some(asked_by(name, found)), NO_JOB),
    };
    match asked {
        Some(asked) => Ok(Request {
            period: period_of(found),
            asked,
        }),
        None => Err(command.error(ErrorKind::ValueValidation, wrong)?),
    }
}
