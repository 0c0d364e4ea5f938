//! What command lines ask for.

use clap::Error;
use pesp_part_tests::{Case, words_of};
use pesp_request::{
    Asked, OfCertificate, OfInstance, OfLeaves, OfTimes, OfWorks, Planning, Request, request_of,
};
use std::alloc::Global;

fn add_word(alloc: Global, words: &mut Vec<String>, word: &str) -> Option<()> {
    words.push(String::from_str(alloc, word).ok()?).ok()
}

/// The words of a command line, the program's name first.
pub(crate) fn words_with_name(alloc: Global, line: &str) -> Option<Vec<String>> {
    let mut words = Vec::new(alloc);
    add_word(alloc, &mut words, "pesp")?;
    for word in &words_of(alloc, line)? {
        add_word(alloc, &mut words, word)?;
    }
    Some(words)
}

/// Tells a plan that is asked for.
fn tell_plan(asked: Planning<'_>, told: &mut String) -> Option<()> {
    let Planning {
        seconds,
        output,
        from,
        quiet,
        instance,
    } = asked;
    write!(
        told,
        " plan of {instance:?}, {seconds} seconds, output {output:?}, from {from:?}, quiet {quiet}"
    )
    .ok()
}

/// Tells what is asked of an instance.
fn tell_of_instance(asked: OfInstance<'_>, told: &mut String) -> Option<()> {
    match asked {
        OfInstance::Solve {
            steps,
            from,
            progress,
        } => write!(
            told,
            " solve, {steps} steps, from {from:?}, progress {progress}"
        )
        .ok(),
        OfInstance::SolveSharp {
            steps,
            from,
            progress,
        } => write!(
            told,
            " solve sharp, {steps} steps, from {from:?}, progress {progress}"
        )
        .ok(),
        OfInstance::Plan(asked) => tell_plan(asked, told),
        OfInstance::Conflict { steps, names } => {
            write!(told, " conflict, {steps} steps, names {names:?}").ok()
        }
    }
}

/// Tells what is asked of a certificate.
fn tell_of_certificate(asked: OfCertificate, told: &mut String) -> Option<()> {
    match asked {
        OfCertificate::Check => told.push_str(" check").ok(),
        OfCertificate::CheckSharp => told.push_str(" check sharp").ok(),
        OfCertificate::Gap => told.push_str(" gap").ok(),
        OfCertificate::GapJson => told.push_str(" gap as JSON").ok(),
        OfCertificate::Resume {
            steps,
            seconds,
            progress,
        } => write!(
            told,
            " resume, {steps} steps, seconds {seconds:?}, progress {progress}"
        )
        .ok(),
        OfCertificate::ResumeSharp {
            steps,
            seconds,
            progress,
            share,
        } => {
            let share = share.map(|share| (share.number, share.of));
            write!(
                told,
                " resume sharp, {steps} steps, seconds {seconds:?}, progress {progress}, share {share:?}"
            )
            .ok()
        }
        OfCertificate::Split => told.push_str(" split").ok(),
        OfCertificate::SplitSharp => told.push_str(" split sharp").ok(),
    }
}

/// Tells what is asked of open leaves.
fn tell_of_leaves(asked: OfLeaves, told: &mut String) -> Option<()> {
    match asked {
        OfLeaves::Work { steps, until, jobs } => {
            write!(told, " work, {steps} steps, until {until:?}, jobs {jobs:?}").ok()
        }
        OfLeaves::WorkSharp { steps, until, jobs } => {
            write!(
                told,
                " work sharp, {steps} steps, until {until:?}, jobs {jobs:?}"
            )
            .ok()
        }
    }
}

/// Tells what is asked of times.
fn tell_of_times(asked: OfTimes<'_>, told: &mut String) -> Option<()> {
    match asked {
        OfTimes::Report { names } => write!(told, " report, names {names:?}").ok(),
        OfTimes::Violations { names } => write!(told, " violations, names {names:?}").ok(),
        OfTimes::Picture { rows, names } => {
            write!(told, " draw, {rows} rows, names {names:?}").ok()
        }
        OfTimes::Diagrams { names, along } => {
            write!(told, " diagram, names {names:?}, along {along:?}").ok()
        }
        OfTimes::Timetable { names, json } => {
            write!(told, " timetable, names {names:?}, JSON {json}").ok()
        }
        OfTimes::Fix {
            names,
            events,
            lines,
        } => write!(
            told,
            " fix, names {names:?}, events {events:?}, lines {lines:?}"
        )
        .ok(),
        OfTimes::Page { names } => write!(told, " page, names {names:?}").ok(),
    }
}

/// Tells what is asked, and of what.
fn tell_asked(asked: Asked<'_>, told: &mut String) -> Option<()> {
    match asked {
        Asked::Instance { file, asked } => {
            write!(told, " file {file:?},").ok()?;
            tell_of_instance(asked, told)
        }
        Asked::Certificate { file, asked } => {
            write!(told, " file {file:?},").ok()?;
            tell_of_certificate(asked, told)
        }
        Asked::Leaves { file, asked } => {
            write!(told, " file {file:?},").ok()?;
            tell_of_leaves(asked, told)
        }
        Asked::Times { file, asked } => {
            write!(told, " file {file:?},").ok()?;
            tell_of_times(asked, told)
        }
        Asked::Works {
            file,
            base,
            asked: OfWorks::Graft,
        } => write!(told, " file {file:?}, graft, base {base:?}").ok(),
        Asked::Works { file, base, .. } => {
            write!(told, " file {file:?}, graft sharp, base {base:?}").ok()
        }
    }
}

/// Tells what is asked for at which period.
fn tell_request(request: Request<'_>, told: &mut String) -> Option<()> {
    write!(told, " period {},", request.period).ok()?;
    tell_asked(request.asked, told)
}

/// Tells the kind of a fault and the exit status.
fn tell_error(error: &Error, told: &mut String) -> Option<()> {
    let kind = error.kind();
    let status = error.exit_code();
    write!(told, " {kind:?}, status {status}").ok()
}

/// Tells what a command line asks for.
/// Or it tells the kind of its fault, and the exit status.
pub(crate) fn ask_command(case: Case<'_>, told: &mut String) -> Option<()> {
    let words = words_with_name(case.alloc, case.rest)?;
    match request_of(case.alloc, &words) {
        Ok(request) => tell_request(request, told),
        Err(error) => tell_error(&error, told),
    }
}
