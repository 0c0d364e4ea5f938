//! Command lines of the program, and how they end.

use crate::commands::words_with_name;
use pesp_case_runtime::{CaseRuntime, CommandEnd, Device, device_of};
use pesp_cli::status_of_words;
use pesp_part_tests::{Case, add_joined, split_word};
use pesp_sharp_proposals::TreeSharpener;
use pesp_solver::TimesSearch;
use std::alloc::Global;

/// What is told of the end of a command line.
#[derive(Clone, Copy)]
pub(crate) enum View {
    /// The exit status, what was written and, behind `told`, what went to standard error.
    Whole,
    /// The exit status alone.
    Status,
    /// The same as the whole without what was written.
    Told,
}

/// Tells the lines of what went out behind a mark, where something did.
fn tell_output(mark: &str, bytes: &[u8], told: &mut String) -> Option<()> {
    if bytes.is_empty() {
        return Some(());
    }
    told.push_str(mark).ok()?;
    add_joined(bytes, told)
}

/// Tells the status of an end, and what else is to be seen of it.
pub(crate) fn tell_end(end: &CommandEnd, view: View, told: &mut String) -> Option<()> {
    write!(told, " {}", end.status).ok()?;
    match view {
        View::Status => Some(()),
        View::Told => tell_output(" told ", &end.told, told),
        View::Whole => {
            tell_output(" ", &end.written, told)?;
            tell_output(" told ", &end.told, told)
        }
    }
}

/// How a command line ends over a standard input.
fn run(case: Case<'_>, input: &[u8], device: Device, command: &str) -> Option<CommandEnd> {
    let words = words_with_name(case.alloc, command)?;
    let runtime = CaseRuntime::new(case, input, device)?;
    let sharpener = TreeSharpener::new(TimesSearch::new(case.alloc));
    let status = status_of_words(&runtime, &words, sharpener);
    Some(runtime.end(status))
}

/// An end with status 0, where this was written and nothing was told.
fn begun(alloc: Global, written: Vec<u8>) -> CommandEnd {
    CommandEnd {
        status: 0,
        written,
        told: Vec::new(alloc),
    }
}

/// Adds how one more command line ends over the same standard input.
fn add_run(
    case: Case<'_>,
    input: &[u8],
    device: Device,
    command: &str,
    end: &mut CommandEnd,
) -> Option<()> {
    let next = run(case, input, device, command)?;
    end.status = next.status;
    end.written.extend_from_slice(&next.written).ok()?;
    end.told.extend_from_slice(&next.told).ok()
}

/// How command lines end that are parted by ` & `.
/// All run over the same standard input.
/// What they write is added up to the first with a status other than 0.
fn run_stage(case: Case<'_>, input: &[u8], device: Device, stage: &str) -> Option<CommandEnd> {
    let mut end = begun(case.alloc, Vec::new(case.alloc));
    for command in stage.split(" & ") {
        if end.status == 0 {
            add_run(case, input, device, command, &mut end)?;
        }
    }
    Some(end)
}

/// How stages end that are parted by ` | `.
/// Each runs over what the one before it has written.
/// They end as the first with a status other than 0, or as the last.
pub(crate) fn run_all(
    case: Case<'_>,
    input: Vec<u8>,
    device: Device,
    stages: &str,
) -> Option<CommandEnd> {
    let mut end = begun(case.alloc, input);
    for stage in stages.split(" | ") {
        if end.status == 0 {
            end = run_stage(case, &end.written, device, stage)?;
        }
    }
    Some(end)
}

/// How command lines end over the input of a case and its device.
pub(crate) fn end_of(case: Case<'_>, commands: &str) -> Option<CommandEnd> {
    let device = device_of(case, "input")?;
    run_all(case, case.text("input")?, device, commands)
}

/// Tells how command lines end over the input of a case.
pub(crate) fn ask_program(case: Case<'_>, view: View, told: &mut String) -> Option<()> {
    tell_end(&end_of(case, case.rest)?, view, told)
}

/// Tells the same, where standard input comes in pieces.
/// The first word says how many bytes a call gives at most.
pub(crate) fn ask_in_pieces(case: Case<'_>, told: &mut String) -> Option<()> {
    let (piece, commands) = split_word(case.rest);
    let device = device_of(case, "input")?.in_pieces(piece.parse().ok()?);
    let end = run_all(case, case.text("input")?, device, commands)?;
    tell_end(&end, View::Whole, told)
}
