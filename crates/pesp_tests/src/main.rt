//! Plays cases of tests: command lines, texts, parts of the solver, and boards.
//! A case gives files and numbers, and asks one question a line. Each is printed with its answer.
#![tactic(auto)]

mod commands;
mod parts;
mod played;
mod programs;

use pesp_part_tests::{Case, cases_of};
use played::play;
use std::alloc::Global;
use std::io;
use std::process::ExitCode;

fn main(rt: HostRuntime) -> ExitCode {
    match run(&rt) {
        Some(()) => ExitCode::SUCCESS,
        None => ExitCode::FAILURE,
    }
}

/// Plays the cases on standard input.
/// Prints what is told, up to the first fault.
fn run<R: AllocGlobal + Input + Print>(rt: &R) -> Option<()> {
    let text = io::read_to_string(rt.alloc(), rt.reader()).ok()?;
    let mut told = String::new(rt.alloc());
    let done = tell_cases(rt.alloc(), text.as_str(), &mut told);
    rt.print(told).ok()?;
    done
}

/// Tells all cases.
fn tell_cases(alloc: Global, text: &str, told: &mut String) -> Option<()> {
    for lines in &cases_of(alloc, text)? {
        let rest = "";
        play(Case { alloc, lines, rest }, told)?;
    }
    Some(())
}
