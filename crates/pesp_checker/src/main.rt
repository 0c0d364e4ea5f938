//! The checker alone, as a program.
#![tactic(auto)]

use pesp_checker_cli::exit_of_program;
use std::process::ExitCode;

fn main(rt: HostRuntime) -> ExitCode {
    exit_of_program(&rt)
}
