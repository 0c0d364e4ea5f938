//! The lines that are told.

ghost use Rattle.std.specs.Prelude.{◌≡◌, ◌<◌, ◌^◌};
ghost use Rattle.pesp_stream.specs.Counts.{FewerThan};
ghost use Rattle.pesp_check.specs.Devices.{over};
ghost use Rattle.pesp_report_run.specs.Told.{told_text};
ghost use Rattle.pesp_check.specs.Lines.{GetsLine};
ghost use Rattle.pesp_cli.specs.Answers.{TellsFault, fix_status};

use pesp_check::tell;
use pesp_fixed::FixRefusal;
use pesp_report_run::Told;
use pesp_runs::{Fault, status_of};
use pesp_stream::{Bytes, Sink};
use std::alloc::Global;

/// Tells a fault on a line, and gives its exit status, whether or not the line went out. Where the line finds no memory, that is
/// the fault.
pub(crate) fn told<E: Sink>(alloc: Global, teller: &mut E, fault: &Fault) -> u8
    requires fits { FewerThan (2 ^ 63) (E.calls teller.old) }
    ensures { TellsFault
        (over (E.contents teller.old) (E.contents teller.new)
        (E.calls teller.old) (E.calls teller.new))
        fault.now result }
{
    match format!(in alloc; "{fault}\n") {
        Ok(line) => {
            tell(teller, &Bytes(line.as_bytes()));
            status_of(fault)
        }
        Err(_) => {
            tell(teller, &"memory\n");
            status_of(&Fault::Memory)
        }
    }
}

/// Tells what was found of a conflict on a line, whether or not it goes out.
pub(crate) fn told_conflict<E: Sink>(teller: &mut E, told: Told)
    requires fits { FewerThan (2 ^ 63) (E.calls teller.old) }
    ensures { GetsLine
        (over (E.contents teller.old) (E.contents teller.new)
        (E.calls teller.old) (E.calls teller.new))
        (told_text told) }
{
    tell(teller, &(told, "\n"));
}

/// Tells why events can't be fixed on a line, where it is so, whether or not it goes out; and gives the exit status.
pub(crate) fn told_fix<R: AllocGlobal + Eprint>(rt: &R, refused: Option<FixRefusal>) -> u8
    ensures { result ≡ fix_status refused }
{
    match refused {
        Some(refusal) => {
            if let Ok(line) = format!(in rt.alloc(); "{refusal}") {
                let _ = rt.eprintln(&line);
            }
            2
        }
        None => 0,
    }
}

/// Tells the sum of a closed walk on a line, where there is one, whether or not it goes out.
pub(crate) fn tell_sums<R: Eprint>(rt: &R, sums: &str) {
    if !sums.is_empty() {
        let _ = rt.eprintln(sums);
    }
}
