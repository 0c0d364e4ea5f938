//! The program, over any runtime.

ghost use Rattle.std.specs.Prelude.{◌≡◌, ◌≢◌, ◌<◌, ◌^◌, IfOk, IfErr};
ghost use Rattle.pesp_stream.specs.Counts.{FewerThan};
ghost use Rattle.pesp_check.specs.Devices.{over};
ghost use Rattle.pesp_checker_cli.specs.Words.{versions_asked};
ghost use Rattle.pesp_checker_cli.specs.Statuses.{AnswersChecker, AnswersRequest, GivesVerdict, NoVerdictCause};

use crate::request::{CheckRequest, USAGE, request_of};
use crate::telling::told;
use pesp_check::{VerdictFault, run_check_of, status_of_verdict, tell, teller_of};
use pesp_stream::{Counted, Sink, Source};
use std::fs::File;
use std::process::ExitCode;
use std::rt::{Env, Files};
use std::{env, io};

/// Does what the command line asks for, and gives the exit status: 0 for a certificate that is accepted, 1 for one that is
/// refused, 2 for a command line that isn't understood, 3 for a text that is refused, 4 for memory and devices.
pub fn exit_of_program<R: AllocGlobal + Env + Input + Print + Eprint + Files>(rt: &R) -> ExitCode {
    let words = match env::args(rt) {
        Ok(args) => args.collect::<Vec<String>>(rt.alloc()),
        Err(error) if error.kind() == io::ErrorKind::OutOfMemory => {
            return ExitCode::from(stopped(rt));
        }
        // A word that is no text.
        Err(_) => return ExitCode::from(2),
    };
    match words {
        Ok(words) => ExitCode::from(status_over_devices(rt, words.as_slice())),
        Err(_) => ExitCode::from(stopped(rt)),
    }
}

/// Tells that memory was refused, and gives the exit status.
fn stopped<R: AllocGlobal + Eprint>(rt: &R) -> u8 {
    told(rt.alloc(), &mut teller_of(rt), &VerdictFault::Memory)
}

/// Does what the words ask for over standard input, standard output and standard error.
fn status_over_devices<R: AllocGlobal + Input + Print + Eprint + Files>(
    rt: &R,
    words: &[String],
) -> u8 {
    let mut reader = Counted::new(rt.reader());
    let mut writer = Counted::new(io::writer(rt));
    status_of_words(rt, &mut reader, &mut writer, &mut teller_of(rt), words)
}

/// Does what the words ask for, the program's name first, and gives the exit status: 2 where they ask for nothing.
pub fn status_of_words<R: AllocGlobal + Files, S: Source, W: Sink, E: Sink>(
    rt: &R,
    reader: &mut S,
    writer: &mut W,
    teller: &mut E,
    words: &[String],
) -> u8
    requires reads_fit { FewerThan (2 ^ 62) (S.calls reader.old) }
    requires writes_fit { FewerThan (2 ^ 62) (W.calls writer.old) }
    requires tellings_fit { FewerThan (2 ^ 62) (E.calls teller.old) }
    ensures { AnswersChecker (versions_asked words.now)
        (over (S.remaining reader.old) (S.remaining reader.new)
        (S.calls reader.old) (S.calls reader.new))
        (over (W.contents writer.old) (W.contents writer.new)
        (W.calls writer.old) (W.calls writer.new))
        (over (E.contents teller.old) (E.contents teller.new)
        (E.calls teller.old) (E.calls teller.new))
        (reader.new ≡ reader.old) (writer.new ≡ writer.old) result }
{
    match request_of(words) {
        Some(request) => status_of_request(rt, reader, writer, teller, request),
        None => {
            tell(teller, &USAGE);
            2
        }
    }
}

/// Judges the certificate that the reader gives, for the instance in a file, tells the fault that stops it, and gives the exit
/// status.
fn status_of_request<R: AllocGlobal + Files, S: Source, W: Sink, E: Sink>(
    rt: &R,
    reader: &mut S,
    writer: &mut W,
    teller: &mut E,
    request: CheckRequest<'_>,
) -> u8
    requires reads_fit { FewerThan (2 ^ 62) (S.calls reader.old) }
    requires writes_fit { FewerThan (2 ^ 62) (W.calls writer.old) }
    requires tellings_fit { FewerThan (2 ^ 62) (E.calls teller.old) }
    ensures { AnswersRequest request.entry.versions request.entry.period
        (over (S.remaining reader.old) (S.remaining reader.new)
        (S.calls reader.old) (S.calls reader.new))
        (over (W.contents writer.old) (W.contents writer.new)
        (W.calls writer.old) (W.calls writer.new))
        (over (E.contents teller.old) (E.contents teller.new)
        (E.calls teller.old) (E.calls teller.new))
        (reader.new ≡ reader.old) (writer.new ≡ writer.old) result }
{
    match check(rt, reader, writer, request) {
        Ok(status) => status,
        Err(fault) => told(rt.alloc(), teller, &fault),
    }
}

/// Judges the certificate that the reader gives, for the instance in a file: the status is the verdict's.
fn check<R: AllocGlobal + Files, S: Source, W: Sink>(
    rt: &R,
    reader: &mut S,
    writer: &mut W,
    request: CheckRequest<'_>,
) -> Result<u8, VerdictFault>
    requires reads_fit { FewerThan (2 ^ 62) (S.calls reader.old) }
    requires writes_fit { FewerThan (2 ^ 62) (W.calls writer.old) }
    ensures verdict { IfOk result (GivesVerdict request.entry.versions request.entry.period
        (over (S.remaining reader.old) (S.remaining reader.new)
        (S.calls reader.old) (S.calls reader.new))
        (over (W.contents writer.old) (W.contents writer.new)
        (W.calls writer.old) (W.calls writer.new))) }
    ensures cause { IfErr result (λ fault. NoVerdictCause request.entry.versions fault request.entry.period
        (over (S.remaining reader.old) (S.remaining reader.new)
        (S.calls reader.old) (S.calls reader.new))
        (over (W.contents writer.old) (W.contents writer.new)
        (W.calls writer.old) (W.calls writer.new))
        (reader.new ≡ reader.old)) }
    ensures silent { IfErr result (λ fault. fault ≢ VerdictFault.Write → writer.new ≡ writer.old) }
{
    let mut instance = Counted::new(opened(rt, request.file)?);
    let verdict = run_check_of(
        rt.alloc(),
        request.versions,
        &mut instance,
        reader,
        writer,
        request.period,
    )?;
    Ok(status_of_verdict(verdict))
}

/// Opens a file; where it can't be opened for any cause, that is told.
fn opened<R: Files>(rt: &R, file: &str) -> Result<R::File, VerdictFault>
    ensures { IfErr result (λ fault. fault ≡ VerdictFault.NoFile) }
{
    match File::open(rt, file) {
        Ok(opened) => Ok(opened),
        Err(_) => Err(VerdictFault::NoFile),
    }
}
