//! The program, over any runtime.

ghost use Rattle.std.specs.Prelude.{◌≡◌, ◌≢◌, ◌<◌, ◌≤◌, ◌^◌, IfOk, IfErr};
ghost use Rattle.pesp_stream.specs.Counts.{FewerThan};
ghost use Rattle.pesp_check.specs.Devices.{over};
ghost use Rattle.pesp_request.specs.Requests.{IsWithinLimits};
ghost use Rattle.pesp_cli.specs.Answers.{Answers};
ghost use Rattle.pesp_cli.specs.Stops.{StopsProgram};

use crate::answers::{
    of_certificate, of_instance, of_leaves, of_times, of_works, opened, opened_headed,
};
use crate::output::writer_of;
use crate::telling::told;
use clap::Error;
use clap::error::ErrorKind;
use pesp_check::teller_of;
use pesp_files::{Beginning, Headed, Lockable, warn_of_period};
use pesp_request::{Asked, OfInstance, Request, request_of};
use pesp_runs::{Fault, status_of};
use pesp_sharp_search::Sharpener;
use pesp_stream::{Counted, Sink, Source};
use std::process::ExitCode;
use std::rt::{Clock, Env, Files};
use std::{env, io};

/// Does what the command line asks for, and gives the exit status: 0 where the answer, help or the version is written,
/// 1 for a certificate that is refused or times that violate a row, 2 for a command line that isn't understood,
/// 3 for a text that is refused, 4 for memory, devices and limits of the search. Searches are made with the sharpener.
pub fn exit_of_program<
    R: AllocGlobal + Env + Input + Print + Eprint + Files + Clock,
    F: Sharpener + Drop,
>(rt: &R, sharpener: F) -> ExitCode
where
    R::File: Lockable,
{
    let words = match env::args(rt) {
        Ok(args) => args.collect::<Vec<String>>(rt.alloc()),
        Err(error) if error.kind() == io::ErrorKind::OutOfMemory => {
            return ExitCode::from(stopped(rt, &Fault::Memory));
        }
        // A word that is no text.
        Err(_) => return ExitCode::from(2),
    };
    match words {
        Ok(words) => ExitCode::from(status_of_words(rt, words.as_slice(), sharpener)),
        Err(_) => ExitCode::from(stopped(rt, &Fault::Memory)),
    }
}

/// Does what the words ask for, the program's name first, and gives the exit status. Searches are made with the sharpener.
pub fn status_of_words<
    R: AllocGlobal + Input + Print + Eprint + Files + Clock,
    F: Sharpener + Drop,
>(rt: &R, words: &[String], sharpener: F) -> u8
where
    R::File: Lockable,
{
    match request_of(rt.alloc(), words) {
        Ok(request) => status_of_request(rt, request, sharpener),
        Err(error) if error.kind() == ErrorKind::OutOfMemory => stopped(rt, &Fault::Memory),
        Err(error) => told_words(rt, &error),
    }
}

/// Prints what clap says of the words, and gives the exit status: 2 for words that aren't understood, and 0 for the help and
/// the version, where they went out.
fn told_words<R: AllocGlobal + Print + Eprint>(rt: &R, error: &Error) -> u8 {
    let printed = error.print(rt);
    if error.use_stderr() {
        return 2;
    }
    match printed {
        Ok(()) => 0,
        Err(failed) if failed.kind() == io::ErrorKind::BrokenPipe => status_of(&Fault::Write),
        Err(_) => stopped(rt, &Fault::Write),
    }
}

/// Tells a fault on standard error, and gives its exit status.
fn stopped<R: AllocGlobal + Eprint>(rt: &R, fault: &Fault) -> u8 {
    told(rt.alloc(), &mut teller_of(rt), fault)
}

/// Does what a request within the limits asks for, tells the fault that stops it, and gives the exit status. Where the program
/// that read standard output has gone away, nothing is told.
fn status_of_request<R: AllocGlobal + Input + Print + Eprint + Files + Clock, F: Sharpener + Drop>(
    rt: &R,
    request: Request<'_>,
    sharpener: F,
) -> u8
where
    R::File: Lockable,
    requires { IsWithinLimits request }
{
    let mut input = Beginning::of(rt.reader());
    if request.reads_input() && input.is_closed() {
        return stopped(rt, &Fault::Read);
    }
    let teller = if tells_header(&request) {
        Some(rt)
    } else {
        None
    };
    let mut reader = Counted::new(Headed::of(input, teller));
    let mut writer = writer_of(rt);
    let period_of_times = request.period_of_times();
    let done = answer(
        rt,
        &mut reader,
        &mut writer,
        &mut teller_of(rt),
        request,
        sharpener,
    );
    if let Some(period) = period_of_times {
        warn_of_period(rt, &reader.into_inner().into_inner(), period);
    }
    match done {
        Ok(status) => status,
        Err(Fault::Write) if writer.into_inner().unread => status_of(&Fault::Write),
        Err(fault) => stopped(rt, &fault),
    }
}

/// Whether it is told that a header of the instance is passed over.
fn tells_header(request: &Request<'_>) -> bool {
    match &request.asked {
        Asked::Instance {
            asked: OfInstance::Plan(planning),
            ..
        } => !planning.quiet,
        _ => false,
    }
}

/// Does what a request within the limits asks for, with what it reads from standard input, and gives the exit status.
fn answer<
    R: AllocGlobal + Eprint + Files + Clock,
    S: Source,
    W: Sink,
    E: Sink,
    F: Sharpener + Drop,
>(
    rt: &R,
    reader: &mut S,
    writer: &mut W,
    teller: &mut E,
    request: Request<'_>,
    sharpener: F,
) -> Result<u8, Fault>
where
    R::File: Lockable,
    requires limits { IsWithinLimits request }
    requires reads_fit { FewerThan (2 ^ 62) (S.calls reader.old) }
    requires writes_fit { FewerThan (2 ^ 62) (W.calls writer.old) }
    requires tellings_fit { FewerThan (2 ^ 62) (E.calls teller.old) }
    ensures answered { IfOk result (Answers request.entry
        (over (S.remaining reader.old) (S.remaining reader.new)
        (S.calls reader.old) (S.calls reader.new))
        (over (W.contents writer.old) (W.contents writer.new)
        (W.calls writer.old) (W.calls writer.new))
        (over (E.contents teller.old) (E.contents teller.new)
        (E.calls teller.old) (E.calls teller.new))
        (writer.new ≡ writer.old)) }
    ensures stopped { IfErr result (λ fault. StopsProgram request.entry fault
        (over (S.remaining reader.old) (S.remaining reader.new)
        (S.calls reader.old) (S.calls reader.new))
        (over (W.contents writer.old) (W.contents writer.new)
        (W.calls writer.old) (W.calls writer.new))
        (over (E.contents teller.old) (E.contents teller.new)
        (E.calls teller.old) (E.calls teller.new))
        (reader.new ≡ reader.old)) }
    ensures silent { IfErr result (λ fault. fault ≢ Fault.Write → writer.new ≡ writer.old) }
{
    let tells = tells_header(&request);
    let Request { period, asked } = request;
    match asked {
        Asked::Instance { file: None, asked } => {
            of_instance(rt, reader, writer, teller, period, asked, sharpener)
        }
        Asked::Instance {
            file: Some(file),
            asked,
        } => {
            let mut instance = opened_headed(rt, file, tells)?;
            of_instance(rt, &mut instance, writer, teller, period, asked, sharpener)
        }
        Asked::Certificate { file, asked } => {
            let mut instance = opened(rt, file)?;
            of_certificate(rt, &mut instance, reader, writer, period, asked, sharpener)
        }
        Asked::Leaves { file, asked } => {
            let mut instance = opened(rt, file)?;
            of_leaves(rt, &mut instance, reader, writer, period, asked, sharpener)
        }
        Asked::Times { file, asked } => {
            let mut instance = opened(rt, file)?;
            of_times(rt, &mut instance, reader, writer, period, asked)
        }
        Asked::Works { file, base, asked } => {
            let mut instance = opened(rt, file)?;
            let mut base = opened(rt, base)?;
            of_works(
                rt,
                &mut instance,
                &mut base,
                reader,
                writer,
                teller,
                period,
                asked,
            )
        }
    }
}
