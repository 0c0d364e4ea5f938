//! The options and the arguments of commands.

use clap::{Arg, ArgAction, value_parser};
use std::alloc::{AllocError, Global};

/// An option whose value is a whole number from the least to the greatest.
fn number_option<'a>(alloc: Global, name: &'a str, least: i64, greatest: i64) -> Arg<'a> {
    Arg::new(alloc, name)
        .long(name)
        .value_name("N")
        .value_parser(value_parser!(u32).range(least..=greatest))
}

/// An option that is there or not.
fn flag<'a>(alloc: Global, name: &'a str) -> Arg<'a> {
    Arg::new(alloc, name).long(name).action(ArgAction::SetTrue)
}

pub(crate) fn period_option<'a>(alloc: Global) -> Arg<'a> {
    number_option(alloc, "period", 1, 10000)
        .default_value("60")
        .help("The period, 1 to 10000, in the unit of the durations")
}

pub(crate) fn steps_option<'a>(alloc: Global) -> Arg<'a> {
    number_option(alloc, "steps", 0, 100000)
        .default_value("1000")
        .help("How many leaves of the search are split at most, 0 to 100000")
}

pub(crate) fn solve_steps_option<'a>(alloc: Global) -> Arg<'a> {
    number_option(alloc, "steps", 0, 100000).help(
        "How many leaves of the search are split at most, 0 to 100000 [default: 1000, with --sharp 100]",
    )
}

pub(crate) fn sharpen_option<'a>(alloc: Global) -> Arg<'a> {
    flag(alloc, "sharp").help(
        "Sharpens the leaves by marked walks: better bounds within fewer steps, each of which takes longer; the certificate has version 3, which check --sharp takes",
    )
}

pub(crate) fn from_option<'a>(alloc: Global) -> Arg<'a> {
    Arg::new(alloc, "from")
        .long("from")
        .value_name("TIMES")
        .help(
            "A file with time lines or a certificate: a timetable from which the search begins, and than which its answer costs no more",
        )
}

pub(crate) fn seconds_option<'a>(alloc: Global) -> Arg<'a> {
    number_option(alloc, "seconds", 1, 10000000).help(
        "For about how many seconds the search goes on at most, 1 to 10000000",
    )
}

pub(crate) fn share_option<'a>(alloc: Global) -> Arg<'a> {
    Arg::new(alloc, "share")
        .long("share")
        .value_name("K/N")
        .help(
            "With --sharp: searches one of N shares of the regions alone, and looks for no times; graft --sharp joins what comes of all",
        )
}

pub(crate) fn plan_seconds_option<'a>(alloc: Global) -> Arg<'a> {
    number_option(alloc, "seconds", 1, 1000000)
        .default_value("60")
        .help(
            "For about how many seconds, 1 to 1000000; it ends before where nothing is left to be found",
        )
}

pub(crate) fn output_option<'a>(alloc: Global) -> Arg<'a> {
    Arg::new(alloc, "output")
        .long("output")
        .value_name("FILE")
        .help(
            "The file in which the certificate stands, whole at every moment; where it is there, the plan goes on from it",
        )
}

pub(crate) fn quiet_option<'a>(alloc: Global) -> Arg<'a> {
    flag(alloc, "quiet").help("Tells nothing on standard error but what stops it")
}

pub(crate) fn progress_option<'a>(alloc: Global) -> Arg<'a> {
    flag(alloc, "progress").help(
        "Tells on standard error how far the search is: at its beginning, at each doubling of the steps and at each better timetable",
    )
}

pub(crate) fn sharp_option<'a>(alloc: Global) -> Arg<'a> {
    flag(alloc, "sharp").help(
        "Takes a certificate of version 3 too, whose leaves may name marked walks",
    )
}

pub(crate) fn work_sharpen_option<'a>(alloc: Global) -> Arg<'a> {
    flag(alloc, "sharp").help(
        "Takes a certificate of version 3 too, and sharpens the leaves by marked walks; the work is the whole certificate, for graft --sharp",
    )
}

pub(crate) fn graft_sharp_option<'a>(alloc: Global) -> Arg<'a> {
    flag(alloc, "sharp").help(
        "Takes a certificate of version 3 too, and works of work --sharp, each a whole certificate",
    )
}

pub(crate) fn violations_option<'a>(alloc: Global) -> Arg<'a> {
    flag(alloc, "violations").help(
        "Lists the activities that the times violate instead, each with its bounds and the excess; the exit status is 1 where there are any",
    )
}

pub(crate) fn json_option<'a>(alloc: Global) -> Arg<'a> {
    flag(alloc, "json").help("Writes the same as JSON")
}

pub(crate) fn names_option<'a>(alloc: Global) -> Arg<'a> {
    Arg::new(alloc, "names")
        .long("names")
        .value_name("NAMES")
        .help(
            "A file with the names of events, one a line as event,name or event,name,line,station,distance",
        )
}

pub(crate) fn names_argument<'a>(alloc: Global) -> Arg<'a> {
    Arg::new(alloc, "names")
        .value_name("NAMES")
        .required(true)
        .help("The file with the names of events, one a line as event,name,line,station,distance")
}

pub(crate) fn along_option<'a>(alloc: Global) -> Arg<'a> {
    Arg::new(alloc, "along")
        .long("along")
        .value_name("STATIONS")
        .help(
            "Draws one diagram of these stations, between commas, with the trains of all lines, their minutes and what keeps them apart",
        )
}

pub(crate) fn fix_option<'a>(alloc: Global) -> Arg<'a> {
    Arg::new(alloc, "fix")
        .long("fix")
        .value_name("LABEL=TIME")
        .help("Holds an event at a time, several between commas; LABEL alone holds it at its time")
}

pub(crate) fn lock_option<'a>(alloc: Global) -> Arg<'a> {
    Arg::new(alloc, "lock").long("lock").value_name("LINE").help(
        "Holds all events of a line that NAMES tells at their times, several between commas",
    )
}

pub(crate) fn rows_option<'a>(alloc: Global) -> Arg<'a> {
    number_option(alloc, "rows", 1, 1000)
        .default_value("100")
        .help("How many activities, the dearest ones, are drawn at most, 1 to 1000")
}

pub(crate) fn file_argument<'a>(alloc: Global) -> Arg<'a> {
    Arg::new(alloc, "file")
        .value_name("FILE")
        .required(true)
        .help("The file with the instance")
}

pub(crate) fn base_argument<'a>(alloc: Global) -> Arg<'a> {
    Arg::new(alloc, "base")
        .value_name("BASE")
        .required(true)
        .help("The file with the certificate onto which works are grafted")
}

pub(crate) fn until_option<'a>(alloc: Global) -> Arg<'a> {
    Arg::new(alloc, "until")
        .long("until")
        .value_name("BOUND")
        .value_parser(value_parser!(u64).range(0..=999999999999999999))
        .help("Splits no leaf that is worth as much, 0 to 999999999999999999")
}

pub(crate) fn jobs_argument<'a>(alloc: Global) -> Arg<'a> {
    Arg::new(alloc, "job")
        .value_name("JOB")
        .required(true)
        .num_args(1..)
        .help(
            "The number of an open leaf, as split tells it, 0 to 999999, or a range of them, as 3-17",
        )
}

pub(crate) fn optional_file<'a>(alloc: Global) -> Arg<'a> {
    Arg::new(alloc, "file").value_name("FILE").help(
        "The file with the instance; standard input where none is named",
    )
}
