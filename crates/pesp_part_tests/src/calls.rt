//! Calls that no command shows alone.

use crate::given::Case;
use crate::rows::{instance_of, table_of};
use crate::spelling::add_joined;
use crate::words::words_of;
use pesp_cert::{Answer, Certificate, NotACertificate, TreeLine};
use pesp_instance::read_instance;
use pesp_problem::{Instance, Score, score};
use pesp_report::report;
use pesp_stream::Counted;
use std::alloc::Global;

/// Tells that the instance is read, or why it isn't.
pub(crate) fn ask_read(case: Case<'_>, told: &mut String) -> Option<()> {
    let period = case.period()?;
    match read_instance(case.alloc, &case.text("instance")?, period) {
        Ok(instance) => {
            drop(instance);
            told.push_str(" read").ok()
        }
        Err(refusal) => write!(told, " {refusal:?}").ok(),
    }
}

/// The times of the question's words.
pub fn times_of(case: Case<'_>) -> Option<Vec<u32>> {
    let mut times = Vec::new(case.alloc);
    for word in &words_of(case.alloc, case.rest)? {
        times.push(word.parse().ok()?).ok()?;
    }
    Some(times)
}

/// Tells what the times of the question are worth.
pub(crate) fn ask_score(case: Case<'_>, told: &mut String) -> Option<()> {
    let times = times_of(case)?;
    let instance = instance_of(case)?;
    let worth = score(&instance, &times);
    drop(instance);
    match worth {
        Score::Feasible { cost } => write!(told, " cost {cost}").ok(),
        Score::Violates { row, slack } => {
            write!(told, " row {row} is violated by slack {slack}").ok()
        }
        Score::NotTimes => told.push_str(" no times").ok(),
    }
}

/// Tells the report of the times of the question, or why there is none.
pub(crate) fn ask_reported(case: Case<'_>, told: &mut String) -> Option<()> {
    let times = times_of(case)?;
    let instance = instance_of(case)?;
    let done = tell_report(case.alloc, &instance, &times, told);
    drop(instance);
    done
}

fn tell_report(alloc: Global, instance: &Instance, times: &[u32], told: &mut String) -> Option<()> {
    let mut writer = Counted::new(Vec::new(alloc));
    told.push_str(" ").ok()?;
    match report(alloc, instance, times, &mut writer) {
        Ok(()) => add_joined(&writer.into_inner(), told),
        Err(refusal) => write!(told, "{refusal:?}").ok(),
    }
}

/// So many gap leaves.
fn gaps(alloc: Global, count: u32) -> Option<Vec<TreeLine>> {
    let mut tree = Vec::new(alloc);
    for _ in 0..count {
        tree.push(TreeLine::Gap(1)).ok()?;
    }
    Some(tree)
}

/// A certificate that there is no timetable, at period 10.
/// It has one time, the given cycles and so many gap leaves.
fn made(case: Case<'_>, count: u32) -> Option<Result<Certificate, NotACertificate>> {
    let times = vec![in case.alloc; (1, 0)].ok()?;
    let cycles = table_of(case)?;
    let tree = gaps(case.alloc, count)?;
    let answer = Answer::Infeasible;
    Some(Certificate::new(1, 10, answer, times, cycles, tree))
}

/// Tells what such a certificate has, or `none` where there is none.
pub(crate) fn ask_made(case: Case<'_>, told: &mut String) -> Option<()> {
    match made(case, case.number(0)?)? {
        Ok(certificate) => {
            let done = tell_parts(&certificate, told);
            drop(certificate);
            done
        }
        Err(_) => told.push_str(" none").ok(),
    }
}

fn tell_parts(certificate: &Certificate, told: &mut String) -> Option<()> {
    let period = certificate.period();
    let answer = certificate.answer();
    let times = certificate.times().len();
    let cycles = certificate.cycles().len();
    write!(
        told,
        " period {period}, {answer:?}, {times} times, {cycles} cycles"
    )
    .ok()
}
