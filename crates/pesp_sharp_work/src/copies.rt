//! A certificate once more, with another answer.

ghost use Rattle.std.specs.Prelude.{◌≡◌, true, IfOk};
ghost use Rattle.pesp_cert.specs.Limits.{has_costs};

use pesp_cert::laws::limits_are_those_of_texts;
use pesp_cert::{Certificate, NotACertificate};
use pesp_problem::{Memory, Pairs, Walk};
use pesp_truth::{Answer, TreeLine};
use std::alloc::Global;

/// The same walk once more.
fn copied_walk(alloc: Global, walk: &Walk) -> Result<Walk, Memory>
    ensures { IfOk result (λ copy. copy ≡ walk.now) }
{
    let rows = walk.rows().to_vec(alloc)?;
    Ok(Walk::new(rows))
}

/// The same walks once more.
fn copied_walks(alloc: Global, walks: &[Walk]) -> Result<Vec<Walk>, Memory>
    ensures { IfOk result (λ copies. copies.items ≡ walks.now) }
{
    let mut copies = Vec::new(alloc);
    for walk in walks {
        copies.push(copied_walk(alloc, walk)?)?;
    }
    Ok(copies)
}

/// The same pairs once more.
fn copied_pairs(alloc: Global, pairs: &Pairs) -> Result<Pairs, Memory>
    ensures { IfOk result (λ copy. copy ≡ pairs.now) }
{
    Ok(Pairs::new(pairs.as_slice().to_vec(alloc)?))
}

/// The same line once more.
fn copied_line(alloc: Global, line: &TreeLine) -> Result<TreeLine, Memory>
    ensures { IfOk result (λ copy. copy ≡ line.now) }
{
    match line {
        TreeLine::Slack { row, k } => Ok(TreeLine::Slack { row: *row, k: *k }),
        TreeLine::Offset { cycle, k } => Ok(TreeLine::Offset {
            cycle: *cycle,
            k: *k,
        }),
        TreeLine::Bound(pairs) => Ok(TreeLine::Bound(copied_pairs(alloc, pairs)?)),
        TreeLine::Nothing(pairs) => Ok(TreeLine::Nothing(copied_pairs(alloc, pairs)?)),
        TreeLine::Gap(cycle) => Ok(TreeLine::Gap(*cycle)),
        TreeLine::Propagated => Ok(TreeLine::Propagated),
    }
}

/// The same lines once more.
fn copied_lines(alloc: Global, lines: &[TreeLine]) -> Result<Vec<TreeLine>, Memory>
    ensures { IfOk result (λ copies. copies.items ≡ lines.now) }
{
    let mut copies = Vec::new(alloc);
    for line in lines {
        copies.push(copied_line(alloc, line)?)?;
    }
    Ok(copies)
}

/// The same certificate with another answer, whose numbers have at most 18 digits.
pub(crate) fn with_answer(
    alloc: Global,
    certificate: &Certificate,
    answer: Answer,
) -> Result<Certificate, Memory>
    requires { has_costs answer ≡ true }
    ensures { IfOk result (λ c. c ≡ record certificate.now { answer = answer }) }
{
    limits_are_those_of_texts();
    let times = certificate.times().to_vec(alloc)?;
    let cycles = copied_walks(alloc, certificate.cycles())?;
    let version = certificate.version();
    let period = certificate.period();
    match copied_lines(alloc, certificate.tree()) {
        Ok(tree) => {
            match Certificate::new(version, period, answer, times, cycles, tree) {
                Ok(copy) => Ok(copy),
                Err(NotACertificate) => unreachable!(),
            }
        }
        Err(refused) => {
            drop(cycles);
            Err(refused)
        }
    }
}
