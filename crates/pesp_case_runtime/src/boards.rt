//! A case of boards: events one after another, and questions.

ghost use Rattle.std.specs.Prelude.{◌≡◌, IfSome};
ghost use Rattle.pesp_tree.specs.Certificates.{IsProblemOf};

use crate::events::{LentJob, change, number_of, path_of, spend};
use pesp_board::Board;
use pesp_cert::{Certificate, print};
use pesp_network::Network;
use pesp_nodes::Problem;
use pesp_part_tests::{
    Case, add_joined, begin_line, instance_of, look_up, split_word, table_of, tell_number,
    tell_pairs,
};
use pesp_problem::Instance;
use pesp_stream::Counted;
use pesp_whole_check::{Verdict, check};
use std::alloc::Global;
use std::mem::replace;

/// What a line tells of: an event, or a question to the board.
#[derive(Clone, Copy)]
pub(crate) enum Event {
    Lend,
    Recall,
    Offer,
    Give,
    Spend,
    Adopt,
    Best,
    Least,
    Open,
    Leaf,
    Path,
    Size,
    Certified,
}

/// The first word of each such line.
const EVENTS: [(&str, Event); 13] = [
    ("lend", Event::Lend),
    ("recall", Event::Recall),
    ("offer", Event::Offer),
    ("give", Event::Give),
    ("spend", Event::Spend),
    ("adopt", Event::Adopt),
    ("best", Event::Best),
    ("least", Event::Least),
    ("open", Event::Open),
    ("leaf", Event::Leaf),
    ("path", Event::Path),
    ("problem", Event::Size),
    ("certificate", Event::Certified),
];

/// The problem of the instance's network and of the cycles of the lines.
fn problem_of(case: Case<'_>, instance: &Instance) -> Option<Problem>
    ensures { IfSome result (IsProblemOf instance.now) }
{
    let table = table_of(case)?;
    match Network::of(case.alloc, instance) {
        Ok(network) => Problem::new(case.alloc, network, table).ok(),
        Err(_) => None,
    }
}

/// The board of the instance's network and of the cycles of the lines.
fn board_of(case: Case<'_>, instance: &Instance) -> Option<Board>
    ensures { IfSome result (λ board. IsProblemOf instance.now board.problem) }
{
    match problem_of(case, instance) {
        Some(problem) => Board::new(case.alloc, problem).ok(),
        None => None,
    }
}

/// Tells the name of a case, and each event and question with its answer.
pub fn play_board(case: Case<'_>, told: &mut String) -> Option<()> {
    let instance = instance_of(case)?;
    let done = play_instance(case, &instance, told);
    drop(instance);
    done
}

fn play_instance(case: Case<'_>, instance: &Instance, told: &mut String) -> Option<()> {
    let mut board = board_of(case, instance)?;
    let mut lent = Vec::new(case.alloc);
    let done = play_lines(case, instance, &mut board, &mut lent, told);
    drop(board);
    done
}

/// Plays the lines on the board of the instance.
fn play_lines(
    case: Case<'_>,
    instance: &Instance,
    board: &mut Board,
    lent: &mut Vec<LentJob>,
    told: &mut String,
) -> Option<()>
    requires { IsProblemOf instance.now board.old.problem }
{
    for line in case.lines {
        play_line(case, instance, board, lent, line, told)?;
    }
    Some(())
}

/// Plays one line, and tells it with its answer. Then the checker judges the certificate.
/// Nothing is told of lines that make the board.
fn play_line(
    case: Case<'_>,
    instance: &Instance,
    board: &mut Board,
    lent: &mut Vec<LentJob>,
    line: &str,
    told: &mut String,
) -> Option<()>
    requires { IsProblemOf instance.now board.old.problem }
    ensures { IsProblemOf instance.now board.new.problem }
{
    if !begin_line(line, told)? {
        return Some(());
    }
    let (word, rest) = split_word(line);
    let event = look_up(&EVENTS, word)?;
    happen(Case { rest, ..case }, instance, board, lent, event, told)?;
    certify(case.alloc, instance, board, event, told)?;
    told.push_str("\n").ok()
}

/// Tells the answer to an event or a question.
fn happen(
    case: Case<'_>,
    instance: &Instance,
    board: &mut Board,
    lent: &mut Vec<LentJob>,
    event: Event,
    told: &mut String,
) -> Option<()>
    requires { IsProblemOf instance.now board.old.problem }
    ensures { IsProblemOf instance.now board.new.problem }
{
    match event {
        Event::Adopt => adopt(case.alloc, instance, board, told),
        Event::Spend => spend(case, instance, board, told),
        Event::Lend | Event::Recall | Event::Offer | Event::Give => {
            change(case, board, lent, event, told)
        }
        _ => tell_of(case, board, lent, event, told),
    }
}

/// Tells the answer to a question to a board.
/// It tells nothing where the certificate is asked for.
fn tell_of(
    case: Case<'_>,
    board: &Board,
    lent: &[LentJob],
    event: Event,
    told: &mut String,
) -> Option<()> {
    match event {
        Event::Best => tell_number(board.best(), told),
        Event::Least => tell_number(board.least(), told),
        Event::Open => write!(told, " {} leaves", board.open_leaves()).ok(),
        Event::Leaf => tell_leaf(board, number_of(case, lent)?, told),
        Event::Path => told.push_str(path_of(lent, number_of(case, lent)?)?).ok(),
        Event::Size => tell_size(board.problem(), told),
        _ => Some(()),
    }
}

/// Tells the period of a problem, and how many cycles it has.
fn tell_size(problem: &Problem, told: &mut String) -> Option<()> {
    let period = problem.network().period();
    let cycles = problem.table().len();
    write!(told, " period {period}, {cycles} cycles").ok()
}

/// Tells the value and the pairs of a job's leaf.
fn tell_leaf(board: &Board, number: u64, told: &mut String) -> Option<()> {
    let Some((value, pairs)) = board.job_leaf(number) else {
        return told.push_str(" not lent").ok();
    };
    let none = if pairs.is_empty() { "no " } else { "" };
    write!(told, " value {value}, {none}pairs").ok()?;
    tell_pairs(pairs, told)
}

/// A board that takes up what is certified so far.
fn adopted(alloc: Global, instance: &Instance, board: &Board) -> Option<Board>
    requires { IsProblemOf instance.now board.now.problem }
    ensures { IfSome result (λ adopted. IsProblemOf instance.now adopted.problem) }
{
    match board.certificate(alloc, instance) {
        Ok(certificate) => {
            let adopted = Board::adopt(alloc, instance, &certificate);
            drop(certificate);
            adopted.ok()
        }
        Err(_) => None,
    }
}

/// Another board takes up what is certified so far.
fn adopt(alloc: Global, instance: &Instance, board: &mut Board, told: &mut String) -> Option<()>
    requires { IsProblemOf instance.now board.old.problem }
    ensures { IsProblemOf instance.now board.new.problem }
{
    let adopted = adopted(alloc, instance, board)?;
    drop(replace(board, adopted));
    told.push_str(" adopted").ok()
}

/// Judges the certificate so far.
/// Tells it where it is asked for, and that it isn't accepted where it isn't.
fn certify(
    alloc: Global,
    instance: &Instance,
    board: &Board,
    event: Event,
    told: &mut String,
) -> Option<()>
    requires { IsProblemOf instance.now board.now.problem }
{
    let certificate = board.certificate(alloc, instance).ok()?;
    let done = judge(alloc, instance, &certificate, event, told);
    drop(certificate);
    done
}

fn judge(
    alloc: Global,
    instance: &Instance,
    certificate: &Certificate,
    event: Event,
    told: &mut String,
) -> Option<()> {
    if matches!(event, Event::Certified) {
        tell_certificate(alloc, certificate, told)?;
    }
    match check(alloc, instance, certificate).ok()? {
        Verdict::Accepted => Some(()),
        Verdict::Refused(_) => told.push_str(", and not accepted").ok(),
    }
}

fn tell_certificate(alloc: Global, certificate: &Certificate, told: &mut String) -> Option<()> {
    let mut writer = Counted::new(Vec::new(alloc));
    print(certificate, &mut writer).ok()?;
    told.push_str(" ").ok()?;
    add_joined(&writer.into_inner(), told)
}
