//! A case from its first line to its last.

use crate::commands::ask_command;
use crate::parts::{ask_closed, ask_count, ask_fronts, ask_parts};
use crate::programs::{View, ask_in_pieces, ask_program};
use pesp_case_runtime::{
    ask_bytes, ask_items, ask_lines, ask_number, ask_pages, ask_words, play_board,
};
use pesp_part_tests::{Case, ask_part, begin_line, look_up, split_word};

/// What a line asks for.
#[derive(Clone, Copy)]
enum Question {
    Program(View),
    InPieces,
    Parts,
    Count,
    Closed,
    Fronts,
    Command,
    Number,
    Words,
    Lines,
    Bytes,
    Pages,
    Items,
}

/// The first word of each question, but for those on parts of the solver.
const QUESTIONS: [(&str, Question); 15] = [
    ("program", Question::Program(View::Whole)),
    ("status", Question::Program(View::Status)),
    ("told", Question::Program(View::Told)),
    ("by", Question::InPieces),
    ("parts", Question::Parts),
    ("count", Question::Count),
    ("closed", Question::Closed),
    ("fronts", Question::Fronts),
    ("command", Question::Command),
    ("number", Question::Number),
    ("words", Question::Words),
    ("lines", Question::Lines),
    ("bytes", Question::Bytes),
    ("pages", Question::Pages),
    ("items", Question::Items),
];

/// Tells the name of a case, and each question with its answer.
/// It is a case of a board where its second line is `board`.
pub(crate) fn play(case: Case<'_>, told: &mut String) -> Option<()> {
    if case.lines.get(1).copied() == Some("board") {
        return play_board(case, told);
    }
    for line in case.lines {
        play_line(case, line, told)?;
    }
    Some(())
}

/// Tells a line with its answer; nothing of what is given.
fn play_line(case: Case<'_>, line: &str, told: &mut String) -> Option<()> {
    if begin_line(line, told)? {
        let (word, rest) = split_word(line);
        answer(Case { rest, ..case }, word, told)?;
        told.push_str("\n").ok()?;
    }
    Some(())
}

/// Tells the answer to a question of this first word.
fn answer(case: Case<'_>, word: &str, told: &mut String) -> Option<()> {
    let Some(question) = look_up(&QUESTIONS, word) else {
        return ask_part(case, word, told);
    };
    match question {
        Question::Program(view) => ask_program(case, view, told),
        Question::InPieces => ask_in_pieces(case, told),
        Question::Parts => ask_parts(case, told),
        Question::Count => ask_count(case, told),
        Question::Closed => ask_closed(case, told),
        Question::Fronts => ask_fronts(case, told),
        Question::Command => ask_command(case, told),
        Question::Number => ask_number(case, told),
        Question::Words => ask_words(case, told),
        Question::Lines => ask_lines(case, told),
        Question::Bytes => ask_bytes(case, told),
        Question::Pages => ask_pages(case, told),
        Question::Items => ask_items(case, told),
    }
}
