//! Parts of what command lines have written, and fronts of what they read.

use crate::programs::{View, end_of, run_all, tell_end};
use pesp_case_runtime::Device;
use pesp_part_tests::{Case, split_word};
use std::alloc::Global;

/// The parts of a text before each of these ends in turn.
/// There are none where an end is missing or stands behind a `/>`.
fn row_of(alloc: Global, text: &str, ends: &str) -> Option<String> {
    let mut row = String::new(alloc);
    let mut rest = text;
    for end in ends.split(" ~ ") {
        match rest.split_once(end) {
            Some((part, behind)) if !part.contains("/>") => {
                write!(row, " {}", part.trim()).ok()?;
                rest = behind;
            }
            _ => return Some(String::new(alloc)),
        }
    }
    Some(row)
}

/// Tells a row of parts, where it isn't blank.
fn tell_row(row: &str, told: &mut String) -> Option<()> {
    if row.trim().is_empty() {
        return Some(());
    }
    write!(told, "{row},").ok()
}

/// Tells the parts of a text behind each place of another, up to these ends.
fn tell_rows(alloc: Global, text: &str, from: &str, ends: &str, told: &mut String) -> Option<()> {
    let Some((_, rest)) = text.split_once(from) else {
        return Some(());
    };
    for piece in rest.split(from) {
        tell_row(row_of(alloc, piece, ends)?.as_str(), told)?;
    }
    Some(())
}

/// Tells the status of command lines, and parts of what they have written.
/// The texts between which these stand come behind the command lines and ` ~ `.
pub(crate) fn ask_parts(case: Case<'_>, told: &mut String) -> Option<()> {
    let (commands, marks) = case.rest.split_once(" ~ ")?;
    let (from, ends) = marks.split_once(" ~ ")?;
    let end = end_of(case, commands)?;
    write!(told, " {}", end.status).ok()?;
    let text = str::from_utf8(&end.written).ok()?;
    tell_rows(case.alloc, text, from, ends, told)
}

/// Tells the status of command lines.
/// Tells how often a text stands in what they have written.
pub(crate) fn ask_count(case: Case<'_>, told: &mut String) -> Option<()> {
    let (commands, mark) = case.rest.split_once(" ~ ")?;
    let end = end_of(case, commands)?;
    let text = str::from_utf8(&end.written).ok()?;
    let count = text.split(mark).skip(1).count();
    write!(told, " {} {count}", end.status).ok()
}

/// How many elements are open behind a tag, none where one ends that never began.
fn depth_behind(depth: u64, tag: &str) -> Option<u64> {
    if tag.starts_with("/") {
        return depth.checked_sub(1);
    }
    if tag.contains("/>") {
        return Some(depth);
    }
    depth.checked_add(1)
}

/// How many elements are open behind tags, none where one ends that never began.
fn depth_of(tags: &str) -> Option<u64> {
    let mut depth = 0;
    for tag in tags.split("<") {
        depth = depth_behind(depth, tag)?;
    }
    Some(depth)
}

/// Tells the status of command lines.
/// Tells whether each element that they have written is closed.
pub(crate) fn ask_closed(case: Case<'_>, told: &mut String) -> Option<()> {
    let end = end_of(case, case.rest)?;
    let (_, tags) = str::from_utf8(&end.written).ok()?.split_once("<")?;
    let word = if depth_of(tags) == Some(0) {
        "closed"
    } else {
        "open"
    };
    write!(told, " {} {word}", end.status).ok()
}

/// What is told of command lines over a front of a text.
fn told_of_front(case: Case<'_>, front: &[u8], commands: &str) -> Option<String> {
    let input = Vec::from_slice(case.alloc, front).ok()?;
    let end = run_all(case, input, Device::whole(), commands)?;
    let mut told = String::new(case.alloc);
    tell_end(&end, View::Whole, &mut told)?;
    Some(told)
}

/// Tells what command lines tell over all fronts of a file.
/// Or it tells the first front over which they tell something else.
/// The empty front is one, the whole file is none.
pub(crate) fn ask_fronts(case: Case<'_>, told: &mut String) -> Option<()> {
    let (name, commands) = split_word(case.rest);
    if !case.has_file(name) {
        return None;
    }
    let text = case.text(name)?;
    let first = told_of_front(case, b"", commands)?;
    for length in 0..text.len() {
        let end = told_of_front(case, text.get(..length)?, commands)?;
        if end.as_str() != first.as_str() {
            return write!(told, " of {length} bytes:{end}").ok();
        }
    }
    write!(told, " each:{first}").ok()
}
