//! What is told of works.

ghost use Rattle.std.specs.Prelude.{◌≡◌, ◌++◌, OnOk, IfOk, string_bytes};
ghost use Rattle.pesp_tasks.specs.Replies.{sharp_reply_line, lines_from};

use pesp_check::RefusalText;
use pesp_problem::Memory;
use pesp_sharp_work::SharpReply;
use std::alloc::Global;
use std::fmt;

/// What became of a work, in words.
#[derive(Drop)]
struct ReplyText(SharpReply);

impl fmt::Display for ReplyText {
    ghost use Rattle.std.specs.Prelude.{Some};
    ghost use Rattle.pesp_tasks.specs.Replies.{reply_text};

    ghost output = { λ text. Some (reply_text text.0) };

    fn fmt<W: fmt::Write>(&self, f: &mut fmt::Formatter<W>) -> fmt::Result {
        match self.0 {
            SharpReply::Taken => f.write_str("taken"),
            SharpReply::AddsNothing => f.write_str("adds nothing"),
            SharpReply::Unread(refusal) => write!(f, "unread {refusal}"),
            SharpReply::NotValid(refusal) => {
                let refusal = RefusalText(refusal);
                write!(f, "refused {refusal}")
            }
            SharpReply::TooLarge => f.write_str("too large"),
        }
    }
}

/// The line of a work, by its number.
fn line_of(alloc: Global, number: u64, reply: SharpReply) -> Result<String, Memory>
    ensures { IfOk result (λ line. string_bytes line ≡ sharp_reply_line number reply) }
{
    let text = ReplyText(reply);
    Ok(format!(in alloc; "work {number} {text}\n")?)
}

/// Puts a line behind those before it.
fn add(lines: &mut String, line: &str) -> Result<(), Memory>
    ensures { OnOk result (string_bytes lines.new ≡ string_bytes lines.old ++ line.now) }
{
    lines.push_str(line)?;
    Ok(())
}

/// A line for each work.
pub(crate) fn lines_of(alloc: Global, replies: &[SharpReply]) -> Result<String, Memory>
    ensures { IfOk result (λ lines. string_bytes lines ≡ lines_from 1 replies.now) }
{
    let mut lines = String::new(alloc);
    for (place, reply) in replies.iter().enumerate() {
        let line = line_of(alloc, place as u64 + 1, *reply)?;
        add(&mut lines, line.as_str())?;
    }
    Ok(lines)
}
