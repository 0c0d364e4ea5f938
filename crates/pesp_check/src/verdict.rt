//! Verdicts, as lines and as exit statuses.

ghost use Rattle.std.specs.Prelude.{◌≡◌, ◌⊎◌, ◌<◌, ◌^◌, OnOk, IfErr};
ghost use Rattle.std.specs.Io.KnownBytes.{Appends};
ghost use Rattle.pesp_stream.specs.Counts.{FewerThan, HasWorked, DeviceFailed};
ghost use Rattle.pesp_stream.specs.Writing.{AppendsFront};
ghost use Rattle.pesp_check.specs.Verdicts.{verdict_line, verdict_status};

use crate::fault::VerdictFault;
use pesp_stream::{Bytes, Sink, print_to};
use pesp_truth::Answer;
use pesp_whole_check::{Refusal, Verdict};
use std::alloc::Global;
use std::fmt;

/// An answer's words.
#[derive(Drop)]
struct AnswerText(Answer);

impl fmt::Display for AnswerText {
    ghost use Rattle.std.specs.Prelude.{Some};
    ghost use Rattle.pesp_check.specs.Verdicts.{answer_text};

    ghost output = { λ text. Some (answer_text text.0) };

    fn fmt<W: fmt::Write>(&self, f: &mut fmt::Formatter<W>) -> fmt::Result {
        match self.0 {
            Answer::Optimal(cost) => write!(f, "optimal {cost}"),
            Answer::Infeasible => f.write_str("infeasible"),
            Answer::Bounded { least, cost: None } => write!(f, "open {least} none"),
            Answer::Bounded {
                least,
                cost: Some(cost),
            } => write!(f, "open {least} {cost}"),
        }
    }
}

/// A refusal's number, name and place, as `7 LeafBelow line 9`.
#[derive(Drop)]
pub struct RefusalText(pub Refusal);

impl fmt::Display for RefusalText {
    ghost use Rattle.std.specs.Prelude.{Some};
    ghost use Rattle.pesp_check.specs.Verdicts.{refusal_text};

    ghost output = { λ text. Some (refusal_text text.0) };

    fn fmt<W: fmt::Write>(&self, f: &mut fmt::Formatter<W>) -> fmt::Result {
        match self.0 {
            Refusal::OtherPeriod => f.write_str("1 OtherPeriod"),
            Refusal::Times => f.write_str("2 Times"),
            Refusal::Violates { row } => write!(f, "3 Violates row {row}"),
            Refusal::WrongCost => f.write_str("4 WrongCost"),
            Refusal::OpenWalk { cycle } => write!(f, "5 OpenWalk cycle {cycle}"),
            Refusal::NoSuch { line } => write!(f, "6 NoSuch line {line}"),
            Refusal::LeafBelow { line } => write!(f, "7 LeafBelow line {line}"),
            Refusal::NotEmpty { line } => write!(f, "8 NotEmpty line {line}"),
            Refusal::NotAGap { line } => write!(f, "9 NotAGap line {line}"),
            Refusal::BoundInInfeasible { line } => write!(f, "10 BoundInInfeasible line {line}"),
            Refusal::AnswerShape => f.write_str("11 AnswerShape"),
            Refusal::NotPropagated { line } => write!(f, "12 NotPropagated line {line}"),
        }
    }
}

/// The line of a verdict, without its line feed.
#[derive(Drop)]
struct VerdictText {
    answer: Answer,
    verdict: Verdict,
}

impl fmt::Display for VerdictText {
    ghost use Rattle.std.specs.Prelude.{Some};
    ghost use Rattle.pesp_check.specs.Verdicts.{verdict_text};

    ghost output = { λ text. Some (verdict_text text.answer text.verdict) };

    fn fmt<W: fmt::Write>(&self, f: &mut fmt::Formatter<W>) -> fmt::Result {
        match self.verdict {
            Verdict::Accepted => {
                let answer = AnswerText(self.answer);
                write!(f, "accepted {answer}")
            }
            Verdict::Refused(refusal) => {
                let refusal = RefusalText(refusal);
                write!(f, "refused {refusal}")
            }
        }
    }
}

/// Writes the line of a verdict on a certificate with this answer. `Memory` where the line found no room, and nothing is
/// written then; `Write` where the writer failed, behind a front of the line.
pub fn write_verdict<W: Sink>(
    alloc: Global,
    writer: &mut W,
    answer: Answer,
    verdict: Verdict,
) -> Result<(), VerdictFault>
    requires fits { FewerThan (2 ^ 63) (W.calls writer.old) }
    ensures line { OnOk result
        (Appends (W.contents writer.old) (W.contents writer.new) (verdict_line answer verdict)) }
    ensures counts { OnOk result (HasWorked (W.calls writer.old) (W.calls writer.new)) }
    ensures fault { IfErr result (λ fault. ((fault ≡ VerdictFault.Memory) × (writer.new ≡ writer.old))
        ⊎ ((fault ≡ VerdictFault.Write) × DeviceFailed (W.calls writer.old) (W.calls writer.new)
        × AppendsFront (W.contents writer.old) (W.contents writer.new)
        (verdict_line answer verdict))) }
{
    let line = VerdictText { answer, verdict };
    let text = format!(in alloc; "{line}\n")?;
    print_to(writer, &Bytes(text.as_bytes()))?;
    Ok(())
}

/// The exit status of the program for a verdict: 0 for a yes, 1 for a no.
pub fn status_of_verdict(verdict: Verdict) -> u8
    ensures { result ≡ verdict_status verdict }
{
    match verdict {
        Verdict::Accepted => 0,
        Verdict::Refused(_) => 1,
    }
}
