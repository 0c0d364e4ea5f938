//! A certificate in a line: its period, cost, bound and gap, branches and version.

ghost use Rattle.std.specs.Prelude.{◌≡◌};
ghost use Rattle.pesp_stream.specs.Printing.{Sending, Sends};
ghost use Rattle.pesp_tasks.specs.Gaps.{gap_words, gap_text, gap_line, gap_object, gap_json, text_version};

use crate::savings::gap;
use itoa::Buffer;
use pesp_cert::Fronted;
use pesp_stream::{Output, Printed};
use pesp_truth::Answer;

/// A number in plain digits.
#[derive(Clone, Copy)]
pub(crate) struct Number(pub(crate) u64);

impl Printed for Number {
    ghost use Rattle.std.specs.Prelude.{decimal};

    ghost text = { λ n. decimal n.0 };

    fn print<O: Output>(&self, out: &mut O) {
        let mut buffer = Buffer::new();
        out.put(buffer.format(self.0).as_bytes());
    }
}

/// Hundredths of a per cent, as per cent with two places.
#[derive(Clone, Copy)]
struct Percent(u64);

impl Printed for Percent {
    ghost use Rattle.pesp_tasks.specs.Gaps.{percent_text};

    ghost text = { λ n. percent_text n.0 };

    fn print<O: Output>(&self, out: &mut O) {
        let tenths = self.0 / 10 % 10;
        (
            Number(self.0 / 100),
            ".",
            Number(tenths),
            Number(self.0 % 10),
            " %",
        )
            .print(out);
    }
}

/// A cost, a bound and their gap.
fn print_gap<O: Output>(bound: u64, cost: u64, out: &mut O)
    ensures { Sends (O.sending out.old) (O.sending out.new) (gap_words bound cost) }
{
    (
        "cost ",
        Number(cost),
        ", bound ",
        Number(bound),
        ", gap ",
        Percent(gap(bound, cost)),
    )
        .print(out);
}

/// An answer in words: its cost, its bound, and what might still be saved in per cent of the cost, rounded up; `cost none` where no
/// timetable is known, and `no timetable` where there is none.
#[derive(Clone, Copy)]
struct AnswerWords(Answer);

impl Printed for AnswerWords {
    ghost use Rattle.pesp_tasks.specs.Gaps.{gap_answer_text};

    ghost text = { λ t. gap_answer_text t.0 };

    fn print<O: Output>(&self, out: &mut O) {
        match self.0 {
            Answer::Optimal(cost) => print_gap(cost, cost, out),
            Answer::Infeasible => out.put(b"no timetable"),
            Answer::Bounded { least, cost: None } => {
                ("cost none, bound ", Number(least)).print(out);
            }
            Answer::Bounded {
                least,
                cost: Some(cost),
            } => print_gap(least, cost, out),
        }
    }
}

/// What is told of a certificate: its period, its answer, how many branches its tree has, and the version of its text.
#[derive(Clone, Copy)]
pub(crate) struct ToldGap {
    pub(crate) period: u32,
    pub(crate) answer: Answer,
    pub(crate) branches: usize,
    pub(crate) version: u32,
}

impl ToldGap {
    /// What is told of a certificate.
    pub(crate) fn of(base: &Fronted) -> ToldGap
        ensures line { gap_text result.period result.answer result.branches result.version ≡ gap_line base.now }
        ensures json { gap_object result.period result.answer result.branches result.version ≡ gap_json base.now }
    {
        let certificate = &base.certificate;
        ToldGap {
            period: certificate.period(),
            answer: certificate.answer(),
            branches: certificate.tree().len() / 2,
            version: version_of(base),
        }
    }
}

/// The version of a certificate's text.
fn version_of(base: &Fronted) -> u32
    ensures { result ≡ text_version base.now.front base.now.content.version }
{
    match &base.front {
        None => base.certificate.version(),
        Some(_) => 3,
    }
}

/// A certificate in a line.
#[derive(Clone, Copy)]
pub(crate) struct GapText(pub(crate) ToldGap);

impl Printed for GapText {
    ghost use Rattle.pesp_tasks.specs.Gaps.{gap_text};

    ghost text = { λ t. gap_text t.0.period t.0.answer t.0.branches t.0.version };

    fn print<O: Output>(&self, out: &mut O) {
        let told = self.0;
        let (period, version) = (u64::from(told.period), u64::from(told.version));
        let answer = AnswerWords(told.answer);
        (
            ("period ", Number(period), ", ", answer),
            (
                ", branches ",
                Number(told.branches as u64),
                ", version ",
                Number(version),
                "\n",
            ),
        )
            .print(out);
    }
}
