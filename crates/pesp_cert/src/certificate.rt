//! The certificate as one value.

ghost use Rattle.std.specs.Prelude.{◌≡◌, true, None, IfOk, OnErr};
ghost use Rattle.pesp_truth.specs.Certificates.{Content};
ghost use Rattle.pesp_cert.specs.Limits.{keeps_limits, ContentKeepsLimits};
ghost use Rattle.pesp_cert.specs.Texts.{HasText};

use crate::draft::Draft;
use crate::limits::keep_limits;
use pesp_problem::Walk;
use pesp_truth::{Answer, TreeLine};
use std::marker::Model;

/// An answer for an instance, with what shows that it is true: the times of the events with their labels, in the
/// instance's unit, a table of closed walks, and a tree in preorder. Every certificate has one text.
#[derive(Drop)]
pub struct Certificate {
    version: u32,
    period: u32,
    answer: Answer,
    times: Vec<(i64, u32)>,
    cycles: Vec<Walk>,
    tree: Vec<TreeLine>,
}

impl Model for Certificate {
    ghost use Rattle.std.specs.Prelude.{◌≡◌, true};
    ghost use Rattle.pesp_truth.specs.Certificates.{Content};
    ghost use Rattle.pesp_cert.specs.Limits.{keeps_limits};

    ghost Value = { Content };

    ghost view = { λ c. record {
      version = c.version;
      period = c.period;
      answer = c.answer;
      times = c.times.items;
      cycles = c.cycles.items;
      tree = c.tree.items;
    } };

    ghost invariant = { λ c. keeps_limits (record {
      version = c.version;
      period = c.period;
      answer = c.answer;
      times = c.times.items;
      cycles = c.cycles.items;
      tree = c.tree.items;
    })
        ≡ true };
}

/// The parts are no certificate's: the version is another than 1 and 2, a leaf is closed by propagation in version 1, a limit
/// is broken, a walk is empty, a pair list does not rise or has a multiplier 0, or the lines are not one whole tree.
#[derive(Clone, Copy, PartialEq, Eq)]
pub struct NotACertificate;

impl Certificate {
    /// The certificate of these parts, where they have a text. It takes no memory.
    pub fn new(
        version: u32,
        period: u32,
        answer: Answer,
        times: Vec<(i64, u32)>,
        cycles: Vec<Walk>,
        tree: Vec<TreeLine>,
    ) -> Result<Certificate, NotACertificate>
        // It holds the parts.
        ensures parts { IfOk result (λ c. c ≡ record {
          version = version;
          period = period;
          answer = answer;
          times = times.items;
          cycles
              = cycles.items;
          tree = tree.items;
        }) }
        ensures text { IfOk result (HasText None) }
        // It is refused only where the parts have no text.
        ensures refused { OnErr result (¬ HasText None
            (record {
              version = version;
              period = period;
              answer = answer;
              times = times.items;
              cycles = cycles.items;
              tree = tree.items;
            })) }
    {
        if keep_limits(version, period, answer, &times, &cycles, &tree) {
            Ok(Certificate {
                version,
                period,
                answer,
                times,
                cycles,
                tree,
            })
        } else {
            Err(NotACertificate)
        }
    }

    /// The certificate of what a whole text said.
    pub(crate) fn from_draft(draft: Draft) -> Certificate
        requires { keeps_limits draft ≡ true }
        ensures { result ≡ draft }
    {
        let Draft {
            version,
            period,
            answer,
            times,
            cycles,
            tree,
        } = draft;
        Certificate {
            version,
            period,
            answer,
            times,
            cycles,
            tree,
        }
    }

    /// The version of its text, 1 or 2.
    pub fn version(&self) -> u32
        ensures value { result ≡ self.now.version }
        ensures limits { ContentKeepsLimits self.now }
    {
        self.version
    }

    /// The period of the instance.
    pub fn period(&self) -> u32
        ensures value { result ≡ self.now.period }
        ensures limits { ContentKeepsLimits self.now }
    {
        self.period
    }

    /// What is said of the instance.
    pub fn answer(&self) -> Answer
        ensures value { result ≡ self.now.answer }
        ensures limits { ContentKeepsLimits self.now }
    {
        self.answer
    }

    /// The labels of the events with their times; none where the answer has no timetable.
    pub fn times(&self) -> &[(i64, u32)]
        ensures value { result.now ≡ self.now.times }
        ensures limits { ContentKeepsLimits self.now }
    {
        &self.times
    }

    /// The table of cycles, which are numbered from 1.
    pub fn cycles(&self) -> &[Walk]
        ensures value { result.now ≡ self.now.cycles }
        ensures limits { ContentKeepsLimits self.now }
    {
        &self.cycles
    }

    /// The lines of the tree in preorder.
    pub fn tree(&self) -> &[TreeLine]
        ensures value { result.now ≡ self.now.tree }
        ensures limits { ContentKeepsLimits self.now }
    {
        &self.tree
    }
}
