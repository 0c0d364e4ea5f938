//! The rounds at the root: inequalities are sought, and those of which nothing comes go.

use crate::limit::Limit;
use crate::relaxation::{NodeProgram, Origin, ProgramMember, filled};
use crate::sharpener::NodeSharpener;
use pesp_inequalities::Seen;
use std::alloc::{AllocError, Global};

/// How many rounds there are at most.
const ROUNDS: usize = 100;

/// How many there are at most for networks of many rows.
const LEAST_ROUNDS: usize = 20;

/// How many rounds there are in between, times the number of rows.
const ROUNDS_TIMES_ROWS: usize = 1_000_000;

/// How many rounds in a row that bring little are the last ones.
const QUIET_ROUNDS: u32 = 8;

/// How many coefficients are looked at before the last round, at most.
const MOST_WORK: u64 = 20_000_000_000;

/// How many steps end a round.
const STEPS: u32 = 50;

/// How many steps end the root.
const LAST_STEPS: u32 = 1000;

/// For how many rounds in a row nothing may come of an inequality.
const MOST_IDLE: u32 = 3;

/// A slack above what an inequality asks for, in 1/65536, from which on it is loose.
const LOOSE: i64 = 1 << 16;

/// How many rounds there are at most for so many rows.
fn rounds_for(rows: usize) -> usize {
    let rounds = ROUNDS_TIMES_ROWS / rows.max(1);
    rounds.min(ROUNDS).max(LEAST_ROUNDS)
}

/// Whether nothing comes of the inequality of the pool at a place.
fn is_idle(relaxation: &NodeProgram, place: usize, origin: Origin) -> bool {
    if let Origin::Offset(_) = origin {
        return false;
    }
    let multiplier = relaxation.program.multiplier(place);
    multiplier.current == 0 && multiplier.best == 0 && relaxation.program.excess(place) > LOOSE
}

/// Counts for how many rounds nothing came of each inequality.
fn count_idle(alloc: Global, relaxation: &mut NodeProgram) -> Result<Vec<bool>, AllocError> {
    let mut kept = Vec::with_capacity(alloc, relaxation.members.len())?;
    for place in 0..relaxation.members.len() {
        let Some(origin) = relaxation.members.get(place).map(|member| member.origin) else {
            return Ok(kept);
        };
        let is_idle = is_idle(relaxation, place, origin);
        if let Some(member) = relaxation.members.get_mut(place) {
            member.idle = if is_idle {
                member.idle.saturating_add(1)
            } else {
                0
            };
            kept.push(member.idle <= MOST_IDLE)?;
        }
    }
    Ok(kept)
}

/// The members that are marked.
fn marked(
    alloc: Global,
    members: &[ProgramMember],
    marks: &[bool],
) -> Result<Vec<ProgramMember>, AllocError> {
    let mut kept = Vec::with_capacity(alloc, members.len())?;
    for (member, is_marked) in members.iter().zip(marks.iter()) {
        if *is_marked {
            kept.push(*member)?;
        }
    }
    Ok(kept)
}

impl NodeSharpener {
    /// The inequalities that aren't marked may be found anew.
    fn forget(
        &mut self,
        members: &[ProgramMember],
        marks: &[bool],
        seen: &mut Seen,
    ) -> Result<(), AllocError> {
        for (member, is_marked) in members.iter().zip(marks.iter()) {
            if let Origin::Pooled(number) = member.origin
                && !*is_marked
            {
                if let Some(key) = self.pool.key(number) {
                    seen.remove(key);
                }
                self.pool.sweep(self.alloc, number)?;
            }
        }
        Ok(())
    }

    /// Drops inequalities of which nothing came for some rounds.
    fn drop_idle(
        &mut self,
        relaxation: &mut NodeProgram,
        seen: &mut Seen,
    ) -> Result<(), AllocError> {
        let marks = count_idle(self.alloc, relaxation)?;
        if marks.iter().all(|is_marked| *is_marked) {
            return Ok(());
        }
        self.forget(&relaxation.members, &marks, seen)?;
        relaxation.program.keep(&marks);
        relaxation.members = marked(self.alloc, &relaxation.members, &marks)?;
        Ok(())
    }

    /// The rounds, until little comes of them or the limit is reached.
    fn rounds(&mut self, relaxation: &mut NodeProgram, limit: Limit) -> Result<(), AllocError> {
        let mut seen = self.seen_in(relaxation)?;
        let rows = self.setting.frame.rows().len();
        let most = (rows / 2).max(50);
        let mut last = 0i128;
        let mut quiet = 0u32;
        for round in 0..rounds_for(rows) {
            let is_new = self.separate(relaxation, &mut seen, round % 5 == 0, 2, most)?;
            let value = relaxation.program.run(STEPS, limit.value);
            self.drop_idle(relaxation, &mut seen)?;
            let is_quiet = value.saturating_sub(last) < value / 5000;
            quiet = if is_quiet { quiet.saturating_add(1) } else { 0 };
            last = value;
            let is_long = relaxation.program.work() > MOST_WORK;
            if !is_new || quiet >= QUIET_ROUNDS || value >= limit.value || is_long {
                return Ok(());
            }
        }
        Ok(())
    }

    /// All rounds, and then some steps.
    pub(crate) fn look_long(
        &mut self,
        relaxation: &mut NodeProgram,
        limit: Limit,
    ) -> Result<(), AllocError> {
        self.rounds(relaxation, limit)?;
        relaxation.program.run(LAST_STEPS, limit.value);
        Ok(())
    }

    /// The program of the root after all rounds.
    pub fn root(&mut self, limit: Limit) -> Result<NodeProgram, AllocError> {
        let mut relaxation = NodeProgram::new(self.alloc, &self.setting)?;
        let outcome = self.look_long(&mut relaxation, limit);
        filled(relaxation, outcome)
    }
}
