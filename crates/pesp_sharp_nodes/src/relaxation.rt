//! The linear program of a node.

use crate::branch::OffsetBound;
use crate::limit::{Limit, cost_shown};
use crate::pool::Pool;
use crate::setting::Setting;
use pesp_dual::{Multiplier, Program};
use std::alloc::{AllocError, Global};

/// How many steps a call of the program has at a node.
const STEPS: u32 = 75;

/// How many such calls there are at most.
const CALLS: u32 = 10;

/// How many steps a call has where all offsets look whole.
const MORE_STEPS: u32 = 200;

/// How many such calls there are at most.
const MORE_CALLS: u32 = 20;

/// How near the cost of the slacks comes to the value there, in 1/2^20.
const SOLVED: i128 = 1 << 14;

/// By how much slacks may miss what an inequality asks for and still count as satisfying it, in 1/65536.
const MISSED: i64 = 1 << 8;

/// What an inequality is: one of the pool, by its number, or a bound on an offset.
#[derive(Clone, Copy)]
pub enum Origin {
    Pooled(u32),
    Offset(OffsetBound),
}

/// An inequality of a program: what it is, and for how many rounds in a row nothing came of it.
#[derive(Clone, Copy)]
pub struct ProgramMember {
    pub origin: Origin,
    pub idle: u32,
}

/// A program, and what its inequalities are, in order.
#[derive(Drop)]
pub struct NodeProgram {
    pub program: Program,
    pub members: Vec<ProgramMember>,
}

/// A multiplier that isn't sought yet.
pub const NO_MULTIPLIER: Multiplier = Multiplier {
    current: 0,
    best: 0,
};

/// A program where it was filled; else it goes.
pub(crate) fn filled(
    relaxation: NodeProgram,
    outcome: Result<(), AllocError>,
) -> Result<NodeProgram, AllocError> {
    match outcome {
        Ok(()) => Ok(relaxation),
        Err(error) => {
            drop(relaxation);
            Err(error)
        }
    }
}

impl NodeProgram {
    /// The program without an inequality.
    pub fn new(alloc: Global, setting: &Setting) -> Result<NodeProgram, AllocError> {
        Ok(NodeProgram {
            program: Program::new(alloc, setting.frame.rows(), setting.scale)?,
            members: Vec::new(alloc),
        })
    }

    /// Whether an inequality of the pool is in it.
    pub(crate) fn has_pooled(&self) -> bool {
        self.members
            .iter()
            .any(|member| matches!(member.origin, Origin::Pooled(_)))
    }

    /// Whether a bound on an offset is in it.
    pub(crate) fn has_offset(&self) -> bool {
        self.members
            .iter()
            .any(|member| matches!(member.origin, Origin::Offset(_)))
    }

    /// Takes in an inequality of the pool.
    pub(crate) fn add_pooled(
        &mut self,
        pool: &Pool,
        number: u32,
        multiplier: Multiplier,
    ) -> Result<(), AllocError> {
        self.program
            .add(pool.terms(number), pool.least(number), multiplier)?;
        self.members.push(ProgramMember {
            origin: Origin::Pooled(number),
            idle: 0,
        })?;
        Ok(())
    }

    /// Takes in a bound on an offset.
    pub fn add_offset(
        &mut self,
        alloc: Global,
        setting: &Setting,
        branch: OffsetBound,
        multiplier: Multiplier,
    ) -> Result<(), AllocError> {
        let Some(cycle) = setting.cycle(branch.cycle) else {
            return Ok(());
        };
        let terms = cycle.terms(alloc, branch.side)?;
        let least = cycle.least(setting.period(), branch);
        self.program.add(&terms, least, multiplier)?;
        self.members.push(ProgramMember {
            origin: Origin::Offset(branch),
            idle: 0,
        })?;
        Ok(())
    }

    /// Takes in an inequality.
    pub(crate) fn add(
        &mut self,
        alloc: Global,
        setting: &Setting,
        pool: &Pool,
        origin: Origin,
        multiplier: Multiplier,
    ) -> Result<(), AllocError> {
        match origin {
            Origin::Pooled(number) => self.add_pooled(pool, number, multiplier),
            Origin::Offset(branch) => self.add_offset(alloc, setting, branch, multiplier),
        }
    }

    /// Takes out the last inequality.
    pub fn pop(&mut self) {
        self.program.pop();
        self.members.pop();
    }

    /// The whole cost that the best multipliers show, rounded as they are told.
    pub fn bound(&mut self) -> u64 {
        cost_shown(self.program.rounded_value(), self.program.scale())
    }

    /// What the slacks cost above a value, or below it, in 1/2^20.
    fn gap(&self, value: i128) -> i128 {
        let cost = self.program.cost().wrapping_mul(16);
        cost.wrapping_sub(value).wrapping_abs()
    }

    /// Whether the slacks satisfy all inequalities, but for little.
    fn is_satisfied(&self) -> bool {
        (0..self.members.len()).all(|place| self.program.excess(place) >= -MISSED)
    }

    /// Whether little is to be gained by more steps, measured by what is left to the limit. A value of 0 grows only where the
    /// slacks miss something.
    fn is_near(&self, value: i128, limit: Limit) -> bool {
        if value <= 0 && self.program.cost() == 0 {
            return self.is_satisfied();
        }
        let left = limit.value.wrapping_sub(value).min(value >> 4);
        self.gap(value).wrapping_mul(40) < left
    }

    /// Whether steps are at an end that came to a value: the limit is reached, also by the rounded multipliers, or little is
    /// to be gained.
    fn is_done(&mut self, value: i128, limit: Limit, is_solved_out: bool) -> bool {
        if value >= limit.value {
            self.bound() >= limit.cost
        } else if is_solved_out {
            self.gap(value) < SOLVED
        } else {
            self.is_near(value, limit)
        }
    }

    /// Takes steps until little is to be gained, or the limit is reached.
    pub(crate) fn settle(&mut self, limit: Limit) {
        for _ in 0..CALLS {
            let value = self.program.run(STEPS, limit.value);
            if self.is_done(value, limit, false) {
                return;
            }
        }
    }

    /// Sets the weight of the two sides.
    fn set_balance(&mut self, alloc: Global, balance: i64) -> Result<(), AllocError> {
        let mut point = self.program.point(alloc)?;
        point.balance = balance;
        self.program.set_point(&point);
        Ok(())
    }

    /// Takes steps until the slacks cost what is shown but for 1/64, or the limit is reached. Each call begins with this balance
    /// of the two sides: near the best multipliers steps are too short to measure it by, and it runs away.
    pub(crate) fn solve_out(
        &mut self,
        alloc: Global,
        balance: i64,
        limit: Limit,
    ) -> Result<(), AllocError> {
        for _ in 0..MORE_CALLS {
            self.set_balance(alloc, balance)?;
            let value = self.program.run(MORE_STEPS, limit.value);
            if self.is_done(value, limit, true) {
                return Ok(());
            }
        }
        Ok(())
    }
}
