//! The programs of nodes, and the inequalities that are found for them.

use crate::branch::OffsetBound;
use crate::limit::Limit;
use crate::node::ProgramNode;
use crate::pool::Pool;
use crate::relaxation::{NO_MULTIPLIER, NodeProgram, Origin, filled};
use crate::setting::Setting;
use pesp_dual::{Multiplier, Program};
use pesp_inequalities::{Inequality, Pass, Seen, Separator};
use pesp_network::Network;
use std::alloc::{AllocError, Global};

/// How many rounds of separation a part of a leaf has at most.
const ROUNDS: u32 = 2;

/// How many inequalities of a walk each round takes in at most.
const EACH: usize = 1;

/// How many inequalities each round takes in at most.
const MOST: usize = 50;

/// A multiplier that is told by a scale.
fn multiplier_of(told: i64, scale: u32) -> Multiplier {
    let unit = i128::from(scale).max(1);
    let scaled = (i128::from(told) << 20).saturating_add(unit >> 1);
    let best = i64::try_from(scaled / unit).unwrap_or(0);
    Multiplier {
        current: best,
        best,
    }
}

/// What programs of nodes are made from: a network with its cycles, the inequalities that were found, and the search for
/// more of them.
#[derive(Drop)]
pub struct NodeSharpener {
    pub alloc: Global,
    pub setting: Setting,
    pub pool: Pool,
    separator: Separator,
}

impl NodeSharpener {
    /// No inequality is found yet; the seed decides which forests are drawn, multipliers are told by the scale, and weights are
    /// in units of which so many make up one.
    pub fn new(
        alloc: Global,
        network: &Network,
        seed: u64,
        scale: u32,
        unit: u32,
    ) -> Result<NodeSharpener, AllocError> {
        let setting = Setting::new(alloc, network, scale, unit)?;
        match Separator::new(alloc, &setting.frame, seed) {
            Ok(separator) => Ok(NodeSharpener {
                alloc,
                setting,
                pool: Pool::new(alloc),
                separator,
            }),
            Err(refused) => {
                drop(setting);
                Err(refused)
            }
        }
    }

    /// Takes in inequalities that the slacks violate; whether there are any.
    pub(crate) fn separate(
        &mut self,
        relaxation: &mut NodeProgram,
        seen: &mut Seen,
        is_wide: bool,
        each: usize,
        most: usize,
    ) -> Result<bool, AllocError> {
        let slacks = relaxation.program.slacks();
        let frame = &self.setting.frame;
        let found = self
            .separator
            .look(frame, slacks, is_wide, each, most, seen)?;
        let is_new = !found.is_empty();
        for inequality in found {
            let number = self.pool.put(self.alloc, inequality)?;
            relaxation.add_pooled(&self.pool, number, NO_MULTIPLIER)?;
        }
        Ok(is_new)
    }

    /// The most violated new inequalities at slacks in 1/65536, one of a walk, by their numbers in the pool. New is one whose key
    /// isn't in `seen`, into which it is put.
    pub fn find(
        &mut self,
        slacks: &[i64],
        most: usize,
        seen: &mut Seen,
    ) -> Result<Vec<u32>, AllocError> {
        let frame = &self.setting.frame;
        let found = self.separator.look(frame, slacks, false, EACH, most, seen)?;
        let mut numbers = Vec::new(self.alloc);
        for inequality in found {
            numbers.push(self.pool.put(self.alloc, inequality)?)?;
        }
        Ok(numbers)
    }

    /// The keys of a program's inequalities.
    pub(crate) fn seen_in(&self, relaxation: &NodeProgram) -> Result<Seen, AllocError> {
        let mut seen = Seen::new(self.alloc);
        for member in &relaxation.members {
            if let Origin::Pooled(number) = member.origin
                && let Some(key) = self.pool.key(number)
            {
                seen.insert(key)?;
            }
        }
        Ok(seen)
    }

    /// A few rounds of separation, until the limit is reached.
    fn sharpen(&mut self, relaxation: &mut NodeProgram, limit: Limit) -> Result<(), AllocError> {
        let mut seen = self.seen_in(relaxation)?;
        for _ in 0..ROUNDS {
            if relaxation.bound() >= limit.cost {
                return Ok(());
            }
            if !self.separate(relaxation, &mut seen, false, EACH, MOST)? {
                return Ok(());
            }
            relaxation.settle(limit);
        }
        Ok(())
    }

    /// The program of a node.
    pub fn loaded(&self, node: &ProgramNode) -> Result<NodeProgram, AllocError> {
        node.loaded(self.alloc, &self.setting, &self.pool)
    }

    /// Takes in the inequality of a closed walk, which is kept until it is let go; its number in the pool, None where it says
    /// nothing.
    pub fn take_walk(&mut self, passes: Vec<Pass>) -> Result<Option<u32>, AllocError> {
        match Inequality::of(self.alloc, &self.setting.frame, passes)? {
            Some(inequality) => {
                let number = self.pool.put(self.alloc, inequality)?;
                self.pool.keep(number);
                Ok(Some(number))
            }
            None => Ok(None),
        }
    }

    /// Lets inequalities go that were taken in.
    pub fn let_go(&mut self, numbers: &[Option<u32>]) -> Result<(), AllocError> {
        for number in numbers {
            if let Some(number) = *number {
                self.pool.leave(number);
                self.pool.sweep(self.alloc, number)?;
            }
        }
        Ok(())
    }

    /// The program of a leaf that is told: of bounds on offsets, and of inequalities of the pool, with their multipliers.
    pub fn told(
        &self,
        offsets: &[(OffsetBound, i64)],
        walks: &[(u32, i64)],
    ) -> Result<NodeProgram, AllocError> {
        let mut relaxation = NodeProgram::new(self.alloc, &self.setting)?;
        let outcome = self.tell(offsets, walks, &mut relaxation);
        filled(relaxation, outcome)
    }

    /// Puts bounds on offsets and inequalities into a program, with their multipliers.
    fn tell(
        &self,
        offsets: &[(OffsetBound, i64)],
        walks: &[(u32, i64)],
        relaxation: &mut NodeProgram,
    ) -> Result<(), AllocError> {
        let scale = self.setting.scale;
        for (branch, told) in offsets {
            let multiplier = multiplier_of(*told, scale);
            relaxation.add_offset(self.alloc, &self.setting, *branch, multiplier)?;
        }
        for (number, told) in walks {
            relaxation.add_pooled(&self.pool, *number, multiplier_of(*told, scale))?;
        }
        Ok(())
    }

    /// Takes some steps and rounds over a program: all rounds at the root.
    fn warm(&mut self, relaxation: &mut NodeProgram, limit: Limit) -> Result<(), AllocError> {
        if relaxation.has_offset() {
            relaxation.settle(limit);
            self.sharpen(relaxation, limit)
        } else {
            self.look_long(relaxation, limit)
        }
    }

    /// The program of a node whose slacks are still to be found, after some steps and rounds: all rounds at the root.
    pub fn warmed(&mut self, node: &ProgramNode, limit: Limit) -> Result<NodeProgram, AllocError> {
        let mut relaxation = self.loaded(node)?;
        let outcome = self.warm(&mut relaxation, limit);
        filled(relaxation, outcome)
    }

    /// The program of a part of a node, after some steps and rounds.
    pub fn part(
        &mut self,
        node: &ProgramNode,
        branch: OffsetBound,
        limit: Limit,
    ) -> Result<NodeProgram, AllocError> {
        let mut relaxation = node.part(self.alloc, &self.setting, &self.pool, branch)?;
        relaxation.settle(limit);
        let outcome = self.sharpen(&mut relaxation, limit);
        filled(relaxation, outcome)
    }

    /// The balance of the two sides that programs begin with.
    fn first_balance(&self) -> Result<i64, AllocError> {
        let rows = self.setting.frame.rows();
        let program = Program::new(self.alloc, rows, self.setting.scale)?;
        let point = program.point(self.alloc);
        drop(program);
        Ok(point?.balance)
    }

    /// Takes steps over a program until little is left to be gained, or the limit is reached.
    pub fn solve_out(&self, relaxation: &mut NodeProgram, limit: Limit) -> Result<(), AllocError> {
        let balance = self.first_balance()?;
        relaxation.solve_out(self.alloc, balance, limit)
    }

    /// The inequalities of a program that nothing keeps go.
    pub fn sweep(&mut self, relaxation: &NodeProgram) -> Result<(), AllocError> {
        for member in &relaxation.members {
            if let Origin::Pooled(number) = member.origin {
                self.pool.sweep(self.alloc, number)?;
            }
        }
        Ok(())
    }
}
