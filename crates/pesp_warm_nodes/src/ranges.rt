//! The ranges of offsets at nodes.

use crate::basis::{LineName, NarrowedCycle, NodeBasis};
use crate::shared::{Shared, ends_of};
use pesp_sharp_nodes::{BoundSense, NodeSharpener, OffsetCut, Pool, Range, Setting};
use std::alloc::AllocError;

impl Shared {
    /// The offsets that are left to each cycle.
    pub fn ranges(&self) -> &[Range] {
        &self.ranges
    }

    /// Writes down which offsets are bounded.
    pub(crate) fn write_ranges(&self, basis: &mut NodeBasis) -> Result<(), AllocError> {
        for cycle in &self.narrowed {
            let is_there = basis.narrowed.iter().any(|it| it.cycle == *cycle);
            if let Some(range) = self.ranges.get(*cycle as usize).copied()
                && !is_there
            {
                basis.narrowed.push(NarrowedCycle {
                    cycle: *cycle,
                    range,
                })?;
            }
        }
        Ok(())
    }

    /// Sets the offsets that are left to a cycle, in the program too; the line, where it is there.
    fn set_offsets(
        &mut self,
        setting: &Setting,
        number: u32,
        range: Range,
    ) -> Result<Option<u32>, AllocError> {
        let line = self.add_offset(setting, number)?;
        if let Some(slot) = self.ranges.get_mut(number as usize) {
            *slot = range;
        }
        if let Some(line) = line
            && let Some(cycle) = setting.cycle(number)
        {
            let (least, most) = ends_of(cycle, number, setting.period(), range);
            self.simplex.set_range(line, least, most);
        }
        Ok(line)
    }

    /// All offsets are left that slacks leave.
    fn widen_all(&mut self, setting: &Setting) -> Result<(), AllocError> {
        for _ in 0..self.narrowed.len() {
            if let Some(number) = self.narrowed.pop()
                && let Some(cycle) = setting.cycle(number)
            {
                self.set_offsets(setting, number, cycle.range)?;
            }
        }
        Ok(())
    }

    /// Sets the ranges of a node.
    fn place(&mut self, setting: &Setting, basis: &NodeBasis) -> Result<(), AllocError> {
        self.widen_all(setting)?;
        for narrowed in &basis.narrowed {
            self.set_offsets(setting, narrowed.cycle, narrowed.range)?;
            self.narrowed.push(narrowed.cycle)?;
        }
        Ok(())
    }

    /// The line of a name.
    fn line_of(
        &mut self,
        setting: &Setting,
        pool: &mut Pool,
        name: LineName,
    ) -> Result<Option<u32>, AllocError> {
        match name {
            LineName::Pooled(number) => Ok(Some(self.add_pooled(pool, number)?)),
            LineName::Offset(number) => self.add_offset(setting, number),
        }
    }

    /// Reads a basis: inequalities that went come back.
    fn read(
        &mut self,
        setting: &Setting,
        pool: &mut Pool,
        basis: &NodeBasis,
    ) -> Result<(), AllocError> {
        self.basis.basic.clear();
        self.basis.basic.extend_from_slice(&basis.basic)?;
        self.basis.up.clear();
        self.basis.up.extend_from_slice(&basis.up)?;
        self.basis.tight.clear();
        for (name, is_up) in &basis.tight {
            if let Some(line) = self.line_of(setting, pool, *name)? {
                self.basis.tight.push((line, *is_up))?;
            }
        }
        Ok(())
    }

    /// Goes to a node.
    pub fn enter(
        &mut self,
        sharpener: &mut NodeSharpener,
        basis: &NodeBasis,
    ) -> Result<(), AllocError> {
        self.place(&sharpener.setting, basis)?;
        self.read(&sharpener.setting, &mut sharpener.pool, basis)?;
        self.simplex.take_names(&self.basis)
    }

    /// Goes to a node that has no names, with the basis as it stands.
    pub fn enter_here(&mut self, setting: &Setting, basis: &NodeBasis) -> Result<(), AllocError> {
        self.place(setting, basis)?;
        self.simplex.refresh()
    }

    /// Goes to the node at which it stood before.
    pub fn enter_carried(
        &mut self,
        setting: &Setting,
        basis: &NodeBasis,
    ) -> Result<(), AllocError> {
        self.place(setting, basis)?;
        self.simplex.load(&mut self.carried)
    }

    /// Goes to a part of a node; the range that its cycle had.
    pub fn enter_part(
        &mut self,
        setting: &Setting,
        cut: OffsetCut,
        side: BoundSense,
    ) -> Result<Option<Range>, AllocError> {
        let Some(old) = self.ranges.get(cut.cycle as usize).copied() else {
            return Ok(None);
        };
        let range = old.narrowed(cut.part(side));
        let line = self.set_offsets(setting, cut.cycle, range)?;
        self.narrowed.push(cut.cycle)?;
        if let Some(line) = line
            && self.simplex.is_tight(line)
        {
            self.simplex.refresh()?;
        }
        Ok(Some(old))
    }

    /// Goes back from a part to the node that was kept.
    pub fn leave_part(
        &mut self,
        setting: &Setting,
        cut: OffsetCut,
        old: Range,
    ) -> Result<(), AllocError> {
        self.narrowed.pop();
        self.set_offsets(setting, cut.cycle, old)?;
        self.simplex.load(&mut self.here)
    }

    /// Puts in the line of a cycle that is cut then.
    pub fn keep_line(&mut self, setting: &Setting, cycle: u32) -> Result<(), AllocError> {
        self.add_offset(setting, cycle)?;
        Ok(())
    }

    /// Keeps the node as it stands, to go back to it.
    pub fn keep_here(&mut self) -> Result<(), AllocError> {
        self.simplex.save(&mut self.here)
    }

    /// Keeps the part as it stands, since it is the next node.
    pub fn carry(&mut self) -> Result<(), AllocError> {
        self.simplex.hand_over(&self.here, &mut self.carried)
    }
}
