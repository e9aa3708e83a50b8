//! A stage whose lean code is made, and what it asks of the plan and of its tables.

ghost use Rattle.std.specs.Prelude.{◌≡◌, ◌==◌, ◌++◌, length, nat_le, OnOk};
ghost use Rattle.dp_plan.specs.Stage.{stage_of};
ghost use Rattle.dp_semantics.specs.Project.{assumed_in};
ghost use Rattle.dp_lean.specs.Needed as needed;
ghost use Rattle.dp_lean_code.specs.LeanCode as code;
ghost use Rattle.dp_lean_code.specs.steps.Looked.{known_of};
ghost use Rattle.dp_lean_code.specs.steps.Walked as spec;

use crate::value::value;
use crate::{LeanOp, LeanTables};
use dp_base::{NoMemory, Row, SiteId, VarId};
use dp_code::Op;
use dp_plan::Plan;
use dp_tree::{Expr, Program};
use std::alloc::Global;

/// A stage whose code is made, with what it is made of.
#[derive(Clone, Copy)]
pub struct LeanStage<'a> {
    pub alloc: Global,
    pub program: &'a Program,
    pub plan: &'a Plan,
    pub tables: &'a LeanTables,
    /// From 1; the one after the plan's last stage stands for the judge.
    pub number: u32,
}

impl<'a> LeanStage<'a> {
    /// The site is the stage's own.
    pub fn owns(self, site: SiteId) -> bool
        ensures { result ≡ (stage_of self.entry.program.now self.entry.plan.now site.0 == self.entry.number) }
    {
        self.plan.stage(self.program, site) == self.number
    }

    /// The site is of this stage or an earlier one.
    pub fn reaches(self, site: SiteId) -> bool
        ensures { result ≡ nat_le (stage_of self.entry.program.now self.entry.plan.now site.0) self.entry.number }
    {
        self.plan.stage(self.program, site) <= self.number
    }

    pub fn is_judge(self) -> bool
        ensures { result ≡ needed.is_judge self.entry.program.now self.entry.plan.now self.entry.number }
    {
        self.plan.stages.len() < self.number as usize
    }

    /// The outcome that the plan assumes at an `if`.
    pub fn assumed(self, site: SiteId) -> Option<bool>
        ensures { result ≡ assumed_in self.entry.plan.now.assume site.0 }
    {
        for assumed in self.plan.assume.as_slice() {
            if assumed.site.0 == site.0 {
                return Some(assumed.taken);
            }
        }
        None
    }

    /// The site itself asks that its statement is kept.
    pub fn keeps(self, site: SiteId) -> bool
        ensures { result ≡ spec.keeps self.entry.program.now self.entry.plan.now self.entry.number
            (known_of self.entry.program.now self.entry.plan.now self.entry.tables.now self.entry.number) site }
    {
        self.owns(site)
            || site.0 == self.plan.first_site(self.program)
            || (self.is_judge() && self.plan.checked(self.program, site))
    }

    /// A store to the variable is done.
    pub fn does(self, var: VarId) -> bool
        ensures { result ≡ (known_of self.entry.program.now self.entry.plan.now self.entry.tables.now self.entry.number).done var.0 }
    {
        match self.tables.done_to(self.number, var) {
            Some(done) => done,
            None => self.is_judge(),
        }
    }

    /// The number of the statements of the block that begins at the site, or 0.
    pub fn count(self, site: SiteId) -> u32
        ensures { result ≡ (known_of self.entry.program.now self.entry.plan.now self.entry.tables.now self.entry.number).count site.0 }
    {
        let first = self.plan.first_site(self.program);
        if first <= site.0 {
            self.tables.block_at((site.0 - first) as usize)
        } else {
            0
        }
    }

    /// A condition's op.
    pub fn branch(self, site: SiteId, zero: u32) -> LeanOp
        ensures { result ≡ code.branch self.entry.program.now self.entry.plan.now self.entry.number site zero }
    {
        if self.owns(site) {
            LeanOp::Plain(Op::Branch { site, zero })
        } else {
            LeanOp::Plain(Op::ConsumeBranch { site, zero })
        }
    }

    /// An early exit's op.
    pub fn leave(self, site: SiteId, zero: u32) -> LeanOp
        ensures { result ≡ code.exit self.entry.program.now self.entry.plan.now self.entry.number site zero }
    {
        if self.owns(site) {
            LeanOp::Exit { site, zero }
        } else {
            LeanOp::Plain(Op::ConsumeBranch { site, zero })
        }
    }

    /// Appends a condition's value, where the site is the stage's own.
    pub fn test(self, ops: &mut Row<LeanOp>, site: SiteId, cond: &Expr) -> Result<(), NoMemory>
        ensures { OnOk result (ops.new ≡ ops.old ++ code.test_code self.entry.program.now self.entry.plan.now self.entry.number site
            cond.now (length ops.old)) }
    {
        if self.owns(site) {
            value(self.alloc, self.program, ops, cond)?;
        }
        Ok(())
    }
}
