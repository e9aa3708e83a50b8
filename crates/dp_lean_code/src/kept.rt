//! A statement with no others inside appends its code where it is kept; and a block, whole or not at all.

ghost use Rattle.std.specs.Prelude.{◌≡◌, ◌&&◌, ◌||◌, ◌++◌, length, nat_le, take, OnOk};
ghost use Rattle.dp_plan.specs.Stage.{stage_of};
ghost use Rattle.dp_lean.specs.Needed as needed;
ghost use Rattle.dp_lean_code.specs.steps.Looked.{known_of};
ghost use Rattle.dp_lean_code.specs.steps.Walked as spec;

use crate::LeanOp;
use crate::stage::LeanStage;
use dp_base::{NoMemory, Row, SiteId, VarId};
use dp_tree::{Expr, Stmt};

/// The first so many statements, or all of them.
pub fn front(all: &[Stmt], count: usize) -> &[Stmt]
    ensures { result.now ≡ take count all.now }
{
    if count < all.len() {
        &all[..count]
    } else {
        all
    }
}

impl<'a> LeanStage<'a> {
    /// The statement is reached, and kept because of its site or for another reason.
    fn stays(self, site: SiteId, also: bool) -> bool
        ensures { result ≡ (spec.reaches self.entry.program.now self.entry.plan.now self.entry.number
            (known_of self.entry.program.now self.entry.plan.now self.entry.tables.now self.entry.number) site
            && (spec.keeps self.entry.program.now self.entry.plan.now self.entry.number
            (known_of self.entry.program.now self.entry.plan.now self.entry.tables.now self.entry.number) site || also)) }
    {
        self.reaches(site) && (self.keeps(site) || also)
    }

    pub fn kept_assignment(
        self,
        ops: &mut Row<LeanOp>,
        site: SiteId,
        var: VarId,
        e: &Expr,
    ) -> Result<(), NoMemory>
        ensures { OnOk result (ops.new ≡ ops.old ++ spec.where_kept self.entry.program.now self.entry.plan.now self.entry.number
            (known_of self.entry.program.now self.entry.plan.now self.entry.tables.now self.entry.number) site
            ((known_of self.entry.program.now self.entry.plan.now self.entry.tables.now self.entry.number).done var.0)
            (spec.assign_code self.entry.program.now self.entry.plan.now self.entry.number site var e.now (length ops.old))) }
    {
        if self.stays(site, self.does(var)) {
            self.assignment(ops, site, var, e)?;
        }
        Ok(())
    }

    pub fn kept_store(
        self,
        ops: &mut Row<LeanOp>,
        site: SiteId,
        array: VarId,
        index: &Expr,
        e: &Expr,
    ) -> Result<(), NoMemory>
        ensures { OnOk result (ops.new ≡ ops.old ++ spec.where_kept self.entry.program.now self.entry.plan.now self.entry.number
            (known_of self.entry.program.now self.entry.plan.now self.entry.tables.now self.entry.number) site
            ((known_of self.entry.program.now self.entry.plan.now self.entry.tables.now self.entry.number).done array.0)
            (spec.store_code self.entry.program.now self.entry.plan.now self.entry.number site array index.now e.now (length ops.old))) }
    {
        if self.stays(site, self.does(array)) {
            self.store(ops, site, array, index, e)?;
        }
        Ok(())
    }

    pub fn kept_print(self, ops: &mut Row<LeanOp>, site: SiteId, e: &Expr) -> Result<(), NoMemory>
        ensures { OnOk result (ops.new ≡ ops.old ++ spec.where_kept self.entry.program.now self.entry.plan.now self.entry.number
            (known_of self.entry.program.now self.entry.plan.now self.entry.tables.now self.entry.number) site
            (needed.is_judge self.entry.program.now self.entry.plan.now self.entry.number) (spec.print_code self.entry.program.now self.entry.plan.now
            self.entry.number site e.now (length ops.old))) }
    {
        if self.stays(site, self.is_judge()) {
            self.print(ops, site, e)?;
        }
        Ok(())
    }

    pub fn kept_exit(self, ops: &mut Row<LeanOp>, site: SiteId, cond: &Expr) -> Result<(), NoMemory>
        ensures { OnOk result (ops.new ≡ ops.old ++ spec.reached_exit self.entry.program.now self.entry.plan.now self.entry.number
            (known_of self.entry.program.now self.entry.plan.now self.entry.tables.now self.entry.number) site cond.now (length ops.old)) }
    {
        if self.reaches(site) {
            self.exit(ops, site, cond)?;
        }
        Ok(())
    }

    /// A store in the statement is done.
    #[tactic(auto, using(crate::proofs::StoredForms::stored_forms))]
    #[cycle(stored)]
    fn does_in(self, statement: &Stmt) -> bool
        ensures { result ≡ spec.stored_in self.entry.program.now self.entry.plan.now self.entry.number
            (known_of self.entry.program.now self.entry.plan.now self.entry.tables.now self.entry.number) statement.now }
    {
        match statement {
            Stmt::Assign { var, .. } => self.does(*var),
            Stmt::Store { var, .. } => self.does(*var),
            Stmt::If {
                then_part,
                else_part,
                ..
            } => self.does_inside(then_part.as_slice()) || self.does_inside(else_part.as_slice()),
            Stmt::While { body, .. } => self.does_inside(body.as_slice()),
            Stmt::Region { body, .. } => self.does_inside(body.as_slice()),
            Stmt::Print { .. } => false,
            Stmt::Break { .. } => false,
            Stmt::Call { .. } => false,
        }
    }

    /// A store in one of the statements is done.
    #[tactic(auto, using(crate::proofs::StoredForms::stored_steps))]
    #[cycle(stored)]
    pub fn does_inside(self, all: &[Stmt]) -> bool
        ensures { result ≡ spec.stored_inside self.entry.program.now self.entry.plan.now self.entry.number
            (known_of self.entry.program.now self.entry.plan.now self.entry.tables.now self.entry.number) all.now }
    {
        for statement in all {
            if self.does_in(statement) {
                return true;
            }
        }
        false
    }

    /// Appends the code of the block of so many statements that stands at the front.
    pub fn block(
        self,
        ops: &mut Row<LeanOp>,
        site: SiteId,
        all: &[Stmt],
        count: u32,
    ) -> Result<(), NoMemory>
        ensures { OnOk result (ops.new ≡ ops.old ++ spec.block_part self.entry.program.now self.entry.plan.now self.entry.number
            (known_of self.entry.program.now self.entry.plan.now self.entry.tables.now self.entry.number) site (take count all.now) (length ops.old)) }
    {
        if !self.reaches(site) {
            return Ok(());
        }
        let block = front(all, count as usize);
        if self.owns(site) {
            ops.push(LeanOp::Begin { site })?;
            self.silent(ops, block)?;
            ops.push(LeanOp::Finish)?;
        } else if self.does_inside(block) {
            ops.push(LeanOp::Meet { site })?;
        }
        Ok(())
    }
}
