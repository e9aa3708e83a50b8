//! What a statement with no others inside appends.

ghost use Rattle.std.specs.Prelude.{◌≡◌, ◌++◌, length, OnOk};
ghost use Rattle.dp_lean_code.specs.LeanCode as code;
ghost use Rattle.dp_lean_code.specs.steps.Walked as spec;

use crate::LeanOp;
use crate::stage::LeanStage;
use crate::value::{place, value};
use dp_base::{NoMemory, Row, SiteId, VarId};
use dp_code::{Op, first_of, length_of};
use dp_tree::Expr;

impl<'a> LeanStage<'a> {
    /// Appends what takes a store of an earlier stage to one of the variable's cells.
    fn consume(self, ops: &mut Row<LeanOp>, site: SiteId, var: VarId) -> Result<(), NoMemory>
        ensures { OnOk result (ops.new ≡ ops.old ++ code.consume self.entry.program.now self.entry.plan.now self.entry.number site var) }
    {
        let first = first_of(self.program, var);
        let length = length_of(self.program, var);
        ops.push(LeanOp::Plain(Op::Consume {
            site,
            first,
            length,
        }))
    }

    pub fn assignment(
        self,
        ops: &mut Row<LeanOp>,
        site: SiteId,
        var: VarId,
        e: &Expr,
    ) -> Result<(), NoMemory>
        ensures { OnOk result (ops.new ≡ ops.old ++ spec.assign_code self.entry.program.now self.entry.plan.now self.entry.number site var
            e.now (length ops.old)) }
    {
        if self.owns(site) {
            value(self.alloc, self.program, ops, e)?;
            let cell = first_of(self.program, var);
            ops.push(LeanOp::Plain(Op::Store { site, cell }))
        } else {
            self.consume(ops, site, var)
        }
    }

    pub fn store(
        self,
        ops: &mut Row<LeanOp>,
        site: SiteId,
        array: VarId,
        index: &Expr,
        e: &Expr,
    ) -> Result<(), NoMemory>
        ensures { OnOk result (ops.new ≡ ops.old ++ spec.store_code self.entry.program.now self.entry.plan.now self.entry.number site array index.now
            e.now (length ops.old)) }
    {
        if self.owns(site) {
            value(self.alloc, self.program, ops, index)?;
            value(self.alloc, self.program, ops, e)?;
            let first = first_of(self.program, array);
            let length = length_of(self.program, array);
            ops.push(LeanOp::Plain(Op::StoreAt {
                site,
                first,
                length,
            }))
        } else {
            self.consume(ops, site, array)
        }
    }

    pub fn print(self, ops: &mut Row<LeanOp>, site: SiteId, e: &Expr) -> Result<(), NoMemory>
        ensures { OnOk result (ops.new ≡ ops.old ++ spec.print_code self.entry.program.now self.entry.plan.now self.entry.number site e.now (length ops.old)) }
    {
        if self.owns(site) {
            value(self.alloc, self.program, ops, e)?;
            ops.push(LeanOp::Plain(Op::Print { site }))
        } else {
            ops.push(LeanOp::Plain(Op::ConsumePrint { site }))
        }
    }

    /// An early exit: where its value isn't 0 the turn ends.
    pub fn exit(self, ops: &mut Row<LeanOp>, site: SiteId, cond: &Expr) -> Result<(), NoMemory>
        ensures { OnOk result (ops.new ≡ ops.old ++ spec.break_code self.entry.program.now self.entry.plan.now self.entry.number site
            cond.now (length ops.old)) }
    {
        self.test(ops, site, cond)?;
        let fork = place(ops)?;
        let behind = fork.checked_add(2).ok_or(NoMemory)?;
        ops.push(self.leave(site, behind))?;
        ops.push(LeanOp::Plain(Op::End))?;
        Ok(())
    }
}
