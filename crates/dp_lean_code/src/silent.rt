//! The code of the statements of a stage's own blocks.

ghost use Rattle.std.specs.Prelude.{◌≡◌, ◌+◌, ◌++◌, ◌∷◌, [], length, IfOk, OnOk};
ghost use Rattle.dp_code.specs.declared.Op.TheVariants.{Jump};
ghost use Rattle.dp_lean_code.specs.declared.LeanOp.TheVariants.{Plain};
ghost use Rattle.dp_lean_code.specs.LeanCode as code;
ghost use Rattle.dp_lean_code.specs.steps.Silenced as spec;

use crate::LeanOp;
use crate::stage::LeanStage;
use crate::value::place;
use dp_base::{NoMemory, Row, SiteId};
use dp_code::Op;
use dp_tree::{Expr, Stmt};

impl<'a> LeanStage<'a> {
    #[cycle(silent)]
    fn silent_statement(self, ops: &mut Row<LeanOp>, statement: &Stmt) -> Result<(), NoMemory>
        ensures { OnOk result (ops.new ≡ ops.old ++ spec.silent_part self.entry.program.now self.entry.plan.now self.entry.number
            statement.now (length ops.old)) }
    {
        match statement {
            Stmt::Assign { site, var, value } => self.assignment(ops, *site, *var, value),
            Stmt::Store {
                site,
                var,
                index,
                value,
            } => self.store(ops, *site, *var, index, value),
            Stmt::Print { site, value } => self.print(ops, *site, value),
            Stmt::If {
                site,
                cond,
                then_part,
                else_part,
            } => {
                let (fork, jump) = self.silent_front(ops, *site, then_part.as_slice(), cond)?;
                self.silent(ops, else_part.as_slice())?;
                self.close_choice(ops, *site, fork, jump)
            }
            Stmt::While { site, cond, body } => {
                self.silent_loop(ops, *site, body.as_slice(), cond)
            }
            Stmt::Break { site, cond } => self.exit(ops, *site, cond),
            Stmt::Region { .. } => Ok(()),
            Stmt::Call { .. } => Ok(()),
        }
    }

    /// Appends a choice up to its second branch, with a jump past that one. It answers where the condition's op and the
    /// jump stand.
    #[cycle(silent)]
    fn silent_front(
        self,
        ops: &mut Row<LeanOp>,
        site: SiteId,
        then_part: &[Stmt],
        cond: &Expr,
    ) -> Result<(u32, u32), NoMemory>
        ensures fork { IfOk result (λ at. at.0 ≡ length (ops.old ++ code.test_code self.entry.program.now self.entry.plan.now self.entry.number site cond.now
            (length ops.old))) }
        ensures jump { IfOk result (λ at. at.1 ≡ at.0 + 1 + length (spec.silent_parts self.entry.program.now self.entry.plan.now self.entry.number
            then_part.now (at.0 + 1))) }
        ensures more { IfOk result (λ at. ops.new ≡ (ops.old ++ code.test_code self.entry.program.now self.entry.plan.now self.entry.number site cond.now
            (length ops.old)) ++ code.branch self.entry.program.now self.entry.plan.now self.entry.number site 0
            ∷ (spec.silent_parts self.entry.program.now self.entry.plan.now self.entry.number then_part.now (at.0 + 1) ++ Plain (Jump 0) ∷ [])) }
    {
        let fork = self.fork(ops, site, cond)?;
        self.silent(ops, then_part)?;
        let jump = place(ops)?;
        ops.push(LeanOp::Plain(Op::Jump(0)))?;
        Ok((fork, jump))
    }

    #[cycle(silent)]
    fn silent_loop(
        self,
        ops: &mut Row<LeanOp>,
        site: SiteId,
        body: &[Stmt],
        cond: &Expr,
    ) -> Result<(), NoMemory>
        ensures { OnOk result (ops.new ≡ ops.old ++ spec.silent_while self.entry.program.now self.entry.plan.now self.entry.number site cond.now
            body.now (length ops.old)) }
    {
        let start = place(ops)?;
        let fork = self.fork(ops, site, cond)?;
        self.silent(ops, body)?;
        self.close_loop(ops, site, fork, start)
    }

    /// Appends the code of statements that stand in an own block.
    #[cycle(silent)]
    pub fn silent(self, ops: &mut Row<LeanOp>, all: &[Stmt]) -> Result<(), NoMemory>
        ensures { OnOk result (ops.new ≡ ops.old ++ spec.silent_parts self.entry.program.now self.entry.plan.now self.entry.number all.now (length ops.old)) }
    {
        for statement in all {
            self.silent_statement(ops, statement)?;
        }
        Ok(())
    }
}
