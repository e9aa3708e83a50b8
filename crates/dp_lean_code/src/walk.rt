//! The walk over a region's statements that makes the code of a stage's lean text.

ghost use Rattle.std.specs.Prelude.{◌≡◌, ◌+◌, ◌++◌, ◌∷◌, [], length, zero, IfOk, OnOk};
ghost use Rattle.dp_code.specs.declared.Op.TheVariants.{Jump};
ghost use Rattle.dp_lean_code.specs.declared.LeanOp.TheVariants.{Plain};
ghost use Rattle.dp_lean_code.specs.LeanCode as code;
ghost use Rattle.dp_lean_code.specs.steps.Looked.{known_of};
ghost use Rattle.dp_lean_code.specs.steps.Walked as spec;

use crate::LeanOp;
use crate::site::site_of;
use crate::stage::LeanStage;
use crate::value::place;
use dp_base::{NoMemory, Row, SiteId};
use dp_code::Op;
use dp_tree::{Expr, Stmt};

impl<'a> LeanStage<'a> {
    /// Appends the code of a statement outside of blocks.
    #[cycle(parts)]
    pub fn statement(self, ops: &mut Row<LeanOp>, statement: &Stmt) -> Result<(), NoMemory>
        ensures { OnOk result (ops.new ≡ ops.old ++ spec.part self.entry.program.now self.entry.plan.now self.entry.number
            (known_of self.entry.program.now self.entry.plan.now self.entry.tables.now self.entry.number) statement.now (length ops.old)) }
    {
        match statement {
            Stmt::Assign { site, var, value } => self.kept_assignment(ops, *site, *var, value),
            Stmt::Store {
                site,
                var,
                index,
                value,
            } => self.kept_store(ops, *site, *var, index, value),
            Stmt::Print { site, value } => self.kept_print(ops, *site, value),
            Stmt::If {
                site,
                cond,
                then_part,
                else_part,
            } => match (self.reaches(*site), self.assumed(*site)) {
                (true, _) => {
                    let start = ops.len();
                    let (fork, jump) = self.first_branch(ops, *site, then_part.as_slice(), cond)?;
                    self.statements(ops, else_part.as_slice())?;
                    self.end_choice(ops, *site, start, fork, jump)
                }
                (false, Some(true)) => self.statements(ops, then_part.as_slice()),
                (false, Some(false)) => self.statements(ops, else_part.as_slice()),
                (false, None) => Ok(()),
            },
            Stmt::While { site, cond, body } => self.repetition(ops, *site, body.as_slice(), cond),
            Stmt::Region {
                site,
                cond,
                body,
                ..
            } => self.turn(ops, *site, body.as_slice(), cond),
            Stmt::Break { site, cond } => self.kept_exit(ops, *site, cond),
            Stmt::Call { .. } => Ok(()),
        }
    }

    /// Appends a choice up to its second branch, with a jump past that one. It answers where the condition's op and the
    /// jump stand.
    #[cycle(parts)]
    fn first_branch(
        self,
        ops: &mut Row<LeanOp>,
        site: SiteId,
        then_part: &[Stmt],
        cond: &Expr,
    ) -> Result<(u32, u32), NoMemory>
        ensures fork { IfOk result (λ at. at.0 ≡ length (ops.old ++ code.test_code self.entry.program.now self.entry.plan.now self.entry.number site cond.now
            (length ops.old))) }
        ensures jump { IfOk result (λ at. at.1 ≡ at.0 + 1 + length (spec.parts self.entry.program.now self.entry.plan.now self.entry.number
            (known_of self.entry.program.now self.entry.plan.now self.entry.tables.now self.entry.number) zero then_part.now (at.0 + 1))) }
        ensures more { IfOk result (λ at. ops.new ≡ (ops.old ++ code.test_code self.entry.program.now self.entry.plan.now self.entry.number site cond.now
            (length ops.old)) ++ code.branch self.entry.program.now self.entry.plan.now self.entry.number site 0
            ∷ (spec.parts self.entry.program.now self.entry.plan.now self.entry.number
            (known_of self.entry.program.now self.entry.plan.now self.entry.tables.now self.entry.number) zero then_part.now (at.0 + 1)
            ++ Plain (Jump 0) ∷ [])) }
    {
        let fork = self.fork(ops, site, cond)?;
        self.statements(ops, then_part)?;
        let jump = place(ops)?;
        ops.push(LeanOp::Plain(Op::Jump(0)))?;
        Ok((fork, jump))
    }

    /// Appends a turn of the region.
    #[cycle(parts)]
    fn turn(
        self,
        ops: &mut Row<LeanOp>,
        site: SiteId,
        body: &[Stmt],
        cond: &Expr,
    ) -> Result<(), NoMemory>
        ensures { OnOk result (ops.new ≡ ops.old ++ spec.choice_part self.entry.program.now self.entry.plan.now self.entry.number
            (known_of self.entry.program.now self.entry.plan.now self.entry.tables.now self.entry.number) site cond.now
            (spec.parts self.entry.program.now self.entry.plan.now self.entry.number (known_of self.entry.program.now self.entry.plan.now self.entry.tables.now
            self.entry.number) zero body.now) (λ at. []) (length ops.old)) }
    {
        let start = ops.len();
        let (fork, jump) = self.first_branch(ops, site, body, cond)?;
        self.end_choice(ops, site, start, fork, jump)
    }

    /// Appends a loop.
    #[cycle(parts)]
    fn repetition(
        self,
        ops: &mut Row<LeanOp>,
        site: SiteId,
        body: &[Stmt],
        cond: &Expr,
    ) -> Result<(), NoMemory>
        ensures { OnOk result (ops.new ≡ ops.old ++ spec.reached_loop self.entry.program.now self.entry.plan.now self.entry.number
            (known_of self.entry.program.now self.entry.plan.now self.entry.tables.now self.entry.number) site cond.now
            (spec.parts self.entry.program.now self.entry.plan.now self.entry.number (known_of self.entry.program.now self.entry.plan.now self.entry.tables.now
            self.entry.number) zero body.now) (length ops.old)) }
    {
        if !self.reaches(site) {
            return Ok(());
        }
        let start = place(ops)?;
        let fork = self.fork(ops, site, cond)?;
        self.statements(ops, body)?;
        self.end_loop(ops, site, fork, start)
    }

    /// Appends the code of statements one after the other, the blocks among them whole.
    #[cycle(parts)]
    fn statements(self, ops: &mut Row<LeanOp>, all: &[Stmt]) -> Result<(), NoMemory>
        ensures { OnOk result (ops.new ≡ ops.old ++ spec.parts self.entry.program.now self.entry.plan.now self.entry.number
            (known_of self.entry.program.now self.entry.plan.now self.entry.tables.now self.entry.number) zero all.now (length ops.old)) }
    {
        let mut left = 0;
        for (place, statement) in all.iter().enumerate() {
            if left > 0 {
                left -= 1;
                continue;
            }
            let site = site_of(statement);
            let count = self.count(site);
            if count == 0 {
                self.statement(ops, statement)?;
            } else {
                self.block(ops, site, &all[place..], count)?;
                left = count - 1;
            }
        }
        Ok(())
    }
}
