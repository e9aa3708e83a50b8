//! Conditions and their branches: what stands in front of them, and what is written when they are appended.

ghost use Rattle.std.specs.Prelude.{◌≡◌, ◌++◌, ◌∷◌, [], ◌<◌, ◌+◌, ◌||◌, List, length, IfOk, OnOk};
ghost use Rattle.dp_code.specs.declared.Op.TheVariants.{Jump};
ghost use Rattle.dp_lean_code.specs.declared.LeanOp.{LeanOp};
ghost use Rattle.dp_lean_code.specs.declared.LeanOp.TheVariants.{Plain};
ghost use Rattle.dp_lean_code.specs.LeanCode as code;
ghost use Rattle.dp_lean_code.specs.steps.Looked.{known_of};
ghost use Rattle.dp_lean_code.specs.steps.Walked as spec;

use crate::LeanOp;
use crate::stage::LeanStage;
use crate::value::place;
use dp_base::{NoMemory, Row, SiteId};
use dp_code::Op;
use dp_tree::Expr;

impl<'a> LeanStage<'a> {
    /// Appends a condition and its op, whose place it answers.
    pub fn fork(self, ops: &mut Row<LeanOp>, site: SiteId, cond: &Expr) -> Result<u32, NoMemory>
        ensures at { IfOk result (λ at. at ≡ length (ops.old ++ code.test_code self.entry.program.now self.entry.plan.now self.entry.number site cond.now
            (length ops.old))) }
        ensures more { OnOk result (ops.new ≡ (ops.old ++ code.test_code self.entry.program.now self.entry.plan.now self.entry.number site cond.now
            (length ops.old)) ++ code.branch self.entry.program.now self.entry.plan.now self.entry.number site 0 ∷ []) }
    {
        self.test(ops, site, cond)?;
        let at = place(ops)?;
        ops.push(self.branch(site, 0))?;
        Ok(at)
    }

    /// Ends a choice whose branches are appended: its condition's op stands at `fork`, and a jump between the branches
    /// at `jump`. A jump past nothing is taken off.
    pub fn close_choice(
        self,
        ops: &mut Row<LeanOp>,
        site: SiteId,
        fork: u32,
        jump: u32,
    ) -> Result<(), NoMemory>
        requires order { fork < jump }
        requires within { jump < length ops.old }
        ensures { (base then_part else_part : List LeanOp) (condition passing : LeanOp) → ops.old ≡ base ++ condition ∷ (then_part ++ passing ∷ else_part) →
            fork ≡ length base → jump ≡ fork + 1 + length then_part →
            OnOk result (ops.new ≡ base ++ code.either fork (code.branch self.entry.program.now self.entry.plan.now self.entry.number site)
            then_part else_part) }
    {
        let end = place(ops)?;
        let other = jump + 1;
        if other == end {
            ops.truncate(jump as usize);
            ops.set(fork as usize, self.branch(site, jump));
        } else {
            ops.set(jump as usize, LeanOp::Plain(Op::Jump(end)));
            ops.set(fork as usize, self.branch(site, other));
        }
        Ok(())
    }

    /// Ends a loop whose body is appended: its condition's op stands at `fork`, and its code begins at `start`.
    pub fn close_loop(
        self,
        ops: &mut Row<LeanOp>,
        site: SiteId,
        fork: u32,
        start: u32,
    ) -> Result<(), NoMemory>
        requires within { fork < length ops.old }
        ensures { (base body : List LeanOp) (condition : LeanOp) → ops.old ≡ base ++ condition ∷ body → fork ≡ length base →
            OnOk result (ops.new ≡ base ++ code.branch self.entry.program.now self.entry.plan.now self.entry.number site (fork + 1 + length body + 1)
            ∷ (body ++ Plain (Jump start) ∷ [])) }
    {
        ops.push(LeanOp::Plain(Op::Jump(start)))?;
        let end = place(ops)?;
        ops.set(fork as usize, self.branch(site, end));
        Ok(())
    }

    /// Ends a choice that began at `start`, or takes it off where nothing stands in it and its site doesn't ask for it.
    pub fn end_choice(
        self,
        ops: &mut Row<LeanOp>,
        site: SiteId,
        start: usize,
        fork: u32,
        jump: u32,
    ) -> Result<(), NoMemory>
        requires order { fork < jump }
        requires within { jump < length ops.old }
        ensures { (base test then_part else_part : List LeanOp) (condition passing : LeanOp) → ops.old ≡ (base ++ test) ++ condition
            ∷ (then_part ++ passing ∷ else_part) → start ≡ length base → fork ≡ length (base ++ test) → jump ≡ fork + 1 + length then_part →
            OnOk result (ops.new ≡ spec.where_filled (spec.keeps self.entry.program.now self.entry.plan.now self.entry.number
            (known_of self.entry.program.now self.entry.plan.now self.entry.tables.now self.entry.number) site
            || (spec.has_ops then_part || spec.has_ops else_part)) base
            ((base ++ test) ++ code.either fork (code.branch self.entry.program.now self.entry.plan.now self.entry.number site) then_part else_part)) }
    {
        if self.keeps(site) || jump > fork + 1 || ops.len() > jump as usize + 1 {
            self.close_choice(ops, site, fork, jump)
        } else {
            ops.truncate(start);
            Ok(())
        }
    }

    /// Ends a loop that began at `start`, or takes it off where nothing stands in it and its site doesn't ask for it.
    pub fn end_loop(
        self,
        ops: &mut Row<LeanOp>,
        site: SiteId,
        fork: u32,
        start: u32,
    ) -> Result<(), NoMemory>
        requires within { fork < length ops.old }
        ensures { (base test body : List LeanOp) (condition : LeanOp) → ops.old ≡ (base ++ test) ++ condition ∷ body → start ≡ length base →
            fork ≡ length (base ++ test) →
            OnOk result (ops.new ≡ spec.where_filled (spec.keeps self.entry.program.now self.entry.plan.now self.entry.number
            (known_of self.entry.program.now self.entry.plan.now self.entry.tables.now self.entry.number) site || spec.has_ops body) base
            ((base ++ test) ++ code.branch self.entry.program.now self.entry.plan.now self.entry.number site (fork + 1 + length body + 1)
            ∷ (body ++ Plain (Jump start) ∷ []))) }
    {
        if self.keeps(site) || ops.len() > fork as usize + 1 {
            self.close_loop(ops, site, fork, start)
        } else {
            ops.truncate(start as usize);
            Ok(())
        }
    }
}
