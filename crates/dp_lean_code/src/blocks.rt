//! Where the blocks of a region stand.

ghost use Rattle.std.specs.Prelude.{◌≡◌, ◌++◌, IfOk, OnOk, None, slice_set};
ghost use Rattle.std.specs.List.{flat_map};
ghost use Rattle.dp_tree.specs.Statements.{asked};
ghost use Rattle.dp_plan.specs.Access.{region_statement};
ghost use Rattle.dp_lean_code.specs.steps.Runs as spec;

use crate::kept::front;
use crate::quiet::Runs;
use crate::site::site_of;
use dp_base::{NoMemory, Row};
use dp_plan::is_region;
use dp_sites::{Question, ask_each};
use dp_tree::Stmt;
use std::alloc::Global;

/// Says of each site that no block begins there.
#[derive(Clone, Copy)]
struct NoBlock;

impl Question<u32> for NoBlock {
    ghost gives = { Rattle.dp_lean_code.specs.steps.Runs.none_at };

    #[tactic(auto, using(crate::proofs::CountForms::none_forms))]
    fn ask(&self, out: &mut Row<u32>, statement: &Stmt) -> Result<(), NoMemory> {
        match statement {
            Stmt::Assign { .. } => out.push(0),
            Stmt::Store { .. } => out.push(0),
            Stmt::Print { .. } => out.push(0),
            Stmt::If { .. } => out.push(0),
            Stmt::While { .. } => out.push(0),
            Stmt::Region { .. } => out.push(0),
            Stmt::Break { .. } => out.push(0),
            Stmt::Call { .. } => Ok(()),
        }
    }
}

/// A statement that is quiet in the stage joins the run in front of it, if that is of the same stage.
fn joins(stage: u32, before: Option<u32>) -> bool
    ensures { result ≡ spec.joins stage before }
{
    match before {
        Some(other) => stage == other,
        None => false,
    }
}

/// A number of statements, where it is small enough.
fn number(length: usize) -> Result<u32, NoMemory>
    ensures { IfOk result (λ count. count ≡ length) }
{
    match u32::try_from(length) {
        Ok(count) => Ok(count),
        Err(_) => Err(NoMemory),
    }
}

/// Appends the numbers at the sites of a quiet statement.
fn put_quiet(out: &mut Row<u32>, statement: &Stmt, count: u32) -> Result<(), NoMemory>
    ensures { OnOk result (out.new ≡ out.old ++ slice_set (asked spec.none_at statement.now) 0 count) }
{
    let start = out.len();
    ask_each(&NoBlock, out, statement)?;
    if start < out.len() {
        out.set(start, count);
    }
    Ok(())
}

impl<'a> Runs<'a> {
    /// The number of the statements of the block that begins at the front, behind a run of this stage.
    fn count(self, before: Option<u32>, stage: u32, all: &[Stmt]) -> Result<u32, NoMemory>
        ensures { IfOk result (λ count. count ≡ spec.count_in self.entry.program.now self.entry.plan.now self.entry.homes.now before stage all.now) }
    {
        if joins(stage, before) {
            return Ok(0);
        }
        let length = self.run(stage, all);
        if !self.pays(stage, front(all, length)) {
            return Ok(0);
        }
        number(length)
    }

    /// Appends the numbers at the sites inside a statement that isn't quiet.
    #[cycle(counts)]
    fn put_inner(self, out: &mut Row<u32>, statement: &Stmt) -> Result<(), NoMemory>
        ensures { OnOk result (out.new ≡ out.old ++ spec.inner_counts self.entry.program.now self.entry.plan.now self.entry.homes.now statement.now) }
    {
        match statement {
            Stmt::If {
                then_part,
                else_part,
                ..
            } => {
                self.put_all(out, then_part.as_slice())?;
                self.put_all(out, else_part.as_slice())?;
                Ok(())
            }
            Stmt::While { body, .. } => self.put_all(out, body.as_slice()),
            Stmt::Region { body, .. } => self.put_all(out, body.as_slice()),
            Stmt::Assign { .. } => Ok(()),
            Stmt::Store { .. } => Ok(()),
            Stmt::Print { .. } => Ok(()),
            Stmt::Break { .. } => Ok(()),
            Stmt::Call { .. } => Ok(()),
        }
    }

    /// Appends those at the sites of statements one after the other.
    #[cycle(counts)]
    fn put_all(self, out: &mut Row<u32>, all: &[Stmt]) -> Result<(), NoMemory>
        ensures { OnOk result (out.new ≡ out.old ++ spec.list_counts self.entry.program.now self.entry.plan.now self.entry.homes.now None all.now) }
    {
        let mut before = None;
        for (place, statement) in all.iter().enumerate() {
            let stage = self.plan.stage(self.program, site_of(statement));
            if self.is_quiet(stage, statement) {
                let count = self.count(before, stage, &all[place..])?;
                put_quiet(out, statement, count)?;
                before = Some(stage);
            } else {
                NoBlock.ask(out, statement)?;
                self.put_inner(out, statement)?;
                before = None;
            }
        }
        Ok(())
    }

    /// By site of the plan's region: the number of the statements of the block that begins there, or 0.
    pub fn blocks(self, alloc: Global) -> Result<Row<u32>, NoMemory>
        ensures { IfOk result (λ blocks. blocks ≡ flat_map (spec.region_counts self.entry.program.now self.entry.plan.now self.entry.homes.now)
            (region_statement self.entry.program.now self.entry.plan.now)) }
    {
        let mut blocks = Row::new(alloc);
        for statement in self.program.main.as_slice() {
            if is_region(self.plan.region, statement) {
                NoBlock.ask(&mut blocks, statement)?;
                self.put_inner(&mut blocks, statement)?;
            }
        }
        Ok(blocks)
    }
}
