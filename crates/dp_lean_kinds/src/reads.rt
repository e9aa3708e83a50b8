//! The sites that later stages read: those of their lean texts.

ghost use Rattle.std.specs.Prelude.{◌≡◌, ◌<◌, ◌+◌, ◌-◌, ◌++◌, ◌||◌, zero, nat_lt, length, take, IfOk, OnOk};
ghost use Rattle.dp_semantics.specs.Judge.{last};
ghost use Rattle.dp_lean_code.specs.steps.Looked.{known_of};
ghost use Rattle.dp_lean_code.specs.steps.Walked as walked;
ghost use Rattle.dp_lean_kinds.specs.steps.Read as spec;

use dp_base::{NoMemory, Row, SiteId};
use dp_lean_code::{LeanStage, LeanTables, front, site_of};
use dp_plan::{Plan, is_region};
use dp_sites::put_sites;
use dp_tree::{Program, Stmt};
use std::alloc::Global;

/// Appends the site, where it is read.
fn put_when(out: &mut Row<u32>, reads: bool, site: SiteId) -> Result<(), NoMemory>
    ensures { OnOk result (out.new ≡ out.old ++ spec.site_when reads site) }
{
    if reads {
        out.push(site.0)?;
    }
    Ok(())
}

/// A walk for the sites that a stage reads.
#[derive(Clone, Copy)]
struct Reading<'a> {
    stage: LeanStage<'a>,
}

impl<'a> Reading<'a> {
    /// Appends the site of a statement with no others inside, which is kept because of its site or for another reason.
    fn leaf(self, out: &mut Row<u32>, site: SiteId, also: bool) -> Result<(), NoMemory>
        ensures { OnOk result (out.new ≡ out.old ++ spec.leaf_read self.entry.stage.program.now self.entry.stage.plan.now self.entry.stage.number
            (known_of self.entry.stage.program.now self.entry.stage.plan.now self.entry.stage.tables.now self.entry.stage.number) site also) }
    {
        let stays = self.stage.reaches(site) && (self.stage.keeps(site) || also);
        put_when(out, stays, site)
    }

    /// Appends the site of a choice or a loop, where it is kept or something inside it is read: what stands from `start` on.
    fn close(self, out: &mut Row<u32>, site: SiteId, start: usize) -> Result<(), NoMemory>
        ensures { OnOk result (out.new ≡ out.old ++ spec.site_when (walked.keeps self.entry.stage.program.now self.entry.stage.plan.now self.entry.stage.number
            (known_of self.entry.stage.program.now self.entry.stage.plan.now self.entry.stage.tables.now self.entry.stage.number) site || nat_lt start
            (length out.old)) site) }
    {
        let kept = self.stage.keeps(site) || start < out.len();
        put_when(out, kept, site)
    }

    /// The block is kept: it is the stage's own, or another one's of which a store is done.
    fn keeps(self, site: SiteId, block: &[Stmt]) -> bool
        ensures { result ≡ spec.keeps_block self.entry.stage.program.now self.entry.stage.plan.now self.entry.stage.number
            (known_of self.entry.stage.program.now self.entry.stage.plan.now self.entry.stage.tables.now self.entry.stage.number) site block.now }
    {
        self.stage.reaches(site) && (self.stage.owns(site) || self.stage.does_inside(block))
    }

    /// Appends the sites of the block of so many statements that stands at the front, where it is kept.
    fn block(
        self,
        out: &mut Row<u32>,
        site: SiteId,
        all: &[Stmt],
        count: u32,
    ) -> Result<(), NoMemory>
        ensures { OnOk result (out.new ≡ out.old ++ spec.block_read self.entry.stage.program.now self.entry.stage.plan.now self.entry.stage.number
            (known_of self.entry.stage.program.now self.entry.stage.plan.now self.entry.stage.tables.now self.entry.stage.number) site (take count all.now)) }
    {
        let block = front(all, count as usize);
        if self.keeps(site, block) {
            put_sites(out, block)?;
        }
        Ok(())
    }

    /// Appends the sites that are read of a statement outside of blocks.
    #[cycle(reads)]
    fn statement(self, out: &mut Row<u32>, statement: &Stmt) -> Result<(), NoMemory>
        ensures { OnOk result (out.new ≡ out.old ++ spec.read self.entry.stage.program.now self.entry.stage.plan.now self.entry.stage.number
            (known_of self.entry.stage.program.now self.entry.stage.plan.now self.entry.stage.tables.now self.entry.stage.number) statement.now) }
    {
        match statement {
            Stmt::Assign { site, var, .. } => self.leaf(out, *site, self.stage.does(*var)),
            Stmt::Store { site, var, .. } => self.leaf(out, *site, self.stage.does(*var)),
            Stmt::Print { site, .. } => self.leaf(out, *site, self.stage.is_judge()),
            Stmt::If {
                site,
                then_part,
                else_part,
                ..
            } => match (self.stage.reaches(*site), self.stage.assumed(*site)) {
                (true, _) => {
                    let start = out.len();
                    self.statements(out, then_part.as_slice())?;
                    self.statements(out, else_part.as_slice())?;
                    self.close(out, *site, start)
                }
                (false, Some(true)) => self.statements(out, then_part.as_slice()),
                (false, Some(false)) => self.statements(out, else_part.as_slice()),
                (false, None) => Ok(()),
            },
            Stmt::While { site, body, .. } => {
                if self.stage.reaches(*site) {
                    self.around(out, *site, body.as_slice())?;
                }
                Ok(())
            }
            Stmt::Region { site, body, .. } => self.around(out, *site, body.as_slice()),
            Stmt::Break { site, .. } => put_when(out, self.stage.reaches(*site), *site),
            Stmt::Call { .. } => Ok(()),
        }
    }

    /// Appends the sites that are read of statements, and then that of the loop around them.
    #[cycle(reads)]
    fn around(self, out: &mut Row<u32>, site: SiteId, body: &[Stmt]) -> Result<(), NoMemory>
        ensures { OnOk result (out.new ≡ out.old ++ spec.loop_read self.entry.stage.program.now self.entry.stage.plan.now self.entry.stage.number
            (known_of self.entry.stage.program.now self.entry.stage.plan.now self.entry.stage.tables.now self.entry.stage.number) site body.now) }
    {
        let start = out.len();
        self.statements(out, body)?;
        self.close(out, site, start)
    }

    /// Appends the sites that are read of statements one after the other, the blocks among them whole.
    #[cycle(reads)]
    fn statements(self, out: &mut Row<u32>, all: &[Stmt]) -> Result<(), NoMemory>
        ensures { OnOk result (out.new ≡ out.old ++ spec.list_read self.entry.stage.program.now self.entry.stage.plan.now self.entry.stage.number
            (known_of self.entry.stage.program.now self.entry.stage.plan.now self.entry.stage.tables.now self.entry.stage.number) zero all.now) }
    {
        let mut left = 0;
        for (place, statement) in all.iter().enumerate() {
            if left > 0 {
                left -= 1;
                continue;
            }
            let site = site_of(statement);
            let count = self.stage.count(site);
            if count == 0 {
                self.statement(out, statement)?;
            } else {
                self.block(out, site, &all[place..], count)?;
                left = count - 1;
            }
        }
        Ok(())
    }

    /// Appends the sites that the stage reads.
    fn region(self, out: &mut Row<u32>) -> Result<(), NoMemory>
        ensures { OnOk result (out.new ≡ out.old ++ spec.stage_read self.entry.stage.program.now self.entry.stage.plan.now self.entry.stage.tables.now
            self.entry.stage.number) }
    {
        for statement in self.stage.program.main.as_slice() {
            if is_region(self.stage.plan.region, statement) {
                self.statement(out, statement)?;
            }
        }
        Ok(())
    }
}

/// The number that stands for the judge.
fn last_of(plan: &Plan) -> Result<u32, NoMemory>
    ensures value { IfOk result (λ stage. stage ≡ last plan.now) }
    ensures few { IfOk result (λ stage. stage < 4294967295) }
{
    match u32::try_from(plan.stages.len()) {
        Ok(count) if count < u32::MAX - 1 => Ok(count + 1),
        _ => Err(NoMemory),
    }
}

/// The sites that stages later than this one read, and the judge.
pub fn later_reads(
    alloc: Global,
    program: &Program,
    plan: &Plan,
    tables: &LeanTables,
    stage: u32,
) -> Result<Row<u32>, NoMemory>
    ensures { IfOk result (λ reads. reads ≡ spec.stages_read program.now plan.now tables.now (stage + 1) (last plan.now - stage)) }
{
    let last = last_of(plan)?;
    let mut reads = Row::new(alloc);
    for place in stage..last {
        let later = LeanStage {
            alloc,
            program,
            plan,
            tables,
            number: place + 1,
        };
        Reading { stage: later }.region(&mut reads)?;
    }
    Ok(reads)
}
