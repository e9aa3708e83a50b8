//! What the stages of a plan see of the source's run.
ghost use Rattle.std.specs.Prelude.{◌≡◌, ◌+◌, true, if◌then◌else◌, length, replicate, filter, None, IfOk, OnOk};
ghost use Rattle.std.specs.Option.{option_map, option_or};
ghost use Rattle.dp_tree.specs.Numbering.{numbers_from};
ghost use Rattle.dp_tree.specs.Step.{stored};
ghost use Rattle.dp_plan.specs.Access.{stage_of};
ghost use Rattle.dp_plan.specs.Checked.{is_checked};
ghost use Rattle.dp_plan.specs.CheckedTable.{IsTabled};
ghost use Rattle.dp_semantics.specs.Cause.{assumption_cause};
ghost use Rattle.dp_semantics.specs.CauseWalk.{checked_cause_in, view_of, words_cause_in};
ghost use Rattle.dp_semantics.specs.Clean.{event_words};
ghost use Rattle.dp_semantics.specs.Fits.{fits_plan};
ghost use Rattle.dp_semantics.specs.Reported.{reported};
ghost use Rattle.dp_view.specs.Viewed as definition;
ghost use Rattle.dp_view.specs.Changed.{Cleared, differs};

mod onward;

use crate::changed::put_changes;
use crate::looking::{as_assumed, first_of, loads_cause, too_many};
use crate::marks::Marks;
use crate::memories::{add, clear, copies, count, local_cells, make, view};
use crate::shares::show;
use dp_base::{Cause, Cells, NoMemory, Row, SiteId};
use dp_meaning::Effect;
use dp_plan::Plan;
use dp_tree::Program;
use std::alloc::Global;
use std::marker::Model;

/// What each stage of a plan sees of the source's run, how many words it has in the iteration that is under way, and what of that
/// iteration has failed.
///
/// It has a memory for each stage, the source's, and the source's where the iteration began. An event costs a store in each of
/// them, and an iteration and an epoch cost what was stored in them.
#[derive(Drop)]
pub struct Views<'p> {
    program: &'p Program,
    plan: &'p Plan,
    /// The memory that each stage sees, the first one's first.
    views: Row<Row<i64>>,
    /// The number of words of each stage in this iteration.
    counts: Row<u64>,
    source: Row<i64>,
    before: Row<i64>,
    /// The cells of the region's body locals.
    locals: Row<usize>,
    /// The cells that were stored in this iteration.
    stored: Marks,
    /// The cells that were stored since the epoch began.
    since: Marks,
    /// The first failure of this iteration.
    found: Option<Cause>,
}

impl<'p> Model for Views<'p> {
    ghost use Rattle.dp_tree.specs.contracts.Expr as expr;
    ghost use Rattle.dp_tree.specs.contracts.Stmt as stmt;
    ghost use Rattle.std.specs.Coded.{codes};
    ghost use Rattle.dp_view.specs.Viewed.{Viewed};
    ghost use Rattle.dp_view.specs.Kept.{IsKept};

    ghost Value = { Viewed };

    ghost coded = { Prim.hlevel (codes, expr.the_row.coded, stmt.the_row.coded) };

    ghost view = { λ v. record {
      program = v.program.now;
      plan = v.plan.now;
      watch = record { views = v.views; counts = v.counts };
      source = v.source;
      before = v.before;
      found = v.found;
    } };

    ghost invariant = { λ v. IsKept v.program.now v.plan.now v.views v.counts v.source v.before v.locals v.stored v.since };
}

/// As many zeros as there are stages.
fn no_counts(alloc: Global, plan: &Plan) -> Result<Row<u64>, NoMemory>
    ensures { IfOk result (λ counts. counts ≡ replicate (length plan.now.stages) 0) }
{
    let mut counts = Vec::new(alloc);
    counts.resize(plan.stages.len(), 0)?;
    Ok(Row::from_vec(counts))
}

impl<'p> Views<'p> {
    /// Where an epoch of the plan's region begins with this memory.
    pub fn begin(
        alloc: Global,
        program: &'p Program,
        plan: &'p Plan,
        cells: &Cells,
    ) -> Result<Views<'p>, NoMemory>
        requires fits { fits_plan program.now plan.now ≡ true }
        requires tabled { IsTabled program.now plan.now }
        ensures { IfOk result (λ views. views ≡ definition.begun program.now plan.now cells.now) }
    {
        let cells = cells.as_slice();
        Ok(Views {
            program,
            plan,
            views: copies(alloc, cells, plan.stages.len())?,
            counts: no_counts(alloc, plan)?,
            source: Row::from_slice(alloc, cells)?,
            before: Row::from_slice(alloc, cells)?,
            locals: local_cells(alloc, plan.region, program.vars.as_slice())?,
            stored: Marks::none(alloc, cells.len())?,
            since: Marks::none(alloc, cells.len())?,
            found: None,
        })
    }

    /// The first failure of the iteration that is under way: a load, an assumption or a stage's words.
    pub fn found(&self) -> Option<Cause>
        ensures { result ≡ self.now.found }
    {
        self.found
    }

    /// The source's memory.
    pub fn source(&self) -> &[i64]
        ensures { result.now ≡ self.now.source }
    {
        self.source.as_slice()
    }

    /// The source's memory where the iteration began.
    pub fn before(&self) -> &[i64]
        ensures { result.now ≡ self.now.before }
    {
        self.before.as_slice()
    }

    /// The next event of the iteration: the site, what it does, and the cells that it loads.
    pub fn event(&mut self, site: SiteId, effect: Effect, cells: &[usize]) -> Result<(), NoMemory>
        ensures { OnOk result (self.new ≡ definition.after_event (definition.event_told self.old.source site effect cells.now) self.old) }
    {
        match self.found {
            Some(_) => self.pass(effect),
            None => self.look(site, effect, cells),
        }
    }

    /// An event of an iteration that has failed: what it stores is noted.
    fn pass(&mut self, effect: Effect) -> Result<(), NoMemory>
        ensures { OnOk result (self.new ≡ record self.old { source = stored (definition.effect_of effect) self.old.source }) }
    {
        self.stored.mark_effect(effect)?;
        self.since.mark_effect(effect)?;
        make(&mut self.source, effect);
        Ok(())
    }

    /// An event of an iteration of which nothing has failed so far.
    fn look(&mut self, site: SiteId, effect: Effect, cells: &[usize]) -> Result<(), NoMemory>
        ensures { OnOk result (self.new ≡ definition.noticed None (definition.event_told self.old.source site effect cells.now) self.old) }
    {
        let stage = self.plan.stage(self.program, site);
        let failed = self.failure(stage, site, effect, cells)?;
        let words = self.words(site, cells)?;
        self.stored.mark_effect(effect)?;
        self.since.mark_effect(effect)?;
        add(&mut self.counts, stage, words)?;
        show(self.views.as_mut_slice(), stage, effect);
        make(&mut self.source, effect);
        let made = count(self.counts.as_slice(), stage);
        self.found = first_of(failed, too_many(made, self.plan.words, stage, site));
        Ok(())
    }

    /// Why the event fails by its loads, or by what is assumed of it.
    fn failure(
        &self,
        stage: u32,
        site: SiteId,
        effect: Effect,
        cells: &[usize],
    ) -> Result<Option<Cause>, NoMemory>
        ensures { IfOk result
            (λ found. found ≡ option_map reported (definition.fails_at self.now stage (definition.event_told self.now.source site effect cells.now))) }
    {
        if self.plan.checked(self.program, site) {
            let view = view(self.views.as_slice(), stage);
            match loads_cause(view, self.source.as_slice(), site, cells)? {
                Some(cause) => return Ok(Some(cause)),
                None => {}
            }
        }
        if as_assumed(self.program, self.plan, site, effect) {
            Ok(None)
        } else {
            Ok(Some(Cause::Assumed { site }))
        }
    }

    /// The number of words of an event. More of them than have numbers are a want of memory.
    fn words(&self, site: SiteId, cells: &[usize]) -> Result<u64, NoMemory>
        ensures { IfOk result (λ words. words ≡ definition.words_told self.now site cells.now) }
    {
        if self.plan.checked(self.program, site) {
            (cells.len() as u64).checked_add(1).ok_or(NoMemory)
        } else {
            Ok(1)
        }
    }

    /// The iteration is over: its body locals read 0 in the source's memory.
    pub fn settle(&mut self)
        ensures { self.new ≡ definition.settled self.old }
    {
        clear(self.locals.as_slice(), &mut self.source);
    }

    /// The cells that read otherwise than where the iteration began, in ascending order, take the place of what `out` has. The body
    /// locals have to read 0 by then.
    pub fn changes(&mut self, out: &mut Row<usize>) -> Result<(), NoMemory>
        ensures same { self.new ≡ self.old }
        ensures found { Cleared self.old.program self.old.plan self.old.before → Cleared self.old.program self.old.plan self.old.source →
            OnOk result (out.new ≡ filter (differs self.old.before self.old.source) (numbers_from 0 (length self.old.source))) }
    {
        self.stored.sort();
        put_changes(
            self.stored.cells(),
            self.before.as_slice(),
            self.source.as_slice(),
            out,
        )
    }
}
