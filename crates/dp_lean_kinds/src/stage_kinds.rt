//! The kinds of a stage's columns.

ghost use Rattle.std.specs.Prelude.{◌≡◌, ◌<◌, ◌≤◌, IfOk, map, true};
ghost use Rattle.dp_tree.specs.Inlined.{IsInlined};
ghost use Rattle.dp_plan.specs.CheckedTable.{IsTabled};
ghost use Rattle.dp_semantics.specs.Fits.{fits_plan};
ghost use Rattle.dp_semantics.specs.Judge.{last};
ghost use Rattle.dp_lean_code.specs.Known.{AreTablesOf, paying_marks};
ghost use Rattle.dp_lean_kinds.specs.ColumnKinds as spec;
ghost use Rattle.dp_lean_kinds.specs.steps.Read.{has_number};
ghost use Rattle.dp_lean_kinds.specs.steps.KindAmong as step;

use crate::form::{FormedSite, Forms, SiteForm};
use crate::reads::later_reads;
use dp_base::{NoMemory, Row, SiteId};
use dp_code::{first_of, length_of};
use dp_columns::ColumnKind;
use dp_lean_code::{LeanStage, LeanTables};
use dp_plan::Plan;
use dp_sites::ask_region;
use dp_tree::Program;
use std::alloc::Global;

/// A stage with the sites that later ones read.
#[derive(Clone, Copy)]
struct Keeping<'a> {
    stage: LeanStage<'a>,
    reads: &'a [u32],
}

impl<'a> Keeping<'a> {
    fn is_needed(self, site: SiteId) -> bool
        ensures { result ≡ has_number site.0 self.entry.reads.now }
    {
        for read in self.reads {
            if *read == site.0 {
                return true;
            }
        }
        false
    }

    fn values(self, form: SiteForm) -> ColumnKind
        ensures { result ≡ spec.values_of self.entry.stage.program.now self.entry.stage.plan.now form }
    {
        match form {
            SiteForm::Stored(var) => {
                if length_of(self.stage.program, var) == 1 {
                    ColumnKind::Value {
                        cell: first_of(self.stage.program, var).0,
                    }
                } else {
                    ColumnKind::Element
                }
            }
            SiteForm::Single => ColumnKind::Value { cell: 0 },
        }
    }

    fn kind(self, formed: &FormedSite) -> ColumnKind
        ensures { result ≡ step.kind_among self.entry.stage.program.now self.entry.stage.plan.now self.entry.stage.tables.now self.entry.stage.number
            self.entry.reads.now formed.now }
    {
        if !self.stage.owns(formed.site) || !self.is_needed(formed.site) {
            return ColumnKind::Nothing;
        }
        if self.stage.count(formed.site) > 0 {
            ColumnKind::Block
        } else {
            self.values(formed.form)
        }
    }

    fn kinds(self, alloc: Global, sites: &[FormedSite]) -> Result<Row<ColumnKind>, NoMemory>
        ensures { IfOk result (λ made. made ≡ map (step.kind_among self.entry.stage.program.now self.entry.stage.plan.now self.entry.stage.tables.now
            self.entry.stage.number self.entry.reads.now) sites.now) }
    {
        let mut made = Row::new(alloc);
        for site in sites {
            made.push(self.kind(site))?;
        }
        Ok(made)
    }
}

/// The kinds of a stage's columns, by site of the region, from its first one on.
pub fn kinds(
    alloc: Global,
    p: &Program,
    plan: &Plan,
    tables: &LeanTables,
    stage: u32,
) -> Result<Row<ColumnKind>, NoMemory>
    requires inlined { IsInlined p.now }
    requires fits { fits_plan p.now plan.now ≡ true }
    requires tabled { IsTabled p.now plan.now }
    requires known { AreTablesOf p.now plan.now tables.now }
    requires low { 0 < stage }
    requires high { stage ≤ last plan.now }
    ensures { IfOk result (λ made. made ≡ spec.region_kinds p.now plan.now (paying_marks p.now plan.now) stage) }
{
    let reads = later_reads(alloc, p, plan, tables, stage)?;
    let keeping = Keeping {
        stage: LeanStage {
            alloc,
            program: p,
            plan,
            tables,
            number: stage,
        },
        reads: reads.as_slice(),
    };
    let sites = ask_region(alloc, &Forms, p, plan.region)?;
    keeping.kinds(alloc, sites.as_slice())
}
