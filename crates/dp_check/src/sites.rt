//! The tables of a program's sites and regions.

ghost use Rattle.std.specs.Prelude.{◌≡◌, ◌-◌, ◌∷◌, ◌++◌, [], OnOk};
ghost use Rattle.std.specs.List.{flat_map};
ghost use Rattle.dp_tree.specs.declared.SiteKind.TheVariants as kind;
ghost use Rattle.dp_check.specs.Place.{Site, parts, parts_all};
ghost use Rattle.dp_check.specs.Tables as spec;

use crate::place::next;
use crate::region::region_after;
use dp_base::{NoMemory, Row, SiteId};
use dp_tree::{RawItem, RawStmt, RegionInfo, SiteInfo, SiteKind};
use std::alloc::Global;

/// The sites and regions so far.
#[derive(Drop)]
pub struct Sites {
    pub rows: Row<SiteInfo>,
    pub regions: Row<RegionInfo>,
    /// The number of the next site.
    pub next: u32,
}

impl Sites {
    ghost use Rattle.dp_check.specs.steps.Growing.{with_sites, with_top, with_main};

    pub fn new(alloc: Global) -> Sites
        ensures { result ≡ record { rows = []; regions = []; next = 1 } }
    {
        Sites {
            rows: Row::new(alloc),
            regions: Row::new(alloc),
            next: 1,
        }
    }

    fn site(&mut self, line: u32, kind: SiteKind, region: u32) -> Result<(), NoMemory>
        ensures { OnOk result (self.new ≡ with_sites self.old (record { line = line; kind = kind; region = region } ∷ [])) }
    {
        let following = next(self.next)?;
        self.rows.push(SiteInfo { line, kind, region })?;
        self.next = following;
        Ok(())
    }

    #[tactic(auto, using(crate::proofs::TableLemmas::site_forms))]
    #[cycle(sites)]
    fn statement(&mut self, region: u32, s: &RawStmt) -> Result<(), NoMemory>
        ensures { OnOk result (self.new ≡ with_sites self.old (spec.sites_made region (parts s.now))) }
    {
        match s {
            RawStmt::Declare { line, .. } => self.site(*line, SiteKind::Assign, region),
            RawStmt::Assign { name, .. } => self.site(name.line, SiteKind::Assign, region),
            RawStmt::Store { name, .. } => self.site(name.line, SiteKind::Assign, region),
            RawStmt::Print { line, .. } => self.site(*line, SiteKind::Print, region),
            RawStmt::Break { line, .. } => self.site(*line, SiteKind::Break, region),
            RawStmt::Call { .. } => Ok(()),
            RawStmt::If {
                line,
                then_part,
                else_part,
                ..
            } => {
                self.site(*line, SiteKind::If, region)?;
                self.statements(region, then_part.as_slice())?;
                self.statements(region, else_part.as_slice())
            }
            RawStmt::While { line, body, .. } => self.turns(region, *line, body.as_slice()),
            RawStmt::For {
                line,
                first,
                step,
                body,
                ..
            } => {
                self.statements(region, first.as_slice())?;
                self.turns(region, *line, body.as_slice())?;
                self.statements(region, step.as_slice())
            }
        }
    }

    /// The sites of a loop's condition and body.
    #[cycle(sites)]
    fn turns(&mut self, region: u32, line: u32, body: &[RawStmt]) -> Result<(), NoMemory>
        ensures { OnOk result (self.new ≡ with_sites self.old (spec.sites_made region (Site line kind.While ∷ parts_all body.now))) }
    {
        self.site(line, SiteKind::While, region)?;
        self.statements(region, body)?;
        Ok(())
    }

    /// The sites of statements.
    #[cycle(sites)]
    fn statements(&mut self, region: u32, all: &[RawStmt]) -> Result<(), NoMemory>
        ensures { OnOk result (self.new ≡ with_sites self.old (spec.sites_made region (parts_all all.now))) }
    {
        for s in all {
            self.statement(region, s)?;
        }
        Ok(())
    }

    /// A region whose first site is this one, and whose last site is the last so far.
    fn region(&mut self, line: u32, first: u32) -> Result<(), NoMemory>
        ensures { OnOk result
            (self.new ≡ record self.old {
              regions = self.old.regions
                  ++ record { line = line; first = record { 0 = first }; last = record { 0 = self.old.next - 1 } } ∷ [];
            }) }
    {
        self.regions.push(RegionInfo {
            line,
            first: SiteId(first),
            last: SiteId(self.next.saturating_sub(1)),
        })
    }

    fn top(&mut self, number: u32, s: &RawStmt) -> Result<(), NoMemory>
        ensures { OnOk result (self.new ≡ with_top self.old number s.now) }
    {
        let first = self.next;
        match s {
            RawStmt::While { line, marked, .. } if *marked => {
                self.statement(number, s)?;
                self.region(*line, first)
            }
            RawStmt::For {
                line,
                marked,
                first,
                step,
                body,
                ..
            } if *marked => {
                self.statements(0, first.as_slice())?;
                let start = self.next;
                self.turns(number, *line, body.as_slice())?;
                self.statements(number, step.as_slice())?;
                self.region(*line, start)
            }
            _ => self.statement(0, s),
        }
    }

    /// The sites and regions of `main`.
    pub fn main(&mut self, all: &[RawStmt]) -> Result<(), NoMemory>
        ensures { OnOk result (self.new ≡ with_main self.old 1 all.now) }
    {
        let mut number = 1;
        for s in all {
            self.top(number, s)?;
            number = region_after(number, s)?;
        }
        Ok(())
    }

    fn function(&mut self, item: &RawItem) -> Result<(), NoMemory>
        ensures { OnOk result (self.new ≡ with_sites self.old (spec.sites_made 0 (spec.item_parts item.now))) }
    {
        match item {
            RawItem::Function { body, .. } => self.statements(0, body.as_slice()),
            RawItem::Scalar { .. } | RawItem::Array { .. } => Ok(()),
        }
    }

    /// The sites of the functions.
    pub fn functions(&mut self, items: &[RawItem]) -> Result<(), NoMemory>
        ensures { OnOk result (self.new ≡ with_sites self.old (flat_map (λ item. spec.sites_made 0 (spec.item_parts item)) items.now)) }
    {
        for item in items {
            self.function(item)?;
        }
        Ok(())
    }
}
