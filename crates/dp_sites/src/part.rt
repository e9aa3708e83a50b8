//! The sites of a region in text order, each with what it reads and stores.

ghost use Rattle.std.specs.Prelude.{◌≡◌, ◌∷◌, ◌++◌, [], OnOk, IfOk, Some, None};
ghost use Rattle.dp_sites.specs.Place.{index_place};
ghost use Rattle.dp_sites.specs.steps.Parts as spec;

use crate::sites::put_sites_of;
use crate::touched::{Touched, both_loads, element, loads, whole};
use dp_base::{NoMemory, Row, SiteId, VarId};
use dp_tree::{Expr, Stmt};
use std::alloc::Global;

/// A site.
#[derive(Drop)]
pub struct Part {
    pub site: u32,
    pub loads: Row<Touched>,
    pub stores: Option<Touched>,
    /// The last site of the outermost inner `while` that has it.
    pub until: Option<u32>,
}

fn put_part(
    out: &mut Row<Part>,
    site: SiteId,
    until: Option<u32>,
    loads: Row<Touched>,
    stores: Option<Touched>,
) -> Result<(), NoMemory>
    ensures { OnOk result (out.new ≡ out.old ++ record { site = site.0; loads = loads; stores = stores; until = until } ∷ []) }
{
    let part = Part {
        site: site.0,
        loads,
        stores,
        until,
    };
    out.push(part)?;
    Ok(())
}

/// The last site of the statement, where no `while` around it says a later one.
fn until_in(alloc: Global, until: Option<u32>, statement: &Stmt) -> Result<Option<u32>, NoMemory>
    ensures { IfOk result (λ last. last ≡ spec.until_in until statement.now) }
{
    match until {
        Some(last) => Ok(Some(last)),
        None => {
            let mut sites = Row::new(alloc);
            put_sites_of(&mut sites, statement)?;
            Ok(sites.last().copied())
        }
    }
}

/// Where a statement stands: the last site of the outermost inner `while` that has it.
#[derive(Clone, Copy)]
struct Inside {
    alloc: Global,
    until: Option<u32>,
}

impl Inside {
    /// Where the sites of this `while` stand.
    fn in_loop(self, statement: &Stmt) -> Result<Inside, NoMemory>
        ensures { IfOk result (λ within. within.until ≡ spec.until_in self.until statement.now) }
    {
        let until = until_in(self.alloc, self.until, statement)?;
        Ok(Inside {
            alloc: self.alloc,
            until,
        })
    }

    fn put_statement(
        self,
        out: &mut Row<Part>,
        site: SiteId,
        value: &Expr,
        stores: Option<Touched>,
    ) -> Result<(), NoMemory>
        ensures { OnOk result (out.new ≡ out.old ++ record { site = site.0; loads = spec.loads_in value.now; stores = stores; until = self.until } ∷ []) }
    {
        let loads = loads(self.alloc, value)?;
        put_part(out, site, self.until, loads, stores)
    }

    fn put_store(
        self,
        out: &mut Row<Part>,
        site: SiteId,
        var: VarId,
        index: &Expr,
        value: &Expr,
    ) -> Result<(), NoMemory>
        ensures { OnOk result
            (out.new ≡ out.old ++
            record {
              site = site.0;
              loads = spec.loads_in index.now ++ spec.loads_in value.now;
              stores = Some (record { var = var; place = index_place index.now });
              until = self.until;
            } ∷ []) }
    {
        let loads = both_loads(self.alloc, index, value)?;
        put_part(out, site, self.until, loads, element(var, index))
    }
}

#[tactic(auto, using(crate::proofs::PartForms::part_forms))]
#[cycle(parts)]
fn put_parts_of(inside: Inside, out: &mut Row<Part>, statement: &Stmt) -> Result<(), NoMemory>
    ensures { OnOk result (out.new ≡ out.old ++ spec.part_list inside.until statement.now) }
{
    match statement {
        Stmt::Assign { site, var, value } => inside.put_statement(out, *site, value, whole(*var)),
        Stmt::Store {
            site,
            var,
            index,
            value,
        } => inside.put_store(out, *site, *var, index, value),
        Stmt::Print { site, value } => inside.put_statement(out, *site, value, None),
        Stmt::Break { site, cond } => inside.put_statement(out, *site, cond, None),
        Stmt::If {
            site,
            cond,
            then_part,
            else_part,
        } => {
            inside.put_statement(out, *site, cond, None)?;
            put_parts(inside, out, then_part.as_slice())?;
            put_parts(inside, out, else_part.as_slice())?;
            Ok(())
        }
        Stmt::While { site, cond, body } => {
            let within = inside.in_loop(statement)?;
            put_loop(within, out, *site, body.as_slice(), cond)
        }
        Stmt::Region {
            site,
            cond,
            body,
            ..
        } => put_loop(inside, out, *site, body.as_slice(), cond),
        Stmt::Call { .. } => Ok(()),
    }
}

/// Appends those of a loop with this condition.
#[cycle(parts)]
fn put_loop(
    inside: Inside,
    out: &mut Row<Part>,
    site: SiteId,
    body: &[Stmt],
    cond: &Expr,
) -> Result<(), NoMemory>
    ensures { OnOk result (out.new ≡ out.old ++ record { site = site.0; loads = spec.loads_in cond.now; stores = None; until = inside.until }
        ∷ spec.part_lists inside.until body.now) }
{
    inside.put_statement(out, site, cond, None)?;
    put_parts(inside, out, body)?;
    Ok(())
}

#[tactic(auto, using(crate::proofs::PartForms::part_steps))]
#[cycle(parts)]
fn put_parts(inside: Inside, out: &mut Row<Part>, all: &[Stmt]) -> Result<(), NoMemory>
    ensures { OnOk result (out.new ≡ out.old ++ spec.part_lists inside.until all.now) }
{
    for statement in all {
        put_parts_of(inside, out, statement)?;
    }
    Ok(())
}

/// The sites of a statement, in text order.
pub fn parts_of(alloc: Global, statement: &Stmt) -> Result<Row<Part>, NoMemory>
    ensures { IfOk result (λ parts. parts ≡ spec.part_list None statement.now) }
{
    let mut parts = Row::new(alloc);
    let inside = Inside { alloc, until: None };
    put_parts_of(inside, &mut parts, statement)?;
    Ok(parts)
}
