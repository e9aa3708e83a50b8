//! The sites of a region, each with what it loads and stores and what stands around it.
ghost use Rattle.std.specs.Prelude.{◌≡◌, ◌++◌, ◌∷◌, [], OnOk, IfOk, Option, Some, None};
ghost use Rattle.dp_depend.specs.Node as spec;
ghost use Rattle.dp_depend.specs.Lists as lists;

use crate::loads::{loads_of, loads_of_both};
use dp_base::{NoMemory, Row, SiteId, VarId};
use dp_plan::is_region;
use dp_tree::{Expr, Program, Stmt};
use std::alloc::Global;

/// A site of a region.
#[derive(Drop)]
pub struct Node {
    pub site: SiteId,
    /// It is the condition of an `if`.
    pub is_if: bool,
    /// The variables that it may load.
    pub loads: Row<u32>,
    pub stores: Option<u32>,
    /// The conditions inside whose statements it stands, the region's first.
    pub around: Row<u32>,
    /// The outermost inner `while` that it is a site of, by the site of its condition.
    pub outer_loop: Option<u32>,
}

/// The numbers and one more.
fn with_one(alloc: Global, numbers: &[u32], last: u32) -> Result<Row<u32>, NoMemory>
    ensures { IfOk result (λ row. row ≡ numbers.now ++ last ∷ []) }
{
    let mut row = copied(alloc, numbers)?;
    row.push(last)?;
    Ok(row)
}

fn copied(alloc: Global, numbers: &[u32]) -> Result<Row<u32>, NoMemory>
    ensures { IfOk result (λ row. row ≡ numbers.now) }
{
    let items = Vec::from_slice(alloc, numbers)?;
    Ok(Row::from_vec(items))
}

/// Where a statement stands: inside those of these conditions, and in this outermost inner `while`.
#[derive(Clone, Copy)]
struct Inside<'a> {
    alloc: Global,
    around: &'a [u32],
    outer_loop: Option<u32>,
}

impl Inside<'_> {
    /// Where the sites of an inner `while` with this condition stand.
    fn in_loop(self, site: SiteId) -> Self
        ensures around { result.around.now ≡ self.entry.around.now }
        ensures outer_loop { result.outer_loop ≡ Some (spec.loop_of self.entry.outer_loop site.0) }
    {
        let outermost = match self.outer_loop {
            Some(outermost) => outermost,
            None => site.0,
        };
        Inside {
            alloc: self.alloc,
            around: self.around,
            outer_loop: Some(outermost),
        }
    }

    /// Appends a node that isn't an `if`.
    fn put_node(
        self,
        out: &mut Row<Node>,
        site: SiteId,
        loads: Row<u32>,
        stores: Option<u32>,
    ) -> Result<(), NoMemory>
        ensures { OnOk result (out.new ≡ out.old ++ spec.plain_node self.entry.around.now self.entry.outer_loop site loads stores ∷ []) }
    {
        let around = copied(self.alloc, self.around)?;
        out.push(Node {
            site,
            is_if: false,
            loads,
            stores,
            around,
            outer_loop: self.outer_loop,
        })
    }

    /// Appends the node of an `if`.
    fn put_if(self, out: &mut Row<Node>, site: SiteId, cond: &Expr) -> Result<(), NoMemory>
        ensures { OnOk result (out.new ≡ out.old ++ spec.if_node self.entry.around.now self.entry.outer_loop site (lists.load_list cond.now) ∷ []) }
    {
        let loads = loads_of(self.alloc, cond)?;
        let around = copied(self.alloc, self.around)?;
        out.push(Node {
            site,
            is_if: true,
            loads,
            stores: None,
            around,
            outer_loop: self.outer_loop,
        })
    }

    /// Appends the node of a site that evaluates one expression.
    fn put_value(
        self,
        out: &mut Row<Node>,
        site: SiteId,
        value: &Expr,
        stores: Option<u32>,
    ) -> Result<(), NoMemory>
        ensures { OnOk result (out.new ≡ out.old ++ spec.plain_node self.entry.around.now self.entry.outer_loop site (lists.load_list value.now) stores ∷ []) }
    {
        let loads = loads_of(self.alloc, value)?;
        self.put_node(out, site, loads, stores)
    }

    /// Appends the node of a store to an element.
    fn put_store(
        self,
        out: &mut Row<Node>,
        site: SiteId,
        var: VarId,
        index: &Expr,
        value: &Expr,
    ) -> Result<(), NoMemory>
        ensures { OnOk result (out.new ≡ out.old ++ spec.plain_node self.entry.around.now self.entry.outer_loop site (lists.load_list index.now
            ++ lists.load_list value.now) (Some var.0) ∷ []) }
    {
        let loads = loads_of_both(self.alloc, index, value)?;
        self.put_node(out, site, loads, Some(var.0))
    }
}

/// Appends the nodes of a statement.
#[tactic(auto, using(crate::proofs::NodeForms::node_forms))]
#[cycle(nodes)]
fn put_nodes_of(inside: Inside<'_>, out: &mut Row<Node>, statement: &Stmt) -> Result<(), NoMemory>
    ensures { OnOk result (out.new ≡ out.old ++ lists.node_list inside.entry.around.now inside.entry.outer_loop statement.now) }
{
    match statement {
        Stmt::Assign { site, var, value } => inside.put_value(out, *site, value, Some(var.0)),
        Stmt::Store {
            site,
            var,
            index,
            value,
        } => inside.put_store(out, *site, *var, index, value),
        Stmt::Print { site, value } => inside.put_value(out, *site, value, None),
        Stmt::Break { site, cond } => inside.put_value(out, *site, cond, None),
        Stmt::If {
            site,
            cond,
            then_part,
            else_part,
        } => {
            inside.put_if(out, *site, cond)?;
            put_part(inside, out, *site, then_part.as_slice())?;
            put_part(inside, out, *site, else_part.as_slice())?;
            Ok(())
        }
        Stmt::While { site, cond, body } => {
            put_loop(inside.in_loop(*site), out, *site, body.as_slice(), cond)
        }
        Stmt::Region {
            site,
            cond,
            body,
            ..
        } => put_loop(inside, out, *site, body.as_slice(), cond),
        Stmt::Call { .. } => Ok(()),
    }
}

/// Appends those of a loop with this condition.
#[cycle(nodes)]
fn put_loop(
    inside: Inside<'_>,
    out: &mut Row<Node>,
    site: SiteId,
    body: &[Stmt],
    cond: &Expr,
) -> Result<(), NoMemory>
    ensures { OnOk result (out.new ≡ out.old ++ spec.plain_node inside.entry.around.now inside.entry.outer_loop site (lists.load_list cond.now) None
        ∷ lists.node_lists (inside.entry.around.now ++ site.0 ∷ []) inside.entry.outer_loop body.now) }
{
    inside.put_value(out, site, cond, None)?;
    put_part(inside, out, site, body)?;
    Ok(())
}

/// Appends those of a part of a statement with this condition.
#[cycle(nodes)]
fn put_part(
    inside: Inside<'_>,
    out: &mut Row<Node>,
    site: SiteId,
    part: &[Stmt],
) -> Result<(), NoMemory>
    ensures { OnOk result (out.new ≡ out.old ++ lists.node_lists (inside.entry.around.now ++ site.0 ∷ []) inside.entry.outer_loop part.now) }
{
    let around = with_one(inside.alloc, inside.around, site.0)?;
    let inner = Inside {
        alloc: inside.alloc,
        around: around.as_slice(),
        outer_loop: inside.outer_loop,
    };
    put_nodes(inner, out, part)?;
    Ok(())
}

/// Appends those of several statements.
#[cycle(nodes)]
fn put_nodes(inside: Inside<'_>, out: &mut Row<Node>, all: &[Stmt]) -> Result<(), NoMemory>
    ensures { OnOk result (out.new ≡ out.old ++ lists.node_lists inside.entry.around.now inside.entry.outer_loop all.now) }
{
    for statement in all {
        put_nodes_of(inside, out, statement)?;
    }
    Ok(())
}

fn put_region(alloc: Global, out: &mut Row<Node>, region: u32, all: &[Stmt]) -> Result<(), NoMemory>
    ensures { OnOk result (out.new ≡ out.old ++ lists.nodes_in_region region all.now) }
{
    let inside = Inside {
        alloc,
        around: &[],
        outer_loop: None,
    };
    for statement in all {
        if is_region(region, statement) {
            put_nodes_of(inside, out, statement)?;
        }
    }
    Ok(())
}

/// The sites of a region, in text order.
#[tactic(auto, using(crate::proofs::NodeForms::region_is))]
pub fn nodes_of(alloc: Global, p: &Program, region: u32) -> Result<Row<Node>, NoMemory>
    ensures { IfOk result (λ nodes. nodes ≡ spec.region_nodes p.now region) }
{
    let mut nodes = Row::new(alloc);
    put_region(alloc, &mut nodes, region, p.main.as_slice())?;
    Ok(nodes)
}
