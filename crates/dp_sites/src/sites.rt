//! The sites of a region in text order.

ghost use Rattle.std.specs.Prelude.{◌≡◌, ◌++◌, OnOk, IfOk};
ghost use Rattle.dp_sites.specs.Lists as lists;
ghost use Rattle.dp_plan.specs.Written.{region_sites};
ghost use Rattle.dp_tree.specs.Numbering.{number_at};

use crate::walk::{Question, ask_all, ask_each, ask_region};
use dp_base::{NoMemory, Row};
use dp_tree::{Program, Stmt};
use std::alloc::Global;

/// Asks for each statement's site.
struct Sites;

impl Question<u32> for Sites {
    ghost gives = { number_at };

    fn ask(&self, out: &mut Row<u32>, statement: &Stmt) -> Result<(), NoMemory> {
        match statement {
            Stmt::Assign { site, .. } => out.push(site.0),
            Stmt::Store { site, .. } => out.push(site.0),
            Stmt::Print { site, .. } => out.push(site.0),
            Stmt::If { site, .. } => out.push(site.0),
            Stmt::While { site, .. } => out.push(site.0),
            Stmt::Region { site, .. } => out.push(site.0),
            Stmt::Break { site, .. } => out.push(site.0),
            Stmt::Call { .. } => Ok(()),
        }
    }
}

/// Appends the sites of the statement.
#[tactic(auto, using(crate::proofs::ListWalks::numbers_of))]
pub(crate) fn put_sites_of(out: &mut Row<u32>, statement: &Stmt) -> Result<(), NoMemory>
    ensures { OnOk result (out.new ≡ out.old ++ lists.site_list statement.now) }
{
    ask_each(&Sites, out, statement)
}

/// Appends the sites of the statements.
#[tactic(auto, using(crate::proofs::ListWalks::numbers_in))]
pub fn put_sites(out: &mut Row<u32>, all: &[Stmt]) -> Result<(), NoMemory>
    ensures { OnOk result (out.new ≡ out.old ++ lists.site_lists all.now) }
{
    ask_all(&Sites, out, all)
}

/// The sites of a region, in text order.
#[tactic(auto, using(crate::proofs::ListWalks::numbers_in_region))]
pub fn sites_of(alloc: Global, p: &Program, region: u32) -> Result<Row<u32>, NoMemory>
    ensures { IfOk result (λ sites. sites ≡ region_sites p.now region) }
{
    ask_region(alloc, &Sites, p, region)
}
