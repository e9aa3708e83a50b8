//! The conditions of a region's `if` and inner `while` statements, each with the sites inside.

ghost use Rattle.std.specs.Prelude.{◌≡◌, IfOk, map};
ghost use Rattle.dp_plan.specs.Enclosing.{if_at, inner_while_at, region_ifs, region_inner_whiles};
ghost use Rattle.dp_plan.specs.Rules.{site_of_condition};

use dp_base::{NoMemory, Row};
use dp_plan::Enclosing;
use dp_sites::{Question, ask_region, put_sites};
use dp_tree::{Program, Stmt};
use std::alloc::Global;

/// Asks for each `if` statement.
#[derive(Drop)]
struct Ifs {
    alloc: Global,
}

impl Question<Enclosing> for Ifs {
    ghost gives = { if_at };

    fn ask(&self, out: &mut Row<Enclosing>, statement: &Stmt) -> Result<(), NoMemory> {
        match statement {
            Stmt::If {
                site,
                then_part,
                else_part,
                ..
            } => {
                let mut inside = Row::new(self.alloc);
                put_sites(&mut inside, then_part.as_slice())?;
                put_sites(&mut inside, else_part.as_slice())?;
                out.push(Enclosing {
                    site: site.0,
                    inside,
                })?;
                Ok(())
            }
            Stmt::Assign { .. }
            | Stmt::Store { .. }
            | Stmt::Print { .. }
            | Stmt::While { .. }
            | Stmt::Region { .. }
            | Stmt::Break { .. }
            | Stmt::Call { .. } => Ok(()),
        }
    }
}

/// Asks for each inner `while` statement.
#[derive(Drop)]
struct InnerWhiles {
    alloc: Global,
}

impl Question<Enclosing> for InnerWhiles {
    ghost gives = { inner_while_at };

    fn ask(&self, out: &mut Row<Enclosing>, statement: &Stmt) -> Result<(), NoMemory> {
        match statement {
            Stmt::While { site, body, .. } => {
                let mut inside = Row::new(self.alloc);
                put_sites(&mut inside, body.as_slice())?;
                out.push(Enclosing {
                    site: site.0,
                    inside,
                })?;
                Ok(())
            }
            Stmt::Assign { .. }
            | Stmt::Store { .. }
            | Stmt::Print { .. }
            | Stmt::If { .. }
            | Stmt::Region { .. }
            | Stmt::Break { .. }
            | Stmt::Call { .. } => Ok(()),
        }
    }
}

/// The `if` statements of a region, in text order.
pub fn ifs_of(alloc: Global, p: &Program, region: u32) -> Result<Row<Enclosing>, NoMemory>
    ensures { IfOk result (λ ifs. ifs ≡ region_ifs p.now region) }
{
    ask_region(alloc, &Ifs { alloc }, p, region)
}

/// The inner `while` statements of a region, in text order.
pub fn inner_whiles_of(alloc: Global, p: &Program, region: u32) -> Result<Row<Enclosing>, NoMemory>
    ensures { IfOk result (λ whiles. whiles ≡ region_inner_whiles p.now region) }
{
    ask_region(alloc, &InnerWhiles { alloc }, p, region)
}

/// The conditions' sites.
pub fn condition_sites(alloc: Global, all: &[Enclosing]) -> Result<Row<u32>, NoMemory>
    ensures { IfOk result (λ sites. sites ≡ map site_of_condition all.now) }
{
    let mut sites = Row::new(alloc);
    for condition in all {
        sites.push(condition.site)?;
    }
    Ok(sites)
}
