//! The sites of a region in text order, with the variables that each loads and stores.

ghost use Rattle.std.specs.Prelude.{◌≡◌, ◌++◌, ◌∷◌, [], IfOk, OnOk, Some, None};
ghost use Rattle.dp_lean_code.specs.steps.Accesses as spec;

use dp_base::{NoMemory, Row, SiteId, VarId};
use dp_sites::{Question, ask_region};
use dp_tree::{Expr, Program, Stmt};
use std::alloc::Global;

/// A site with the variables that it loads and the one that it stores, if any.
#[derive(Drop)]
pub struct SiteAccess {
    pub site: u32,
    pub loads: Row<u32>,
    pub stores: Option<u32>,
}

/// Appends the variables that the expression may load.
#[tactic(auto, using(crate::proofs::AccessForms::loaded_forms))]
fn put_loaded(out: &mut Row<u32>, e: &Expr) -> Result<(), NoMemory>
    ensures { OnOk result (out.new ≡ out.old ++ spec.loaded_list e.now) }
{
    match e {
        Expr::Number(_) | Expr::InputLen => Ok(()),
        Expr::Input(index) => put_loaded(out, index.get()),
        Expr::Scalar(var) => out.push(var.0),
        Expr::Element(var, index) => {
            out.push(var.0)?;
            put_loaded(out, index.get())?;
            Ok(())
        }
        Expr::Unary(_, a) => put_loaded(out, a.get()),
        Expr::Binary(_, a, b) => {
            put_loaded(out, a.get())?;
            put_loaded(out, b.get())?;
            Ok(())
        }
        Expr::And(a, b) => {
            put_loaded(out, a.get())?;
            put_loaded(out, b.get())?;
            Ok(())
        }
        Expr::Or(a, b) => {
            put_loaded(out, a.get())?;
            put_loaded(out, b.get())?;
            Ok(())
        }
    }
}

/// Asks for each statement's site, with what it loads and stores.
#[derive(Clone, Copy)]
struct Accesses {
    alloc: Global,
}

impl Accesses {
    fn put(
        &self,
        out: &mut Row<SiteAccess>,
        site: SiteId,
        e: &Expr,
        stores: Option<u32>,
    ) -> Result<(), NoMemory>
        ensures { OnOk result (out.new ≡ out.old ++ record { site = site.0; loads = spec.loaded_list e.now; stores = stores } ∷ []) }
    {
        let mut loads = Row::new(self.alloc);
        put_loaded(&mut loads, e)?;
        out.push(SiteAccess {
            site: site.0,
            loads,
            stores,
        })
    }

    fn put_store(
        &self,
        out: &mut Row<SiteAccess>,
        site: SiteId,
        var: VarId,
        index: &Expr,
        e: &Expr,
    ) -> Result<(), NoMemory>
        ensures { OnOk result (out.new ≡ out.old ++ record { site = site.0; loads = spec.loaded_list index.now ++ spec.loaded_list e.now; stores = Some var.0 }
            ∷ []) }
    {
        let mut loads = Row::new(self.alloc);
        put_loaded(&mut loads, index)?;
        put_loaded(&mut loads, e)?;
        out.push(SiteAccess {
            site: site.0,
            loads,
            stores: Some(var.0),
        })
    }
}

impl Question<SiteAccess> for Accesses {
    ghost gives = { Rattle.dp_lean_code.specs.steps.Accesses.accessed_at };

    #[tactic(auto, using(crate::proofs::AccessForms::accessed_forms))]
    fn ask(&self, out: &mut Row<SiteAccess>, statement: &Stmt) -> Result<(), NoMemory> {
        match statement {
            Stmt::Assign { site, var, value } => self.put(out, *site, value, Some(var.0)),
            Stmt::Store {
                site,
                var,
                index,
                value,
            } => self.put_store(out, *site, *var, index, value),
            Stmt::Print { site, value } => self.put(out, *site, value, None),
            Stmt::If { site, cond, .. } => self.put(out, *site, cond, None),
            Stmt::While { site, cond, .. } => self.put(out, *site, cond, None),
            Stmt::Region { site, cond, .. } => self.put(out, *site, cond, None),
            Stmt::Break { site, cond } => self.put(out, *site, cond, None),
            Stmt::Call { .. } => Ok(()),
        }
    }
}

/// The sites of a region.
#[tactic(auto, using(crate::proofs::AccessForms::region_accessed))]
pub fn accesses_of(alloc: Global, p: &Program, region: u32) -> Result<Row<SiteAccess>, NoMemory>
    ensures { IfOk result (λ found. found ≡ spec.region_rows p.now region) }
{
    ask_region(alloc, &Accesses { alloc }, p, region)
}
