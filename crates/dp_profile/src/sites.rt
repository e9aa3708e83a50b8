//! The sites of regions in text order.

ghost use Rattle.std.specs.Prelude.{◌≡◌, ◌<◌, ◌∷◌, [], ◌++◌, length, OnOk, OnErr, IfOk};
ghost use Rattle.dp_tree.specs.Numbering as numbering;
ghost use Rattle.dp_profile.specs.Sites.{region_site, regions, site_at, sites};

use dp_base::{NoMemory, Row, SiteId};
use dp_sites::{Question, ask_each};
use dp_tree::{Program, Stmt};
use std::alloc::Global;

/// A site of a region, and whether a condition is evaluated there.
#[derive(Clone, Copy)]
pub struct RegionSite {
    pub site: SiteId,
    pub condition: bool,
}

fn put(out: &mut Row<RegionSite>, site: SiteId, condition: bool) -> Result<(), NoMemory>
    ensures { OnOk result (out.new ≡ out.old ++ region_site site condition ∷ []) }
{
    out.push(RegionSite { site, condition })
}

/// Asks for each statement's site.
struct Sites;

impl Question<RegionSite> for Sites {
    ghost gives = { site_at };

    fn ask(&self, out: &mut Row<RegionSite>, statement: &Stmt) -> Result<(), NoMemory>
        ensures gives { OnOk result (out.new ≡ out.old ++ site_at statement.now) }
        ensures wanting { OnErr result (0 < length (site_at statement.now)) }
    {
        match statement {
            Stmt::Assign { site, .. } => put(out, *site, false),
            Stmt::Store { site, .. } => put(out, *site, false),
            Stmt::Print { site, .. } => put(out, *site, false),
            Stmt::If { site, .. } => put(out, *site, true),
            Stmt::While { site, .. } => put(out, *site, true),
            Stmt::Region { site, .. } => put(out, *site, true),
            Stmt::Break { site, .. } => put(out, *site, true),
            Stmt::Call { .. } => Ok(()),
        }
    }
}

/// The sites of a statement.
fn sites_of(alloc: Global, statement: &Stmt) -> Result<Row<RegionSite>, NoMemory>
    ensures { IfOk result (λ found. found ≡ sites statement.now) }
{
    let mut found = Row::new(alloc);
    ask_each(&Sites, &mut found, statement)?;
    Ok(found)
}

fn is_marked(statement: &Stmt) -> bool
    ensures { result ≡ numbering.is_marked statement.now }
{
    match statement {
        Stmt::Region { .. } => true,
        Stmt::Assign { .. }
        | Stmt::Store { .. }
        | Stmt::Print { .. }
        | Stmt::Break { .. }
        | Stmt::If { .. }
        | Stmt::While { .. }
        | Stmt::Call { .. } => false,
    }
}

/// The sites of each region, in text order.
pub fn regions_of(alloc: Global, p: &Program) -> Result<Row<Row<RegionSite>>, NoMemory>
    ensures { IfOk result (λ out. out ≡ regions p.now) }
{
    let mut out = Row::new(alloc);
    for statement in p.main.as_slice() {
        if is_marked(statement) {
            out.push(sites_of(alloc, statement)?)?;
        }
    }
    Ok(out)
}
