//! The site of a statement.
ghost use Rattle.std.specs.Prelude.{◌≡◌};
ghost use Rattle.dp_tree.specs.Step as definition;
ghost use Rattle.dp_tree.specs.declared.Stmt.{out-Stmt};

use dp_base::{Fault, FaultKind, SiteId};
use dp_tree::{Program, Stmt};

/// The site of a statement. A call has none.
pub(crate) fn site_of(statement: &Stmt) -> SiteId
    ensures { result ≡ definition.site_of (out-Stmt statement.now) }
{
    match statement {
        Stmt::Assign { site, .. } => *site,
        Stmt::Store { site, .. } => *site,
        Stmt::Print { site, .. } => *site,
        Stmt::If { site, .. } => *site,
        Stmt::While { site, .. } => *site,
        Stmt::Region { site, .. } => *site,
        Stmt::Break { site, .. } => *site,
        Stmt::Call { .. } => SiteId(0),
    }
}

pub(crate) fn fault_at(program: &Program, site: SiteId, kind: FaultKind) -> Fault
    ensures { result ≡ record { kind = kind; line = definition.line_of program.now site } }
{
    let line = match program
        .sites
        .as_slice()
        .get(site.0.saturating_sub(1) as usize)
    {
        Some(info) => info.line,
        None => 0,
    };
    Fault { kind, line }
}
