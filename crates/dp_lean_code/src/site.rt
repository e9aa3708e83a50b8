//! The site of a statement.

ghost use Rattle.std.specs.Prelude.{◌≡◌};
ghost use Rattle.dp_tree.specs.Step as definition;
ghost use Rattle.dp_tree.specs.declared.Stmt.{out-Stmt};

use dp_base::SiteId;
use dp_tree::Stmt;

/// The site of a statement. A call has none.
pub fn site_of(statement: &Stmt) -> SiteId
    ensures { result ≡ definition.site_of (out-Stmt statement.now) }
{
    match statement {
        Stmt::Assign { site, .. } => *site,
        Stmt::Store { site, .. } => *site,
        Stmt::Print { site, .. } => *site,
        Stmt::If { site, .. } => *site,
        Stmt::While { site, .. } => *site,
        Stmt::Region { site, .. } => *site,
        Stmt::Break { site, .. } => *site,
        Stmt::Call { .. } => SiteId(0),
    }
}
