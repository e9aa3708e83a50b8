//! The sites of a region, each with the form of its values.

ghost use Rattle.std.specs.Prelude.{◌≡◌, ◌++◌, ◌∷◌, [], OnOk};
ghost use Rattle.dp_lean_kinds.specs.ColumnKinds as spec;

use dp_base::{NoMemory, Row, SiteId, VarId};
use dp_sites::Question;
use dp_tree::Stmt;

/// What a site tells each time.
#[derive(Clone, Copy)]
pub enum SiteForm {
    /// A value that is stored to a cell of the variable.
    Stored(VarId),
    /// A printed value, or a condition's.
    Single,
}

/// A site with the form of its values.
#[derive(Clone, Copy)]
pub struct FormedSite {
    pub site: SiteId,
    pub form: SiteForm,
}

/// Asks for each statement's site.
pub(crate) struct Forms;

fn put(out: &mut Row<FormedSite>, site: SiteId, form: SiteForm) -> Result<(), NoMemory>
    ensures { OnOk result (out.new ≡ out.old ++ record { site = site; form = form } ∷ []) }
{
    out.push(FormedSite { site, form })
}

impl Question<FormedSite> for Forms {
    ghost gives = { Rattle.dp_lean_kinds.specs.ColumnKinds.formed_at };

    #[tactic(auto, using(crate::proofs::Forms::formed_forms))]
    fn ask(&self, out: &mut Row<FormedSite>, statement: &Stmt) -> Result<(), NoMemory> {
        match statement {
            Stmt::Assign { site, var, .. } => put(out, *site, SiteForm::Stored(*var)),
            Stmt::Store { site, var, .. } => put(out, *site, SiteForm::Stored(*var)),
            Stmt::Print { site, .. } => put(out, *site, SiteForm::Single),
            Stmt::If { site, .. } => put(out, *site, SiteForm::Single),
            Stmt::While { site, .. } => put(out, *site, SiteForm::Single),
            Stmt::Region { site, .. } => put(out, *site, SiteForm::Single),
            Stmt::Break { site, .. } => put(out, *site, SiteForm::Single),
            Stmt::Call { .. } => Ok(()),
        }
    }
}
