//! Which statements are quiet, and when it pays to tell a run of them as a block.

ghost use Rattle.std.specs.Prelude.{◌≡◌, ◌==◌, length};
ghost use Rattle.std.specs.List.{list_any};
ghost use Rattle.dp_tree.specs.Eval.{first_cell};
ghost use Rattle.dp_semantics.specs.Fits.{has_cell};
ghost use Rattle.dp_net.specs.Quiet.{is_assumed_at};
ghost use Rattle.dp_lean_code.specs.steps.Runs as spec;

use dp_base::{CellId, SiteId, VarId};
use dp_code::{first_of, length_of};
use dp_plan::Plan;
use dp_tree::{Expr, Program, Stmt};

/// A program and its plan, with the homes of the region's private variables.
#[derive(Clone, Copy)]
pub struct Runs<'a> {
    pub program: &'a Program,
    pub plan: &'a Plan,
    pub homes: &'a [Option<u32>],
}

impl<'a> Runs<'a> {
    fn has_cell(self, var: VarId) -> bool
        ensures { result ≡ has_cell self.entry.program.now var.0 }
    {
        0 < length_of(self.program, var)
    }

    /// The variables that the expression loads have cells.
    #[tactic(auto, using(crate::proofs::RunForms::known_forms))]
    fn is_known(self, e: &Expr) -> bool
        ensures { result ≡ spec.known_in self.entry.program.now self.entry.plan.now e.now }
    {
        match e {
            Expr::Number(_) | Expr::InputLen => true,
            Expr::Input(index) => self.is_known(index.get()),
            Expr::Scalar(var) => self.has_cell(*var),
            Expr::Element(var, index) => self.has_cell(*var) && self.is_known(index.get()),
            Expr::Unary(_, a) => self.is_known(a.get()),
            Expr::Binary(_, a, b) => self.is_known(a.get()) && self.is_known(b.get()),
            Expr::And(a, b) => self.is_known(a.get()) && self.is_known(b.get()),
            Expr::Or(a, b) => self.is_known(a.get()) && self.is_known(b.get()),
        }
    }

    /// The plan assumes an outcome at the site.
    fn is_assumed(self, site: SiteId) -> bool
        ensures { result ≡ list_any (is_assumed_at site.0) self.entry.plan.now.assume }
    {
        for assumed in self.plan.assume.as_slice() {
            if assumed.site.0 == site.0 {
                return true;
            }
        }
        false
    }

    fn is_quiet_site(self, stage: u32, site: SiteId) -> bool
        ensures { result ≡ spec.quiet_site self.entry.program.now self.entry.plan.now stage site.0 }
    {
        self.plan.stage(self.program, site) == stage
            && (!self.plan.checked(self.program, site)
                && (site.0 != self.plan.first_site(self.program) && !self.is_assumed(site)))
    }

    /// The statement is quiet in the stage, with all those inside it.
    #[tactic(auto, using(crate::proofs::RunForms::quiet_forms))]
    #[cycle(quiet)]
    pub fn is_quiet(self, stage: u32, statement: &Stmt) -> bool
        ensures { result ≡ spec.quiet_in self.entry.program.now self.entry.plan.now stage statement.now }
    {
        match statement {
            Stmt::Assign { site, var, value } => {
                self.is_quiet_site(stage, *site) && (self.is_known(value) && self.has_cell(*var))
            }
            Stmt::Store {
                site,
                var,
                index,
                value,
            } => {
                self.is_quiet_site(stage, *site)
                    && ((self.is_known(index) && self.is_known(value)) && self.has_cell(*var))
            }
            Stmt::If {
                site,
                cond,
                then_part,
                else_part,
            } => {
                (self.is_quiet_site(stage, *site) && self.is_known(cond))
                    && (self.are_quiet(stage, then_part.as_slice())
                        && self.are_quiet(stage, else_part.as_slice()))
            }
            Stmt::While { site, cond, body } => {
                (self.is_quiet_site(stage, *site) && self.is_known(cond))
                    && self.are_quiet(stage, body.as_slice())
            }
            Stmt::Print { .. } => false,
            Stmt::Break { .. } => false,
            Stmt::Region { .. } => false,
            Stmt::Call { .. } => false,
        }
    }

    #[cycle(quiet)]
    fn are_quiet(self, stage: u32, all: &[Stmt]) -> bool
        ensures { result ≡ spec.all_quiet_in self.entry.program.now self.entry.plan.now stage all.now }
    {
        for statement in all {
            if !self.is_quiet(stage, statement) {
                return false;
            }
        }
        true
    }

    /// The length of the front that is quiet in the stage.
    pub fn run(self, stage: u32, all: &[Stmt]) -> usize
        ensures { result ≡ length (spec.run_in self.entry.program.now self.entry.plan.now stage all.now) }
    {
        for (place, statement) in all.iter().enumerate() {
            if !self.is_quiet(stage, statement) {
                return place;
            }
        }
        all.len()
    }

    /// The stage's blocks needn't tell what they store into the cell.
    fn hides(self, stage: u32, cell: CellId) -> bool
        ensures { result ≡ spec.hides_from self.entry.program.now self.entry.plan.now stage cell.0 0 self.entry.homes.now }
    {
        for (place, home) in self.homes.iter().enumerate() {
            if is_home(stage, *home) && self.is_at(place, cell) {
                return true;
            }
        }
        false
    }

    /// The variable of this place has the cell for its first one.
    fn is_at(self, place: usize, cell: CellId) -> bool
        ensures { result ≡ (first_cell self.entry.program.now (record { 0 = place }) == cell.0) }
    {
        first_at(self.program, place) == cell.0
    }

    /// The statement has an event that tells no store.
    #[tactic(auto, using(crate::proofs::RunForms::gains_forms))]
    fn gains(self, stage: u32, statement: &Stmt) -> bool
        ensures { result ≡ spec.gains_in self.entry.program.now self.entry.plan.now self.entry.homes.now stage statement.now }
    {
        match statement {
            Stmt::Assign { var, .. } => self.hides(stage, first_of(self.program, *var)),
            Stmt::If { .. } => true,
            Stmt::While { .. } => true,
            Stmt::Store { .. } => false,
            Stmt::Print { .. } => false,
            Stmt::Break { .. } => false,
            Stmt::Region { .. } => false,
            Stmt::Call { .. } => false,
        }
    }

    /// It pays to tell the run as a block.
    pub fn pays(self, stage: u32, block: &[Stmt]) -> bool
        ensures { result ≡ list_any (spec.gains_in self.entry.program.now self.entry.plan.now self.entry.homes.now stage) block.now }
    {
        for statement in block {
            if self.gains(stage, statement) {
                return true;
            }
        }
        false
    }
}

/// The first cell of the variable of this place.
pub(crate) fn first_at(p: &Program, place: usize) -> u32
    ensures { result ≡ first_cell p.now (record { 0 = place }) }
{
    match p.vars.get(place) {
        Some(info) => info.first.0,
        None => 0,
    }
}

/// The variable's home is this stage.
pub(crate) fn is_home(stage: u32, home: Option<u32>) -> bool
    ensures { result ≡ spec.is_home stage home }
{
    match home {
        Some(home) => home == stage,
        None => false,
    }
}
