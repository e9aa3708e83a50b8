//! Which sites a plan has checked, looked up in its table.

ghost use Rattle.std.specs.Prelude.{◌≡◌, slice_get, true};
ghost use Rattle.std.specs.List.{list_all};
ghost use Rattle.dp_plan.specs.Access.{region_accesses};
ghost use Rattle.dp_plan.specs.Checked.{is_checked};
ghost use Rattle.dp_plan.specs.CheckedTable as table;

use crate::Plan;
use dp_base::SiteId;
use dp_tree::Program;

impl Plan {
    /// Whether each load of the site is compared with the source's. It takes no memory, and looks the answer up.
    pub fn checked(&self, p: &Program, site: SiteId) -> bool
        ensures looked_up { result ≡ table.table_says p.now self.now site.0 }
        ensures of_the_text { table.IsTabled p.now self.now → result ≡ is_checked p.now self.now site.0 }
    {
        let first = self.first_site(p);
        first <= site.0 && self.says_yes((site.0 - first) as usize)
    }

    fn says_yes(&self, place: usize) -> bool
        ensures { result ≡ table.says_yes (slice_get self.now.checked_at place) }
    {
        match self.checked_at.get(place) {
            Some(answer) => *answer,
            None => false,
        }
    }
}

/// Where each site of the region has a stage, the table is right about every site.
#[tactic(auto, using(crate::proofs::TableLemmas::table_right))]
pub fn tables_are_right(p: &Program, plan: &Plan)
    requires staged { list_all (table.is_staged p.now plan.now) (region_accesses p.now plan.now) ≡ true }
    ensures { table.IsTabled p.now (table.with_table p.now plan.now) }
{}
