//! What is told of a region while its iterations are counted.
ghost use Rattle.std.specs.Prelude.{◌≡◌, ◌<◌, ◌-◌, ◌^◌, true, length, is_some, IfOk, OnErr, OnOk};
ghost use Rattle.std.specs.Option.{option_map};
ghost use Rattle.dp_prepared.specs.Planned.{IsPlanned};
ghost use Rattle.dp_epoch.specs.Accounts.{CountsAgain, begun_account, seen_again, seen_clean};

use crate::ends::RegionEnd;
use crate::report::{LISTED, count_recovered, nothing_counted};
use crate::seeing::{cause_of, views_for};
use dp_base::{Boxed, Cells, NoMemory, RegionReport};
use dp_plan::Plan;
use dp_tree::Program;
use dp_view::Views;
use std::alloc::Global;

/// A region's report, and what its stages see of the source's run where causes are asked for. That is kept as long as the
/// report lists causes.
#[derive(Drop)]
pub struct Account<'v> {
    pub report: RegionReport,
    /// Whether causes are asked for. Where they aren't, the report has none.
    pub(crate) why: bool,
    pub(crate) views: Option<Boxed<Views<'v>>>,
}

impl<'v> Account<'v> {
    /// Of the plan's region, which begins with this memory.
    pub(crate) fn begin(
        alloc: Global,
        program: &'v Program,
        plan: &'v Plan,
        cells: &Cells,
        why: bool,
    ) -> Result<Account<'v>, NoMemory>
        requires planned { IsPlanned program.now plan.now }
        ensures account { IfOk result (λ account. account ≡ begun_account program.now plan.now cells.now why) }
        ensures wanting { OnErr result (why ≡ true) }
    {
        let views = views_for(alloc, program, plan, cells, why)?;
        let report = nothing_counted(alloc, plan.region);
        Ok(Account { report, why, views })
    }

    /// The region's report.
    pub fn into_report(self) -> RegionReport
        ensures { result ≡ self.entry.report }
    {
        let Account {
            report,
            why: _,
            views: _,
        } = self;
        report
    }

    /// Whether what the stages see is kept.
    pub(crate) fn is_watched(&self) -> bool
        ensures { result ≡ is_some self.now.views }
    {
        self.views.is_some()
    }

    /// The iteration behind a clean one begins.
    pub(crate) fn go_on(&mut self)
        ensures { self.new ≡ record self.old { views = option_map seen_clean self.old.views } }
    {
        match &mut self.views {
            None => {}
            Some(boxed) => {
                let views = boxed.get_mut();
                views.settle();
                views.go_on();
            }
        }
    }

    /// Counts an iteration that was executed again, and whose re-execution ended so. Behind it a new epoch begins; where no
    /// further cause is listed, nothing is kept for causes any more.
    pub(crate) fn count_again(
        &mut self,
        number: u64,
        end: Option<RegionEnd>,
    ) -> Result<(), NoMemory>
        requires number { number < 2 ^ 64 - 1 }
        requires again { self.old.report.recovered_count < 2 ^ 64 - 1 }
        ensures ok { OnOk result (CountsAgain number end self.old self.new) }
        ensures wanting { OnErr result (length self.old.report.recovered < 1000) }
    {
        let cause = cause_of(&self.views, end);
        count_recovered(&mut self.report, number, cause)?;
        if self.report.recovered.len() < LISTED {
            self.begin_epoch();
        } else {
            self.views = None;
        }
        Ok(())
    }

    /// A new epoch begins behind an iteration that was executed again.
    fn begin_epoch(&mut self)
        ensures { self.new ≡ record self.old { views = option_map seen_again self.old.views } }
    {
        match &mut self.views {
            None => {}
            Some(boxed) => {
                let views = boxed.get_mut();
                views.settle();
                views.begin_epoch();
            }
        }
    }
}
