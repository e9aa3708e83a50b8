//! A region's report while its iterations are counted.
ghost use Rattle.std.specs.Prelude.{◌≡◌, ◌<◌, ◌+◌, ◌-◌, ◌^◌, Bool, List, ℕ, [], ◌∷◌, ◌++◌, length, OnErr, OnOk};
ghost use Rattle.dp_base.specs.declared.Cause.{Cause as cause_value};
ghost use Rattle.dp_semantics.specs.Reported.{report_of};
ghost use Rattle.dp_epoch.specs.Accounts.{Explains, cause_listed, told_when};

use dp_base::{Cause, NoMemory, RegionReport, Row};
use std::alloc::Global;

/// So many of the iterations that are executed again have their numbers and causes in the report.
pub(crate) const LISTED: usize = 1000;

/// The report of this region before its first iteration.
pub fn nothing_counted(alloc: Global, region: u32) -> RegionReport
    ensures { result ≡ record { region = region; iterations = 0; recovered_count = 0; recovered = []; causes = [] } }
{
    RegionReport {
        region,
        iterations: 0,
        recovered_count: 0,
        recovered: Row::new(alloc),
        causes: Row::new(alloc),
    }
}

/// Counts an iteration that was executed again, for this cause if one is told.
pub(crate) fn count_recovered(
    report: &mut RegionReport,
    number: u64,
    cause: Option<Cause>,
) -> Result<(), NoMemory>
    requires number { number < 2 ^ 64 - 1 }
    requires again { report.old.recovered_count < 2 ^ 64 - 1 }
    ensures counted { OnOk result ((why : Bool) (region n : ℕ) (again : List ℕ) (cause_is : ℕ → cause_value) →
        report.old ≡ told_when why (report_of region n again cause_is) → Explains why again cause (cause_is number) →
        report.new ≡ told_when why (report_of region (number + 1) (again ++ number ∷ []) cause_is)) }
    ensures wanting { OnErr result (length report.old.recovered < 1000) }
{
    list(report, number, cause)?;
    report.recovered_count += 1;
    report.iterations = number + 1;
    Ok(())
}

/// Appends a number, and its cause if one is told, to the lists of the first 1,000.
fn list(report: &mut RegionReport, number: u64, cause: Option<Cause>) -> Result<(), NoMemory>
    ensures listed { OnOk result ((why : Bool) (region n : ℕ) (again : List ℕ) (cause_is : ℕ → cause_value) →
        report.old ≡ told_when why (report_of region n again cause_is) → Explains why again cause (cause_is number) →
        report.new ≡ told_when why (record (report_of region n (again ++ number ∷ []) cause_is) { recovered_count = length again })) }
    ensures wanting { OnErr result (length report.old.recovered < 1000) }
    ensures count { OnOk result (report.new.recovered_count ≡ report.old.recovered_count) }
{
    if report.recovered.len() >= LISTED {
        return Ok(());
    }
    report.recovered.push(number)?;
    push_cause(&mut report.causes, cause)?;
    Ok(())
}

/// Appends the cause, if one is told.
fn push_cause(causes: &mut Row<Cause>, cause: Option<Cause>) -> Result<(), NoMemory>
    ensures { OnOk result (causes.new ≡ causes.old ++ cause_listed cause) }
{
    match cause {
        Some(cause) => causes.push(cause)?,
        None => {}
    }
    Ok(())
}
