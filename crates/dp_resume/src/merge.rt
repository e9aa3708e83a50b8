//! Reports that were saved, gone on with by those of a run behind them.
ghost use Rattle.std.specs.Prelude.{◌≡◌, ◌≤◌, ◌<◌, ◌+◌, ◌^◌, ◌++◌, map, take, length, All, OnOk, IfOk};
ghost use Rattle.dp_base.specs.declared.limits.TheConstants.{LISTED as most_listed};
ghost use Rattle.dp_resume.specs.steps.Merging as spec;

use dp_base::limits::LISTED;
use dp_base::{NoMemory, RegionReport, Row};

/// Lists the numbers of iterations behind so many others, as far as numbers are listed.
fn list_on(listed: &mut Row<u64>, before: u64, numbers: &[u64]) -> Result<(), NoMemory>
    requires before { before < 2 ^ 63 }
    requires numbers { All (λ i. i < 2 ^ 63) numbers.now }
    requires room { length listed.old ≤ most_listed }
    ensures { OnOk result (listed.new ≡ take most_listed (listed.old ++ map (λ i. before + i) numbers.now)) }
{
    for number in numbers {
        if listed.len() >= LISTED as usize {
            return Ok(());
        }
        listed.push(before + *number)?;
    }
    Ok(())
}

/// A saved report of some iterations is gone on with by that of the iterations behind them.
fn go_on(saved: &mut RegionReport, behind: &RegionReport) -> Result<(), NoMemory>
    requires saved { spec.IsSmall saved.old }
    requires behind { spec.IsSmall behind.now }
    ensures { OnOk result (saved.new ≡ spec.with_behind saved.old behind.now) }
{
    list_on(
        &mut saved.recovered,
        saved.iterations,
        behind.recovered.as_slice(),
    )?;
    saved.iterations += behind.iterations;
    saved.recovered_count += behind.recovered_count;
    Ok(())
}

/// The reports of a run, the first of which goes on with a saved one.
fn with_first(last: RegionReport, told: Row<RegionReport>) -> Result<Row<RegionReport>, NoMemory>
    requires last { spec.IsSmall last }
    requires told { All spec.IsSmall told }
    ensures { IfOk result (λ reports. reports ≡ spec.first_behind last told) }
{
    let (mut last, mut told) = (last, told);
    match told.get(0) {
        None => {
            told.push(last)?;
            Ok(told)
        }
        Some(first) => {
            go_on(&mut last, first)?;
            told.set(0, last);
            Ok(told)
        }
    }
}

/// The saved reports, of which the last is gone on with by the first one of the run, and behind them the run's other ones.
pub(crate) fn merged(
    saved: Row<RegionReport>,
    told: Row<RegionReport>,
) -> Result<Row<RegionReport>, NoMemory>
    requires saved { All spec.IsSmall saved }
    requires told { All spec.IsSmall told }
    ensures { IfOk result (λ reports. reports ≡ spec.merged saved told) }
{
    let mut reports = saved;
    match reports.pop() {
        None => Ok(told),
        Some(last) => {
            let behind = with_first(last, told)?;
            reports.append(behind)?;
            Ok(reports)
        }
    }
}
