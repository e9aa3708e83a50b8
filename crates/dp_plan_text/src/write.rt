//! Plans as a text.

ghost use Rattle.std.specs.Prelude.{◌≡◌, ◌++◌, OnOk, IfOk};
ghost use Rattle.dp_text.specs.Labels.{spaced};
ghost use Rattle.dp_plan_text.specs.declared.line.Line.TheVariants as line;
ghost use Rattle.dp_plan_text.specs.PlanText as plan_text;
ghost use Rattle.dp_plan.specs.GivenPlans.{plans_version};
ghost use Rattle.dp_plan_text.specs.WrittenText as text;

use dp_base::{NoMemory, Row, SiteId};
use dp_plan::{Plan, StageKind};
use dp_sites::sites_of;
use dp_text::put_labelled;
use dp_tree::{Assume, Program};
use std::alloc::Global;

/// The text of plans of one version. What it writes of valid plans, one for each region in order, is read back as these plans.
pub fn write_plans(alloc: Global, plans: &[Plan], p: &Program) -> Result<Row<u8>, NoMemory>
    ensures { IfOk result (λ bytes. bytes ≡ text.plans_text p.now plans.now) }
{
    let mut out = Row::new(alloc);
    put_head(&mut out, is_proved(plans))?;
    for plan in plans {
        put_plan(alloc, &mut out, plan, p)?;
    }
    out.extend_from_slice(b"end\n")?;
    Ok(out)
}

/// The version of plans that have one: without a plan, the second.
fn is_proved(plans: &[Plan]) -> bool
    ensures { result ≡ plans_version plans.now }
{
    match plans {
        [] => true,
        [first, ..] => first.proved,
    }
}

fn put_head(out: &mut Row<u8>, proved: bool) -> Result<(), NoMemory>
    ensures { OnOk result (out.new ≡ out.old ++ text.plan_line_text (line.Head proved)) }
{
    put_labelled(out, b"plan ", version_number(proved))?;
    out.push(b'\n')
}

fn version_number(proved: bool) -> u64
    ensures { result ≡ plan_text.version_number proved }
{
    if proved { 2 } else { 1 }
}

fn put_plan(alloc: Global, out: &mut Row<u8>, plan: &Plan, p: &Program) -> Result<(), NoMemory>
    ensures { OnOk result (out.new ≡ out.old ++ text.plan_text p.now plan.now) }
{
    let sites = sites_of(alloc, p, plan.region)?;
    put_region(out, plan.region, plan.words)?;
    put_stages(out, plan, p, sites.as_slice())?;
    put_assumed(out, plan.assume.as_slice())?;
    Ok(())
}

fn put_region(out: &mut Row<u8>, region: u32, words: u32) -> Result<(), NoMemory>
    ensures { OnOk result (out.new ≡ out.old ++ text.plan_line_text (line.Region region words)) }
{
    put_labelled(out, b"region ", u64::from(region))?;
    put_labelled(out, b" words ", u64::from(words))?;
    out.push(b'\n')
}

/// A line for each stage, which lists those of these sites that are of the stage.
fn put_stages(out: &mut Row<u8>, plan: &Plan, p: &Program, sites: &[u32]) -> Result<(), NoMemory>
    ensures { OnOk result (out.new ≡ out.old ++ text.stage_texts p.now plan.now sites.now 1 plan.now.stages) }
{
    for (place, kind) in plan.stages.as_slice().iter().enumerate() {
        put_stage(out, plan, p, sites, place as u64 + 1, *kind)?;
    }
    Ok(())
}

fn put_stage(
    out: &mut Row<u8>,
    plan: &Plan,
    p: &Program,
    sites: &[u32],
    stage: u64,
    kind: StageKind,
) -> Result<(), NoMemory>
    ensures { OnOk result (out.new ≡ out.old ++ text.plan_line_text (line.Stage (text.written_stage_at p.now plan.now sites.now stage kind))) }
{
    out.extend_from_slice(kind_word(kind))?;
    put_sites(out, plan, p, sites, stage)?;
    out.push(b'\n')
}

fn kind_word(kind: StageKind) -> &'static [u8]
    ensures { result.now ≡ plan_text.kind_word kind }
{
    match kind {
        StageKind::Seq => b"seq",
        StageKind::Par => b"par",
    }
}

/// The sites of the stage, each behind a space.
fn put_sites(
    out: &mut Row<u8>,
    plan: &Plan,
    p: &Program,
    sites: &[u32],
    stage: u64,
) -> Result<(), NoMemory>
    ensures { OnOk result (out.new ≡ out.old ++ spaced (text.sites_at p.now plan.now stage sites.now)) }
{
    for site in sites {
        if plan.stage(p, SiteId(*site)) as u64 == stage {
            put_labelled(out, b" ", u64::from(*site))?;
        }
    }
    Ok(())
}

fn put_assumed(out: &mut Row<u8>, assumed: &[Assume]) -> Result<(), NoMemory>
    ensures { OnOk result (out.new ≡ out.old ++ text.assume_texts assumed.now) }
{
    for assume in assumed {
        put_assume(out, *assume)?;
    }
    Ok(())
}

fn put_assume(out: &mut Row<u8>, assume: Assume) -> Result<(), NoMemory>
    ensures { OnOk result (out.new ≡ out.old ++ text.plan_line_text (line.Assume assume)) }
{
    put_labelled(out, b"assume ", u64::from(assume.site.0))?;
    put_labelled(out, b" ", outcome_number(assume.taken))?;
    out.push(b'\n')
}

fn outcome_number(taken: bool) -> u64
    ensures { result ≡ plan_text.outcome_number taken }
{
    if taken { 1 } else { 0 }
}
