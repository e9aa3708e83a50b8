//! The outcomes of a region's `if` statements that may be assumed.
ghost use Rattle.std.specs.Prelude.{◌≡◌, ◌++◌, IfOk, OnOk, map};
ghost use Rattle.dp_plan.specs.Written as written;
ghost use Rattle.dp_plan.specs.Rules.{assumed_site};
ghost use Rattle.dp_depend.specs.Shown as spec;

use crate::kept::{Shown, is_above};
use crate::nodes::Node;
use dp_base::{NoMemory, Row, SiteId};
use dp_profile::SiteCount;
use dp_tree::Assume;
use std::alloc::Global;

/// The outcome of which the other is rare.
fn outcome(zero: bool, one: bool, more_ones: bool) -> Option<bool>
    ensures { result ≡ spec.rare_outcome zero one more_ones }
{
    if zero && one {
        return Some(more_ones);
    }
    if zero {
        return Some(false);
    }
    if one { Some(true) } else { None }
}

/// The outcome that may be assumed of a condition with these counts.
fn chosen_outcome(rate: u32, count: SiteCount) -> Option<bool>
    ensures { result ≡ spec.chosen_outcome rate count }
{
    if count.runs == 0 {
        return None;
    }
    let zeros = count.runs.saturating_sub(count.nonzero);
    let zero = !is_above(rate, count.runs, count.nonzero);
    let one = !is_above(rate, count.runs, zeros);
    outcome(zero, one, zeros < count.nonzero)
}

fn put_outcome(out: &mut Row<Assume>, site: SiteId, taken: Option<bool>) -> Result<(), NoMemory>
    ensures { OnOk result (out.new ≡ out.old ++ spec.assume_of site taken) }
{
    match taken {
        Some(taken) => out.push(Assume { site, taken }),
        None => Ok(()),
    }
}

fn put_chosen(out: &mut Row<Assume>, shown: Shown<'_>, node: &Node) -> Result<(), NoMemory>
    ensures { OnOk result (out.new ≡ out.old ++ spec.chosen_at shown.entry.counts.now shown.entry.first shown.entry.rate node.now) }
{
    if node.is_if {
        put_outcome(
            out,
            node.site,
            chosen_outcome(shown.rate, shown.count(node.site)),
        )
    } else {
        Ok(())
    }
}

/// The outcomes that may be assumed, in text order.
pub fn chosen_among(
    alloc: Global,
    shown: Shown<'_>,
    nodes: &[Node],
) -> Result<Row<Assume>, NoMemory>
    ensures { IfOk result (λ chosen. chosen ≡ spec.chosen_among shown.entry.counts.now shown.entry.first shown.entry.rate nodes.now) }
{
    let mut chosen = Row::new(alloc);
    for node in nodes {
        put_chosen(&mut chosen, shown, node)?;
    }
    Ok(chosen)
}

/// Whether an outcome of the site's condition is assumed.
pub fn is_assumed(chosen: &[Assume], site: SiteId) -> bool
    ensures { result ≡ written.has site.0 (map assumed_site chosen.now) }
{
    for outcome in chosen {
        if outcome.site.0 == site.0 {
            return true;
        }
    }
    false
}
