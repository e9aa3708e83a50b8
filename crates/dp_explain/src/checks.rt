//! The lines of checked sites, and of the stores because of which they are.
ghost use Rattle.std.specs.Prelude.{◌≡◌, ◌++◌, OnOk};
ghost use Rattle.dp_explain.specs.CheckText as spec;

use crate::edges::{put_stored, stored_at};
use dp_base::{NoMemory, Row, SiteId};
use dp_depend::Node;
use dp_plan::Plan;
use dp_sites::Compared;
use dp_text::put_labelled;
use dp_tree::Program;

/// Appends the sites that the plan has checked.
pub fn put_checks(
    out: &mut Row<u8>,
    p: &Program,
    plan: &Plan,
    nodes: &[Node],
) -> Result<(), NoMemory>
    ensures { OnOk result (out.new ≡ out.old ++ spec.check_lines p.now plan.now nodes.now) }
{
    for node in nodes {
        put_check(out, plan.checked(p, node.site), node.site)?;
    }
    Ok(())
}

fn put_check(out: &mut Row<u8>, checked: bool, site: SiteId) -> Result<(), NoMemory>
    ensures { OnOk result (out.new ≡ out.old ++ spec.check_line checked site) }
{
    if !checked {
        return Ok(());
    }
    put_labelled(out, b"checked ", u64::from(site.0))?;
    out.push(b'\n')
}

/// Appends the pairs of checked sites and stores.
pub fn put_compared(
    out: &mut Row<u8>,
    p: &Program,
    first: u32,
    nodes: &[Node],
    pairs: &[Compared],
) -> Result<(), NoMemory>
    ensures { OnOk result (out.new ≡ out.old ++ spec.compared_lines p.now first nodes.now pairs.now) }
{
    for pair in pairs {
        put_pair(out, p, first, nodes, *pair)?;
    }
    Ok(())
}

fn put_pair(
    out: &mut Row<u8>,
    p: &Program,
    first: u32,
    nodes: &[Node],
    pair: Compared,
) -> Result<(), NoMemory>
    ensures { OnOk result (out.new ≡ out.old ++ spec.compared_line p.now first nodes.now pair) }
{
    put_labelled(out, b"compared ", u64::from(pair.site.0))?;
    put_labelled(out, b" ", u64::from(pair.store.0))?;
    put_stored(out, p, stored_at(first, nodes, pair.store.0))?;
    out.push(b'\n')
}
