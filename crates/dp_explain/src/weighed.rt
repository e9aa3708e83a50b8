//! The lines of units.
ghost use Rattle.std.specs.Prelude.{◌≡◌, ◌<◌, ◌^◌, ◌++◌, length, sum, OnOk};
ghost use Rattle.dp_explain.specs.UnitText as spec;

use dp_base::{NoMemory, Row};
use dp_cut::{at_site, weight_at};
use dp_depend::Node;
use dp_text::put_labelled;

/// Appends the site, where its unit has this place.
fn put_member(
    out: &mut Row<u8>,
    places: &[u32],
    first: u32,
    place: u32,
    node: &Node,
) -> Result<(), NoMemory>
    ensures { OnOk result (out.new ≡ out.old ++ spec.member_text places.now first place node.now) }
{
    if at_site(places, first, node.site.0) == place {
        put_labelled(out, b" ", u64::from(node.site.0))
    } else {
        Ok(())
    }
}

fn put_members(
    out: &mut Row<u8>,
    places: &[u32],
    first: u32,
    nodes: &[Node],
    place: u32,
) -> Result<(), NoMemory>
    ensures { OnOk result (out.new ≡ out.old ++ spec.members_text places.now first nodes.now place) }
{
    for node in nodes {
        put_member(out, places, first, place, node)?;
    }
    Ok(())
}

fn put_unit(
    out: &mut Row<u8>,
    places: &[u32],
    weights: &[u64],
    first: u32,
    nodes: &[Node],
    place: u32,
) -> Result<(), NoMemory>
    requires each { length places.now ≡ length weights.now }
    requires total { sum weights.now < 2 ^ 63 }
    ensures { OnOk result (out.new ≡ out.old ++ spec.unit_line places.now weights.now first nodes.now place) }
{
    put_labelled(out, b"unit ", weight_at(places, weights, place))?;
    put_members(out, places, first, nodes, place)?;
    out.push(b'\n')
}

/// Appends the lines of so many units; `places` has for each site the place of its unit.
pub fn put_units(
    out: &mut Row<u8>,
    places: &[u32],
    weights: &[u64],
    first: u32,
    nodes: &[Node],
    count: u32,
) -> Result<(), NoMemory>
    requires each { length places.now ≡ length weights.now }
    requires total { sum weights.now < 2 ^ 63 }
    ensures { OnOk result (out.new ≡ out.old ++ spec.unit_lines places.now weights.now first nodes.now count) }
{
    for place in 0..count {
        put_unit(out, places, weights, first, nodes, place)?;
    }
    Ok(())
}
