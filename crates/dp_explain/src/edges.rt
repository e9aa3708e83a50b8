//! The lines of dependences.
ghost use Rattle.std.specs.Prelude.{◌≡◌, ◌++◌, OnOk};
ghost use Rattle.std.specs.Option.{option_copied};
ghost use Rattle.dp_explain.specs.EdgeText as spec;

use dp_base::{NoMemory, Row};
use dp_depend::{Edge, EdgeKind, Node};
use dp_text::put_labelled;
use dp_tree::{Program, VarInfo};

/// Appends a line for each of the edges between these sites, of which the first is given.
pub fn put_edges(
    out: &mut Row<u8>,
    label: &[u8],
    p: &Program,
    first: u32,
    nodes: &[Node],
    edges: &[Edge],
) -> Result<(), NoMemory>
    ensures { OnOk result (out.new ≡ out.old ++ spec.edge_texts label.now p.now first nodes.now edges.now) }
{
    for edge in edges {
        put_edge(out, label, p, first, nodes, edge)?;
    }
    Ok(())
}

/// Appends the edge behind a label.
pub fn put_edge(
    out: &mut Row<u8>,
    label: &[u8],
    p: &Program,
    first: u32,
    nodes: &[Node],
    edge: &Edge,
) -> Result<(), NoMemory>
    ensures { OnOk result (out.new ≡ out.old ++ spec.edge_text label.now p.now first nodes.now edge.now) }
{
    put_labelled(out, label, u64::from(edge.from.0))?;
    put_labelled(out, b" ", u64::from(edge.to.0))?;
    put_kind(out, p, edge.kind, stored_at(first, nodes, edge.from.0))?;
    out.push(b'\n')
}

/// Appends why the second site depends on the first, which stores this variable.
fn put_kind(
    out: &mut Row<u8>,
    p: &Program,
    kind: EdgeKind,
    stored: Option<u32>,
) -> Result<(), NoMemory>
    ensures { OnOk result (out.new ≡ out.old ++ spec.kind_text p.now kind stored) }
{
    match kind {
        EdgeKind::Control => out.extend_from_slice(b" control"),
        EdgeKind::Intra => {
            out.extend_from_slice(b" intra")?;
            put_stored(out, p, stored)
        }
        EdgeKind::Carried => {
            out.extend_from_slice(b" carried")?;
            put_stored(out, p, stored)
        }
    }
}

/// Appends the number and the name of a variable.
pub fn put_stored(out: &mut Row<u8>, p: &Program, stored: Option<u32>) -> Result<(), NoMemory>
    ensures { OnOk result (out.new ≡ out.old ++ spec.variable_text p.now stored) }
{
    match stored {
        None => Ok(()),
        Some(variable) => {
            put_labelled(out, b" ", u64::from(variable))?;
            put_name(out, p.vars.get(variable as usize))
        }
    }
}

fn put_name(out: &mut Row<u8>, info: Option<&VarInfo>) -> Result<(), NoMemory>
    ensures { OnOk result (out.new ≡ out.old ++ spec.name_text (option_copied info.entry)) }
{
    match info {
        None => Ok(()),
        Some(info) => {
            out.push(b' ')?;
            out.extend_from_slice(info.name.as_slice())
        }
    }
}

/// What a site stores.
pub fn stored_at(first: u32, nodes: &[Node], site: u32) -> Option<u32>
    ensures { result ≡ spec.node_store_at first nodes.now site }
{
    stored_by(nodes.get(site.saturating_sub(first) as usize))
}

fn stored_by(node: Option<&Node>) -> Option<u32>
    ensures { result ≡ spec.node_store (option_copied node.entry) }
{
    match node {
        None => None,
        Some(node) => node.stores,
    }
}
