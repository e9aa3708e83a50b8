//! The graph of a region.
ghost use Rattle.std.specs.Prelude.{◌≡◌, ◌-◌, IfOk};
ghost use Rattle.std.specs.Option.{option_copied};
ghost use Rattle.dp_depend.specs.Edges.{edges_of, chosen_of, edges_among};
ghost use Rattle.dp_depend.specs.Shown as counted;
ghost use Rattle.dp_depend.specs.Node.{region_nodes};

use crate::Graph;
use crate::chosen::chosen_among;
use crate::edges::Basis;
use crate::kept::{Shown, region_profile};
use crate::nodes::nodes_of;
use dp_base::NoMemory;
use dp_plan::first_of;
use dp_profile::{Profile, RegionProfile};
use dp_sites::Apart;
use dp_tree::Program;
use std::alloc::Global;

/// What was counted of the region.
fn shown_of<'a>(found: Option<&'a RegionProfile>, first: u32, rate: u32) -> Shown<'a>
    ensures counts { result.counts.now ≡ (counted.or_nothing (option_copied found.entry)).sites }
    ensures flows { result.flows.now ≡ (counted.or_nothing (option_copied found.entry)).flows }
    ensures first { result.first ≡ first }
    ensures rate { result.rate ≡ rate }
{
    match found {
        Some(found) => Shown {
            counts: found.sites.as_slice(),
            flows: found.flows.as_slice(),
            first,
            rate,
        },
        None => Shown {
            counts: &[],
            flows: &[],
            first,
            rate,
        },
    }
}

fn graph_of(alloc: Global, p: &Program, region: u32, shown: Shown<'_>) -> Result<Graph, NoMemory>
    ensures chosen { IfOk result (λ g. g.chosen ≡ counted.chosen_among shown.entry.counts.now shown.entry.first shown.entry.rate (region_nodes p.now region)) }
    ensures edges { IfOk result (λ g. g.edges ≡ edges_among p.now region shown.entry.counts.now shown.entry.flows.now shown.entry.first shown.entry.rate
        (counted.chosen_among shown.entry.counts.now shown.entry.first shown.entry.rate (region_nodes p.now region)) (region_nodes p.now region)
        (region_nodes p.now region)) }
{
    let nodes = nodes_of(alloc, p, region)?;
    let frequent = shown.frequent(alloc)?;
    let chosen = chosen_among(alloc, shown, nodes.as_slice())?;
    let apart = Apart::of_region(alloc, p, region)?;
    let basis = Basis {
        p,
        region,
        shown,
        frequent: frequent.as_slice(),
        apart: &apart,
    };
    let edges = basis.edges(alloc, chosen.as_slice(), nodes.as_slice())?;
    Ok(Graph { edges, chosen })
}

impl Graph {
    /// The dependences of a region. Without a profile every edge that the text allows is there; with one, those of which
    /// no more than `rate` loads in a thousand runs were shown are left out.
    pub fn build(
        alloc: Global,
        p: &Program,
        region: u32,
        profile: Option<&Profile>,
        rate: u32,
    ) -> Result<Graph, NoMemory>
        ensures edges { IfOk result (λ g. g.edges ≡ edges_of p.now region (option_copied profile.entry) rate) }
        ensures chosen { IfOk result (λ g. g.chosen ≡ chosen_of p.now region (option_copied profile.entry) rate) }
    {
        let found = region_profile(profile, region);
        let shown = shown_of(found, first_of(p, region), rate);
        graph_of(alloc, p, region, shown)
    }
}
