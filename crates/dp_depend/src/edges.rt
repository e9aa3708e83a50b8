//! The edges between the sites of a region.
ghost use Rattle.std.specs.Prelude.{◌≡◌, ◌++◌, IfOk, OnOk, Option, Some, None, map, slice_get, true};
ghost use Rattle.dp_plan.specs.Stage as stages;
ghost use Rattle.dp_sites.specs.Apart.{TellsApart};
ghost use Rattle.dp_plan.specs.IsFar.{is_far, is_far_within};
ghost use Rattle.dp_plan.specs.Written.{has, region_sites};
ghost use Rattle.dp_depend.specs.Edges as spec;
ghost use Rattle.dp_depend.specs.steps.Frequent.{AreFrequent};

use crate::chosen::is_assumed;
use crate::kept::Shown;
use crate::nodes::Node;
use crate::{Edge, EdgeKind};
use dp_base::{NoMemory, Row};
use dp_sites::Apart;
use dp_tree::{Assume, Program};
use std::alloc::Global;

/// What the edges of a region are read off.
#[derive(Clone, Copy)]
pub struct Basis<'a> {
    pub p: &'a Program,
    pub region: u32,
    pub shown: Shown<'a>,
    /// The frequent flows, by their numbers.
    pub frequent: &'a [u128],
    /// Which stores lie apart from what is loaded.
    pub apart: &'a Apart,
}

fn has_flow(d: &Node, u: &Node) -> bool
    ensures { result ≡ spec.has_flow d.now u.now }
{
    match d.stores {
        Some(variable) => u.loads.as_slice().contains(&variable),
        None => false,
    }
}

fn same_loop(one: Option<u32>, other: Option<u32>) -> bool
    ensures { result ≡ spec.same_loop one other }
{
    match (one, other) {
        (Some(one), Some(other)) => one == other,
        (Some(_), None) => false,
        (None, _) => false,
    }
}

fn may_come_before(d: &Node, u: &Node) -> bool
    ensures { result ≡ spec.may_come_before d.now u.now }
{
    d.site.0 < u.site.0 || same_loop(d.outer_loop, u.outer_loop)
}

fn is_local(p: &Program, region: u32, variable: u32) -> bool
    ensures { result ≡ stages.is_local region (slice_get p.now.vars variable) }
{
    match p.vars.get(variable as usize) {
        Some(info) => info.scope.is_local_of(region),
        None => false,
    }
}

fn is_local_variable(p: &Program, region: u32, variable: Option<u32>) -> bool
    ensures { result ≡ spec.is_region_local p.now region variable }
{
    match variable {
        Some(variable) => is_local(p, region, variable),
        None => false,
    }
}

fn is_control(assumed: bool, d: &Node, u: &Node) -> bool
    ensures { result ≡ spec.is_control assumed d.now u.now }
{
    !assumed && u.around.as_slice().contains(&d.site.0)
}

/// Appends the edge where the test holds.
fn put_edge(
    out: &mut Row<Edge>,
    holds: bool,
    d: &Node,
    u: &Node,
    kind: EdgeKind,
) -> Result<(), NoMemory>
    ensures { OnOk result (out.new ≡ out.old ++ spec.edge_when holds (spec.edge d.now u.now kind)) }
{
    if !holds {
        return Ok(());
    }
    out.push(Edge {
        from: d.site,
        to: u.site,
        kind,
    })
}

impl Basis<'_> {
    /// No store at d in an earlier iteration is to what u loads.
    fn is_far(self, d: &Node, u: &Node) -> bool
        requires apart { TellsApart self.p.now self.region self.apart.now }
        requires d { has d.now.site.0 (region_sites self.p.now self.region) ≡ true }
        requires u { has u.now.site.0 (region_sites self.p.now self.region) ≡ true }
        ensures { result ≡ is_far self.entry.p.now self.entry.region d.now.site.0 u.now.site.0 }
    {
        self.apart.is_far(d.site, u.site)
    }

    /// No store at d in the same iteration is to what u loads.
    fn is_far_within(self, d: &Node, u: &Node) -> bool
        requires apart { TellsApart self.p.now self.region self.apart.now }
        requires d { has d.now.site.0 (region_sites self.p.now self.region) ≡ true }
        requires u { has u.now.site.0 (region_sites self.p.now self.region) ≡ true }
        ensures { result ≡ is_far_within self.entry.p.now self.entry.region d.now.site.0 u.now.site.0 }
    {
        self.apart.is_far_within(d.site, u.site)
    }

    fn is_intra(self, d: &Node, u: &Node) -> bool
        requires frequent { AreFrequent self.shown.counts.now self.shown.flows.now self.shown.first self.shown.rate self.frequent.now }
        requires apart { TellsApart self.p.now self.region self.apart.now }
        requires d { has d.now.site.0 (region_sites self.p.now self.region) ≡ true }
        requires u { has u.now.site.0 (region_sites self.p.now self.region) ≡ true }
        ensures { result ≡ spec.is_intra self.entry.p.now self.entry.region self.entry.shown.counts.now self.entry.shown.flows.now self.entry.shown.first
            self.entry.shown.rate d.now u.now }
    {
        has_flow(d, u)
            && (may_come_before(d, u)
                && (self.shown.is_kept(self.frequent, d.site, u.site, false)
                    && !self.is_far_within(d, u)))
    }

    fn is_carried(self, d: &Node, u: &Node) -> bool
        requires frequent { AreFrequent self.shown.counts.now self.shown.flows.now self.shown.first self.shown.rate self.frequent.now }
        requires apart { TellsApart self.p.now self.region self.apart.now }
        requires d { has d.now.site.0 (region_sites self.p.now self.region) ≡ true }
        requires u { has u.now.site.0 (region_sites self.p.now self.region) ≡ true }
        ensures { result ≡ spec.is_carried self.entry.p.now self.entry.region self.entry.shown.counts.now self.entry.shown.flows.now self.entry.shown.first
            self.entry.shown.rate d.now u.now }
    {
        has_flow(d, u)
            && (!is_local_variable(self.p, self.region, d.stores)
                && (self.shown.is_kept(self.frequent, d.site, u.site, true) && !self.is_far(d, u)))
    }

    /// Appends the edges from d to u.
    fn put_between(
        self,
        out: &mut Row<Edge>,
        assumed: bool,
        d: &Node,
        u: &Node,
    ) -> Result<(), NoMemory>
        requires frequent { AreFrequent self.shown.counts.now self.shown.flows.now self.shown.first self.shown.rate self.frequent.now }
        requires apart { TellsApart self.p.now self.region self.apart.now }
        requires d { has d.now.site.0 (region_sites self.p.now self.region) ≡ true }
        requires u { has u.now.site.0 (region_sites self.p.now self.region) ≡ true }
        ensures { OnOk result (out.new ≡ out.old ++ spec.edges_between self.entry.p.now self.entry.region self.entry.shown.counts.now self.entry.shown.flows.now
            self.entry.shown.first self.entry.shown.rate assumed d.now u.now) }
    {
        put_edge(out, is_control(assumed, d, u), d, u, EdgeKind::Control)?;
        put_edge(out, self.is_intra(d, u), d, u, EdgeKind::Intra)?;
        put_edge(out, self.is_carried(d, u), d, u, EdgeKind::Carried)?;
        Ok(())
    }

    /// Appends the edges from d to these.
    fn put_from(
        self,
        out: &mut Row<Edge>,
        assumed: bool,
        d: &Node,
        all: &[Node],
    ) -> Result<(), NoMemory>
        requires frequent { AreFrequent self.shown.counts.now self.shown.flows.now self.shown.first self.shown.rate self.frequent.now }
        requires apart { TellsApart self.p.now self.region self.apart.now }
        requires d { has d.now.site.0 (region_sites self.p.now self.region) ≡ true }
        requires all { map spec.node_site all.now ≡ region_sites self.p.now self.region }
        ensures { OnOk result (out.new ≡ out.old ++ spec.edges_from self.entry.p.now self.entry.region self.entry.shown.counts.now self.entry.shown.flows.now
            self.entry.shown.first self.entry.shown.rate assumed d.now all.now) }
    {
        for u in all {
            self.put_between(out, assumed, d, u)?;
        }
        Ok(())
    }

    /// The edges among the sites.
    pub fn edges(
        self,
        alloc: Global,
        chosen: &[Assume],
        all: &[Node],
    ) -> Result<Row<Edge>, NoMemory>
        requires frequent { AreFrequent self.shown.counts.now self.shown.flows.now self.shown.first self.shown.rate self.frequent.now }
        requires apart { TellsApart self.p.now self.region self.apart.now }
        requires all { map spec.node_site all.now ≡ region_sites self.p.now self.region }
        ensures { IfOk result (λ edges. edges ≡ spec.edges_among self.entry.p.now self.entry.region self.entry.shown.counts.now self.entry.shown.flows.now
            self.entry.shown.first self.entry.shown.rate chosen.now all.now all.now) }
    {
        let mut edges = Row::new(alloc);
        for d in all {
            self.put_from(&mut edges, is_assumed(chosen, d.site), d, all)?;
        }
        Ok(edges)
    }
}
