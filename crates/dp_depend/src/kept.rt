//! What a profile says of sites and of pairs of them.
ghost use Rattle.std.specs.Prelude.{◌≡◌, ◌<◌, IfOk, IsPermutation, Option, Some, None};
ghost use Rattle.std.specs.Option.{option_copied};
ghost use Rattle.std.specs.List.Sorted.{IsNonDecreasing};
ghost use Rattle.dp_plan.specs.Written as written;
ghost use Rattle.dp_depend.specs.Shown as spec;
ghost use Rattle.dp_depend.specs.steps.Frequent.{key, AreFrequent, HasFrequent};

use dp_base::{NoMemory, Row, SiteId};
use dp_profile::{Flow, Profile, RegionProfile, SiteCount};
use std::alloc::Global;

/// What a profile has of a region.
#[derive(Clone, Copy)]
pub struct Shown<'a> {
    /// The counts of its sites, from the first one on.
    pub counts: &'a [SiteCount],
    pub flows: &'a [Flow],
    pub first: u32,
    /// Up to how many loads in a thousand runs are rare.
    pub rate: u32,
}

/// The part of a profile that is a region's.
pub fn region_profile(profile: Option<&Profile>, region: u32) -> Option<&RegionProfile>
    ensures { spec.or_nothing (option_copied result) ≡ spec.region_profile (option_copied profile.entry) region }
{
    let place = (region as usize).saturating_sub(1);
    profile?.regions.get(place)
}

impl Shown<'_> {
    /// The counts of a site.
    pub fn count(self, site: SiteId) -> SiteCount
        ensures { result ≡ spec.counts_at self.entry.counts.now self.entry.first site.0 }
    {
        if self.first <= site.0 {
            count_or_none(self.counts.get((site.0 - self.first) as usize))
        } else {
            count_or_none(None)
        }
    }

    /// The flow's loads are more than the rate allows.
    fn is_frequent(self, flow: &Flow) -> bool
        ensures { result ≡ spec.is_frequent self.entry.counts.now self.entry.first self.entry.rate flow.now }
    {
        is_above(self.rate, self.count(flow.to).runs, flow.shown)
    }

    /// The frequent flows, by their numbers in ascending order.
    pub fn frequent(self, alloc: Global) -> Result<Row<u128>, NoMemory>
        ensures { IfOk result (λ keys. AreFrequent self.entry.counts.now self.entry.flows.now self.entry.first self.entry.rate keys) }
    {
        let keys = self.frequent_keys(alloc)?;
        Ok(in_order(keys))
    }

    /// The same in the order of the flows.
    fn frequent_keys(self, alloc: Global) -> Result<Row<u128>, NoMemory>
        ensures { IfOk result (λ keys. HasFrequent self.entry.counts.now self.entry.flows.now self.entry.first self.entry.rate keys) }
    {
        let mut keys = Row::new(alloc);
        for flow in self.flows {
            if self.is_frequent(flow) {
                keys.push(key(flow.from.0, flow.to.0, flow.carried))?;
            }
        }
        Ok(keys)
    }

    /// An edge of this kind stays.
    pub fn is_kept(self, frequent: &[u128], from: SiteId, to: SiteId, carried: bool) -> bool
        requires { AreFrequent self.counts.now self.flows.now self.first self.rate frequent.now }
        ensures { result ≡ spec.is_kept self.entry.counts.now self.entry.flows.now self.entry.first self.entry.rate from.0 to.0 carried }
    {
        self.count(to).runs == 0 || has(frequent, key(from.0, to.0, carried))
    }
}

fn count_or_none(count: Option<&SiteCount>) -> SiteCount
    ensures { result ≡ spec.or_none (option_copied count.entry) }
{
    match count {
        Some(count) => *count,
        None => SiteCount {
            runs: 0,
            nonzero: 0,
        },
    }
}

/// So many loads are more than the rate allows.
pub fn is_above(rate: u32, runs: u64, shown: u64) -> bool
    ensures { result ≡ spec.is_above rate runs shown }
{
    u128::from(shown) * 1000 > u128::from(rate) * u128::from(runs)
}

/// The number of a flow.
fn key(from: u32, to: u32, carried: bool) -> u128
    ensures { result ≡ key from to carried }
{
    let kind = if carried { 1 } else { 0 };
    (u128::from(from) * 4_294_967_296 + u128::from(to)) * 2 + kind
}

/// The numbers in ascending order.
fn in_order(numbers: Row<u128>) -> Row<u128>
    ensures permutation { IsPermutation numbers result }
    ensures ascending { IsNonDecreasing result }
{
    let mut items = numbers.into_vec();
    items.sort_unstable();
    Row::from_vec(items)
}

/// Whether the number is among these.
fn has(ascending: &[u128], number: u128) -> bool
    requires { IsNonDecreasing ascending.now }
    ensures { result ≡ written.has number ascending.now }
{
    match ascending.binary_search(&number) {
        Ok(_) => true,
        Err(_) => false,
    }
}
