//! The regions of a prepared program before a place, at it, and behind it.
ghost use Rattle.std.specs.Prelude.{◌≡◌, ◌≤◌, ◌-◌, drop, length, slice_get, take, Some};
ghost use Rattle.dp_run.specs.Prepared.{AreOf, IsOf, plans_in};

use dp_run::PreparedProgram;
use dp_run_plan::RunRegion;

/// How many regions there are.
pub(crate) fn region_count(prepared: &PreparedProgram<'_>) -> usize
    ensures { result ≡ length prepared.now.plans }
{
    prepared.regions().len()
}

/// The region with this number.
pub(crate) fn region_of<'r, 'p>(prepared: &'r PreparedProgram<'p>, region: u32) -> &'r RunRegion<'p>
    requires { (1 ≤ region) × (region ≤ length prepared.now.plans) }
    ensures plan { slice_get prepared.now.plans (region - 1) ≡ Some result.now.plan }
    ensures own { IsOf prepared.now.program result.now }
{
    let regions = prepared.regions();
    &regions[region as usize - 1]
}

/// The first so many regions.
pub(crate) fn regions_before<'r, 'p>(
    prepared: &'r PreparedProgram<'p>,
    count: u32,
) -> &'r [RunRegion<'p>]
    requires { count ≤ length prepared.now.plans }
    ensures plans { plans_in result.now ≡ take count prepared.now.plans }
    ensures own { AreOf prepared.now.program result.now }
{
    let regions = prepared.regions();
    &regions[..count as usize]
}

/// The regions behind the first so many.
pub(crate) fn regions_behind<'r, 'p>(
    prepared: &'r PreparedProgram<'p>,
    count: u32,
) -> &'r [RunRegion<'p>]
    requires { count ≤ length prepared.now.plans }
    ensures plans { plans_in result.now ≡ drop count prepared.now.plans }
    ensures own { AreOf prepared.now.program result.now }
{
    let regions = prepared.regions();
    &regions[count as usize..]
}
