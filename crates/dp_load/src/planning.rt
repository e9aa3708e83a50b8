//! The automatic plans of a program.
ghost use Rattle.std.specs.Prelude.{◌≡◌, ◌<◌, ◌-◌, ◌^◌, Some, IfOk, OnErr};
ghost use Rattle.std.specs.Option.{option_copied, option_map};
ghost use Rattle.dp_tree.specs.Inlined.{IsInlined};
ghost use Rattle.dp_plan.specs.GivenPlans.{ArePlans};
ghost use Rattle.dp_words.specs.Values.{OptionsWithin};
ghost use Rattle.dp_words.specs.Run.{Least};
ghost use Rattle.dp_load.specs.Roles.{Plans, Profiled};
ghost use Rattle.dp_load.specs.Loading.{GivesLoaded, IfText};
ghost use Rattle.dp_load.specs.Plans.{MakesPlans};

use crate::load::{Loaded, load_profile};
use dp_base::{NoMemory, Row};
use dp_cut::{Wishes, least_plans};
use dp_edge::Shelf;
use dp_plan::Plan;
use dp_profile::Profile;
use dp_tree::Program;
use dp_words::PlanOptions;
use std::alloc::Global;

/// The least plan of each region.
pub fn automatic_plans(
    alloc: Global,
    program: &Program,
    profile: Option<&Profile>,
    options: PlanOptions,
) -> Result<Row<Plan>, NoMemory>
    requires inlined { IsInlined program.now }
    requires options { OptionsWithin options }
    ensures made { IfOk result (MakesPlans program.now options (option_copied profile.entry)) }
    ensures fit { IfOk result (ArePlans program.now) }
{
    let wishes = Wishes {
        profile,
        rate: options.rate,
        stages: options.stages,
        workers: options.workers,
    };
    least_plans(alloc, program, wishes)
}

/// The least plan of each region, by the profile under a name, if there is one.
pub fn load_least<S: Shelf>(
    alloc: Global,
    shelf: &mut S,
    name: Option<&str>,
    options: PlanOptions,
    program: &Program,
) -> Result<Loaded<Row<Plan>>, NoMemory>
    requires shelf { S.faults shelf.old < 2 ^ 64 - 1 }
    requires inlined { IsInlined program.now }
    requires options { OptionsWithin options }
    ensures contents { S.contents shelf.new ≡ S.contents shelf.old }
    ensures gives { IfOk result (GivesLoaded (Plans (S.contents shelf.old) program.now options (Least (option_map (λ n. n.now) name.entry)))
        (option_map (λ n. n.now) name.entry) (S.faults shelf.old) (S.faults shelf.new) (S.failed_names shelf.old) (S.failed_names shelf.new)) }
    ensures fit { IfOk result (IfText (ArePlans program.now)) }
    ensures err { OnErr result ((S.faults shelf.new ≡ S.faults shelf.old) × (S.failed_names shelf.new ≡ S.failed_names shelf.old)) }
{
    match load_counts(alloc, shelf, name, program)? {
        Loaded::Text(profile) => {
            let plans = automatic_plans(alloc, program, profile.as_ref(), options)?;
            Ok(Loaded::Text(plans))
        }
        Loaded::Refused(refusal) => Ok(Loaded::Refused(refusal)),
        Loaded::Failed => Ok(Loaded::Failed),
    }
}

/// The profile under a name, if there is one.
pub fn load_counts<S: Shelf>(
    alloc: Global,
    shelf: &mut S,
    name: Option<&str>,
    program: &Program,
) -> Result<Loaded<Option<Profile>>, NoMemory>
    requires shelf { S.faults shelf.old < 2 ^ 64 - 1 }
    requires inlined { IsInlined program.now }
    ensures contents { S.contents shelf.new ≡ S.contents shelf.old }
    ensures gives { IfOk result (GivesLoaded (Profiled (S.contents shelf.old) program.now (option_map (λ n. n.now) name.entry))
        (option_map (λ n. n.now) name.entry) (S.faults shelf.old) (S.faults shelf.new) (S.failed_names shelf.old) (S.failed_names shelf.new)) }
    ensures err { OnErr result ((S.faults shelf.new ≡ S.faults shelf.old) × (S.failed_names shelf.new ≡ S.failed_names shelf.old)) }
{
    match name {
        Some(name) => load_named_counts(alloc, shelf, name, program),
        None => Ok(Loaded::Text(None)),
    }
}

/// The profile under this name.
fn load_named_counts<S: Shelf>(
    alloc: Global,
    shelf: &mut S,
    name: &str,
    program: &Program,
) -> Result<Loaded<Option<Profile>>, NoMemory>
    requires shelf { S.faults shelf.old < 2 ^ 64 - 1 }
    requires inlined { IsInlined program.now }
    ensures contents { S.contents shelf.new ≡ S.contents shelf.old }
    ensures gives { IfOk result (GivesLoaded (Profiled (S.contents shelf.old) program.now (Some name.now)) (Some name.now) (S.faults shelf.old)
        (S.faults shelf.new) (S.failed_names shelf.old) (S.failed_names shelf.new)) }
    ensures err { OnErr result ((S.faults shelf.new ≡ S.faults shelf.old) × (S.failed_names shelf.new ≡ S.failed_names shelf.old)) }
{
    match load_profile(alloc, shelf, name, program)? {
        Loaded::Text(profile) => Ok(Loaded::Text(Some(profile))),
        Loaded::Refused(refusal) => Ok(Loaded::Refused(refusal)),
        Loaded::Failed => Ok(Loaded::Failed),
    }
}
