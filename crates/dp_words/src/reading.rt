//! What the matches of a verb's words show.
ghost use Rattle.std.specs.Prelude.{◌≡◌, Some, IfSome, IfNone, ℕ, List};
ghost use Rattle.std.specs.Option.{option_map};
ghost use Rattle.dp_words.specs.Values.{OptionsWithin, options_in};
ghost use Rattle.dp_words.specs.Run.{RunAsked, RunWithin, ShowsNamed, ShowsRun, shown, shown_source, source_of};
ghost use Rattle.dp_words.specs.Planning.{Planning, ShowsPlanning, shown_planning};
ghost use Rattle.dp_words.specs.Profiling.{Profiling, ProfilingWithin, ShowsProfiling, shown_profiling};
ghost use Rattle.dp_words.specs.Made.{MadeWithin, ShowsMade};
ghost use Rattle.dp_words.specs.Saving.{PlaceWithin, ShowsSaving};
ghost use Rattle.dp_words.specs.steps.Reading.{HoldsNumbers, values_of};
ghost use Rattle.dp_words.specs.declared.task.GenWords.{GenWords};
ghost use Rattle.dp_words.specs.declared.task.Place.{Place};

use crate::numbers::{given_number, given_small_number, is_set, number, small_number};
use crate::task::{GenWords, Place, PlanOptions, PlanSource, PlanWords, ProfileWords, RunWords};
use clap::ArgMatches;

const DEFAULT_RATE: u32 = 10;

const DEFAULT_STAGES: u32 = 4;

const DEFAULT_WORKERS: u32 = 2;

const DEFAULT_LANE: u32 = 16;

const DEFAULT_FUEL: u64 = 10_000_000;

/// The run with these matches.
pub fn run_words<'w>(matches: &ArgMatches<'w>) -> Option<RunWords<'w>>
    requires numbers { HoldsNumbers (values_of matches.now) }
    ensures some { IfSome result (λ words. ShowsRun (values_of matches.now) (shown words)) }
    ensures within { IfSome result (λ words. RunWithin (shown words)) }
    ensures none { IfNone result ((run : RunAsked) → ¬ ShowsRun (values_of matches.now) run) }
{
    let program = matches.get_str("program")?;
    let source = plan_source(matches.get_str("plan"), matches.get_str("profile"))?;
    Some(RunWords {
        program,
        input: matches.get_str("input"),
        source,
        options: plan_options(matches),
        lane: small_number(matches.get_str("lane"), DEFAULT_LANE),
        fuel: number(matches.get_str("fuel"), DEFAULT_FUEL),
        why: is_set(matches.get_str("why")),
    })
}

/// The run with these matches, and the name of a further text with this id.
pub fn named_run<'w>(matches: &ArgMatches<'w>, id: &str) -> Option<(RunWords<'w>, &'w str)>
    requires numbers { HoldsNumbers (values_of matches.now) }
    ensures some { IfSome result (λ named. ShowsNamed id.now (values_of matches.now) (shown named.0, named.1.now)) }
    ensures within { IfSome result (λ named. RunWithin (shown named.0)) }
    ensures none { IfNone result ((named : RunAsked × List ℕ) → ¬ ShowsNamed id.now (values_of matches.now) named) }
{
    let run = run_words(matches)?;
    let name = matches.get_str(id)?;
    Some((run, name))
}

/// The run with these matches, and the place where it is to be saved.
pub fn saving_words<'w>(matches: &ArgMatches<'w>) -> Option<(RunWords<'w>, Place)>
    requires numbers { HoldsNumbers (values_of matches.now) }
    ensures some { IfSome result (λ saving. ShowsSaving (values_of matches.now) (shown saving.0, saving.1)) }
    ensures within { IfSome result (λ saving. RunWithin (shown saving.0) × PlaceWithin saving.1) }
    ensures none { IfNone result ((saving : RunAsked × Place) → ¬ ShowsSaving (values_of matches.now) saving) }
{
    let run = run_words(matches)?;
    let region = given_small_number(matches.get_str("region"))?;
    let after = given_number(matches.get_str("after"))?;
    Some((run, Place { region, after }))
}

/// The automatic plans with these matches.
pub fn plan_words<'w>(matches: &ArgMatches<'w>) -> Option<PlanWords<'w>>
    requires numbers { HoldsNumbers (values_of matches.now) }
    ensures some { IfSome result (λ words. ShowsPlanning (values_of matches.now) (shown_planning words)) }
    ensures within { IfSome result (λ words. OptionsWithin words.options) }
    ensures none { IfNone result ((planning : Planning) → ¬ ShowsPlanning (values_of matches.now) planning) }
{
    let program = matches.get_str("program")?;
    Some(PlanWords {
        program,
        profile: matches.get_str("profile"),
        options: plan_options(matches),
    })
}

/// Where plans come from by the names of a text of plans and of a profile.
fn plan_source<'w>(plan: Option<&'w str>, profile: Option<&'w str>) -> Option<PlanSource<'w>>
    ensures { option_map shown_source result ≡ source_of (option_map (λ t. t.now) plan.entry) (option_map (λ t. t.now) profile.entry) }
{
    match (plan, profile) {
        (None, profile) => Some(PlanSource::Least(profile)),
        (Some(name), None) => Some(PlanSource::Named(name)),
        (Some(_), Some(_)) => None,
    }
}

/// The profile with these matches.
pub fn profile_words<'w>(matches: &ArgMatches<'w>) -> Option<ProfileWords<'w>>
    requires numbers { HoldsNumbers (values_of matches.now) }
    ensures some { IfSome result (λ words. ShowsProfiling (values_of matches.now) (shown_profiling words)) }
    ensures within { IfSome result (λ words. ProfilingWithin (shown_profiling words)) }
    ensures none { IfNone result ((profiling : Profiling) → ¬ ShowsProfiling (values_of matches.now) profiling) }
{
    let program = matches.get_str("program")?;
    Some(ProfileWords {
        program,
        input: matches.get_str("input"),
        fuel: number(matches.get_str("fuel"), DEFAULT_FUEL),
    })
}

/// The run of the made program with these matches.
pub fn gen_words<'w>(matches: &ArgMatches<'w>) -> Option<GenWords>
    requires numbers { HoldsNumbers (values_of matches.now) }
    ensures some { IfSome result (ShowsMade (values_of matches.now)) }
    ensures within { IfSome result MadeWithin }
    ensures none { IfNone result ((made : GenWords) → ¬ ShowsMade (values_of matches.now) made) }
{
    let seed = given_small_number(matches.get_str("seed"))?;
    let size = given_small_number(matches.get_str("size"))?;
    let options = PlanOptions {
        rate: DEFAULT_RATE,
        stages: DEFAULT_STAGES,
        workers: small_number(matches.get_str("workers"), DEFAULT_WORKERS),
    };
    Some(GenWords {
        seed,
        size,
        options,
        lane: small_number(matches.get_str("lane"), DEFAULT_LANE),
        fuel: DEFAULT_FUEL,
    })
}

/// The options of automatic plans.
fn plan_options<'w>(matches: &ArgMatches<'w>) -> PlanOptions
    requires numbers { HoldsNumbers (values_of matches.now) }
    ensures value { result ≡ options_in (values_of matches.now) }
    ensures within { OptionsWithin result }
{
    PlanOptions {
        rate: small_number(matches.get_str("rate"), DEFAULT_RATE),
        stages: small_number(matches.get_str("stages"), DEFAULT_STAGES),
        workers: small_number(matches.get_str("workers"), DEFAULT_WORKERS),
    }
}
