//! The texts that the words name.
ghost use Rattle.std.specs.Prelude.{◌≡◌, ◌-◌, ◌^◌, ◌<◌, ◌≤◌, length, IfOk};
ghost use Rattle.std.specs.Option.{option_map};
ghost use Rattle.dp_load.specs.Inputs.{input_of};
ghost use Rattle.dp_load.specs.Roles.{ReadsInput};
ghost use Rattle.dp_tree.specs.Inlined.{IsInlined};
ghost use Rattle.dp_load.specs.Plans.{ReadsPlans};
ghost use Rattle.dp_load.specs.Profiles.{ReadsProfile};
ghost use Rattle.dp_load.specs.Loading.{LoadsPlans, LoadsProfile, LoadsProgram, Loads, FaultsAfterLoad, names_after};

use crate::program::read_program;
use dp_base::limits::{INPUT_BYTES, PLAN_BYTES, PROFILE_BYTES, PROGRAM_BYTES};
use dp_base::{NoMemory, Quantity, Row};
use dp_edge::{InputFail, Shelf, ShelfFail, read_input};
use dp_plan::Plan;
use dp_plan_text::{PlanFail, read_plans};
use dp_profile::Profile;
use dp_profile_text::{ProfileFail, read_profile};
use dp_refusal::Refusal;
use dp_tree::Program;
use std::alloc::Global;

/// What a text was loaded as.
#[derive(Drop)]
pub enum Loaded<T> {
    /// What it stands for.
    Text(T),
    /// It is refused.
    Refused(Refusal),
    /// The shelf couldn't read it.
    Failed,
}

/// The program under a name, with its calls expanded.
#[tactic(auto, using(crate::proofs::LoadLemmas::long_texts))]
pub fn load_program<S: Shelf>(
    alloc: Global,
    shelf: &mut S,
    name: &str,
) -> Result<Loaded<Program>, NoMemory>
    requires { S.faults shelf.old < 2 ^ 64 - 1 }
    ensures contents { S.contents shelf.new ≡ S.contents shelf.old }
    ensures faults { FaultsAfterLoad result (S.faults shelf.old) (S.faults shelf.new) }
    ensures failed_names { S.failed_names shelf.new ≡ option_map (names_after result name.now) (S.failed_names shelf.old) }
    ensures loads { IfOk result (Loads (LoadsProgram (S.contents shelf.old) name.now)) }
{
    match shelf.read(alloc, name, PROGRAM_BYTES) {
        Ok(text) => match read_program(alloc, text.as_slice())? {
            Ok(program) => Ok(Loaded::Text(program)),
            Err(refusal) => Ok(Loaded::Refused(refusal)),
        },
        Err(ShelfFail::Failed) => Ok(Loaded::Failed),
        Err(ShelfFail::TooLong) => Ok(Loaded::Refused(Refusal::Limit(
            Quantity::ProgramBytes,
            PROGRAM_BYTES + 1,
        ))),
        Err(ShelfFail::NoMemory) => Err(NoMemory),
    }
}

/// The numbers of the input under a name.
#[tactic(auto, using(crate::proofs::LoadLemmas::long_texts))]
pub fn load_input<S: Shelf>(
    alloc: Global,
    shelf: &mut S,
    name: &str,
) -> Result<Loaded<Row<i64>>, NoMemory>
    requires { S.faults shelf.old < 2 ^ 64 - 1 }
    ensures contents { S.contents shelf.new ≡ S.contents shelf.old }
    ensures faults { FaultsAfterLoad result (S.faults shelf.old) (S.faults shelf.new) }
    ensures failed_names { S.failed_names shelf.new ≡ option_map (names_after result name.now) (S.failed_names shelf.old) }
    ensures loads { IfOk result (Loads (ReadsInput (S.contents shelf.old) name.now)) }
{
    match shelf.read(alloc, name, INPUT_BYTES) {
        Ok(text) => match numbers(alloc, text.as_slice())? {
            Ok(numbers) => Ok(Loaded::Text(numbers)),
            Err(refusal) => Ok(Loaded::Refused(refusal)),
        },
        Err(ShelfFail::Failed) => Ok(Loaded::Failed),
        Err(ShelfFail::TooLong) => Ok(Loaded::Refused(Refusal::Limit(
            Quantity::InputBytes,
            INPUT_BYTES + 1,
        ))),
        Err(ShelfFail::NoMemory) => Err(NoMemory),
    }
}

/// The numbers of an input's text, or why it is refused.
fn numbers(alloc: Global, text: &[u8]) -> Result<Result<Row<i64>, Refusal>, NoMemory>
    requires { length text.now ≤ 2097152 }
    ensures { IfOk result (λ read. read ≡ input_of text.now) }
{
    match read_input(alloc, text) {
        Ok(numbers) => Ok(Ok(numbers)),
        Err(InputFail::TooMany { count }) => Ok(Err(Refusal::Limit(Quantity::InputWords, count))),
        Err(InputFail::Refused { word }) => Ok(Err(Refusal::InputWord(word))),
        Err(InputFail::NoMemory) => Err(NoMemory),
    }
}

/// The plans under a name, of this program without calls.
#[tactic(auto, using(crate::proofs::LoadLemmas::long_texts, crate::proofs::LoadLemmas::plan_texts))]
pub fn load_plans<S: Shelf>(
    alloc: Global,
    shelf: &mut S,
    name: &str,
    program: &Program,
) -> Result<Loaded<Row<Plan>>, NoMemory>
    requires { S.faults shelf.old < 2 ^ 64 - 1 }
    ensures contents { S.contents shelf.new ≡ S.contents shelf.old }
    ensures faults { FaultsAfterLoad result (S.faults shelf.old) (S.faults shelf.new) }
    ensures failed_names { S.failed_names shelf.new ≡ option_map (names_after result name.now) (S.failed_names shelf.old) }
    ensures loads { IfOk result (Loads (LoadsPlans (S.contents shelf.old) program.now name.now)) }
{
    match shelf.read(alloc, name, PLAN_BYTES) {
        Ok(text) => match plans(alloc, text.as_slice(), program)? {
            Ok(plans) => Ok(Loaded::Text(plans)),
            Err(refusal) => Ok(Loaded::Refused(refusal)),
        },
        Err(ShelfFail::Failed) => Ok(Loaded::Failed),
        Err(ShelfFail::TooLong) => Ok(Loaded::Refused(Refusal::Limit(
            Quantity::PlanBytes,
            PLAN_BYTES + 1,
        ))),
        Err(ShelfFail::NoMemory) => Err(NoMemory),
    }
}

/// The plans of a text, or why it is refused.
#[tactic(auto, using(crate::proofs::LoadLemmas::plan_texts))]
fn plans(
    alloc: Global,
    text: &[u8],
    program: &Program,
) -> Result<Result<Row<Plan>, Refusal>, NoMemory>
    requires { length text.now ≤ 1048576 }
    ensures { IfOk result (ReadsPlans program.now text.now) }
{
    match read_plans(alloc, text, program) {
        Ok(plans) => Ok(Ok(plans)),
        Err(PlanFail::Refused { line }) => Ok(Err(Refusal::PlanLine(line))),
        Err(PlanFail::Invalid { rule, site }) => Ok(Err(Refusal::PlanRule { rule, site: site.0 })),
        Err(PlanFail::NoMemory) => Err(NoMemory),
    }
}

/// The profile under a name, of this program without calls.
#[tactic(auto, using(crate::proofs::LoadLemmas::long_texts, crate::proofs::LoadLemmas::profile_texts))]
pub fn load_profile<S: Shelf>(
    alloc: Global,
    shelf: &mut S,
    name: &str,
    program: &Program,
) -> Result<Loaded<Profile>, NoMemory>
    requires shelf { S.faults shelf.old < 2 ^ 64 - 1 }
    requires inlined { IsInlined program.now }
    ensures contents { S.contents shelf.new ≡ S.contents shelf.old }
    ensures faults { FaultsAfterLoad result (S.faults shelf.old) (S.faults shelf.new) }
    ensures failed_names { S.failed_names shelf.new ≡ option_map (names_after result name.now) (S.failed_names shelf.old) }
    ensures loads { IfOk result (Loads (LoadsProfile (S.contents shelf.old) program.now name.now)) }
{
    match shelf.read(alloc, name, PROFILE_BYTES) {
        Ok(text) => match profile(alloc, text.as_slice(), program)? {
            Ok(profile) => Ok(Loaded::Text(profile)),
            Err(refusal) => Ok(Loaded::Refused(refusal)),
        },
        Err(ShelfFail::Failed) => Ok(Loaded::Failed),
        Err(ShelfFail::TooLong) => Ok(Loaded::Refused(Refusal::Limit(
            Quantity::ProfileBytes,
            PROFILE_BYTES + 1,
        ))),
        Err(ShelfFail::NoMemory) => Err(NoMemory),
    }
}

/// The profile of a text, or why it is refused.
#[tactic(auto, using(crate::proofs::LoadLemmas::profile_texts))]
fn profile(
    alloc: Global,
    text: &[u8],
    program: &Program,
) -> Result<Result<Profile, Refusal>, NoMemory>
    requires text { length text.now ≤ 67108864 }
    requires inlined { IsInlined program.now }
    ensures { IfOk result (ReadsProfile program.now text.now) }
{
    match read_profile(alloc, text, program) {
        Ok(profile) => Ok(Ok(profile)),
        Err(ProfileFail::Refused { line }) => Ok(Err(Refusal::ProfileLine(line))),
        Err(ProfileFail::NoMemory) => Err(NoMemory),
    }
}
