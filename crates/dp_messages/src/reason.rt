//! Why words were refused, found anew by the texts that they name.
ghost use Rattle.std.specs.Prelude.{◌≡◌, ◌<◌, ◌-◌, ◌^◌, ℕ, List, map, string_bytes, IfOk};
ghost use Rattle.dp_words.specs.Words.{Asked, Asks, ToAudit, ToBatch, ToProfile, ToResume};
ghost use Rattle.dp_words.specs.Run.{RunWithin, shown};
ghost use Rattle.dp_words.specs.Planning.{shown_planning};
ghost use Rattle.dp_words.specs.Profiling.{shown_profiling};
ghost use Rattle.dp_words.specs.Values.{OptionsWithin};
ghost use Rattle.dp_load.specs.Alone.{ReadsLeastPlans, ReadsProgramAlone};
ghost use Rattle.dp_load.specs.Roles.{Contents};
ghost use Rattle.dp_messages.specs.Finding.{Finds};
ghost use Rattle.dp_messages.specs.steps.Found as definition;
ghost use Rattle.dp_messages.specs.steps.Runs.{ReadsRunAlone};

use dp_base::NoMemory;
use dp_edge::Shelf;
use dp_load::{
    BatchTexts, Loaded, Texts, load_batch, load_checkpoint, load_least, load_log, load_program,
    load_texts, load_words,
};
use dp_refusal::{Refusal, Role};
use dp_words::{PlanWords, ProfileWords, RunWords, Task, asked};
use std::alloc::Global;

/// What is found of words and of the texts that they name.
#[derive(Clone, Copy)]
pub enum Finding {
    /// They are refused.
    Refused(Refusal),
    /// A text couldn't be read.
    Unread(Role),
    /// Nothing stands against what they ask for.
    Nothing,
}

/// Why the words are refused, or which of their texts can't be read. No text is changed, and none is run.
pub fn why<S: Shelf>(alloc: Global, words: &[String], shelf: &mut S) -> Result<Finding, NoMemory>
    requires { S.faults shelf.old < 2 ^ 64 - 1 }
    ensures contents { S.contents shelf.new ≡ S.contents shelf.old }
    ensures finds { IfOk result (Finds (map string_bytes words.now) (S.contents shelf.old) (S.faults shelf.old) (S.faults shelf.new)) }
{
    match asked(alloc, words)? {
        None => Ok(Finding::Refused(Refusal::Words)),
        Some(Task::Run(run)) => why_run(alloc, run, shelf),
        Some(Task::Log(run)) => why_run(alloc, run, shelf),
        Some(Task::Save(run, _)) => why_run(alloc, run, shelf),
        Some(Task::Audit(run, log)) => why_audit(alloc, run, log, shelf),
        Some(Task::Resume(run, checkpoint)) => why_resume(alloc, run, checkpoint, shelf),
        Some(Task::Batch(run, list)) => why_batch(alloc, run, list, shelf),
        Some(Task::Plan(plan)) => why_plan(alloc, plan, shelf),
        Some(Task::Explain(plan)) => why_plan(alloc, plan, shelf),
        Some(Task::Check(program)) => why_program(alloc, program, shelf),
        Some(Task::Tree(program)) => why_program(alloc, program, shelf),
        Some(Task::Profile(profile)) => why_profile(alloc, profile, shelf),
        Some(Task::Gen(_)) => Ok(Finding::Nothing),
    }
}

/// The same of a run's texts.
fn why_run<S: Shelf>(alloc: Global, run: RunWords, shelf: &mut S) -> Result<Finding, NoMemory>
    requires run { RunWithin (shown run) }
    requires shelf { S.faults shelf.old < 2 ^ 64 - 1 }
    ensures contents { S.contents shelf.new ≡ S.contents shelf.old }
    ensures finds { (words : List (List ℕ)) (asked : Asked) → ReadsRunAlone asked (shown run.entry) → Asks words asked →
        IfOk result (Finds words (S.contents shelf.old) (S.faults shelf.old) (S.faults shelf.new)) }
{
    let texts = load_texts(alloc, run, shelf)?;
    Ok(found_in_run(&texts))
}

fn why_audit<S: Shelf>(
    alloc: Global,
    run: RunWords,
    log: &str,
    shelf: &mut S,
) -> Result<Finding, NoMemory>
    requires run { RunWithin (shown run) }
    requires shelf { S.faults shelf.old < 2 ^ 64 - 1 }
    ensures contents { S.contents shelf.new ≡ S.contents shelf.old }
    ensures finds { (words : List (List ℕ)) → Asks words (ToAudit (shown run.entry) log.now) →
        IfOk result (Finds words (S.contents shelf.old) (S.faults shelf.old) (S.faults shelf.new)) }
{
    match load_texts(alloc, run, shelf)? {
        Texts::Run(_, _, _) => {}
        Texts::Refused(refusal) => return Ok(Finding::Refused(refusal)),
        Texts::Failed(role) => return Ok(Finding::Unread(role)),
    }
    let last = load_log(alloc, shelf, log)?;
    Ok(found_in(&last, Role::Log))
}

fn why_resume<S: Shelf>(
    alloc: Global,
    run: RunWords,
    name: &str,
    shelf: &mut S,
) -> Result<Finding, NoMemory>
    requires run { RunWithin (shown run) }
    requires shelf { S.faults shelf.old < 2 ^ 64 - 1 }
    ensures contents { S.contents shelf.new ≡ S.contents shelf.old }
    ensures finds { (words : List (List ℕ)) → Asks words (ToResume (shown run.entry) name.now) →
        IfOk result (Finds words (S.contents shelf.old) (S.faults shelf.old) (S.faults shelf.new)) }
{
    let program = match load_texts(alloc, run, shelf)? {
        Texts::Run(program, _, _) => program,
        Texts::Refused(refusal) => return Ok(Finding::Refused(refusal)),
        Texts::Failed(role) => return Ok(Finding::Unread(role)),
    };
    let last = load_checkpoint(alloc, shelf, name, &program)?;
    Ok(found_in(&last, Role::Checkpoint))
}

fn why_batch<S: Shelf>(
    alloc: Global,
    run: RunWords,
    list: &str,
    shelf: &mut S,
) -> Result<Finding, NoMemory>
    requires run { RunWithin (shown run) }
    requires shelf { S.faults shelf.old < 2 ^ 64 - 1 }
    ensures contents { S.contents shelf.new ≡ S.contents shelf.old }
    ensures finds { (words : List (List ℕ)) → Asks words (ToBatch (shown run.entry) list.now) →
        IfOk result (Finds words (S.contents shelf.old) (S.faults shelf.old) (S.faults shelf.new)) }
{
    let texts = load_batch(alloc, run, list, shelf)?;
    Ok(found_in_batch(&texts))
}

fn why_plan<S: Shelf>(alloc: Global, plan: PlanWords, shelf: &mut S) -> Result<Finding, NoMemory>
    requires options { OptionsWithin plan.options }
    requires shelf { S.faults shelf.old < 2 ^ 64 - 1 }
    ensures contents { S.contents shelf.new ≡ S.contents shelf.old }
    ensures finds { (words : List (List ℕ)) (asked : Asked) → ReadsLeastPlans asked (shown_planning plan.entry) → Asks words asked →
        IfOk result (Finds words (S.contents shelf.old) (S.faults shelf.old) (S.faults shelf.new)) }
{
    let program = match load_program(alloc, shelf, plan.program)? {
        Loaded::Text(program) => program,
        Loaded::Refused(refusal) => return Ok(Finding::Refused(refusal)),
        Loaded::Failed => return Ok(Finding::Unread(Role::Program)),
    };
    let plans = load_least(alloc, shelf, plan.profile, plan.options, &program)?;
    Ok(found_in(&plans, Role::Profile))
}

fn why_program<S: Shelf>(alloc: Global, name: &str, shelf: &mut S) -> Result<Finding, NoMemory>
    requires { S.faults shelf.old < 2 ^ 64 - 1 }
    ensures contents { S.contents shelf.new ≡ S.contents shelf.old }
    ensures finds { (words : List (List ℕ)) (asked : Asked) → ReadsProgramAlone asked name.now → Asks words asked →
        IfOk result (Finds words (S.contents shelf.old) (S.faults shelf.old) (S.faults shelf.new)) }
{
    let program = load_program(alloc, shelf, name)?;
    Ok(found_in(&program, Role::Program))
}

fn why_profile<S: Shelf>(
    alloc: Global,
    profile: ProfileWords,
    shelf: &mut S,
) -> Result<Finding, NoMemory>
    requires { S.faults shelf.old < 2 ^ 64 - 1 }
    ensures contents { S.contents shelf.new ≡ S.contents shelf.old }
    ensures finds { (words : List (List ℕ)) → Asks words (ToProfile (shown_profiling profile.entry)) →
        IfOk result (Finds words (S.contents shelf.old) (S.faults shelf.old) (S.faults shelf.new)) }
{
    match load_program(alloc, shelf, profile.program)? {
        Loaded::Text(_) => {}
        Loaded::Refused(refusal) => return Ok(Finding::Refused(refusal)),
        Loaded::Failed => return Ok(Finding::Unread(Role::Program)),
    }
    let input = load_words(alloc, shelf, profile.input)?;
    Ok(found_in(&input, Role::Input))
}

/// What is found of one text.
fn found_in<T>(loaded: &Loaded<T>, role: Role) -> Finding
    ensures { result ≡ definition.found_in role loaded.now }
{
    match loaded {
        Loaded::Text(_) => Finding::Nothing,
        Loaded::Refused(refusal) => Finding::Refused(*refusal),
        Loaded::Failed => Finding::Unread(role),
    }
}

/// What is found of the texts of a run.
fn found_in_run(texts: &Texts) -> Finding
    ensures { result ≡ definition.found_in_run texts.now }
{
    match texts {
        Texts::Run(_, _, _) => Finding::Nothing,
        Texts::Refused(refusal) => Finding::Refused(*refusal),
        Texts::Failed(role) => Finding::Unread(*role),
    }
}

/// What is found of the texts of a batch.
fn found_in_batch(texts: &BatchTexts) -> Finding
    ensures { result ≡ definition.found_in_batch texts.now }
{
    match texts {
        BatchTexts::Run(_, _, _) => Finding::Nothing,
        BatchTexts::Refused(refusal) => Finding::Refused(*refusal),
        BatchTexts::Failed(role) => Finding::Unread(*role),
    }
}
