//! Whether a text is the log of a run.
ghost use Rattle.std.specs.Prelude.{◌≡◌, ◌<◌, ◌≤◌, ◌-◌, ◌^◌, ℕ, List, Some, None, IfOk, length, string_bytes};
ghost use Rattle.dp_edge.specs.Writing.{FaultsAfter};
ghost use Rattle.dp_log.specs.LogText.{log_bytes};
ghost use Rattle.dp_run.specs.RunText.{source_run};
ghost use Rattle.dp_words.specs.Words.{Asks, ToAudit};
ghost use Rattle.dp_words.specs.Run.{RunWithin, shown};
ghost use Rattle.dp_drive.specs.Audit.{audit_line, audit_status, first_difference};
ghost use Rattle.dp_drive.specs.steps.Carried.{Carried, Finishes};
ghost use Rattle.dp_drive.specs.steps.Given.{MayRun, WereLoaded};

use crate::texts::RunTexts;
use crate::writing::{fail_read, refuse};
use dp_auditor::{AuditEnd, audit};
use dp_base::{NoMemory, Row};
use dp_edge::{Shelf, Sink, WriteFail, write};
use dp_load::{Loaded, Texts, load_log, load_texts};
use dp_refusal::Role;
use dp_words::RunWords;
use std::alloc::Global;

/// The exit status of an audit.
pub fn answer_audit<S: Shelf, K: Sink>(
    alloc: Global,
    run: RunWords,
    log: &str,
    shelf: &mut S,
    sink: &mut K,
) -> Result<u8, WriteFail>
    requires run { RunWithin (shown run) }
    requires shelf { S.faults shelf.old < 2 ^ 64 - 1 }
    requires sink { K.faults sink.old < 2 ^ 64 - 1 }
    ensures contents { S.contents shelf.new ≡ S.contents shelf.old }
    ensures faults { FaultsAfter result (K.faults sink.old) (K.faults sink.new) }
    ensures carried { (words : List (List ℕ)) → Asks words (ToAudit (shown run.entry) log.now) → Carried words (S.contents shelf.old) (S.faults shelf.old)
        (S.faults shelf.new)
        (S.failed_names shelf.old) (S.failed_names shelf.new) (K.written sink.old) (K.written sink.new) result }
{
    match load_texts(alloc, run, shelf)? {
        Texts::Run(program, input, plans) => {
            let texts = RunTexts {
                run,
                program: &program,
                input: &input,
                plans: &plans,
            };
            answer_log_text(alloc, texts, log, shelf, sink)
        }
        Texts::Refused(refusal) => refuse(alloc, refusal, sink),
        Texts::Failed(role) => fail_read(alloc, role, sink),
    }
}

/// The same, where the run's texts were read: the log is the last one.
fn answer_log_text<S: Shelf, K: Sink>(
    alloc: Global,
    texts: RunTexts,
    log: &str,
    shelf: &mut S,
    sink: &mut K,
) -> Result<u8, WriteFail>
    requires may { MayRun (shown texts.run) texts.program.now texts.input.now texts.plans.now }
    requires shelf { S.faults shelf.old < 2 ^ 64 - 1 }
    requires sink { K.faults sink.old < 2 ^ 64 - 1 }
    ensures contents { S.contents shelf.new ≡ S.contents shelf.old }
    ensures faults { FaultsAfter result (K.faults sink.old) (K.faults sink.new) }
    ensures carried { (words : List (List ℕ)) → Asks words (ToAudit (shown texts.entry.run) log.now) →
        WereLoaded (S.contents shelf.old) (shown texts.entry.run) (S.faults shelf.old) (S.failed_names shelf.old) texts.entry.program.now texts.entry.input.now
        texts.entry.plans.now →
        Carried words (S.contents shelf.old) (S.faults shelf.old) (S.faults shelf.new) (S.failed_names shelf.old) (S.failed_names shelf.new)
        (K.written sink.old) (K.written sink.new) result }
{
    match load_log(alloc, shelf, log)? {
        Loaded::Text(log) => compare(alloc, texts, &log, sink),
        Loaded::Refused(refusal) => refuse(alloc, refusal, sink),
        Loaded::Failed => fail_read(alloc, Role::Log, sink),
    }
}

/// Writes whether the text is the log of the run, or the first line that differs.
fn compare<K: Sink>(
    alloc: Global,
    texts: RunTexts,
    log: &Row<u8>,
    sink: &mut K,
) -> Result<u8, WriteFail>
    requires may { MayRun (shown texts.run) texts.program.now texts.input.now texts.plans.now }
    requires log { length log.now ≤ 16777216 }
    requires sink { K.faults sink.old < 2 ^ 64 - 1 }
    ensures faults { FaultsAfter result (K.faults sink.old) (K.faults sink.new) }
    ensures finishes { let other = first_difference log.now (log_bytes texts.entry.program.now texts.entry.plans.now
        (source_run texts.entry.program.now texts.entry.input.now texts.entry.run.fuel)) in
        Finishes (audit_status other) (audit_line other) (K.written sink.old) (K.written sink.new) result }
{
    let line = differing(alloc, texts, log)?;
    write_audit(alloc, line, sink)
}

/// The first line at which the text isn't the log of the run.
fn differing(alloc: Global, texts: RunTexts, log: &Row<u8>) -> Result<Option<u32>, NoMemory>
    requires may { MayRun (shown texts.run) texts.program.now texts.input.now texts.plans.now }
    requires log { length log.now ≤ 16777216 }
    ensures { IfOk result (λ line. line ≡ first_difference log.now (log_bytes texts.entry.program.now texts.entry.plans.now
        (source_run texts.entry.program.now texts.entry.input.now texts.entry.run.fuel))) }
{
    let plans = texts.plans.as_slice();
    let input = texts.input.as_slice();
    let text = log.as_slice();
    match audit(alloc, texts.program, plans, input, texts.run.fuel, text)? {
        AuditEnd::Same => Ok(None),
        AuditEnd::Differs { line } => Ok(Some(line)),
    }
}

/// Writes how an audit came out that found this line.
fn write_audit<K: Sink>(alloc: Global, line: Option<u32>, sink: &mut K) -> Result<u8, WriteFail>
    requires { K.faults sink.old < 2 ^ 64 - 1 }
    ensures faults { FaultsAfter result (K.faults sink.old) (K.faults sink.new) }
    ensures finishes { Finishes (audit_status line) (audit_line line) (K.written sink.old) (K.written sink.new) result }
{
    let text = audited_line(alloc, line)?;
    write(text.as_bytes(), sink)?;
    Ok(audited_status(line))
}

/// The line of an audit.
fn audited_line(alloc: Global, line: Option<u32>) -> Result<String, NoMemory>
    ensures { IfOk result (λ text. string_bytes text ≡ audit_line line) }
{
    match line {
        None => same_line(alloc),
        Some(line) => differing_line(alloc, line),
    }
}

/// .. where no line differs.
fn same_line(alloc: Global) -> Result<String, NoMemory>
    ensures { IfOk result (λ text. string_bytes text ≡ audit_line None) }
{
    let text = format!(in alloc; "audit ok\n")?;
    Ok(text)
}

/// .. where this line does.
#[tactic(auto, unfolding(dp_text::specs::Labels::labelled))]
fn differing_line(alloc: Global, line: u32) -> Result<String, NoMemory>
    ensures { IfOk result (λ text. string_bytes text ≡ audit_line (Some line)) }
{
    let text = format!(in alloc; "audit differs line {line}\n")?;
    Ok(text)
}

/// The status of an audit.
fn audited_status(line: Option<u32>) -> u8
    ensures { result ≡ audit_status line }
{
    match line {
        None => 0,
        Some(_) => 10,
    }
}
