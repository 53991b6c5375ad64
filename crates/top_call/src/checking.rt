ghost use Rattle.std.specs.Prelude.{◌≤◌};
ghost use Rattle.report_lines.specs.Kept.{AreKept};
ghost use Rattle.top_call.specs.Checking.{IsJudgementDue, IsCheckDue};
ghost use Rattle.top_call.specs.Due.{IsDueFor};
ghost use Rattle.top_call.specs.Passages.{reading};
ghost use Rattle.trace_judged.specs.declared.judging.Judgement.TheVariants as is_judged;
ghost use Rattle.top_call.specs.declared.words.Asked.TheVariants as is_asked;

use crate::answer::{Answer, bytes_of};
use crate::due::Due;
use base_outside::Source;
use member_keeper::Keeper;
use std::alloc::Global;
use trace_judged::{Judgement, judged};

/// What is due where the bytes are no trace.
fn not_a_trace_due(alloc: Global, line: u64) -> Due
    ensures { IsJudgementDue (is_judged.NotATrace line) result }
{
    match format!(in alloc; "not a trace: line {line}\n") {
        Ok(text) => Due::NotATrace(text),
        Err(_) => Due::Memory,
    }
}

/// What is due where a line breaks a rule.
fn broken_due(alloc: Global, line: u64, rule: u8) -> Due
    ensures { IsJudgementDue (is_judged.Broken line rule) result }
{
    match format!(in alloc; "broken: line {line} rule {rule}\n") {
        Ok(text) => Due::NotLawful(text),
        Err(_) => Due::Memory,
    }
}

/// What is due where no line breaks one.
fn lawful_due(alloc: Global) -> Due
    ensures { IsJudgementDue is_judged.Lawful result }
{
    match String::from_str(alloc, "lawful\n") {
        Ok(text) => Due::Fulfilled(text),
        Err(_) => Due::Memory,
    }
}

/// What is due for what is said of a trace.
fn judgement_due(alloc: Global, judgement: Judgement) -> Due
    ensures { IsJudgementDue judgement result }
{
    match judgement {
        Judgement::NotJson => Due::NotJson,
        Judgement::NotATrace { line } => not_a_trace_due(alloc, line),
        Judgement::Broken { line, rule } => broken_due(alloc, line, rule),
        Judgement::Lawful => lawful_due(alloc),
    }
}

/// What is due for the bytes of a trace.
fn checked(alloc: Global, bytes: &[u8]) -> Due
    ensures { IsCheckDue bytes.now result }
{
    match judged(alloc, bytes) {
        Ok(judgement) => judgement_due(alloc, judgement),
        Err(_) => Due::Memory,
    }
}

/// What is due where the trace on the source is to be judged.
pub(crate) fn check_due<S: Source, K: Keeper>(
    alloc: Global,
    source: &mut S,
    keepers: Vec<K>,
) -> Answer<K>
    ensures due { IsDueFor K.Keeper.own is_asked.Check (reading S.Source.own source.old source.new) keepers.items result.keepers.items result.due }
    ensures kept { AreKept K.Keeper.own keepers.items result.keepers.items }
    ensures later { S.faults source.old ≤ S.faults source.new }
{
    match bytes_of(alloc, source) {
        Ok(bytes) => Answer {
            due: checked(alloc, &bytes),
            keepers,
        },
        Err(due) => Answer { due, keepers },
    }
}
