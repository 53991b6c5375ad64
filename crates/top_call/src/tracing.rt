ghost use Rattle.std.specs.Prelude.{◌≡◌, ◌≢◌, ◌≤◌, ◌+◌, List, ◌∷◌, ◌++◌, length, string_bytes, true, All, IfOk, IfErr, MatchOption, position};
ghost use Rattle.script_reading.specs.Fields.{is_key_name};
ghost use Rattle.script_reading.specs.WellFormed.{HasNoClients, IsWellFormed};
ghost use Rattle.report_lines.specs.Kept.{AreKept, IsPlayed};
ghost use Rattle.trace_played.specs.Traced.{HasNoSettle};
ghost use Rattle.top_call.specs.Asking.{Reads};
ghost use Rattle.top_call.specs.Due.{IsRefusal, IsDueFor};
ghost use Rattle.top_call.specs.Passages.{reading};
ghost use Rattle.top_call.specs.Tracing.{HasTraced, IsTraceOver, IsSettleAt, IsSettleDue, is_a_settle};
ghost use Rattle.top_call.specs.declared.words.Asked.TheVariants as is_asked;

use crate::answer::{Answer, script, told};
use crate::due::Due;
use base_outside::Source;
use data_value::Data;
use member_keeper::Keeper;
use report_lines::Played;
use script_reading::{Clients, RunStep, Script, Step};
use std::alloc::Global;
use trace_played::trace;

/// Whether a step is a settle.
fn is_settle(step: &RunStep) -> bool
    ensures { result ≡ is_a_settle step.now }
{
    matches!(step, RunStep::Plain(Step::Settle))
}

/// The number of the first settle among steps, from 1.
fn first_settle(steps: &[RunStep]) -> Option<usize>
    ensures { MatchOption result (HasNoSettle steps.now) (IsSettleAt steps.now) }
{
    for (i, step) in steps.iter().enumerate() {
        if is_settle(step) {
            return Some(i + 1);
        }
    }
    None
}

/// The rule of scripts that are traced, which a settle breaks.
const SETTLE_RULE: u8 = 16;

/// What is due where the step of this number is a settle.
fn settle_due(alloc: Global, step: usize) -> Due
    ensures { IsSettleDue step result }
{
    let rule = SETTLE_RULE;
    match format!(in alloc; "not a script: step {step} rule {rule}\n") {
        Ok(text) => Due::NotAScript(text),
        Err(_) => Due::Memory,
    }
}

/// The script on the source, without clients and settles, or what is due in its place.
fn traceable<S: Source>(alloc: Global, source: &mut S) -> Result<Script, Due>
    ensures script { IfOk result (HasTraced (reading S.Source.own source.old source.new)) }
    ensures bounds { IfOk result IsWellFormed }
    ensures refused { IfErr result (IsRefusal Reads.AnUnsettledScript (reading S.Source.own source.old source.new)) }
    ensures later { S.faults source.old ≤ S.faults source.new }
{
    let script = match script(alloc, Clients::Refused, source) {
        Ok(script) => script,
        Err(due) => return Err(due),
    };
    match first_settle(script.steps.as_slice()) {
        Some(step) => Err(settle_due(alloc, step)),
        None => Ok(script),
    }
}

/// Plays a script without clients and settles over values of the six kinds, and tells its trace.
fn play_traced<K: Keeper + Drop>(alloc: Global, script: &Script, keepers: Vec<K>) -> Played<K>
    requires script { IsWellFormed script.now }
    requires named { All (λ key. is_key_name key.key ≡ true) script.now.keys }
    requires plain { HasNoClients script.now }
    requires unsettled { HasNoSettle script.now.steps }
    requires keepers { length keepers.items ≡ 8 }
    ensures { IsPlayed K.Keeper.own (IsTraceOver K.Keeper.own) script.now keepers.items result.keepers.items result.ending }
{
    trace::<Data, K>(alloc, script, keepers)
}

/// What is due where the trace of the script on the source is asked for.
pub(crate) fn trace_due<S: Source, K: Keeper + Drop>(
    alloc: Global,
    source: &mut S,
    keepers: Vec<K>,
) -> Answer<K>
    requires { length keepers.items ≡ 8 }
    ensures due { IsDueFor K.Keeper.own is_asked.Trace (reading S.Source.own source.old source.new) keepers.items result.keepers.items result.due }
    ensures kept { AreKept K.Keeper.own keepers.items result.keepers.items }
    ensures later { S.faults source.old ≤ S.faults source.new }
{
    match traceable(alloc, source) {
        Ok(script) => told(alloc, play_traced(alloc, &script, keepers)),
        Err(due) => Answer { due, keepers },
    }
}
