ghost use Rattle.std.specs.Prelude.{◌≡◌, [], ◌∷◌, flat_map, if◌then◌else◌, OnOk};
ghost use Rattle.model_history.specs.History.Action.{Operation, Prune};
ghost use Rattle.model_traces.specs.Runs.{line_of};
ghost use Rattle.model_traces.specs.Traces.Act.{Records};
ghost use Rattle.script_reading.specs.WellFormed.{IsOperation, IsStep};
ghost use Rattle.trace_recorder.specs.Saw.{IsFormed};
ghost use Rattle.trace_entries.specs.Seeing.{Sees};
ghost use Rattle.trace_members.specs.Watching.{prune_seen, makes_record, outcomes_of, text_got, text_seen, made_seen, got_seen};

use base_bytes::{Memory, Text};
use base_vectors::Id;
use member_node::{KeyOutcome, Outcome, Reply};
use model_kinds::Op;
use script_reading::{Ask, Step};
use std::alloc::Global;
use trace_entries::{see, see_deleted, see_value};
use trace_lines::TraceAct;
use trace_recorder::Recorder;
use world_members::{Answer, Event};

/// Whether an update made its record, whatever the store did.
fn tells_record(answer: &Answer) -> bool
    ensures { result ≡ makes_record answer.now }
{
    match answer {
        Answer::Reply(Reply::Done) => true,
        Answer::Reply(Reply::Pending(_)) => true,
        Answer::Reply(Reply::StoreFailed) => true,
        _ => false,
    }
}

/// Sees the record of an update, if it made one.
fn see_update(
    recorder: &mut Recorder,
    at: Id,
    key: &Text,
    op: &Op,
    answer: &Answer,
) -> Result<(), Memory>
    requires { IsOperation op.now }
    ensures saw { OnOk result (Sees recorder.old recorder.new (if makes_record answer.now then line_of at key.now (Records (Operation op.now)) ∷ [] else [])) }
    ensures formed { OnOk result (IsFormed recorder.old → IsFormed recorder.new) }
{
    if tells_record(answer) {
        see(recorder, at, key, TraceAct::Record(op.copied()))
    } else {
        Ok(())
    }
}

/// Sees the record of a prune of this identity.
fn see_prune(recorder: &mut Recorder, at: Id, key: &Text, removed: Id) -> Result<(), Memory>
    ensures saw { OnOk result (Sees recorder.old recorder.new (line_of at key.now (Records (Prune removed)) ∷ [])) }
    ensures formed { OnOk result (IsFormed recorder.old → IsFormed recorder.new) }
{
    see(recorder, at, key, TraceAct::Prune(removed))
}

/// Sees the record of an outcome of a tick, if a prune was performed.
fn see_outcome(recorder: &mut Recorder, at: Id, told: &KeyOutcome) -> Result<(), Memory>
    ensures saw { OnOk result (Sees recorder.old recorder.new (prune_seen at told.now)) }
    ensures formed { OnOk result (IsFormed recorder.old → IsFormed recorder.new) }
{
    match told.outcome {
        Outcome::Performed => see_prune(recorder, at, &told.key, told.removed),
        _ => Ok(()),
    }
}

/// Sees the records of the prunes that a tick performed, in their order.
fn see_outcomes(recorder: &mut Recorder, at: Id, outcomes: &[KeyOutcome]) -> Result<(), Memory>
    ensures saw { OnOk result (Sees recorder.old recorder.new (flat_map (prune_seen at) outcomes.now)) }
    ensures formed { OnOk result (IsFormed recorder.old → IsFormed recorder.new) }
{
    for told in outcomes {
        see_outcome(recorder, at, told)?;
    }
    Ok(())
}

/// Sees the records of the prunes that a tick performed.
fn see_tick(recorder: &mut Recorder, at: Id, answer: &Answer) -> Result<(), Memory>
    ensures saw { OnOk result (Sees recorder.old recorder.new (flat_map (prune_seen at) (outcomes_of answer.now))) }
    ensures formed { OnOk result (IsFormed recorder.old → IsFormed recorder.new) }
{
    match answer {
        Answer::Reply(Reply::Ticked(outcomes)) => see_outcomes(recorder, at, outcomes.as_slice()),
        Answer::Reply(Reply::TickedStoreFailed(outcomes)) => {
            see_outcomes(recorder, at, outcomes.as_slice())
        }
        _ => Ok(()),
    }
}

/// Sees what a get showed, if it did.
fn see_get(
    recorder: &mut Recorder,
    alloc: Global,
    at: Id,
    key: &Text,
    answer: &Answer,
) -> Result<(), Memory>
    ensures saw { OnOk result (Sees recorder.old recorder.new (text_seen at key.now (text_got answer.now))) }
    ensures formed { OnOk result (IsFormed recorder.old → IsFormed recorder.new) }
{
    match answer {
        Answer::Reply(Reply::Value(shown)) => see_value(recorder, alloc, at, key, shown),
        Answer::Reply(Reply::Deleted) => see_deleted(recorder, alloc, at, key),
        _ => Ok(()),
    }
}

/// Sees the records that a step made by which this came.
fn see_made(recorder: &mut Recorder, step: &Step, answer: &Answer) -> Result<(), Memory>
    requires { IsStep step.now }
    ensures saw { OnOk result (Sees recorder.old recorder.new (made_seen step.now answer.now)) }
    ensures formed { OnOk result (IsFormed recorder.old → IsFormed recorder.new) }
{
    match step {
        Step::Ask {
            at,
            ask: Ask::Update { key, op, .. },
        } => see_update(recorder, *at, key, op, answer),
        Step::Ask { at, ask: Ask::Tick } => see_tick(recorder, *at, answer),
        _ => Ok(()),
    }
}

/// Sees what a step showed by which this came.
fn see_got(
    recorder: &mut Recorder,
    alloc: Global,
    step: &Step,
    answer: &Answer,
) -> Result<(), Memory>
    ensures saw { OnOk result (Sees recorder.old recorder.new (got_seen step.now answer.now)) }
    ensures formed { OnOk result (IsFormed recorder.old → IsFormed recorder.new) }
{
    match step {
        Step::Ask {
            at,
            ask: Ask::Get { key, .. },
        } => see_get(recorder, alloc, *at, key, answer),
        _ => Ok(()),
    }
}

/// Sees the records that a step with these events made.
pub(crate) fn see_records(
    recorder: &mut Recorder,
    step: &Step,
    events: &[Event],
) -> Result<(), Memory>
    requires { IsStep step.now }
    ensures saw { OnOk result (Sees recorder.old recorder.new (flat_map (λ event. made_seen step.now event.answer) events.now)) }
    ensures formed { OnOk result (IsFormed recorder.old → IsFormed recorder.new) }
{
    for event in events {
        see_made(recorder, step, &event.answer)?;
    }
    Ok(())
}

/// Sees what a step with these events showed.
pub(crate) fn see_gets(
    recorder: &mut Recorder,
    alloc: Global,
    step: &Step,
    events: &[Event],
) -> Result<(), Memory>
    ensures saw { OnOk result (Sees recorder.old recorder.new (flat_map (λ event. got_seen step.now event.answer) events.now)) }
    ensures formed { OnOk result (IsFormed recorder.old → IsFormed recorder.new) }
{
    for event in events {
        see_got(recorder, alloc, step, &event.answer)?;
    }
    Ok(())
}
