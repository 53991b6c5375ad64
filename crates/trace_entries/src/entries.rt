ghost use Rattle.std.specs.Prelude.{◌≡◌, ℕ, OnOk, IfOk};
ghost use Rattle.model_history.specs.History.{History, at};
ghost use Rattle.model_members.specs.DataType.{Replication};
ghost use Rattle.model_members.specs.Entry.{Entry};
ghost use Rattle.model_members.specs.Node.{KeyState};
ghost use Rattle.model_kinds.specs.ShownText.{shown_text};
ghost use Rattle.model_kinds.specs.declared.kind.Kind as kinds;
ghost use Rattle.model_kinds.specs.declared.operation.Op as operations;
ghost use Rattle.model_kinds.specs.declared.shown.Shown as shown;
ghost use Rattle.model_traces.specs.Runs.{show_line};
ghost use Rattle.base_vectors.specs.Vectors.{number_at};
ghost use Rattle.data_envelope.specs.Images.{StandsFor};
ghost use Rattle.data_envelope.specs.Words.{parts_of};
ghost use Rattle.trace_lines.specs.WellFormed.{IsAct};
ghost use Rattle.trace_lines.specs.declared.trace.TraceAct.TheVariants as act;
ghost use Rattle.trace_told.specs.Seen.{held_line};
ghost use Rattle.trace_recorder.specs.Saw.{IsFormed};
ghost use Rattle.trace_entries.specs.Seeing.{Sees, OfWhatStands, looked_at};

use crate::values::{see, see_deleted, see_value};
use base_bytes::{Memory, Text};
use base_vectors::{Id, VersionVector};
use data_envelope::Envelope;
use data_lattice::Replica;
use model_kinds::{Kind, Op};
use std::alloc::Global;
use trace_lines::TraceAct;
use trace_recorder::Recorder;

/// What is looked at of a key of a member.
#[derive(Clone, Copy, Debug, PartialEq, Eq)]
pub enum Look {
    /// How many records of each identity it holds.
    Held,
    /// What it shows, if it has a record.
    Shown,
}

/// A vector that may stand in a trace.
fn for_line(alloc: Global, known: &VersionVector) -> Result<VersionVector, Memory>
    ensures same { IfOk result (λ copy. copy ≡ known.now) }
    ensures act { IfOk result (λ copy. IsAct (act.Hold copy)) }
{
    known.copy(alloc)
}

/// How many records of each identity an entry has.
fn known_of<T: Replica>(alloc: Global, entry: &Envelope<T>) -> Result<VersionVector, Memory>
    ensures image { (log : History T.Op) (is : Entry T.Op) → StandsFor T.IsDataOf (parts_of entry.now) log is → IfOk result (λ known. (i : ℕ) → number_at known i ≡ at is.history i) }
    ensures act { IfOk result (λ known. IsAct (act.Hold known)) }
{
    let known = entry.known(alloc)?;
    for_line(alloc, &known)
}

/// Sees what a member holds of a key, by its entry.
fn see_held<T: Replica<Kind = Kind, Op = Op>>(
    recorder: &mut Recorder,
    alloc: Global,
    at: Id,
    key: &Text,
    entry: &Envelope<T>,
) -> Result<(), Memory>
    ensures saw { (log : History operations.Op) (k : KeyState kinds.Kind operations.Op) → k.name ≡ key.now → StandsFor T.IsDataOf (parts_of entry.now) log k.entry
        → OnOk result (Sees recorder.old recorder.new (held_line at k)) }
    ensures formed { OnOk result (IsFormed recorder.old → IsFormed recorder.new) }
{
    let known = known_of(alloc, entry)?;
    see(recorder, at, key, TraceAct::Hold(known))
}

/// Sees what a member shows of a key, by its entry, if it has a record.
fn see_shown<T: Replica<Kind = Kind, Op = Op>>(
    recorder: &mut Recorder,
    alloc: Global,
    at: Id,
    key: &Text,
    entry: &Envelope<T>,
) -> Result<(), Memory>
    ensures saw { (D : Replication kinds.Kind operations.Op shown.Shown) (log : History operations.Op) (k : KeyState kinds.Kind operations.Op) → D.data_type ≡ T.data_type → k.name ≡ key.now → k.kind ≡ T.kind_of entry.now.value
        → StandsFor T.IsDataOf (parts_of entry.now) log k.entry → OnOk result (Sees recorder.old recorder.new (show_line D shown_text at k)) }
    ensures formed { OnOk result (IsFormed recorder.old → IsFormed recorder.new) }
{
    if !entry.has_records() {
        return Ok(());
    }
    if entry.closed() {
        return see_deleted(recorder, alloc, at, key);
    }
    let shown = entry.show(alloc)?;
    see_value(recorder, alloc, at, key, &shown)
}

/// Sees what is looked at of a key of a member, by its entry.
///
/// # Errors
///
/// Memory was refused.
pub fn see_entry<T: Replica<Kind = Kind, Op = Op>>(
    recorder: &mut Recorder,
    alloc: Global,
    look: Look,
    at: Id,
    key: &Text,
    entry: &Envelope<T>,
) -> Result<(), Memory>
    ensures saw { OfWhatStands T.Replica key.now entry.now (λ D k. OnOk result (Sees recorder.old recorder.new (looked_at D look at k))) }
    ensures formed { OnOk result (IsFormed recorder.old → IsFormed recorder.new) }
{
    match look {
        Look::Held => see_held(recorder, alloc, at, key, entry),
        Look::Shown => see_shown(recorder, alloc, at, key, entry),
    }
}
