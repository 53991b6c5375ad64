ghost use Rattle.std.specs.Prelude.{◌≡◌, ℕ, Some, OnOk};
ghost use Rattle.model_history.specs.Texts.{Text as Name};
ghost use Rattle.model_history.specs.History.{History};
ghost use Rattle.model_members.specs.DataType.{Replication};
ghost use Rattle.model_members.specs.Entry.{Entry};
ghost use Rattle.model_members.specs.Node.{Node as Member};
ghost use Rattle.model_members.specs.World.{World as Modelled};
ghost use Rattle.model_kinds.specs.declared.kind.Kind as kinds_of_values;
ghost use Rattle.model_kinds.specs.declared.operation.Op as operations;
ghost use Rattle.model_kinds.specs.declared.shown.Shown as values;
ghost use Rattle.model_traces.specs.Runs.{of_node, of_members};
ghost use Rattle.member_node.specs.Members.{StandsForKey, StandsForNode};
ghost use Rattle.trace_recorder.specs.Saw.{IsFormed};
ghost use Rattle.trace_entries.specs.Seeing.{Sees, looked_at};
ghost use Rattle.trace_members.specs.Watching.{key_at};
ghost use Rattle.world_members.specs.Standing.{StandsForWorld};

use base_bytes::Memory;
use base_vectors::Id;
use data_lattice::{Replica, SpelledData};
use member_keeper::Keeper;
use member_node::{KeyState, Node};
use model_kinds::{Kind, Op};
use std::alloc::Global;
use trace_entries::{Look, see_entry};
use trace_recorder::Recorder;
use world_members::World;

/// Sees what is looked at of a key of a member.
fn see_key<T: Replica<Kind = Kind, Op = Op>>(
    recorder: &mut Recorder,
    alloc: Global,
    look: Look,
    at: Id,
    key: &KeyState<T>,
) -> Result<(), Memory>
    ensures saw { (D : Replication kinds_of_values.Kind operations.Op values.Shown) (kinds : Name → kinds_of_values.Kind) (logs : Name → History operations.Op) (entry : Entry operations.Op) (flushed : ℕ → ℕ)
        → D.data_type ≡ T.data_type → StandsForKey T.kind_of T.IsDataOf T.IsDeltaOf kinds logs key.now entry flushed
        → OnOk result (Sees recorder.old recorder.new (looked_at D look at (key_at key.now entry))) }
    ensures formed { OnOk result (IsFormed recorder.old → IsFormed recorder.new) }
{
    see_entry(recorder, alloc, look, at, key.name(), key.entry())
}

/// Sees what is looked at of each key of a member.
fn see_node<T: SpelledData<Kind = Kind, Op = Op>, K: Keeper + Drop>(
    recorder: &mut Recorder,
    alloc: Global,
    look: Look,
    at: Id,
    node: &Node<T, K>,
) -> Result<(), Memory>
    ensures saw { (D : Replication kinds_of_values.Kind operations.Op values.Shown) (kinds : Name → kinds_of_values.Kind) (logs : Name → History operations.Op) (member : Member kinds_of_values.Kind operations.Op values.Shown)
        → D.data_type ≡ T.data_type → StandsForNode T.kind_of T.IsDataOf kinds logs node.now member
        → OnOk result (Sees recorder.old recorder.new (of_node (looked_at D look) at (Some member))) }
    ensures formed { OnOk result (IsFormed recorder.old → IsFormed recorder.new) }
{
    for key in node.keys() {
        see_key(recorder, alloc, look, at, key)?;
    }
    Ok(())
}

/// Sees what is looked at of each key of the member of an identity, if it runs.
fn see_seat<T: SpelledData<Kind = Kind, Op = Op>, K: Keeper + Drop>(
    recorder: &mut Recorder,
    alloc: Global,
    look: Look,
    at: Id,
    world: &World<T, K>,
) -> Result<(), Memory>
    ensures saw { (D : Replication kinds_of_values.Kind operations.Op values.Shown) (kinds : Name → kinds_of_values.Kind) (logs : Name → History operations.Op) (here : Modelled kinds_of_values.Kind operations.Op values.Shown)
        → D.data_type ≡ T.data_type → StandsForWorld T.SpelledData.own kinds logs world.now here
        → OnOk result (Sees recorder.old recorder.new (of_node (looked_at D look) at (here.nodes at))) }
    ensures formed { OnOk result (IsFormed recorder.old → IsFormed recorder.new) }
{
    match world.node(at) {
        Some(node) => see_node(recorder, alloc, look, at, node),
        None => Ok(()),
    }
}

/// Sees what is looked at of each key of each running member.
pub(crate) fn see_members<T: SpelledData<Kind = Kind, Op = Op>, K: Keeper + Drop>(
    recorder: &mut Recorder,
    alloc: Global,
    look: Look,
    world: &World<T, K>,
) -> Result<(), Memory>
    ensures saw { (D : Replication kinds_of_values.Kind operations.Op values.Shown) (kinds : Name → kinds_of_values.Kind) (logs : Name → History operations.Op) (here : Modelled kinds_of_values.Kind operations.Op values.Shown)
        → D.data_type ≡ T.data_type → StandsForWorld T.SpelledData.own kinds logs world.now here
        → OnOk result (Sees recorder.old recorder.new (of_members (looked_at D look) here)) }
    ensures formed { OnOk result (IsFormed recorder.old → IsFormed recorder.new) }
{
    for member in world.views().last().members() {
        see_seat(recorder, alloc, look, member.id, world)?;
    }
    Ok(())
}
