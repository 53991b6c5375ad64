ghost use Rattle.std.specs.Prelude.{◌≡◌, [], map, OnOk, IfOk};
ghost use Rattle.member_node.specs.Members.{declared};
ghost use Rattle.script_reading.specs.WellFormed.{IsStep};
ghost use Rattle.trace_recorder.specs.Saw.{Saw, IsFormed};
ghost use Rattle.trace_members.specs.Watching.{SeesStep, SeesEnd};

use crate::keys::keys_of;
use crate::members::see_members;
use crate::steps::{see_gets, see_records};
use base_bytes::Memory;
use data_lattice::SpelledData;
use member_keeper::Keeper;
use model_kinds::{Kind, Op};
use script_reading::Step;
use std::alloc::Global;
use trace_entries::Look;
use trace_recorder::Recorder;
use world_members::{Event, World};

/// A recorder of a world that has seen nothing.
///
/// # Errors
///
/// Memory was refused.
pub fn recorder_of<T: SpelledData<Kind = Kind, Op = Op>, K: Keeper + Drop>(
    alloc: Global,
    world: &World<T, K>,
) -> Result<Recorder, Memory>
    ensures saw { IfOk result (λ recorder. Saw (map declared world.now.keys.items) recorder []) }
    ensures lines { IfOk result (λ recorder. recorder.lines ≡ []) }
{
    let keys = keys_of(alloc, world.keys())?;
    Recorder::new(alloc, keys)
}

/// Sees what a step did that had these events, and led to this world.
///
/// # Errors
///
/// Memory was refused.
pub fn see_step<T: SpelledData<Kind = Kind, Op = Op>, K: Keeper + Drop>(
    recorder: &mut Recorder,
    alloc: Global,
    step: &Step,
    events: &[Event],
    world: &World<T, K>,
) -> Result<(), Memory>
    requires { IsStep step.now }
    ensures saw { OnOk result (SeesStep T.SpelledData.own step.now world.now events.now recorder.old recorder.new) }
    ensures formed { OnOk result (IsFormed recorder.old → IsFormed recorder.new) }
{
    see_records(recorder, step, events)?;
    see_members(recorder, alloc, Look::Held, world)?;
    see_gets(recorder, alloc, step, events)
}

/// Sees what members show at the end.
///
/// # Errors
///
/// Memory was refused.
pub fn see_end<T: SpelledData<Kind = Kind, Op = Op>, K: Keeper + Drop>(
    recorder: &mut Recorder,
    alloc: Global,
    world: &World<T, K>,
) -> Result<(), Memory>
    ensures saw { OnOk result (SeesEnd T.SpelledData.own world.now recorder.old recorder.new) }
    ensures formed { OnOk result (IsFormed recorder.old → IsFormed recorder.new) }
{
    see_members(recorder, alloc, Look::Shown, world)
}
