ghost use Rattle.std.specs.Prelude.{◌≡◌, length, true, string_bytes, All, OnOk, IfOk, MatchResult};
ghost use Rattle.script_reading.specs.declared.clients.Clients.{Clients};
ghost use Rattle.script_reading.specs.Fields.{is_key_name};
ghost use Rattle.script_reading.specs.WellFormed.{HasNoClients, IsAllowed, IsStep, IsRunStep, IsWellFormed};
ghost use Rattle.world_places.specs.Places.{keepers_of};
ghost use Rattle.report_lines.specs.Kept.{IsPlayed};
ghost use Rattle.report_lines.specs.Telling.{AreAllKept};
ghost use Rattle.trace_recorder.specs.Saw.{IsFormed};
ghost use Rattle.trace_played.specs.Seeing.{TracesStep, TracesSteps, TellsEnd, EndsWithTrace};
ghost use Rattle.trace_played.specs.Traced.{HasNoSettle, IsTraceOver};

use base_bytes::Memory;
use data_lattice::SpelledData;
use member_keeper::Keeper;
use model_kinds::{Kind, Op};
use report_lines::{Ending, Played, ended, first_world};
use script_reading::{RunStep, Script, Step};
use std::alloc::Global;
use trace_members::{recorder_of, see_end, see_step};
use trace_recorder::Recorder;
use trace_text::trace_text;
use world_members::World;

/// Plays a step that the script makes by itself, and sees what it did.
fn traced_step<T: SpelledData<Kind = Kind, Op = Op>, K: Keeper + Drop>(
    recorder: &mut Recorder,
    alloc: Global,
    step: &Step,
    world: &mut World<T, K>,
) -> Result<(), Memory>
    requires { IsStep step.now }
    ensures traced { MatchResult result (λ _. TracesStep T.SpelledData.own step.now world.old world.new recorder.old recorder.new) (λ _. AreAllKept world.old world.new) }
    ensures formed { OnOk result (IsFormed recorder.old → IsFormed recorder.new) }
{
    let events = world.step(step)?;
    see_step(recorder, alloc, step, events.as_slice(), world)
}

/// Plays the steps of a script without clients, and sees what they did.
fn traced_steps<T: SpelledData<Kind = Kind, Op = Op>, K: Keeper + Drop>(
    recorder: &mut Recorder,
    alloc: Global,
    steps: &[RunStep],
    world: &mut World<T, K>,
) -> Result<(), Memory>
    requires steps { All IsRunStep steps.now }
    requires plain { All (IsAllowed Clients.Refused) steps.now }
    ensures traced { MatchResult result (λ _. TracesSteps T.SpelledData.own steps.now world.old world.new recorder.old recorder.new) (λ _. AreAllKept world.old world.new) }
    ensures formed { OnOk result (IsFormed recorder.old → IsFormed recorder.new) }
{
    for step in steps {
        match step {
            RunStep::Plain(step) => traced_step(recorder, alloc, step, world)?,
            RunStep::Threads { .. } | RunStep::Subscribe { .. } | RunStep::Unsubscribe { .. } => {
                unreachable!()
            }
        }
    }
    Ok(())
}

/// The text of a recorder's trace, with what members show at the end.
fn told<T: SpelledData<Kind = Kind, Op = Op>, K: Keeper + Drop>(
    alloc: Global,
    recorder: Recorder,
    world: &World<T, K>,
) -> Result<String, Memory>
    requires { IsFormed recorder }
    ensures { IfOk result (λ text. TellsEnd T.SpelledData.own world.now recorder (string_bytes text)) }
{
    let mut recorder = recorder;
    see_end(&mut recorder, alloc, world)?;
    trace_text(alloc, &recorder.into_trace())
}

/// The end of a run of which the recorder saw all steps.
fn finished<T: SpelledData<Kind = Kind, Op = Op>, K: Keeper + Drop>(
    alloc: Global,
    recorder: Recorder,
    world: World<T, K>,
) -> Played<K>
    requires { IsFormed recorder }
    ensures ending { EndsWithTrace T.SpelledData.own world recorder result.ending }
    ensures keepers { result.keepers.items ≡ keepers_of world.nodes.items world.spare.items }
{
    match told(alloc, recorder, &world) {
        Ok(text) => ended(Ending::Told(text), world),
        Err(_) => ended(Ending::Memory, world),
    }
}

/// Plays a script without clients and settles over values of the data type `T` and over a keeper for each place, and tells its trace.
///
/// The keepers are cleared first.
pub fn trace<T: SpelledData<Kind = Kind, Op = Op>, K: Keeper + Drop>(
    alloc: Global,
    script: &Script,
    keepers: Vec<K>,
) -> Played<K>
    requires script { IsWellFormed script.now }
    requires named { All (λ key. is_key_name key.key ≡ true) script.now.keys }
    requires plain { HasNoClients script.now }
    requires unsettled { HasNoSettle script.now.steps }
    requires keepers { length keepers.items ≡ 8 }
    ensures { IsPlayed K.Keeper.own (IsTraceOver T.data_type T.history_byte T.history_spelled K.Keeper.own) script.now keepers.items result.keepers.items result.ending }
{
    let mut world = match first_world::<T, K>(alloc, script.members, &script.keys, keepers) {
        Ok(world) => world,
        Err(played) => return played,
    };
    let mut recorder = match recorder_of(alloc, &world) {
        Ok(recorder) => recorder,
        Err(_) => return ended(Ending::Memory, world),
    };
    match traced_steps(&mut recorder, alloc, script.steps.as_slice(), &mut world) {
        Ok(()) => finished(alloc, recorder, world),
        Err(_) => ended(Ending::Memory, world),
    }
}
