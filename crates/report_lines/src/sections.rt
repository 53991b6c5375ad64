ghost use Rattle.std.specs.Prelude.{◌≡◌, [], length, string_bytes, All, MatchResult};
ghost use Rattle.script_reading.specs.declared.clients.RunStep.TheVariants as form;
ghost use Rattle.script_reading.specs.declared.clients.Clients.{Clients};
ghost use Rattle.script_reading.specs.WellFormed.{AreClients, IsAllowed, IsStep, IsRunStep, IsWellFormed};
ghost use Rattle.world_members.specs.Threads.{GivesBack};
ghost use Rattle.report_lines.specs.Kept.{IsPlayed, IsReportOver};
ghost use Rattle.report_lines.specs.Telling.{TellsStep, TellsSteps};

use crate::lines::push_client_lines;
use crate::playing::{Ending, Played, finished, first_world, plain_step};
use data_lattice::SpelledData;
use member_keeper::Keeper;
use model_kinds::{Kind, Op};
use script_reading::{Client, RunStep, Script, Step};
use std::alloc::Global;
use std::sync::Wait;
use std::thread::Threads;
use thread_clients::Gate;
use thread_section::play_section;
use world_members::{Section, World};

/// The keepers of the places, in their order.
fn given_back<T: SpelledData<Kind = Kind, Op = Op>, K: Keeper + Drop>(world: World<T, K>) -> Vec<K>
    ensures { GivesBack world result.items }
{
    world.into_keepers()
}

/// Plays a step that the script makes by itself, adds its lines, and gives the world back.
fn plain_told<T: SpelledData<Kind = Kind, Op = Op>, K: Keeper + Drop>(
    alloc: Global,
    text: &mut String,
    number: usize,
    step: &Step,
    first: World<T, K>,
) -> Result<World<T, K>, Vec<K>>
    requires { IsStep step.now }
    ensures { MatchResult result (λ new. TellsStep T.SpelledData.own number (form.Plain step.now) first new (string_bytes text.old) (string_bytes text.new)) (λ keepers. GivesBack first keepers.items) }
{
    let mut world = first;
    match plain_step(alloc, text, number, step, &mut world) {
        Ok(()) => Ok(world),
        Err(_) => Err(given_back(world)),
    }
}

/// Plays a thread step, adds its lines, and gives the world back.
fn threads_told<
    T: SpelledData<Kind = Kind, Op = Op> + Send,
    K: Keeper + Drop + Send,
    R: Threads + Wait + Sync,
    G: Gate + Sync,
>(
    rt: &R,
    alloc: Global,
    gate: &G,
    text: &mut String,
    number: usize,
    clients: &[Client],
    first: World<T, K>,
) -> Result<World<T, K>, Vec<K>>
where
    T::Delta: Send,
    requires { AreClients clients.now }
    ensures { MatchResult result (λ new. TellsStep T.SpelledData.own number (form.Threads clients.now) first new (string_bytes text.old) (string_bytes text.new)) (λ keepers. GivesBack first keepers.items) }
{
    let Section { world, lines } = match play_section(rt, alloc, gate, first, clients) {
        Ok(section) => section,
        Err(keepers) => return Err(keepers),
    };
    match push_client_lines(alloc, text, number, lines.as_slice()) {
        Ok(()) => Ok(world),
        Err(_) => Err(given_back(world)),
    }
}

/// Plays one step, and adds its lines.
fn one_step<
    T: SpelledData<Kind = Kind, Op = Op> + Send,
    K: Keeper + Drop + Send,
    R: Threads + Wait + Sync,
    G: Gate + Sync,
>(
    rt: &R,
    alloc: Global,
    gate: &G,
    text: &mut String,
    number: usize,
    step: &RunStep,
    world: World<T, K>,
) -> Result<World<T, K>, Vec<K>>
where
    T::Delta: Send,
    requires step { IsRunStep step.now }
    requires allowed { IsAllowed Clients.Allowed step.now }
    ensures { MatchResult result (λ new. TellsStep T.SpelledData.own number step.now world new (string_bytes text.old) (string_bytes text.new)) (λ keepers. GivesBack world keepers.items) }
{
    match step {
        RunStep::Plain(plain) => plain_told(alloc, text, number, plain, world),
        RunStep::Threads { clients } => {
            threads_told(rt, alloc, gate, text, number, clients.as_slice(), world)
        }
        RunStep::Subscribe { .. } | RunStep::Unsubscribe { .. } => unreachable!(),
    }
}

/// Plays the steps of a script, and tells their lines.
fn steps_told<
    T: SpelledData<Kind = Kind, Op = Op> + Send,
    K: Keeper + Drop + Send,
    R: Threads + Wait + Sync,
    G: Gate + Sync,
>(
    rt: &R,
    alloc: Global,
    gate: &G,
    text: &mut String,
    steps: &[RunStep],
    first: World<T, K>,
) -> Result<World<T, K>, Vec<K>>
where
    T::Delta: Send,
    requires steps { All IsRunStep steps.now }
    requires allowed { All (IsAllowed Clients.Allowed) steps.now }
    requires empty { string_bytes text.now ≡ [] }
    ensures { MatchResult result (λ new. TellsSteps T.SpelledData.own steps.now first new (string_bytes text.new)) (λ keepers. GivesBack first keepers.items) }
{
    let mut world = first;
    for (i, step) in steps.iter().enumerate() {
        world = match one_step(rt, alloc, gate, text, i + 1, step, world) {
            Ok(next) => next,
            Err(keepers) => return Err(keepers),
        };
    }
    Ok(world)
}

/// Plays a script that may have thread steps as `report` plays one without them, and tells its report. The clients of a thread step
/// are at work in threads of the runtime, and their calls pass the gate.
pub fn report_with_clients<
    T: SpelledData<Kind = Kind, Op = Op> + Send,
    K: Keeper + Drop + Send,
    R: Threads + Wait + Sync,
    G: Gate + Sync,
>(rt: &R, alloc: Global, gate: &G, script: &Script, keepers: Vec<K>) -> Played<K>
where
    T::Delta: Send,
    requires script { IsWellFormed script.now }
    requires allowed { All (IsAllowed Clients.Allowed) script.now.steps }
    requires keepers { length keepers.items ≡ 8 }
    ensures { IsPlayed K.Keeper.own (IsReportOver T.data_type T.history_byte T.history_spelled K.Keeper.own) script.now keepers.items result.keepers.items result.ending }
{
    let world = match first_world::<T, K>(alloc, script.members, &script.keys, keepers) {
        Ok(world) => world,
        Err(played) => return played,
    };
    let mut text = String::new(alloc);
    match steps_told(rt, alloc, gate, &mut text, script.steps.as_slice(), world) {
        Ok(world) => finished(alloc, text, world),
        Err(keepers) => Played {
            ending: Ending::Memory,
            keepers,
        },
    }
}
