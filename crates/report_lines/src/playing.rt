ghost use Rattle.std.specs.Prelude.{◌≡◌, ◌≢◌, ◌≤◌, [], length, string_bytes, All, AllPairs, OnOk, MatchResult};
ghost use Rattle.script_reading.specs.declared.clients.Clients.{Clients};
ghost use Rattle.script_reading.specs.declared.clients.RunStep.TheVariants as form;
ghost use Rattle.script_reading.specs.WellFormed.{HasNoClients, IsAllowed, IsStep, IsRunStep, IsWellFormed};
ghost use Rattle.world_places.specs.Places.{keepers_of};
ghost use Rattle.report_lines.specs.Kept.{IsPlayed, IsUnplayed, IsReportOver, IsSummaryOver};
ghost use Rattle.report_lines.specs.Telling.{AreAllKept, Opens, TellsStep, TellsSteps, PassesSteps, AddsBlock, EndsWithBlock};

use crate::lines::push_lines;
use crate::members::final_block;
use crate::order::in_order;
use base_bytes::{Items, Memory};
use data_lattice::SpelledData;
use member_keeper::Keeper;
use model_kinds::{Kind, Op};
use script_reading::{RunStep, Script, ScriptKey, Step};
use std::alloc::Global;
use world_members::{StartError, World};

/// How a script's run ended.
#[derive(Drop)]
pub enum Ending {
    /// With this text.
    Told(String),
    /// Before its first step: the keeper of this place failed to forget what it kept.
    NotCleared(u8),
    /// Memory was refused.
    Memory,
}

/// A script's run: how it ended, and the keepers of the places.
#[derive(Drop)]
pub struct Played<K> {
    pub ending: Ending,
    pub keepers: Vec<K>,
}

/// The first world of a script over these keepers, which are cleared, or how its run ended before its first step.
pub fn first_world<T: SpelledData<Kind = Kind, Op = Op>, K: Keeper + Drop>(
    alloc: Global,
    members: u8,
    keys: &Items<ScriptKey>,
    keepers: Vec<K>,
) -> Result<World<T, K>, Played<K>>
    requires some { 1 ≤ members }
    requires few { members ≤ 8 }
    requires names { AllPairs (λ a b. a.key ≢ b.key) keys.now }
    requires keepers { length keepers.items ≡ 8 }
    ensures { MatchResult result (λ world. Opens T.SpelledData.own members keys.now keepers.items world) (λ played. IsUnplayed K.Keeper.own keepers.items played.keepers.items played.ending) }
{
    let Ok(decls) = in_order::<T>(alloc, keys.as_slice()) else {
        return Err(Played {
            ending: Ending::Memory,
            keepers,
        });
    };
    match World::start(alloc, members, decls, keepers) {
        Ok(world) => Ok(world),
        Err(StartError::ClearFailed { keepers, place }) => Err(Played {
            ending: Ending::NotCleared(place),
            keepers,
        }),
        Err(StartError::Memory { keepers }) => Err(Played {
            ending: Ending::Memory,
            keepers,
        }),
    }
}

/// Plays a step that the script makes by itself, and adds its lines.
pub(crate) fn plain_step<T: SpelledData<Kind = Kind, Op = Op>, K: Keeper + Drop>(
    alloc: Global,
    text: &mut String,
    number: usize,
    step: &Step,
    world: &mut World<T, K>,
) -> Result<(), Memory>
    requires { IsStep step.now }
    ensures { MatchResult result (λ _. TellsStep T.SpelledData.own number (form.Plain step.now) world.old world.new (string_bytes text.old) (string_bytes text.new)) (λ _. AreAllKept world.old world.new) }
{
    let events = world.step(step)?;
    push_lines(alloc, text, number, events.as_slice())
}

/// Plays the steps of a script without clients, and adds their lines.
fn plain_steps<T: SpelledData<Kind = Kind, Op = Op>, K: Keeper + Drop>(
    alloc: Global,
    text: &mut String,
    steps: &[RunStep],
    world: &mut World<T, K>,
) -> Result<(), Memory>
    requires steps { All IsRunStep steps.now }
    requires plain { All (IsAllowed Clients.Refused) steps.now }
    requires empty { string_bytes text.now ≡ [] }
    ensures { MatchResult result (λ _. TellsSteps T.SpelledData.own steps.now world.old world.new (string_bytes text.new)) (λ _. AreAllKept world.old world.new) }
{
    for (i, step) in steps.iter().enumerate() {
        match step {
            RunStep::Plain(step) => plain_step(alloc, text, i + 1, step, world)?,
            RunStep::Threads { .. } | RunStep::Subscribe { .. } | RunStep::Unsubscribe { .. } => {
                unreachable!()
            }
        }
    }
    Ok(())
}

/// Plays the steps of a script without clients, and tells nothing of them.
fn untold_steps<T: SpelledData<Kind = Kind, Op = Op>, K: Keeper + Drop>(
    steps: &[RunStep],
    world: &mut World<T, K>,
) -> Result<(), Memory>
    requires steps { All IsRunStep steps.now }
    requires plain { All (IsAllowed Clients.Refused) steps.now }
    ensures { MatchResult result (λ _. PassesSteps T.SpelledData.own steps.now world.old world.new) (λ _. AreAllKept world.old world.new) }
{
    for step in steps {
        match step {
            RunStep::Plain(step) => drop(world.step(step)?),
            RunStep::Threads { .. } | RunStep::Subscribe { .. } | RunStep::Unsubscribe { .. } => {
                unreachable!()
            }
        }
    }
    Ok(())
}

/// Adds what each member holds.
fn push_block<T: SpelledData<Kind = Kind, Op = Op>, K: Keeper + Drop>(
    alloc: Global,
    text: &mut String,
    world: &World<T, K>,
) -> Result<(), Memory>
    ensures { OnOk result (AddsBlock T.SpelledData.own world.now (string_bytes text.old) (string_bytes text.new)) }
{
    let block = final_block(alloc, world)?;
    text.push_str(block.as_str())?;
    Ok(())
}

/// A run that ended so in this world.
pub fn ended<T: SpelledData<Kind = Kind, Op = Op>, K: Keeper + Drop>(
    ending: Ending,
    world: World<T, K>,
) -> Played<K>
    ensures ending { result.ending ≡ ending }
    ensures keepers { result.keepers.items ≡ keepers_of world.nodes.items world.spare.items }
{
    let keepers = world.into_keepers();
    Played { ending, keepers }
}

/// The end of a run with these lines: what each member holds is told after them.
pub fn finished<T: SpelledData<Kind = Kind, Op = Op>, K: Keeper + Drop>(
    alloc: Global,
    text: String,
    world: World<T, K>,
) -> Played<K>
    ensures ending { EndsWithBlock T.SpelledData.own world (string_bytes text) result.ending }
    ensures keepers { result.keepers.items ≡ keepers_of world.nodes.items world.spare.items }
{
    let mut text = text;
    match push_block(alloc, &mut text, &world) {
        Ok(()) => ended(Ending::Told(text), world),
        Err(_) => ended(Ending::Memory, world),
    }
}

/// Plays a script without clients over values of the data type `T` and over a keeper for each place, and tells its report.
///
/// The keepers are cleared first. The report has a line for each event of each step, and then for each member a block with
/// what it holds of each key.
pub fn report<T: SpelledData<Kind = Kind, Op = Op>, K: Keeper + Drop>(
    alloc: Global,
    script: &Script,
    keepers: Vec<K>,
) -> Played<K>
    requires script { IsWellFormed script.now }
    requires plain { HasNoClients script.now }
    requires keepers { length keepers.items ≡ 8 }
    ensures { IsPlayed K.Keeper.own (IsReportOver T.data_type T.history_byte T.history_spelled K.Keeper.own) script.now keepers.items result.keepers.items result.ending }
{
    let mut world = match first_world::<T, K>(alloc, script.members, &script.keys, keepers) {
        Ok(world) => world,
        Err(played) => return played,
    };
    let mut text = String::new(alloc);
    match plain_steps(alloc, &mut text, script.steps.as_slice(), &mut world) {
        Ok(()) => finished(alloc, text, world),
        Err(_) => ended(Ending::Memory, world),
    }
}

/// Plays a script as `report` does, and tells the end of the report alone: for each member the block with what it holds of each
/// key.
pub fn summary<T: SpelledData<Kind = Kind, Op = Op>, K: Keeper + Drop>(
    alloc: Global,
    script: &Script,
    keepers: Vec<K>,
) -> Played<K>
    requires script { IsWellFormed script.now }
    requires plain { HasNoClients script.now }
    requires keepers { length keepers.items ≡ 8 }
    ensures { IsPlayed K.Keeper.own (IsSummaryOver T.data_type T.history_byte T.history_spelled K.Keeper.own) script.now keepers.items result.keepers.items result.ending }
{
    let mut world = match first_world::<T, K>(alloc, script.members, &script.keys, keepers) {
        Ok(world) => world,
        Err(played) => return played,
    };
    match untold_steps(script.steps.as_slice(), &mut world) {
        Ok(()) => finished(alloc, String::new(alloc), world),
        Err(_) => ended(Ending::Memory, world),
    }
}
