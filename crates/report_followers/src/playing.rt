ghost use Rattle.std.specs.Prelude.{◌≡◌, [], length, string_bytes, All, OnOk, MatchResult};
ghost use Rattle.script_reading.specs.declared.clients.Clients.{Clients};
ghost use Rattle.script_reading.specs.declared.clients.RunStep.TheVariants as form;
ghost use Rattle.script_reading.specs.WellFormed.{IsAllowed, IsStep, IsRunStep, IsWellFormed};
ghost use Rattle.report_lines.specs.Kept.{IsPlayed};
ghost use Rattle.report_lines.specs.Telling.{AreAllKept};
ghost use Rattle.report_followers.specs.Followed.{IsFollowedOver};
ghost use Rattle.report_followers.specs.Watching.{TellsAfter, WatchesStep, WatchesSteps};

use crate::lines::{push_notices, push_subscribe, push_unsubscribe};
use base_bytes::{Memory, Text};
use base_vectors::Id;
use data_lattice::SpelledData;
use member_keeper::Keeper;
use model_kinds::{Kind, Op};
use report_lines::{Ending, Played, ended, finished, first_world, push_lines};
use script_reading::{RunStep, Script, Step};
use std::alloc::Global;
use world_desks::{Desks, flushed_in};
use world_members::{Event, World};

/// Adds the lines of a step that was played, and those of the notices that it tells.
fn told_after<T: SpelledData<Kind = Kind, Op = Op>, K: Keeper + Drop>(
    alloc: Global,
    text: &mut String,
    number: usize,
    events: &[Event],
    world: &World<T, K>,
    desks: &mut Desks,
) -> Result<(), Memory>
    ensures { OnOk result (TellsAfter T.SpelledData.own number events.now world.now desks.old desks.new (string_bytes text.old) (string_bytes text.new)) }
{
    push_lines(alloc, text, number, events)?;
    desks.end_with_members(world);
    match flushed_in(events) {
        Some(at) => {
            let notices = desks.notices(world, at)?;
            push_notices(alloc, text, number, at, notices.as_slice())
        }
        None => Ok(()),
    }
}

/// Plays a step that the script makes by itself.
fn plain_watched<T: SpelledData<Kind = Kind, Op = Op>, K: Keeper + Drop>(
    alloc: Global,
    text: &mut String,
    number: usize,
    step: &Step,
    world: &mut World<T, K>,
    desks: &mut Desks,
) -> Result<(), Memory>
    requires { IsStep step.now }
    ensures { MatchResult result (λ _. WatchesStep T.SpelledData.own number (form.Plain step.now) world.old world.new desks.old desks.new (string_bytes text.old) (string_bytes text.new)) (λ _. AreAllKept world.old world.new) }
{
    let events = world.step(step)?;
    told_after(alloc, text, number, events.as_slice(), world, desks)
}

/// A client follows a key.
fn subscribed<T: SpelledData<Kind = Kind, Op = Op>, K: Keeper + Drop>(
    text: &mut String,
    number: usize,
    at: Id,
    client: u32,
    key: &Text,
    world: &World<T, K>,
    desks: &mut Desks,
) -> Result<(), Memory>
    ensures { OnOk result (WatchesStep T.SpelledData.own number (form.Subscribe at client key.now) world.now world.now desks.old desks.new (string_bytes text.old) (string_bytes text.new)) }
{
    let answer = desks.subscribe(world, at, client, key)?;
    push_subscribe(text, number, at, client, key, answer)
}

/// A client follows a key no more.
fn unsubscribed<T: SpelledData<Kind = Kind, Op = Op>, K: Keeper + Drop>(
    text: &mut String,
    number: usize,
    at: Id,
    client: u32,
    key: &Text,
    world: &World<T, K>,
    desks: &mut Desks,
) -> Result<(), Memory>
    ensures { OnOk result (WatchesStep T.SpelledData.own number (form.Unsubscribe at client key.now) world.now world.now desks.old desks.new (string_bytes text.old) (string_bytes text.new)) }
{
    let answer = desks.unsubscribe(world, at, client, key);
    push_unsubscribe(text, number, at, client, key, answer)
}

/// Plays one step, and adds its lines.
fn one_step<T: SpelledData<Kind = Kind, Op = Op>, K: Keeper + Drop>(
    alloc: Global,
    text: &mut String,
    number: usize,
    step: &RunStep,
    world: &mut World<T, K>,
    desks: &mut Desks,
) -> Result<(), Memory>
    requires step { IsRunStep step.now }
    requires following { IsAllowed Clients.Following step.now }
    ensures { MatchResult result (λ _. WatchesStep T.SpelledData.own number step.now world.old world.new desks.old desks.new (string_bytes text.old) (string_bytes text.new)) (λ _. AreAllKept world.old world.new) }
{
    match step {
        RunStep::Plain(step) => plain_watched(alloc, text, number, step, world, desks),
        RunStep::Subscribe { at, client, key } => {
            subscribed(text, number, *at, *client, key, world, desks)
        }
        RunStep::Unsubscribe { at, client, key } => {
            unsubscribed(text, number, *at, *client, key, world, desks)
        }
        RunStep::Threads { .. } => unreachable!(),
    }
}

/// Plays the steps of a script whose clients follow keys, and adds their lines.
fn all_steps<T: SpelledData<Kind = Kind, Op = Op>, K: Keeper + Drop>(
    alloc: Global,
    text: &mut String,
    steps: &[RunStep],
    world: &mut World<T, K>,
    desks: &mut Desks,
) -> Result<(), Memory>
    requires steps { All IsRunStep steps.now }
    requires following { All (IsAllowed Clients.Following) steps.now }
    requires empty { string_bytes text.now ≡ [] }
    requires nobody { desks.now.seats.items ≡ [] }
    ensures { MatchResult result (λ _. WatchesSteps T.SpelledData.own steps.now world.old world.new desks.new (string_bytes text.new)) (λ _. AreAllKept world.old world.new) }
{
    for (i, step) in steps.iter().enumerate() {
        one_step(alloc, text, i + 1, step, world, desks)?;
    }
    Ok(())
}

/// Plays a script whose clients may follow keys over values of the data type `T` and over a keeper for each place, as
/// `report_lines::report` plays one without clients, and tells its report.
///
/// Beside the lines of its other steps the report has a line for each request to follow a key or to follow it no more, and behind
/// the line of a flush that is done one for each notice, by keys in byte order and then clients rising. Subscriptions end with
/// their member.
pub fn report_with_followers<T: SpelledData<Kind = Kind, Op = Op>, K: Keeper + Drop>(
    alloc: Global,
    script: &Script,
    keepers: Vec<K>,
) -> Played<K>
    requires script { IsWellFormed script.now }
    requires following { All (IsAllowed Clients.Following) script.now.steps }
    requires keepers { length keepers.items ≡ 8 }
    ensures { IsPlayed K.Keeper.own (IsFollowedOver T.data_type T.history_byte T.history_spelled K.Keeper.own) script.now keepers.items result.keepers.items result.ending }
{
    let mut world = match first_world::<T, K>(alloc, script.members, &script.keys, keepers) {
        Ok(world) => world,
        Err(played) => return played,
    };
    let mut text = String::new(alloc);
    let mut desks = Desks::new(alloc);
    match all_steps(
        alloc,
        &mut text,
        script.steps.as_slice(),
        &mut world,
        &mut desks,
    ) {
        Ok(()) => finished(alloc, text, world),
        Err(_) => ended(Ending::Memory, world),
    }
}
