ghost use Rattle.std.specs.Prelude.{◌≡◌, ◌+◌, ◌<◌, ◌≤◌, ◌^◌, true, false, nat_lt, length, Some, All, IfOk, OnOk, slice_index_or, slice_set};
ghost use Rattle.std.specs.List.{list_any};
ghost use Rattle.base_vectors.specs.Vectors.{number_at};
ghost use Rattle.data_markers.specs.Marks.{performed_in};
ghost use Rattle.data_envelope.specs.Words.{parts_of};
ghost use Rattle.data_envelope.specs.Pruning.{init_of};
ghost use Rattle.data_envelope.specs.declared.outcomes.Init.TheVariants as initial;
ghost use Rattle.member_node.specs.Changes.{AreMade};
ghost use Rattle.member_node.specs.Planning.{ticked as after_tick, AreTicked, CanFollow};
ghost use Rattle.member_node.specs.Ticking.{TicksOwn, IsNoted, IsOwnCourse, CanTick, IsKeyTick};
ghost use Rattle.member_node.specs.LeaderTicks.{MeansTick, MeansTickAt, TicksOnOk, TellsTickOnOk, MeansKeyTick, TellsKeyTick, MeansTicks, TellsTicks};

use crate::key::KeyState;
use crate::outcome::{KeyOutcome, Outcome, Outcomes};
use base_bytes::{Items, Memory};
use base_vectors::{Id, VersionVector};
use data_deltalog::{DeltaLog, NextRecord};
use data_envelope::{Envelope, Init, Perform};
use data_lattice::Replica;
use std::alloc::Global;

/// What a tick makes of a key, once all memory for it was given.
#[derive(Drop)]
pub(crate) struct KeyTick<T: Replica> {
    /// Another entry, if there is one.
    pub(crate) entry: Option<Envelope<T>>,
    /// The prunes in it, for the log.
    pub(crate) prunes: Vec<NextRecord<T::Delta>>,
}

/// What becomes of a prune whose mark of this view stands.
fn performed<T: Replica>(
    entry: &mut Envelope<T>,
    removed: Id,
    owner: Id,
    view: u32,
    members: &[Id],
) -> Result<Outcome, Memory>
    requires other { removed ≡ owner → ⊥ }
    requires member { performed_in entry.old.markers owner ≡ false }
    requires room { number_at entry.old.versions owner < 2 ^ 62 }
    requires stands { init_of (parts_of entry.old) removed view ≡ initial.Standing }
    ensures own { IfOk result (λ outcome. TicksOwn T.kind_of owner entry.old (Some outcome) entry.new) }
    ensures image { IfOk result (λ outcome. MeansTick T.Replica owner view members.now removed entry.old outcome entry.new) }
{
    match entry.perform(removed, owner, view, members)? {
        Perform::Performed => Ok(Outcome::Performed),
        Perform::Waiting(id) => Ok(Outcome::Waiting(id)),
        Perform::Blocked {
            owner_share,
            removed_share,
        } => Ok(Outcome::Blocked {
            owner_share,
            removed_share,
        }),
        Perform::NothingMarked => unreachable!(),
    }
}

/// What a tick makes of the records of an identity that left, if the entry has any.
fn outcome_of<T: Replica>(
    entry: &mut Envelope<T>,
    removed: Id,
    owner: Id,
    view: u32,
    members: &[Id],
) -> Result<Option<Outcome>, Memory>
    requires other { removed ≡ owner → ⊥ }
    requires member { performed_in entry.old.markers owner ≡ false }
    requires room { number_at entry.old.versions owner < 2 ^ 62 }
    ensures own { IfOk result (λ told. TicksOwn T.kind_of owner entry.old told entry.new) }
    ensures image { IfOk result (λ told. MeansTickAt T.Replica owner view members.now removed entry.old told entry.new) }
{
    match entry.init_prune(removed, owner, view)? {
        Init::NothingKnown => Ok(None),
        Init::Marked => Ok(Some(Outcome::Marked)),
        Init::Newer => Ok(Some(Outcome::Newer)),
        Init::Standing => {
            let outcome = performed(entry, removed, owner, view, members)?;
            Ok(Some(outcome))
        }
    }
}

/// A key in the course of a tick.
#[derive(Drop)]
struct KeyTicking<T: Replica> {
    alloc: Global,
    entry: Envelope<T>,
    /// How many records of each identity there are.
    known: VersionVector,
    /// The prunes so far, for the log.
    prunes: Items<NextRecord<T::Delta>>,
}

impl<T: Replica> KeyTicking<T> {
    /// Notes a prune for the log, if the outcome was one.
    fn note(&mut self, log: &DeltaLog<T>, id: Id, pruned: bool) -> Result<(), Memory>
        requires { pruned ≡ true → 1 ≤ number_at (parts_of self.old.entry).versions id }
        ensures entry { self.new.entry ≡ self.old.entry }
        ensures noted { OnOk result (IsNoted log.now id pruned self.old self.new) }
    {
        if !pruned {
            return Ok(());
        }
        let before = self.known.copy(self.alloc)?;
        let next = log.prepare_after(before, None)?;
        let number = self.entry.versions().at(id);
        self.known.raise(id, number)?;
        self.prunes.push(next)
    }

    /// The tick of one identity that left.
    fn tick(
        &mut self,
        state: &KeyState<T>,
        removed: Id,
        id: Id,
        view: u32,
        members: &[Id],
        outcomes: &mut Outcomes,
    ) -> Result<(), Memory>
        requires other { removed ≡ id → ⊥ }
        requires own { IsOwnCourse T.kind_of id state.now self.old }
        requires room { number_at (parts_of self.old.entry).versions id < 2 ^ 62 }
        ensures own { OnOk result (IsOwnCourse T.kind_of id state.now self.new) }
        ensures few { OnOk result (length self.new.prunes ≤ length self.old.prunes + 1) }
        ensures image { TicksOnOk T.Replica id view members.now removed state.now self.old self.new result }
        ensures told { TellsTickOnOk T.Replica id view members.now removed state.now self.old outcomes.old outcomes.new result }
    {
        let _below_limit = id.number();
        let told = outcome_of(&mut self.entry, removed, id, view, members)?;
        let Some(outcome) = told else {
            return Ok(());
        };
        self.note(&state.log, id, outcome.is_prune())?;
        let key = state.name.copied();
        outcomes.push(KeyOutcome {
            key,
            removed,
            outcome,
        })
    }
}

/// Whether the entry counts records of one of the identities.
fn knows_any<T: Replica>(entry: &Envelope<T>, ids: &[Id]) -> bool
    ensures { result ≡ list_any (λ r. nat_lt 0 (number_at entry.now.versions r)) ids.now }
{
    let versions = entry.versions();
    ids.iter().any(|id| versions.at(*id) > 0)
}

/// What a tick makes of a key, and the outcomes that it adds.
fn key_tick<T: Replica>(
    alloc: Global,
    state: &KeyState<T>,
    id: Id,
    view: u32,
    members: &[Id],
    removed: &[Id],
    outcomes: &mut Outcomes,
) -> Result<KeyTick<T>, Memory>
    requires { CanTick T.kind_of id removed.now state.now }
    ensures own { IfOk result (IsKeyTick T.Replica id state.now) }
    ensures image { IfOk result (MeansKeyTick T.Replica id view members.now removed.now state.now) }
    ensures told { OnOk result (TellsKeyTick T.Replica id view members.now removed.now state.now outcomes.old outcomes.new) }
{
    let held = state.entry.envelope();
    if !knows_any(held, removed) {
        return Ok(KeyTick {
            entry: None,
            prunes: Vec::new(alloc),
        });
    }
    let entry = held.copy(alloc)?;
    let known = held.known(alloc)?;
    let prunes = Items::new(alloc);
    let mut ticking = KeyTicking {
        alloc,
        entry,
        known,
        prunes,
    };
    for identity in removed {
        ticking.tick(state, *identity, id, view, members, outcomes)?;
    }
    let KeyTicking { entry, prunes, .. } = ticking;
    Ok(KeyTick {
        entry: Some(entry),
        prunes: prunes.into_vec(),
    })
}

/// What a tick makes of the keys, and its outcomes.
#[derive(Drop)]
pub(crate) struct Ticks<T: Replica> {
    pub(crate) keys: Vec<KeyTick<T>>,
    pub(crate) outcomes: Outcomes,
}

/// Ticks each key for the identities that left, as the leader of the members.
pub(crate) fn tick_all<T: Replica>(
    alloc: Global,
    keys: &[KeyState<T>],
    id: Id,
    view: u32,
    members: &[Id],
    removed: &[Id],
) -> Result<Ticks<T>, Memory>
    requires { All (CanTick T.kind_of id removed.now) keys.now }
    ensures own { IfOk result (λ ticks. AreMade (IsKeyTick T.Replica id) keys.now ticks.keys.items) }
    ensures image { IfOk result (λ ticks. MeansTicks T.Replica id view members.now removed.now keys.now ticks.keys.items) }
    ensures told { IfOk result (λ ticks. TellsTicks T.Replica id view members.now removed.now keys.now ticks.outcomes) }
{
    let mut ticks = Items::new(alloc);
    let mut outcomes = Items::new(alloc);
    for state in keys {
        let tick = key_tick(alloc, state, id, view, members, removed, &mut outcomes)?;
        ticks.push(tick)?;
    }
    Ok(Ticks {
        keys: ticks.into_vec(),
        outcomes,
    })
}

/// Writes what a tick makes of a key.
fn write<T: Replica>(state: &mut KeyState<T>, tick: KeyTick<T>)
    requires { CanFollow T.Replica state.old tick }
    ensures { state.new ≡ after_tick state.old tick }
{
    let KeyTick { entry, prunes } = tick;
    state.log.add_all(prunes);
    if let Some(entry) = entry {
        state.entry.put(entry);
    }
}

/// Writes what a tick makes of the key at a place.
fn write_at<T: Replica>(keys: &mut [KeyState<T>], index: usize, tick: KeyTick<T>)
    requires within { index < length keys.old }
    requires follows { (d : KeyState T T.Kind T.Op T.Delta) → CanFollow T.Replica (slice_index_or keys.old index d) tick }
    ensures { (at : KeyState T T.Kind T.Op T.Delta) × (at ≡ slice_index_or keys.old index at) × (keys.new ≡ slice_set keys.old index (after_tick at tick)) }
{
    write(&mut keys[index], tick);
}

/// Writes what a tick makes of the keys, in their order.
pub(crate) fn write_ticks<T: Replica>(keys: &mut [KeyState<T>], mut ticks: Vec<KeyTick<T>>)
    requires { AreMade (CanFollow T.Replica) keys.old ticks.items }
    ensures { AreTicked keys.old ticks.items keys.new }
{
    while let Some(tick) = ticks.pop() {
        let index = ticks.len();
        write_at(keys, index, tick);
    }
}
