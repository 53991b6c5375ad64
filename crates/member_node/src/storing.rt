ghost use Rattle.std.specs.Prelude.{◌≡◌, ℕ, ◌≤◌, [], None, length, IfOk, OnErr};
ghost use Rattle.member_node.specs.Answerable.{StoresNothing};
ghost use Rattle.member_node.specs.Planning.{changed_entry, ticked_entry as entry_after_tick, HaveTheirKinds, KeepsKinds, CanCarryOut};
ghost use Rattle.member_node.specs.Storing.{AddsSpellingOnOk, IsReadableOnOk, AreStoresOf, AreStores};
ghost use Rattle.member_node.specs.Steps.{TellsSame, IsKeptBy};

use crate::change::{Change, Changes};
use crate::key::KeyState;
use crate::plan::{Plan, ticked_entry};
use crate::reply::Fate;
use crate::ticking::KeyTick;
use base_bytes::{Items, Memory};
use data_codec::spell_stored;
use data_envelope::Envelope;
use data_lattice::SpelledData;
use member_keeper::{Keeper, KeeperError, Stored};
use std::alloc::Global;

/// Adds the stored bytes of a key's new entry, if the key is durable and the entry another than before.
fn add<T: SpelledData>(
    alloc: Global,
    state: &KeyState<T>,
    entry: &Envelope<T>,
    stores: &mut Items<Stored>,
) -> Result<(), Memory>
    requires { T.kind_of entry.now.value ≡ state.now.kind }
    ensures spelled { AddsSpellingOnOk T.Replica T.SpelledData.own state.now entry.now stores.old stores.new result }
    ensures kept { IsReadableOnOk T.Replica T.SpelledData.own state.now entry.now result }
{
    if !state.durable || entry.is_unchanged(state.entry.envelope()) {
        return Ok(());
    }
    let key = state.name.copied();
    let bytes = Items::from_vec(spell_stored(alloc, entry)?);
    stores.push(Stored { key, bytes })
}

/// What these changes have to store.
fn stores_of_changes<T: SpelledData>(
    alloc: Global,
    keys: &[KeyState<T>],
    changes: &Changes<T>,
) -> Result<Items<Stored>, Memory>
    requires one_each { length changes.now ≡ length keys.now }
    requires kinds { HaveTheirKinds T.Replica keys.now (changed_entry changes.now) }
    ensures stores { IfOk result (AreStoresOf T.Replica T.SpelledData.own keys.now (changed_entry changes.now)) }
    ensures nothing { ((k : ℕ) → changed_entry changes.now k ≡ None) → IfOk result (λ stores. stores ≡ []) }
{
    let written = changes.written();
    let mut stores = Items::new(alloc);
    for at in written {
        if let Change::Entry(entry) = &at.change {
            add(alloc, &keys[at.index], entry, &mut stores)?;
        }
    }
    Ok(stores)
}

/// What a tick has to store.
fn stores_of_ticks<T: SpelledData>(
    alloc: Global,
    keys: &[KeyState<T>],
    ticks: &[KeyTick<T>],
) -> Result<Items<Stored>, Memory>
    requires { HaveTheirKinds T.Replica keys.now (entry_after_tick ticks.now) }
    ensures { IfOk result (AreStoresOf T.Replica T.SpelledData.own keys.now (entry_after_tick ticks.now)) }
{
    let mut stores = Items::new(alloc);
    for (index, state) in keys.iter().enumerate() {
        if let Some(entry) = ticked_entry(ticks, index) {
            add(alloc, state, entry, &mut stores)?;
        }
    }
    Ok(stores)
}

/// What a plan has to store: the stored bytes of each durable entry that it changes, in the order of the keys.
pub(crate) fn stores<T: SpelledData>(
    alloc: Global,
    keys: &[KeyState<T>],
    plan: &Plan<T>,
) -> Result<Items<Stored>, Memory>
    requires can { CanCarryOut T.Replica keys.now plan.now }
    requires kinds { KeepsKinds T.Replica keys.now plan.now }
    ensures stores { IfOk result (AreStores T.Replica T.SpelledData.own keys.now plan.now) }
    ensures nothing { StoresNothing plan.now → IfOk result (λ stores. stores ≡ []) }
{
    match plan {
        Plan::Nothing => Ok(Items::new(alloc)),
        Plan::At { index, entry, .. } => {
            let mut stores = Items::new(alloc);
            add(alloc, &keys[*index], entry, &mut stores)?;
            Ok(stores)
        }
        Plan::Each(changes) => stores_of_changes(alloc, keys, changes),
        Plan::Ticked(ticks) => stores_of_ticks(alloc, keys, ticks),
    }
}

/// Gives the keeper what is to be stored, in one call, if there is anything.
pub(crate) fn keep<K: Keeper>(keeper: &mut K, stores: &[Stored]) -> Result<Fate, Memory>
    ensures kept { IfOk result (λ fate. IsKeptBy K.Keeper stores.now fate keeper.old keeper.new) }
    ensures refused { OnErr result (TellsSame K.Keeper keeper.old keeper.new) }
    ensures later { K.faults keeper.old ≤ K.faults keeper.new }
{
    if stores.is_empty() {
        return Ok(Fate::NoStore);
    }
    match keeper.store(stores) {
        Ok(()) => Ok(Fate::Stored),
        Err(KeeperError::Failed) => Ok(Fate::StoreFailed),
        Err(KeeperError::Memory) => Err(Memory),
    }
}
