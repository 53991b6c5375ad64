ghost use Rattle.std.specs.Prelude.{◌≡◌, ◌≢◌, ◌||◌, ◌↔◌, None, Some, nat_lt, length, IfOk, OnOk, IfSome, IsFalse};
ghost use Rattle.std.specs.List.{list_any};
ghost use Rattle.std.specs.Option.{option_copied};
ghost use Rattle.model_history.specs.Texts.{Text as Name};
ghost use Rattle.model_history.specs.History.{History};
ghost use Rattle.model_members.specs.Entry.{Entry};
ghost use Rattle.base_vectors.specs.Vectors.{number_at};
ghost use Rattle.data_markers.specs.Marks.{performed_in};
ghost use Rattle.member_node.specs.Changes.{AreMade};
ghost use Rattle.member_node.specs.Inputs.{keyed_envelope, IsEntryPassedOver};
ghost use Rattle.member_node.specs.Keys.{AreDistinctKeys};
ghost use Rattle.member_node.specs.Own.{AreOfTheirKinds};
ghost use Rattle.member_node.specs.Taking.{KeepsOwn, IsKept, LeadsTo};
ghost use Rattle.member_node.specs.Entries.{MeansEntryTaken, MeansEnvelopeTaken, MeansEntriesTaken, MeansMerged, PassesEntryOver, is_changed_at};

use crate::change::{Change, Changes, current, put, unchanged};
use crate::key::KeyState;
use crate::places::Places;
use base_bytes::{Memory, Text};
use base_vectors::Id;
use data_envelope::Envelope;
use data_lattice::Replica;
use member_messages::Keyed;
use std::alloc::Global;

/// Whether no run sends the entry: it counts more records of the taker than this made, or has a prune of it.
fn is_strange<T: Replica>(mine: &Envelope<T>, theirs: &Envelope<T>, id: Id) -> bool
    ensures { result ≡ (performed_in theirs.now.markers id || nat_lt (number_at mine.now.versions id) (number_at theirs.now.versions id)) }
{
    theirs.is_pruned(id) || mine.versions().at(id) < theirs.versions().at(id)
}

/// An entry merged with another of the same key, unless this is strange, of another kind, or brings nothing new.
fn take_entry<T: Replica>(
    alloc: Global,
    mine: &Envelope<T>,
    theirs: &Envelope<T>,
    id: Id,
    view: u32,
) -> Result<Option<Envelope<T>>, Memory>
    ensures kept { IfOk result (λ taken. IfSome taken (KeepsOwn T.kind_of id mine.now)) }
    ensures passed_over { T.kind_of mine.now.value ≢ T.kind_of theirs.now.value → IfOk result (λ taken. taken ≡ None) }
    ensures image { IfOk result (MeansEntryTaken T.Replica id view mine.now theirs.now) }
{
    if is_strange(mine, theirs, id) || !mine.value().same_kind(theirs.value()) {
        return Ok(None);
    }
    if mine.gains_nothing(theirs) {
        return Ok(None);
    }
    let mut entry = mine.copy(alloc)?;
    entry.merge(theirs)?;
    entry.add_seen(id, view);
    Ok(Some(entry))
}

/// Whether the key is declared, with the kind of the entry. Else the entry is passed over.
pub(crate) fn is_known<T: Replica>(
    keys: &[KeyState<T>],
    places: &Places,
    key: &Text,
    envelope: &Envelope<T>,
) -> bool
    requires of_kinds { AreOfTheirKinds T.kind_of keys.now }
    requires distinct { AreDistinctKeys keys.now }
    ensures { IsFalse result ↔ IsEntryPassedOver T.Replica keys.now (record { key = key.now; item = envelope.now }) }
{
    match places.place(keys, key) {
        Some(index) => {
            let value = keys[index].entry.envelope().value();
            value.same_kind(envelope.value())
        }
        None => false,
    }
}

/// Takes an entry of a key, if the key is declared.
pub(crate) fn take_envelope<T: Replica>(
    alloc: Global,
    keys: &[KeyState<T>],
    places: &Places,
    changes: &mut Changes<T>,
    id: Id,
    view: u32,
    key: &Text,
    envelope: &Envelope<T>,
) -> Result<(), Memory>
    requires counted { length changes.old ≡ length keys.now }
    requires distinct { AreDistinctKeys keys.now }
    ensures counted { OnOk result (length changes.new ≡ length keys.now) }
    ensures kept { AreMade (IsKept T.kind_of id) keys.now changes.old → OnOk result (AreMade (IsKept T.kind_of id) keys.now changes.new) }
    ensures image { OnOk result (MeansEnvelopeTaken T.Replica id view keys.now (record { key = key.now; item = envelope.now }) changes.old changes.new) }
    ensures passed_over { OnOk result (PassesEntryOver T.Replica id keys.now (record { key = key.now; item = envelope.now }) changes.old changes.new) }
{
    let Some(index) = places.place(keys, key) else {
        return Ok(());
    };
    let now = current(&keys[index], changes, index);
    let taken = take_entry(alloc, now, envelope, id, view)?;
    put(changes, index, taken)
}

/// Takes the entries of a message, one after another.
pub(crate) fn take_entries<T: Replica>(
    alloc: Global,
    keys: &[KeyState<T>],
    places: &Places,
    changes: &mut Changes<T>,
    id: Id,
    view: u32,
    entries: &[Keyed<Envelope<T>>],
) -> Result<(), Memory>
    requires counted { length changes.old ≡ length keys.now }
    requires distinct { AreDistinctKeys keys.now }
    ensures kept { AreMade (IsKept T.kind_of id) keys.now changes.old → OnOk result (AreMade (IsKept T.kind_of id) keys.now changes.new) }
    ensures image { OnOk result (MeansEntriesTaken T.Replica id view keys.now entries.now changes.old changes.new) }
{
    for keyed in entries {
        take_envelope(
            alloc,
            keys,
            places,
            changes,
            id,
            view,
            &keyed.key,
            &keyed.item,
        )?;
    }
    Ok(())
}

/// What becomes of the keys after an entry of one was taken, if there is an entry.
pub(crate) fn merged<T: Replica>(
    alloc: Global,
    keys: &[KeyState<T>],
    places: &Places,
    id: Id,
    view: u32,
    key: &Text,
    envelope: Option<&Envelope<T>>,
) -> Result<Changes<T>, Memory>
    requires distinct { AreDistinctKeys keys.now }
    ensures kept { IfOk result (AreMade (IsKept T.kind_of id) keys.now) }
    ensures image { IfOk result (MeansMerged T.Replica id view keys.now (keyed_envelope key.now (option_copied envelope.entry))) }
{
    let mut changes = unchanged(alloc, keys);
    let Some(envelope) = envelope else {
        return Ok(changes);
    };
    take_envelope(alloc, keys, places, &mut changes, id, view, key, envelope)?;
    Ok(changes)
}

/// Whether the entry would be another.
fn is_changed<T: Replica>(state: &KeyState<T>, change: &Change<T>) -> bool
    ensures { (logs : Name → History T.Op) (old new : Name → Entry T.Op) → LeadsTo T.IsDataOf logs old new state.now (Some change.now) → result ≡ is_changed_at old new state.now }
{
    match change {
        Change::Entry(entry) => !entry.is_unchanged(state.entry.envelope()),
        Change::Flushed(_) => false,
    }
}

/// Whether some entry would be another.
pub(crate) fn any_changed<T: Replica>(keys: &[KeyState<T>], changes: &Changes<T>) -> bool
    requires { length changes.now ≡ length keys.now }
    ensures { (logs : Name → History T.Op) (old new : Name → Entry T.Op) → AreMade (LeadsTo T.IsDataOf logs old new) keys.now changes.now → result ≡ list_any (is_changed_at old new) keys.now }
{
    let written = changes.written();
    for at in written {
        if is_changed(&keys[at.index], &at.change) {
            return true;
        }
    }
    false
}
