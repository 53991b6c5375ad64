ghost use Rattle.std.specs.Prelude.{◌≡◌, ◌<◌, ◌↔◌, ◌&&◌, not, false, IsTrue, length, map, All, IfOk, IfErr, OnOk};
ghost use Rattle.std.specs.List.{list_any};
ghost use Rattle.model_history.specs.Table.{identities};
ghost use Rattle.data_markers.specs.Marks.{mark_of};
ghost use Rattle.data_envelope.specs.Images.{Parts};
ghost use Rattle.data_envelope.specs.Words.{parts_of};
ghost use Rattle.member_node.specs.declared.restoring.Flaw.TheVariants as flaw;
ghost use Rattle.member_node.specs.Own.{AreOfTheirKinds};
ghost use Rattle.member_node.specs.Keys.{declared_by, AreDistinctKeys};
ghost use Rattle.member_node.specs.Fresh.{IsFresh};
ghost use Rattle.member_node.specs.Loading.{IsSoundAt, AreSound, IsFirstUnsound};
ghost use Rattle.member_node.specs.Restoring.{is_earlier, mark_names, names_at, is_named, names_others, IsFitFor, IsFitAt, Takes, TakesAt, HoldsKept, IfDamaged};

use crate::key::{KeyDecl, KeyState};
use crate::places::Places;
use base_bytes::{Items, Memory, Text};
use base_vectors::{IDENTITIES, Id};
use data_codec::{CodecError, read_stored};
use data_envelope::Envelope;
use data_lattice::{Replica, SpelledData};
use data_markers::{Marker, Markers};
use member_keeper::Stored;
use member_views::View;
use std::alloc::Global;

/// Why what is kept was not loaded: the key of the first that may not be, or that memory was refused.
#[derive(Drop)]
pub(crate) enum Unfit {
    Damaged(Text),
    Memory,
}

/// Why one of what is kept was not loaded.
#[derive(Clone, Copy)]
enum Flaw {
    Damaged,
    Memory,
}

/// What is kept at a key: where the key stands, and the entry.
#[derive(Drop)]
struct Kept<T: Replica> {
    index: usize,
    entry: Envelope<T>,
}

/// Whether an identity was given, and is another than the new one.
fn is_earlier(id: Id, given: u8, other: Id) -> bool
    ensures { result ≡ is_earlier id given other }
{
    other.number() < given && other != id
}

/// Whether a mark names an identity.
fn mark_names(marker: Marker, id: Id) -> bool
    ensures { result ≡ mark_names marker id }
{
    match marker {
        Marker::Initialized { owner, seen, .. } => owner == id || seen.has(id),
        Marker::Performed { owner, .. } => owner == id,
    }
}

/// Whether the mark of an identity names another, or is of it.
fn names_at(markers: &Markers, removed: Id, id: Id) -> bool
    ensures { result ≡ names_at removed (mark_of markers.now removed) id }
{
    match markers.get(removed) {
        Some(marker) => removed == id || mark_names(marker, id),
        None => false,
    }
}

/// Whether some mark names an identity.
fn marks_name(markers: &Markers, id: Id) -> bool
    ensures { result ≡ list_any (λ r. names_at r (mark_of markers.now r) id) identities }
{
    for number in 0..markers.limit() {
        if let Some(removed) = Id::new(number) {
            if names_at(markers, removed, id) {
                return true;
            }
        }
    }
    false
}

/// Whether an entry names an identity: in the numbers of records, in the data or in the marks.
fn is_named<T: Replica>(entry: &Envelope<T>, id: Id) -> bool
    ensures { result ≡ is_named T.mentioned (parts_of entry.now) id }
{
    entry.versions().at(id) > 0 || entry.value().mentions(id) || marks_name(entry.markers(), id)
}

/// Whether an entry names this identity, which was not given or is the new one.
fn names_other<T: Replica>(entry: &Envelope<T>, id: Id, given: u8, other: Id) -> bool
    ensures { result ≡ (not (is_earlier id given other) && is_named T.mentioned (parts_of entry.now) other) }
{
    !is_earlier(id, given, other) && is_named(entry, other)
}

/// Whether an entry names an identity that was not given or is the new one.
fn names_others<T: Replica>(entry: &Envelope<T>, id: Id, given: u8) -> bool
    ensures { result ≡ names_others T.mentioned id given (parts_of entry.now) }
{
    for number in 0..IDENTITIES {
        if let Some(other) = Id::new(number) {
            if names_other(entry, id, given, other) {
                return true;
            }
        }
    }
    false
}

/// Whether an entry that was read is of the kind of a key, and names earlier identities alone.
fn is_fit<T: Replica>(state: &KeyState<T>, entry: &Envelope<T>, id: Id, given: u8) -> bool
    requires { T.kind_of state.now.entry.value ≡ state.now.kind }
    ensures { IsTrue result ↔ ((state.now.kind ≡ T.kind_of entry.now.value) × (names_others T.mentioned id given (parts_of entry.now) ≡ false)) }
{
    state.entry.envelope().value().same_kind(entry.value()) && !names_others(entry, id, given)
}

/// The entry that is kept for a key, if it may be loaded.
fn read_for<T: SpelledData>(
    alloc: Global,
    state: &KeyState<T>,
    id: Id,
    given: u8,
    bytes: &[u8],
) -> Result<Envelope<T>, Flaw>
    requires { T.kind_of state.now.entry.value ≡ state.now.kind }
    ensures fit { IfOk result (λ entry. IsFitFor T.Replica T.SpelledData.own id given state.now bytes.now (parts_of entry)) }
    ensures unfit { IfErr result (λ error. error ≡ flaw.Damaged → (parts : Parts T) → IsFitFor T.Replica T.SpelledData.own id given state.now bytes.now parts → ⊥) }
{
    if !state.durable {
        return Err(Flaw::Damaged);
    }
    match read_stored::<T>(alloc, bytes) {
        Ok(entry) => {
            if is_fit(state, &entry, id, given) {
                return Ok(entry);
            }
            Err(Flaw::Damaged)
        }
        Err(CodecError::NotAnEnvelope(_)) => Err(Flaw::Damaged),
        Err(CodecError::Memory) => Err(Flaw::Memory),
    }
}

/// What is kept, as the entry of a declared key.
fn read_kept<T: SpelledData>(
    alloc: Global,
    keys: &[KeyState<T>],
    places: &Places,
    id: Id,
    given: u8,
    stored: &Stored,
) -> Result<Kept<T>, Flaw>
    requires of_kinds { AreOfTheirKinds T.kind_of keys.now }
    requires distinct { AreDistinctKeys keys.now }
    ensures fit { IfOk result (λ kept. IsFitAt T.Replica T.SpelledData.own id given keys.now stored.now kept.index (parts_of kept.entry)) }
    ensures unsound { IfErr result (λ error. error ≡ flaw.Damaged → IsSoundAt T.Replica T.SpelledData.own keys.now id given stored.now → ⊥) }
{
    let Some(index) = places.place(keys, &stored.key) else {
        return Err(Flaw::Damaged);
    };
    match read_for(alloc, &keys[index], id, given, stored.bytes.as_slice()) {
        Ok(entry) => Ok(Kept { index, entry }),
        Err(error) => Err(error),
    }
}

/// Puts an entry in the place of what a key holds, and notes that the member has seen its marks.
fn take<T: Replica>(state: &mut KeyState<T>, entry: Envelope<T>, id: Id, view: u32)
    ensures { Takes T.IsDataOf id view state.old (parts_of entry) state.new }
{
    let mut entry = entry;
    let _changed = entry.add_seen(id, view);
    state.entry.put(entry);
}

/// Does so for the key at a place.
fn take_at<T: Replica>(
    states: &mut [KeyState<T>],
    index: usize,
    entry: Envelope<T>,
    id: Id,
    view: u32,
)
    requires { index < length states.old }
    ensures { TakesAt T.IsDataOf id view states.old index (parts_of entry) states.new }
{
    take(&mut states[index], entry, id, view);
}

/// Puts what is kept in the place of what the new keys hold. `keys` are those of the old member.
fn take_all<T: SpelledData>(
    alloc: Global,
    keys: &[KeyState<T>],
    places: &Places,
    states: &mut [KeyState<T>],
    id: Id,
    view: &View,
    loaded: Vec<Stored>,
) -> Result<(), Unfit>
    requires of_kinds { AreOfTheirKinds T.kind_of keys.now }
    requires distinct { AreDistinctKeys keys.now }
    requires declared { map declared_by states.old ≡ map declared_by keys.now }
    requires fresh { All (IsFresh T.kind_of T.IsDataOf T.IsDeltaOf id) states.old }
    ensures declared { OnOk result (map declared_by states.new ≡ map declared_by keys.now) }
    ensures holds { OnOk result (All (HoldsKept T.Replica T.SpelledData.own id view.now loaded.items) states.new) }
    ensures sound { OnOk result (AreSound T.Replica T.SpelledData.own keys.now id view.now.given loaded.items) }
    ensures unfit { IfErr result (λ unfit. IfDamaged unfit (IsFirstUnsound T.Replica T.SpelledData.own keys.now id view.now.given loaded.items)) }
{
    let given = view.given();
    let number = view.number();
    for stored in loaded {
        match read_kept(alloc, keys, places, id, given, &stored) {
            Ok(kept) => take_at(states, kept.index, kept.entry, id, number),
            Err(Flaw::Damaged) => return Err(Unfit::Damaged(stored.key)),
            Err(Flaw::Memory) => return Err(Unfit::Memory),
        }
    }
    Ok(())
}

/// A key as it is declared, without records.
fn emptied<T: Replica>(alloc: Global, id: Id, state: &KeyState<T>) -> Result<KeyState<T>, Memory>
    ensures declared { IfOk result (λ new. declared_by new ≡ declared_by state.now) }
    ensures fresh { IfOk result (IsFresh T.kind_of T.IsDataOf T.IsDeltaOf id) }
{
    let decl = KeyDecl {
        key: state.name.copied(),
        kind: state.kind,
        durable: state.durable,
    };
    KeyState::new(alloc, id, &decl)
}

/// The keys without records, in their order.
fn all_emptied<T: Replica>(
    alloc: Global,
    id: Id,
    keys: &[KeyState<T>],
) -> Result<Vec<KeyState<T>>, Memory>
    ensures declared { IfOk result (λ states. map declared_by states.items ≡ map declared_by keys.now) }
    ensures fresh { IfOk result (λ states. All (IsFresh T.kind_of T.IsDataOf T.IsDeltaOf id) states.items) }
{
    let mut states = Items::new(alloc);
    for state in keys {
        states.push(emptied(alloc, id, state)?)?;
    }
    Ok(states.into_vec())
}

/// The keys of a new member, with what is kept.
pub(crate) fn restored<T: SpelledData>(
    alloc: Global,
    keys: &[KeyState<T>],
    places: &Places,
    id: Id,
    view: &View,
    loaded: Vec<Stored>,
) -> Result<Vec<KeyState<T>>, Unfit>
    requires of_kinds { AreOfTheirKinds T.kind_of keys.now }
    requires distinct { AreDistinctKeys keys.now }
    ensures declared { IfOk result (λ states. map declared_by states.items ≡ map declared_by keys.now) }
    ensures holds { IfOk result (λ states. All (HoldsKept T.Replica T.SpelledData.own id view.now loaded.items) states.items) }
    ensures sound { IfOk result (λ _states. AreSound T.Replica T.SpelledData.own keys.now id view.now.given loaded.items) }
    ensures unfit { IfErr result (λ unfit. IfDamaged unfit (IsFirstUnsound T.Replica T.SpelledData.own keys.now id view.now.given loaded.items)) }
{
    let mut states = match all_emptied(alloc, id, keys) {
        Ok(states) => states,
        Err(_) => return Err(Unfit::Memory),
    };
    match take_all(alloc, keys, places, states.as_mut_slice(), id, view, loaded) {
        Ok(()) => Ok(states),
        Err(unfit) => Err(unfit),
    }
}
