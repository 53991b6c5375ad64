ghost use Rattle.std.specs.Prelude.{◌≡◌, ◌≤◌, ◌^◌, ℕ, IfOk, OnOk, ◌==◌, ◌||◌, if◌then◌else◌};
ghost use Rattle.std.specs.List.{list_any, list_all};
ghost use Rattle.base_vectors.specs.Vectors.{number_at};
ghost use Rattle.member_node.specs.Changes.{AreMade, IsFlush};
ghost use Rattle.member_node.specs.Sending.{own_number, is_behind, peers_of, flushed_to};
ghost use Rattle.member_node.specs.Flushing.{MeansGroup, AddsGroups, AddsEntries, MeansDeltas, MeansPost, MeansPosts};

use crate::change::{Change, Changes, unchanged};
use crate::key::KeyState;
use base_bytes::{Items, Memory};
use base_vectors::{Id, Seq, VersionVector};
use data_deltalog::Grouped;
use data_envelope::Group;
use data_lattice::Replica;
use member_messages::{Entries, Groups, Keyed, Message, Post, Posts};
use std::alloc::Global;

/// How many own records the entry counts.
fn own_number<T: Replica>(state: &KeyState<T>, id: Id) -> Seq
    ensures value { result ≡ own_number id state.now }
    ensures range { result ≤ 2 ^ 62 }
{
    state.entry.envelope().versions().at(id)
}

/// Whether the peer was not sent all own records of the key.
fn is_behind<T: Replica>(state: &KeyState<T>, id: Id, peer: Id) -> bool
    ensures { result ≡ is_behind id peer state.now }
{
    state.flushed.at(peer) < own_number(state, id)
}

/// Whether the peer was not sent all own records of some key.
fn any_behind<T: Replica>(keys: &[KeyState<T>], id: Id, peer: Id) -> bool
    ensures { result ≡ list_any (is_behind id peer) keys.now }
{
    keys.iter().any(|state| is_behind(state, id, peer))
}

/// The own records that the peer was not sent, as a group, if the log has them all and no prune is among them.
fn group_for<T: Replica>(
    alloc: Global,
    state: &KeyState<T>,
    peer: Id,
) -> Result<Option<Group<T>>, Memory>
    ensures { IfOk result (MeansGroup T.Replica peer state.now) }
{
    match state.log.group(alloc, state.flushed.at(peer))? {
        Grouped::Group(group) => Ok(Some(group)),
        _ => Ok(None),
    }
}

/// Adds the own records of a key that the peer was not sent: as a group, or else the whole entry.
fn add_deltas<T: Replica>(
    alloc: Global,
    state: &KeyState<T>,
    id: Id,
    peer: Id,
    groups: &mut Groups<T>,
    entries: &mut Entries<T>,
) -> Result<(), Memory>
    ensures groups { OnOk result (AddsGroups T.Replica id peer state.now groups.old groups.new) }
    ensures entries { OnOk result (AddsEntries T.Replica id peer state.now entries.old entries.new) }
{
    if !is_behind(state, id, peer) {
        return Ok(());
    }
    let group = group_for(alloc, state, peer)?;
    let key = state.name.copied();
    match group {
        Some(item) => {
            groups.push(Keyed { key, item })?;
            Ok(())
        }
        None => {
            let item = state.entry.envelope().copy(alloc)?;
            entries.push(Keyed { key, item })?;
            Ok(())
        }
    }
}

/// The own records that the peer was not sent.
fn deltas<T: Replica>(
    alloc: Global,
    keys: &[KeyState<T>],
    id: Id,
    peer: Id,
) -> Result<Message<T>, Memory>
    ensures { IfOk result (MeansDeltas T.Replica id keys.now peer) }
{
    let mut groups = Items::new(alloc);
    let mut entries = Items::new(alloc);
    for state in keys {
        add_deltas(alloc, state, id, peer, &mut groups, &mut entries)?;
    }
    Ok(Message::Deltas { groups, entries })
}

/// The message to another member with own records that it was not sent.
fn post<T: Replica>(
    alloc: Global,
    keys: &[KeyState<T>],
    id: Id,
    peer: Id,
) -> Result<Option<Post<T>>, Memory>
    ensures { IfOk result (MeansPost T.Replica id keys.now peer) }
{
    if peer == id || !any_behind(keys, id, peer) {
        return Ok(None);
    }
    let message = deltas(alloc, keys, id, peer)?;
    Ok(Some(Post { to: peer, message }))
}

/// The messages to the other members, in their order.
pub(crate) fn posts<T: Replica>(
    alloc: Global,
    keys: &[KeyState<T>],
    id: Id,
    members: &[Id],
) -> Result<Posts<T>, Memory>
    ensures { IfOk result (MeansPosts T.Replica id keys.now members.now) }
{
    let mut posts = Items::new(alloc);
    for peer in members {
        if let Some(post) = post(alloc, keys, id, *peer)? {
            posts.push(post)?;
        }
    }
    Ok(posts)
}

/// Sets the number flushed to a peer.
fn set_flushed(flushed: &mut VersionVector, peer: Id, own: Seq) -> Result<(), Memory>
    requires { own ≤ 2 ^ 62 }
    ensures { (i : ℕ) → OnOk result (number_at flushed.new i ≡ (if peer == i then own else number_at flushed.old i)) }
{
    let _below_limit = peer.number();
    let _normal = flushed.at(peer);
    flushed.without(peer);
    if own > 0 {
        flushed.raise(peer, own)?;
    }
    Ok(())
}

/// The numbers flushed to each peer, after a flush to the other members.
pub(crate) fn flushed<T: Replica>(
    alloc: Global,
    state: &KeyState<T>,
    id: Id,
    members: &[Id],
) -> Result<VersionVector, Memory>
    ensures { (i : ℕ) → IfOk result (λ flushed. number_at flushed i ≡ flushed_to (own_number id state.now) (peers_of id members.now) (number_at state.now.flushed i) i) }
{
    let own = own_number(state, id);
    let mut flushed = state.flushed.copy(alloc)?;
    for peer in members {
        if *peer != id {
            set_flushed(&mut flushed, *peer, own)?;
        }
    }
    Ok(flushed)
}

/// Whether a flush to the other members changes none of the numbers.
fn is_flushed<T: Replica>(state: &KeyState<T>, id: Id, members: &[Id]) -> bool
    ensures { result ≡ list_all (λ peer. (peer == id) || (number_at state.now.flushed peer == own_number id state.now)) members.now }
{
    let own = own_number(state, id);
    members
        .iter()
        .all(|peer| *peer == id || state.flushed.at(*peer) == own)
}

/// What a flush writes: the numbers of the keys of which one changes.
pub(crate) fn flushes<T: Replica>(
    alloc: Global,
    keys: &[KeyState<T>],
    id: Id,
    members: &[Id],
) -> Result<Changes<T>, Memory>
    ensures { IfOk result (AreMade (IsFlush id members.now) keys.now) }
{
    let mut changes = unchanged(alloc, keys);
    for (index, state) in keys.iter().enumerate() {
        if !is_flushed(state, id, members) {
            let flushed = flushed(alloc, state, id, members)?;
            changes.set(index, Change::Flushed(flushed))?;
        }
    }
    Ok(changes)
}
