ghost use Rattle.std.specs.Prelude.{◌≡◌, ℕ, ◌<◌, ◌≤◌, ◌&&◌, if◌then◌else◌, nat_lt, true, [], ◌∷◌, Some, None, map, replicate, slice_get, is_some, vec_len, vec_capacity, MatchResult, OnOk, OnErr, IfOk, IfErr};
ghost use Rattle.model_history.specs.Table.{identity_limit};
ghost use Rattle.model_members.specs.View.{is_member, first_view};
ghost use Rattle.member_node.specs.Members.{AreDistinct};
ghost use Rattle.world_places.specs.Keeping.{IsCleared};
ghost use Rattle.world_places.specs.Channels.{channel_at, no_messages};
ghost use Rattle.world_places.specs.Places.{item_at, keeper_of};
ghost use Rattle.world_places.specs.Seating.{ActsAt, Clears, RefusesToClear, Seats, AreFirstSeats};

use crate::links::Links;
use base_bytes::Memory;
use base_vectors::Id;
use data_lattice::{Replica, SpelledData};
use member_keeper::{Keeper, KeeperError};
use member_node::{KeyDecl, Message, Node};
use member_views::{PLACES, View, ViewList};
use std::alloc::Global;

/// A keeper forgets all.
fn forget<K: Keeper>(keeper: &mut K) -> Result<(), KeeperError>
    ensures { MatchResult result (λ _. IsCleared K.Keeper keeper.old keeper.new) (λ error. RefusesToClear K.Keeper error keeper.old keeper.new) }
{
    keeper.clear()
}

/// The spare keeper of a place forgets all.
pub fn clear_at<K: Keeper>(spare: &mut Vec<Option<K>>, place: u8) -> Result<(), KeeperError>
    requires place { place < PLACES }
    requires eight { vec_len spare.old ≡ 8 }
    ensures clears { OnOk result (ActsAt (IsCleared K.Keeper) place spare.old.items spare.new.items) }
    ensures refuses { IfErr result (λ error. ActsAt (RefusesToClear K.Keeper error) place spare.old.items spare.new.items) }
    ensures len { vec_len spare.new ≡ 8 }
{
    match &mut spare[usize::from(place)] {
        Some(keeper) => forget(keeper),
        None => Ok(()),
    }
}

/// Each keeper forgets all, in their order. The first that refuses is told, with its place.
pub fn clear_all<K: Keeper>(keepers: &mut Vec<K>) -> Option<(u8, KeeperError)>
    requires { vec_len keepers.old ≡ 8 }
    ensures clears { Clears K.Keeper result keepers.old.items keepers.new.items }
    ensures len { vec_len keepers.new ≡ 8 }
{
    for place in 0..PLACES {
        if let Err(error) = forget(&mut keepers[usize::from(place)]) {
            return Some((place, error));
        }
    }
    None
}

/// What a first world is made of, beside its keys and its keepers: nothing at any place.
pub struct FirstParts<T: Replica, K: Keeper> {
    pub views: ViewList,
    pub links: Links<Message<T>>,
    pub nodes: Vec<Option<Node<T, K>>>,
    pub spare: Vec<Option<K>>,
}

/// Nothing at each place.
fn empty_places<X: Drop>(alloc: Global) -> Result<Vec<Option<X>>, Memory>
    ensures { IfOk result (λ places. places.items ≡ replicate 8 None) }
{
    let mut places = Vec::new(alloc);
    for _place in 0..PLACES {
        places.push(None)?;
    }
    Ok(places)
}

/// The parts of a first world.
pub fn first_parts<T: SpelledData, K: Keeper + Drop>(
    alloc: Global,
    members: u8,
) -> Result<FirstParts<T, K>, Memory>
    requires some { 1 ≤ members }
    requires few { members ≤ 8 }
    ensures views { IfOk result (λ parts. parts.views ≡ first_view members ∷ []) }
    ensures links { IfOk result (λ parts. (from to : ℕ) → channel_at parts.links from to ≡ (if nat_lt from identity_limit && nat_lt to identity_limit then Some no_messages else None)) }
    ensures nodes { IfOk result (λ parts. parts.nodes.items ≡ replicate 8 None) }
    ensures spare { IfOk result (λ parts. parts.spare.items ≡ replicate 8 None) }
{
    Ok(FirstParts {
        views: ViewList::new(alloc, members)?,
        links: Links::new(alloc)?,
        nodes: empty_places(alloc)?,
        spare: empty_places(alloc)?,
    })
}

/// Moves each keeper to its place.
pub fn put_by<K: Keeper + Drop>(keepers: &mut Vec<K>, spare: &mut Vec<Option<K>>)
    requires eight { vec_len keepers.old ≡ 8 }
    requires eight_spare { vec_len spare.old ≡ 8 }
    ensures spare { spare.new.items ≡ map Some keepers.old.items }
    ensures len { vec_len spare.new ≡ 8 }
    ensures none { vec_len keepers.new ≡ 0 }
    ensures capacity { vec_capacity keepers.old ≤ vec_capacity keepers.new }
{
    while let Some(keeper) = keepers.pop() {
        let place = keepers.len();
        spare[place] = Some(keeper);
    }
}

/// The spare keeper of a place goes to a new member of a view. After a refusal all is as before.
pub fn seat<T: SpelledData, K: Keeper + Drop>(
    alloc: Global,
    id: Id,
    view: &View,
    keys: &[KeyDecl<T>],
    place: u8,
    nodes: &mut Vec<Option<Node<T, K>>>,
    spare: &mut Vec<Option<K>>,
) -> Result<(), Memory>
    requires place { place < PLACES }
    requires eight_nodes { vec_len nodes.old ≡ 8 }
    requires eight_spare { vec_len spare.old ≡ 8 }
    requires member { is_member view.now id ≡ true }
    requires distinct { AreDistinct (map (λ decl. decl.key) keys.now) }
    ensures seats { OnOk result (Seats id view.now keys.now place nodes.old.items nodes.new.items spare.old.items spare.new.items) }
    ensures nodes_stay { OnErr result (nodes.new ≡ nodes.old) }
    ensures spare_stay { OnErr result ((other : ℕ) → slice_get spare.new.items other ≡ slice_get spare.old.items other) }
    ensures len_nodes { vec_len nodes.new ≡ 8 }
    ensures len_spare { vec_len spare.new ≡ 8 }
{
    let index = usize::from(place);
    let view = view.copy(alloc)?;
    let Some(keeper) = spare[index].take() else {
        return Ok(());
    };
    match Node::new(alloc, id, view, keys, keeper) {
        Ok(node) => {
            nodes[index] = Some(node);
            Ok(())
        }
        Err((keeper, memory)) => {
            spare[index] = Some(keeper);
            Err(memory)
        }
    }
}

/// Members start at the first places, each with the identity of its place's number. After a refusal some may have started.
pub fn seat_first<T: SpelledData, K: Keeper + Drop>(
    alloc: Global,
    members: u8,
    view: &View,
    keys: &[KeyDecl<T>],
    nodes: &mut Vec<Option<Node<T, K>>>,
    spare: &mut Vec<Option<K>>,
) -> Result<(), Memory>
    requires few { members ≤ 8 }
    requires view { view.now ≡ first_view members }
    requires distinct { AreDistinct (map (λ decl. decl.key) keys.now) }
    requires eight_nodes { vec_len nodes.old ≡ 8 }
    requires eight_spare { vec_len spare.old ≡ 8 }
    requires no_nodes { (place : ℕ) → item_at nodes.old.items place ≡ None }
    requires keepers { (place : ℕ) → place < 8 → is_some (item_at spare.old.items place) ≡ true }
    ensures seats { OnOk result (AreFirstSeats members keys.now nodes.new.items spare.old.items spare.new.items) }
    ensures kept { (place : ℕ) → keeper_of nodes.new.items spare.new.items place ≡ item_at spare.old.items place }
    ensures len_nodes { vec_len nodes.new ≡ 8 }
    ensures len_spare { vec_len spare.new ≡ 8 }
{
    for place in 0..members {
        let id = Id::new(place).unwrap();
        seat(alloc, id, view, keys, place, nodes, spare)?;
    }
    Ok(())
}
