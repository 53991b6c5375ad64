ghost use Rattle.std.specs.Prelude.{◌≡◌, ◌≢◌, ℕ, ◌<◌, true, [], ◌∷◌, Some, None, map, slice_get, vec_len, OnOk, OnErr, IfOk, IfErr, IfSome};
ghost use Rattle.model_members.specs.View.{is_member};
ghost use Rattle.member_node.specs.Members.{AreDistinct};
ghost use Rattle.member_views.specs.Sound.{last_view, AreViews};
ghost use Rattle.world_places.specs.Places.{item_at, seat_of, keeper_of};
ghost use Rattle.world_members.specs.Reloading.{Reloads};
ghost use Rattle.world_places.specs.Seating.{ActsAt, IsLeft, RefusesSeat, SeatsAnew};
ghost use Rattle.script_reading.specs.declared.script.Step.TheVariants as form;

use crate::event::{Answer, Event, Head};
use crate::world::{World, line};
use base_bytes::Memory;
use base_vectors::Id;
use data_lattice::{Replica, SpelledData};
use member_keeper::{Keeper, KeeperError};
use member_node::{KeyDecl, LoadError, Node};
use member_views::{PLACES, View, ViewError, ViewList};
use model_kinds::Op;
use std::alloc::Global;
use world_places::{clear_at, seat};

impl<T: SpelledData<Op = Op>, K: Keeper + Drop> World<T, K> {
    ghost use Rattle.world_members.specs.Steps.{MakesStep};

    /// A member leaves. Its keeper lies at the place as before.
    pub(crate) fn remove(&mut self, id: Id) -> Result<Event, Memory>
        ensures { MakesStep T.SpelledData.own (form.Remove id) self.old self.new result }
    {
        let head = Head::Remove { id };
        let Some(place) = place_in(&self.views, id) else {
            return Ok(line(self.alloc, head, Answer::Gone));
        };
        match self.views.remove(id) {
            Ok(view) => {
                stop(&mut self.nodes, &mut self.spare, place);
                Ok(line(self.alloc, head, Answer::View(view)))
            }
            Err(ViewError::LastMember) => Ok(line(self.alloc, head, Answer::LastMember)),
            Err(_) => Err(Memory),
        }
    }

    /// A new member starts at a free place, with nothing stored.
    pub(crate) fn join(&mut self, place: u8) -> Result<Event, Memory>
        requires { place < PLACES }
        ensures { MakesStep T.SpelledData.own (form.Join place) self.old self.new result }
    {
        let head = Head::Join { place };
        let (id, view) = match self.views.join(place) {
            Ok(given) => given,
            Err(ViewError::PlaceTaken) => return Ok(line(self.alloc, head, Answer::PlaceTaken)),
            Err(ViewError::TooManyIdentities) => {
                return Ok(line(self.alloc, head, Answer::TooManyIdentities));
            }
            Err(_) => return Err(Memory),
        };
        match seat_anew(
            self.alloc,
            id,
            self.views.last(),
            &self.keys,
            place,
            &mut self.nodes,
            &mut self.spare,
        ) {
            Ok(()) => Ok(line(self.alloc, head, Answer::NewId { id, view })),
            Err(KeeperError::Failed) => {
                self.views.undo();
                Ok(line(self.alloc, head, Answer::ClearFailed))
            }
            Err(KeeperError::Memory) => {
                self.views.undo();
                Err(Memory)
            }
        }
    }

    /// A member stops, and a new one starts in its place with what is stored there.
    pub(crate) fn restart(&mut self, id: Id) -> Result<Event, Memory>
        ensures { MakesStep T.SpelledData.own (form.Restart id) self.old self.new result }
    {
        let head = Head::Restart { id };
        let Some(place) = place_in(&self.views, id) else {
            return Ok(line(self.alloc, head, Answer::Gone));
        };
        let (new, view) = match self.views.replace(id) {
            Ok(given) => given,
            Err(ViewError::TooManyIdentities) => {
                return Ok(line(self.alloc, head, Answer::TooManyIdentities));
            }
            Err(_) => return Err(Memory),
        };
        match reload(self.alloc, new, self.views.last(), place, &mut self.nodes) {
            Ok(None) => Ok(line(self.alloc, head, Answer::NewId { id: new, view })),
            Ok(Some(answer)) => {
                self.views.undo();
                Ok(line(self.alloc, head, answer))
            }
            Err(memory) => {
                self.views.undo();
                Err(memory)
            }
        }
    }
}

/// The place of a member of the last view.
fn place_in(views: &ViewList, id: Id) -> Option<u8>
    ensures place { result ≡ seat_of (last_view views.now) id }
    ensures within { IfSome result (λ place. place < 8) }
    ensures sound { AreViews views.now }
{
    views.last().place_of(id)
}

/// The member at a place stops, and leaves its keeper there.
fn stop<T: SpelledData, K: Keeper + Drop>(
    nodes: &mut Vec<Option<Node<T, K>>>,
    spare: &mut Vec<Option<K>>,
    place: u8,
)
    requires place { place < PLACES }
    requires eight_nodes { vec_len nodes.old ≡ 8 }
    requires eight_spare { vec_len spare.old ≡ 8 }
    ensures left { IsLeft place nodes.old.items nodes.new.items spare.old.items spare.new.items }
    ensures len_nodes { vec_len nodes.new ≡ 8 }
    ensures len_spare { vec_len spare.new ≡ 8 }
{
    let index = usize::from(place);
    if let Some(node) = nodes[index].take() {
        spare[index] = Some(node.into_keeper());
    }
}

/// The spare keeper of a place forgets all, and goes to a new member of a view.
fn seat_anew<T: SpelledData, K: Keeper + Drop>(
    alloc: Global,
    id: Id,
    view: &View,
    keys: &[KeyDecl<T>],
    place: u8,
    nodes: &mut Vec<Option<Node<T, K>>>,
    spare: &mut Vec<Option<K>>,
) -> Result<(), KeeperError>
    requires place { place < PLACES }
    requires eight_nodes { vec_len nodes.old ≡ 8 }
    requires eight_spare { vec_len spare.old ≡ 8 }
    requires member { is_member view.now id ≡ true }
    requires distinct { AreDistinct (map (λ decl. decl.key) keys.now) }
    ensures seats { OnOk result (SeatsAnew id view.now keys.now place nodes.old.items nodes.new.items spare.old.items spare.new.items) }
    ensures refuses { IfErr result (λ error. ActsAt (RefusesSeat K.Keeper error) place spare.old.items spare.new.items) }
    ensures nodes_stay { OnErr result (nodes.new ≡ nodes.old) }
    ensures len_nodes { vec_len nodes.new ≡ 8 }
    ensures len_spare { vec_len spare.new ≡ 8 }
{
    clear_at(spare, place)?;
    match seat(alloc, id, view, keys, place, nodes, spare) {
        Ok(()) => Ok(()),
        Err(_) => Err(KeeperError::Memory),
    }
}

/// A new member of a view in place of an old one, or the old one with why it comes back.
fn loaded<T: SpelledData, K: Keeper + Drop>(
    old: Node<T, K>,
    id: Id,
    view: View,
) -> (Node<T, K>, Result<Option<Answer>, Memory>)
    requires { is_member view id ≡ true }
    ensures { Reloads T.SpelledData.own id view result.1 old result.0 }
{
    match Node::loaded(old, id, view) {
        Ok(node) => (node, Ok(None)),
        Err(LoadError::LoadFailed(old)) => (old, Ok(Some(Answer::LoadFailed))),
        Err(LoadError::Damaged(old, key)) => (old, Ok(Some(Answer::Damaged(key)))),
        Err(LoadError::Memory(old)) => (old, Err(Memory)),
    }
}

/// The member at a place gives way to a new one of a view, unless what is stored can't be loaded.
fn reload<T: SpelledData, K: Keeper + Drop>(
    alloc: Global,
    id: Id,
    view: &View,
    place: u8,
    nodes: &mut Vec<Option<Node<T, K>>>,
) -> Result<Option<Answer>, Memory>
    requires place { place < PLACES }
    requires eight { vec_len nodes.old ≡ 8 }
    requires member { is_member view.now id ≡ true }
    ensures reloads { ActsAt (Reloads T.SpelledData.own id view.now result) place nodes.old.items nodes.new.items }
    ensures len { vec_len nodes.new ≡ 8 }
{
    let index = usize::from(place);
    let view = match view.copy(alloc) {
        Ok(view) => view,
        Err(memory) => return Err(memory),
    };
    let Some(old) = nodes[index].take() else {
        return Ok(None);
    };
    let (node, answer) = loaded(old, id, view);
    nodes[index] = Some(node);
    answer
}
