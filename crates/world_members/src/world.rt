ghost use Rattle.std.specs.Prelude.{◌≡◌, ◌+◌, ◌<◌, ◌≤◌, ◌++◌, ◌∷◌, [], map, vec_len, vec_capacity, option_copied, option_to_list, MatchOption, MatchResult, None, true, is_some};
ghost use Rattle.member_node.specs.Members.{AreDistinct};
ghost use Rattle.member_views.specs.Sound.{last_view};
ghost use Rattle.world_members.specs.declared.event.Head.TheVariants as head;
ghost use Rattle.world_places.specs.Channels.{channel_at, message_on};
ghost use Rattle.world_places.specs.Keeping.{AreSeated};
ghost use Rattle.world_places.specs.Places.{item_at, seat_of, first_keeper, keepers_of};

use crate::event::{Answer, Event, Head};
use crate::outcomes::event_of;
use crate::start::{StartError, refusal};
use base_bytes::{Items, Memory};
use base_vectors::Id;
use data_lattice::{Replica, SpelledData};
use member_keeper::Keeper;
use member_node::{Input, KeyDecl, Message, Node};
use member_views::ViewList;
use model_kinds::Op;
use std::alloc::Global;
use world_places::{
    FirstParts, Links, clear_all, first_parts, put_by, seat_first, step_on, take_on,
};

/// Members at places 0 to 7, spare keepers at the places that have none, the views so far, and the links between all
/// identities.
#[derive(Drop)]
pub struct World<T: Replica, K: Keeper> {
    pub(crate) alloc: Global,
    pub(crate) views: ViewList,
    pub(crate) keys: Vec<KeyDecl<T>>,
    pub(crate) nodes: Vec<Option<Node<T, K>>>,
    pub(crate) spare: Vec<Option<K>>,
    pub(crate) links: Links<Message<T>>,
    pub(crate) room: Vec<K>,
    ghost eight_nodes: { vec_len nodes ≡ 8 },
    ghost eight_spare: { vec_len spare ≡ 8 },
    ghost emptied: { vec_len room ≡ 0 },
    ghost roomy: { 8 ≤ vec_capacity room },
    ghost distinct: { AreDistinct (map (λ decl. decl.key) keys.items) },
    ghost seated: { AreSeated views nodes.items spare.items },
}

impl<T: SpelledData, K: Keeper + Drop> World<T, K> {
    ghost use Rattle.world_places.specs.Places.{member_of, keepers_of};
    ghost use Rattle.world_members.specs.Steps.{Starts, RefusesStart};

    /// From 1 to 8 members, 0 and up, each at the place of its number with these keys and no record; and no message. Each of
    /// the eight keepers has forgotten all, in the order of the places.
    ///
    /// # Errors
    ///
    /// A keeper failed, or memory was refused.
    pub fn start(
        alloc: Global,
        members: u8,
        keys: Vec<KeyDecl<T>>,
        keepers: Vec<K>,
    ) -> Result<World<T, K>, StartError<K>>
        requires some { 1 ≤ members }
        requires few { members ≤ 8 }
        requires distinct { AreDistinct (map (λ decl. decl.key) keys.items) }
        requires eight { vec_len keepers ≡ 8 }
        ensures { MatchResult result (Starts T.SpelledData.own members keys.items keepers.items) (RefusesStart K.Keeper keepers.items) }
    {
        let mut keepers = keepers;
        if let Some(refused) = clear_all(&mut keepers) {
            return Err(refusal(refused.0, refused.1, keepers));
        }
        let parts = match first_parts(alloc, members) {
            Ok(parts) => parts,
            Err(_) => return Err(StartError::Memory { keepers }),
        };
        let FirstParts {
            views,
            links,
            nodes,
            spare,
        } = parts;
        let mut nodes = nodes;
        let mut spare = spare;
        put_by(&mut keepers, &mut spare);
        match seat_first(alloc, members, views.last(), &keys, &mut nodes, &mut spare) {
            Ok(()) => Ok(World {
                alloc,
                views,
                keys,
                nodes,
                spare,
                links,
                room: keepers,
            }),
            Err(_) => Err(StartError::Memory {
                keepers: gathered(keepers, nodes, spare),
            }),
        }
    }

    /// The views so far.
    pub fn views(&self) -> &ViewList
        ensures { result.now ≡ self.now.views }
    {
        &self.views
    }

    /// The declared keys, in the order in which they were given.
    pub fn keys(&self) -> &[KeyDecl<T>]
        ensures { result.now ≡ self.now.keys.items }
    {
        self.keys.as_slice()
    }

    /// The links between all identities.
    pub fn links(&self) -> &Links<Message<T>>
        ensures { result.now ≡ self.now.links }
    {
        &self.links
    }

    /// The member of an identity, and none where the last view lacks it.
    pub fn node(&self, id: Id) -> Option<&Node<T, K>>
        ensures { option_copied result ≡ member_of (last_view self.now.views) self.now.nodes.items id }
    {
        match self.views.last().place_of(id) {
            Some(place) => item_at(&self.nodes, usize::from(place)),
            None => None,
        }
    }

    /// The keepers in the order of their places, in the vector that the world was started with.
    pub fn into_keepers(self) -> Vec<K>
        ensures { result.items ≡ keepers_of self.nodes.items self.spare.items }
    {
        gathered(self.room, self.nodes, self.spare)
    }
}

impl<T: SpelledData<Op = Op>, K: Keeper + Drop> World<T, K> {
    ghost use Rattle.world_members.specs.Giving.{RunsAt, Gives, Hands, Refuses, delivers, DoesOr};
    ghost use Rattle.world_members.specs.Steps.{Plays};
    ghost use Rattle.script_reading.specs.declared.script.Step.TheVariants as form;

    /// The place where the member of an identity runs.
    fn place_of(&self, id: Id) -> Option<usize>
        ensures { MatchOption result (seat_of (last_view self.now.views) id ≡ None) (λ place. RunsAt id place self.now) }
    {
        let place = self.views.last().place_of(id)?;
        Some(usize::from(place))
    }

    /// Gives an input to the member of an identity.
    #[inline(always)]
    pub(crate) fn give(&mut self, at: Id, head: Head, input: &Input<T>) -> Result<Event, Memory>
        ensures { MatchResult result (Gives T.SpelledData.own at head input.now self.old self.new) (λ _. Refuses at self.old self.new) }
    {
        let Some(place) = self.place_of(at) else {
            return Ok(line(self.alloc, head, Answer::Gone));
        };
        match &mut self.nodes[place] {
            Some(node) => {
                let outcome = step_on(self.alloc, node, &mut self.links, at, input);
                event_of(self.alloc, head, outcome)
            }
            None => unreachable!(),
        }
    }

    /// Hands the message of this number on a link to the member of an identity, where it lies.
    #[inline(always)]
    fn hand(&mut self, from: Id, to: Id, index: usize, head: Head) -> Result<Event, Memory>
        requires { is_some (message_on (channel_at self.old.links from to) index) ≡ true }
        ensures { MatchResult result (Hands T.SpelledData.own from to index head self.old self.new) (λ _. Refuses to self.old self.new) }
    {
        let Some(place) = self.place_of(to) else {
            return Ok(line(self.alloc, head, Answer::Gone));
        };
        match &mut self.nodes[place] {
            Some(node) => {
                let outcome = take_on(self.alloc, node, &mut self.links, from, to, index);
                event_of(self.alloc, head, outcome)
            }
            None => unreachable!(),
        }
    }

    /// Drops the next message due on a link.
    pub(crate) fn lose(&mut self, from: Id, to: Id) -> Event
        ensures { Plays T.SpelledData.own (form.Lose from to) self.old self.new (result ∷ []) }
    {
        let index = self.links.next(from, to);
        let head = Head::Lose { from, to, index };
        if index < self.links.sent(from, to) {
            self.links.pass(from, to, index);
            return line(self.alloc, head, Answer::Lost);
        }
        line(self.alloc, head, Answer::NoSuchMessage)
    }

    /// Hands the message of this number to its receiver. A message may be handed over any number of times.
    #[inline(always)]
    pub(crate) fn deliver(&mut self, from: Id, to: Id, index: usize) -> Result<Event, Memory>
        ensures { DoesOr T.SpelledData.own (delivers T.Replica T.SpelledData.own from to index) self.old self.new result }
    {
        if !self.views.last().contains(to) {
            return Ok(undelivered(self.alloc, from, to, index, Answer::Gone));
        }
        let Some(message) = self.links.message(from, to, index) else {
            return Ok(undelivered(self.alloc, from, to, index, Answer::NoSuchMessage));
        };
        let head = Head::Deliver {
            from,
            to,
            index,
            sketch: Some(message.sketch()),
        };
        let event = self.hand(from, to, index, head)?;
        if let Answer::Reply(_) = &event.answer {
            self.links.pass(from, to, index);
        }
        Ok(event)
    }
}

/// What stands at a place, where something does.
fn item_at<X>(items: &[Option<X>], place: usize) -> Option<&X>
    ensures { option_copied result ≡ item_at items.now place }
{
    match items.get(place) {
        Some(item) => item.as_ref(),
        None => None,
    }
}

/// An event that sent nothing and ended nothing.
#[inline(always)]
pub(crate) fn line(alloc: Global, head: Head, answer: Answer) -> Event
    ensures { result ≡ record { head = head; answer = answer; sent = []; finished = None } }
{
    Event {
        head,
        answer,
        sent: Items::new(alloc),
        finished: None,
    }
}

/// The event of a message that was not handed over.
#[inline(always)]
fn undelivered(alloc: Global, from: Id, to: Id, index: usize, answer: Answer) -> Event
    ensures { result ≡ record { head = head.Deliver from to index None; answer = answer; sent = []; finished = None } }
{
    let head = Head::Deliver {
        from,
        to,
        index,
        sketch: None,
    };
    line(alloc, head, answer)
}

/// The keepers of all places, in the vector that has room for them.
pub(crate) fn gathered<T: SpelledData, K: Keeper + Drop>(
    room: Vec<K>,
    nodes: Vec<Option<Node<T, K>>>,
    spare: Vec<Option<K>>,
) -> Vec<K>
    requires roomy { vec_len room + vec_len nodes ≤ vec_capacity room }
    ensures { result.items ≡ room.items ++ keepers_of nodes.items spare.items }
{
    let mut keepers = room;
    for (node, spare) in nodes.into_iter().zip(spare) {
        give_back(&mut keepers, node, spare);
    }
    keepers
}

/// Puts the keeper of a place to the others: its member's, or the spare one.
fn give_back<T: SpelledData, K: Keeper + Drop>(
    keepers: &mut Vec<K>,
    node: Option<Node<T, K>>,
    spare: Option<K>,
)
    requires { vec_len keepers.old < vec_capacity keepers.old }
    ensures items { keepers.new.items ≡ keepers.old.items ++ option_to_list (first_keeper node spare) }
    ensures len { vec_len keepers.new ≤ vec_len keepers.old + 1 }
    ensures capacity { vec_capacity keepers.old ≤ vec_capacity keepers.new }
{
    let keeper = match node {
        Some(node) => Some(node.into_keeper()),
        None => spare,
    };
    if let Some(keeper) = keeper {
        let _ = keepers.push(keeper);
    }
}
