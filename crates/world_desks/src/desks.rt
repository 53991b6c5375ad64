ghost use Rattle.std.specs.Prelude.{◌≡◌, [], if◌then◌else◌, find, is_some, option_map, IfOk, OnOk, OnErr};
ghost use Rattle.std.specs.Str.{bytes_eq};
ghost use Rattle.member_desk.specs.declared.client.Subscribed.TheVariants as subscribed;
ghost use Rattle.member_desk.specs.Members.{IsToldBy};
ghost use Rattle.member_desk.specs.Subscriptions.{is_subscribed, with_subscription, without_subscription};
ghost use Rattle.member_views.specs.Sound.{last_view};
ghost use Rattle.theorem_watching.specs.Watching.WatchStep.{Subscribe, Unsubscribe};
ghost use Rattle.world_places.specs.Places.{member_of};
ghost use Rattle.world_desks.specs.Seats.{desk_of, ChangesAt, IsSame};
ghost use Rattle.world_desks.specs.Watched.{Answers, EndsWithMembers, Tells, subscribes, unsubscribes};

use crate::seats::{Seat, place_of};
use base_bytes::{Items, Memory, Text};
use base_vectors::Id;
use data_lattice::SpelledData;
use member_desk::{Desk, Notices, Subscribed};
use member_keeper::Keeper;
use member_node::Node;
use std::alloc::Global;
use theorem_watching::Followship;
use world_members::World;

/// The subscriptions at the members of a world.
#[derive(Drop)]
pub struct Desks {
    pub(crate) alloc: Global,
    pub(crate) seats: Vec<Seat>,
}

impl Desks {
    /// No subscription at any member.
    pub fn new(alloc: Global) -> Desks
        ensures { result.seats.items ≡ [] }
    {
        Desks {
            alloc,
            seats: Vec::new(alloc),
        }
    }

    /// Lets a client follow a key at a member, if this runs and declares the key.
    ///
    /// # Errors
    ///
    /// Memory was refused, and no subscription changed.
    pub fn subscribe<T: SpelledData, K: Keeper + Drop>(
        &mut self,
        world: &World<T, K>,
        at: Id,
        client: u32,
        key: &Text,
    ) -> Result<Followship, Memory>
        ensures ok { IfOk result (Answers T.SpelledData.own world.now (subscribes at client key.now) (Subscribe at client key.now) self.old self.new) }
        ensures err { OnErr result (IsSame self.old.seats.items self.new.seats.items) }
    {
        match declared_at(world, at, key) {
            Some(true) => match self.follow(at, client, key)? {
                Subscribed::New => Ok(Followship::Subscribed),
                Subscribed::Standing => Ok(Followship::AlreadySubscribed),
            },
            Some(false) => Ok(Followship::UnknownKey),
            None => Ok(Followship::Gone),
        }
    }

    /// Ends a subscription of a client to a key at a member, if there is one.
    pub fn unsubscribe<T: SpelledData, K: Keeper + Drop>(
        &mut self,
        world: &World<T, K>,
        at: Id,
        client: u32,
        key: &Text,
    ) -> Followship
        ensures { Answers T.SpelledData.own world.now (unsubscribes at client key.now) (Unsubscribe at client key.now) self.old self.new result }
    {
        match declared_at(world, at, key) {
            Some(true) => {
                if self.leave(at, client, key) {
                    Followship::Unsubscribed
                } else {
                    Followship::NotSubscribed
                }
            }
            Some(false) => Followship::UnknownKey,
            None => Followship::Gone,
        }
    }

    /// Ends the subscriptions at members that run no more.
    pub fn end_with_members<T: SpelledData, K: Keeper + Drop>(&mut self, world: &World<T, K>)
        ensures { EndsWithMembers T.SpelledData.own world.now self.old self.new }
    {
        self.seats.retain(|seat| runs(world, seat.id));
    }

    /// The notices of a flush of a member that is done, to be asked for after it.
    ///
    /// # Errors
    ///
    /// Memory was refused.
    pub fn notices<T: SpelledData, K: Keeper + Drop>(
        &mut self,
        world: &World<T, K>,
        at: Id,
    ) -> Result<Notices, Memory>
        ensures { IfOk result (λ notices. Tells T.SpelledData.own world.now at notices self.old self.new) }
    {
        match world.node(at) {
            Some(node) => self.notices_of(node, at),
            None => Ok(Items::new(self.alloc)),
        }
    }

    /// Lets a client follow a key at a member.
    fn follow(&mut self, at: Id, client: u32, key: &Text) -> Result<Subscribed, Memory>
        ensures ok { OnOk result (ChangesAt at (with_subscription (desk_of self.old.seats.items at) key.now client) self.old.seats.items self.new.seats.items) }
        ensures standing { IfOk result (λ s. s ≡ (if is_subscribed (desk_of self.old.seats.items at) key.now client then subscribed.Standing else subscribed.New)) }
        ensures err { OnErr result (IsSame self.old.seats.items self.new.seats.items) }
    {
        match place_of(self.seats.as_slice(), at) {
            Some(index) => self.seats[index].desk.subscribe(client, key),
            None => {
                let mut desk = Desk::new(self.alloc);
                let subscribed = desk.subscribe(client, key)?;
                self.seats.push(Seat { id: at, desk })?;
                Ok(subscribed)
            }
        }
    }

    /// Ends a subscription of a client to a key at a member. Answers whether there was one.
    fn leave(&mut self, at: Id, client: u32, key: &Text) -> bool
        ensures was { result ≡ is_subscribed (desk_of self.old.seats.items at) key.now client }
        ensures now { ChangesAt at (without_subscription (desk_of self.old.seats.items at) key.now client) self.old.seats.items self.new.seats.items }
    {
        match place_of(self.seats.as_slice(), at) {
            Some(index) => self.seats[index].desk.unsubscribe(client, key),
            None => false,
        }
    }

    /// What a flush of a member tells.
    fn notices_of<T: SpelledData, K: Keeper + Drop>(
        &mut self,
        node: &Node<T, K>,
        at: Id,
    ) -> Result<Notices, Memory>
        ensures told { IfOk result (λ notices. IsToldBy node.now (desk_of self.old.seats.items at) notices (desk_of self.new.seats.items at)) }
        ensures others { OnOk result (ChangesAt at (desk_of self.new.seats.items at) self.old.seats.items self.new.seats.items) }
    {
        match place_of(self.seats.as_slice(), at) {
            Some(index) => self.seats[index].desk.notices(node),
            None => Ok(Items::new(self.alloc)),
        }
    }
}

/// Whether a member runs under an identity.
fn runs<T: SpelledData, K: Keeper + Drop>(world: &World<T, K>, id: Id) -> bool
    ensures { result ≡ is_some (member_of (last_view world.now.views) world.now.nodes.items id) }
{
    match world.node(id) {
        Some(_) => true,
        None => false,
    }
}

/// Whether the member of an identity declares a key, if one runs.
fn declared_at<T: SpelledData, K: Keeper + Drop>(
    world: &World<T, K>,
    at: Id,
    key: &Text,
) -> Option<bool>
    ensures { result ≡ option_map (λ node. is_some (find (λ state. bytes_eq state.name key.now) node.keys.items)) (member_of (last_view world.now.views) world.now.nodes.items at) }
{
    match world.node(at) {
        Some(node) => Some(node.entry(key).is_some()),
        None => None,
    }
}
