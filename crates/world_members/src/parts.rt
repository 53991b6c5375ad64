ghost use Rattle.std.specs.Prelude.{◌≡◌, ◌≢◌, ℕ, ◌<◌, ◌≤◌, length, map, vec_len, vec_capacity};
ghost use Rattle.thread_machine.specs.Machines.{machine_at};
ghost use Rattle.member_node.specs.Members.{AreDistinct};
ghost use Rattle.world_places.specs.Parts.{ArePlaced};
ghost use Rattle.world_places.specs.Places.{item_at};

use crate::world::World;
use data_lattice::{Replica, SpelledData};
use member_keeper::Keeper;
use member_node::{KeyDecl, Message, Node};
use member_views::ViewList;
use std::alloc::Global;
use thread_machine::machines::Machines;
use world_places::Links;

/// What is left at the eight places once the members are taken out: the spare keepers, and room for the members and for
/// all keepers.
#[derive(Drop)]
pub struct EmptySeats<T: Replica, K: Keeper> {
    pub(crate) alloc: Global,
    pub(crate) nodes: Vec<Option<Node<T, K>>>,
    pub(crate) spare: Vec<Option<K>>,
    pub(crate) room: Vec<K>,
    ghost eight_nodes: { vec_len nodes ≡ 8 },
    ghost eight_spare: { vec_len spare ≡ 8 },
    ghost emptied: { vec_len room ≡ 0 },
    ghost roomy: { 8 ≤ vec_capacity room },
}

/// The parts of a world: the views, the members by place, the links, the declared keys, and what is left at the places.
#[derive(Drop)]
pub struct Parts<T: SpelledData, K: Keeper + Drop>
where
    T::Op: Drop,
{
    pub views: ViewList,
    pub members: Machines<Node<T, K>>,
    pub links: Links<Message<T>>,
    pub keys: Vec<KeyDecl<T>>,
    pub seats: EmptySeats<T, K>,
}

impl<T: SpelledData, K: Keeper + Drop> World<T, K>
where
    T::Op: Drop,
{
    /// The world in parts.
    pub fn into_parts(self) -> Parts<T, K>
        ensures views { result.views ≡ self.views }
        ensures members { (place : ℕ) → machine_at result.members place ≡ item_at self.nodes.items place }
        ensures links { result.links ≡ self.links }
        ensures keys { result.keys ≡ self.keys }
        ensures spare { result.seats.spare ≡ self.spare }
    {
        let World {
            alloc,
            views,
            keys,
            nodes,
            spare,
            links,
            room,
        } = self;
        let mut nodes = nodes;
        let members = Machines {
            p0: taken(&mut nodes, 0),
            p1: taken(&mut nodes, 1),
            p2: taken(&mut nodes, 2),
            p3: taken(&mut nodes, 3),
            p4: taken(&mut nodes, 4),
            p5: taken(&mut nodes, 5),
            p6: taken(&mut nodes, 6),
            p7: taken(&mut nodes, 7),
        };
        let seats = EmptySeats {
            alloc,
            nodes,
            spare,
            room,
        };
        Parts {
            views,
            members,
            links,
            keys,
            seats,
        }
    }

    /// The world with these parts. Each member has the identity that the last view has at its place and the program's limit
    /// of steps, and there is a spare keeper exactly where there is no member.
    pub fn from_parts(parts: Parts<T, K>) -> World<T, K>
        requires distinct { AreDistinct (map (λ decl. decl.key) parts.keys.items) }
        requires placed { ArePlaced parts.views parts.members parts.seats.spare.items }
        ensures views { result.views ≡ parts.views }
        ensures members { (place : ℕ) → item_at result.nodes.items place ≡ machine_at parts.members place }
        ensures links { result.links ≡ parts.links }
        ensures keys { result.keys ≡ parts.keys }
        ensures spare { result.spare ≡ parts.seats.spare }
    {
        let Parts {
            views,
            members,
            links,
            keys,
            seats,
        } = parts;
        let EmptySeats {
            alloc,
            nodes,
            spare,
            room,
        } = seats;
        let mut nodes = nodes;
        put(&mut nodes, 0, members.p0);
        put(&mut nodes, 1, members.p1);
        put(&mut nodes, 2, members.p2);
        put(&mut nodes, 3, members.p3);
        put(&mut nodes, 4, members.p4);
        put(&mut nodes, 5, members.p5);
        put(&mut nodes, 6, members.p6);
        put(&mut nodes, 7, members.p7);
        World {
            alloc,
            views,
            keys,
            nodes,
            spare,
            links,
            room,
        }
    }
}

/// Takes what stands at a place.
fn taken<X: Drop>(items: &mut Vec<Option<X>>, place: usize) -> Option<X>
    requires { place < vec_len items.old }
    ensures taken { result ≡ item_at items.old.items place }
    ensures others { (k : ℕ) → k ≢ place → item_at items.new.items k ≡ item_at items.old.items k }
    ensures len { vec_len items.new ≡ vec_len items.old }
{
    items[place].take()
}

/// Puts something at a place, or nothing.
fn put<X: Drop>(items: &mut Vec<Option<X>>, place: usize, item: Option<X>)
    requires { place < vec_len items.old }
    ensures put { item_at items.new.items place ≡ item }
    ensures others { (k : ℕ) → k ≢ place → item_at items.new.items k ≡ item_at items.old.items k }
    ensures len { vec_len items.new ≡ vec_len items.old }
{
    items[place] = item;
}
