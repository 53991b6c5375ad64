ghost use Rattle.std.specs.Prelude.{◌≡◌, IfOk};
ghost use Rattle.std.specs.List.{AllZip};
ghost use Rattle.member_desk.specs.Looks.{notices_by, told_by};
ghost use Rattle.member_desk.specs.Members.{IsLook};

use crate::client::Subscribed;
use crate::followed::{Followed, subscribe, unsubscribe};
use crate::look::{Look, Told, find_at};
use crate::notice::Notices;
use crate::tell::{take, tell};
use base_bytes::{Items, Memory, Text};
use data_lattice::SpelledData;
use member_keeper::Keeper;
use member_node::Node;
use std::alloc::Global;
use std::marker::Model;

/// The subscriptions of one member: which clients follow which keys, and what was told of each key. Contracts see the
/// followed keys, in byte order, each with its clients, rising.
#[derive(Drop)]
pub struct Desk {
    alloc: Global,
    followed: Vec<Followed<Told>>,
}

impl Model for Desk {
    ghost use Rattle.std.specs.Prelude.{List};
    ghost use Rattle.std.specs.Coded.{codes};
    ghost use Rattle.base_vectors.specs.contracts.vector.VersionVector as versions;
    ghost use Rattle.member_desk.specs.declared.followed.Followed.{Followed};
    ghost use Rattle.member_desk.specs.declared.look.Told.{Told};
    ghost use Rattle.member_desk.specs.Subscriptions.{AreInOrder};

    ghost Value = { List (Followed Told) };

    ghost coded = { Prim.hlevel (codes, versions.the_row.coded) };

    ghost view = { λ desk. desk.followed.items };

    ghost invariant = { λ desk. AreInOrder desk.followed.items };
}

impl Desk {
    ghost use Rattle.std.specs.Prelude.{◌≡◌, [], if◌then◌else◌, OnOk, OnErr, IfOk};
    ghost use Rattle.member_desk.specs.declared.client.Subscribed.TheVariants as Subscribed;
    ghost use Rattle.member_desk.specs.Subscriptions.{AreInOrder, is_subscribed, with_subscription, without_subscription};
    ghost use Rattle.member_desk.specs.Members.{IsToldBy};

    /// No subscription.
    pub fn new(alloc: Global) -> Desk
        ensures { result ≡ [] }
    {
        Desk {
            alloc,
            followed: Vec::new(alloc),
        }
    }

    /// Lets a client follow a key, of which it was told nothing. Where it follows the key already, nothing changes.
    ///
    /// # Errors
    ///
    /// Memory was refused, and nothing changed.
    pub fn subscribe(&mut self, client: u32, key: &Text) -> Result<Subscribed, Memory>
        ensures ok { OnOk result (self.new ≡ with_subscription self.old key.now client) }
        ensures standing { IfOk result (λ subscribed. subscribed ≡ (if is_subscribed self.old key.now client then Subscribed.Standing else Subscribed.New)) }
        ensures err { OnErr result (self.new ≡ self.old) }
        ensures in_order { AreInOrder self.old }
    {
        subscribe(self.alloc, &mut self.followed, client, key)
    }

    /// Ends a subscription, and what its client was told of the key with it. Answers whether there was one. Takes no memory.
    pub fn unsubscribe(&mut self, client: u32, key: &Text) -> bool
        ensures was { result ≡ is_subscribed self.old key.now client }
        ensures now { self.new ≡ without_subscription self.old key.now client }
        ensures in_order { AreInOrder self.old }
    {
        unsubscribe(&mut self.followed, client, key)
    }

    /// The notices of a flush of the member, to be asked for after it. A client gets one exactly where the member has a record of
    /// the key, and the client was told nothing of it or something else than what the member shows.
    ///
    /// # Errors
    ///
    /// Memory was refused, and nothing changed.
    pub fn notices<T: SpelledData, K: Keeper + Drop>(
        &mut self,
        node: &Node<T, K>,
    ) -> Result<Notices, Memory>
        ensures told { IfOk result (λ notices. IsToldBy node.now self.old notices self.new) }
        ensures err { OnErr result (self.new ≡ self.old) }
        ensures in_order { AreInOrder self.old }
    {
        let Found { looks, notices } = look_all(self.alloc, self.followed.as_slice(), node)?;
        take_all(self.followed.as_mut_slice(), looks);
        Ok(notices)
    }
}

/// What was found at each followed key, and the notices that follow from it.
#[derive(Drop)]
struct Found {
    looks: Vec<Look>,
    notices: Notices,
}

/// What a member holds of each key, and what is to be told.
fn look_all<T: SpelledData, K: Keeper + Drop>(
    alloc: Global,
    desk: &[Followed<Told>],
    node: &Node<T, K>,
) -> Result<Found, Memory>
    ensures looks { IfOk result (λ found. AllZip (IsLook node.now) desk.now found.looks.items) }
    ensures notices { IfOk result (λ found. found.notices ≡ notices_by desk.now found.looks.items) }
{
    let mut looks = Vec::new(alloc);
    let mut notices = Items::new(alloc);
    for followed in desk {
        let look = look_at(alloc, followed, node)?;
        tell(alloc, followed, &look, &mut notices)?;
        looks.push(look)?;
    }
    Ok(Found { looks, notices })
}

/// What a member holds of a followed key.
fn look_at<T: SpelledData, K: Keeper + Drop>(
    alloc: Global,
    followed: &Followed<Told>,
    node: &Node<T, K>,
) -> Result<Look, Memory>
    ensures { IfOk result (IsLook node.now followed.now) }
{
    match node.entry(&followed.key) {
        Some(entry) => find_at(alloc, &followed.told, entry),
        None => Ok(Look::Nothing),
    }
}

/// Notes what was told of each key. Takes no memory.
fn take_all(desk: &mut [Followed<Told>], looks: Vec<Look>)
    ensures { desk.new ≡ told_by desk.old looks.items }
{
    let mut index = 0;
    for look in looks {
        if index < desk.len() {
            take(&mut desk[index], look);
            index += 1;
        }
    }
}
