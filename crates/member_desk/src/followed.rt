ghost use Rattle.std.specs.Prelude.{◌≡◌, ◌+◌, ◌<◌, ◌++◌, Some, length, take, drop, slice_get, if◌then◌else◌, OnOk, OnErr, IfOk};
ghost use Rattle.base_bytes.specs.TextOrder.{text_order};
ghost use Rattle.member_desk.specs.Places.{IsPlace};
ghost use Rattle.member_desk.specs.Subscriptions.{by_key, first_of, with_clients, without_client, has_client, unless_left, with_subscription, without_subscription, is_subscribed};
ghost use Rattle.member_desk.specs.declared.followed.Followed.{Followed};
ghost use Rattle.member_desk.specs.declared.client.Subscribed.TheVariants as Subscribed;

use crate::client::{Clients, Subscribed};
use crate::place::Place;
use base_bytes::{Memory, Text};
use std::alloc::Global;
use std::cmp::Ordering;

/// A key that clients follow, and what those of them that were told a value were told last.
#[derive(Drop)]
pub struct Followed<V> {
    pub(crate) key: Text,
    pub(crate) told: Option<V>,
    pub(crate) clients: Clients,
}

/// A key that one client follows, which was told nothing.
fn first<V: Drop>(alloc: Global, key: &Text, client: u32) -> Result<Followed<V>, Memory>
    ensures { IfOk result (λ followed. followed ≡ first_of key.now client) }
{
    let clients = Clients::first(alloc, client)?;
    Ok(Followed {
        key: key.copied(),
        told: None,
        clients,
    })
}

/// Adds a subscription, unless it is there.
pub(crate) fn subscribe<V: Drop>(
    alloc: Global,
    desk: &mut Vec<Followed<V>>,
    client: u32,
    key: &Text,
) -> Result<Subscribed, Memory>
    ensures ok { OnOk result (desk.new.items ≡ with_subscription desk.old.items key.now client) }
    ensures standing { IfOk result (λ subscribed. subscribed ≡ (if is_subscribed desk.old.items key.now client then Subscribed.Standing else Subscribed.New)) }
    ensures err { OnErr result (desk.new.items ≡ desk.old.items) }
{
    match place_of(desk.as_slice(), key) {
        Place::At(index) => {
            let here = &mut desk[index];
            here.clients.add(client)
        }
        Place::Before(index) => {
            let followed = first(alloc, key, client)?;
            match desk.insert(index, followed) {
                Ok(()) => Ok(Subscribed::New),
                Err(_) => Err(Memory),
            }
        }
    }
}

/// Takes a subscription away, and with the last one of a key what was told of it. Answers whether it was there.
pub(crate) fn unsubscribe<V: Drop>(desk: &mut Vec<Followed<V>>, client: u32, key: &Text) -> bool
    ensures was { result ≡ is_subscribed desk.old.items key.now client }
    ensures now { desk.new.items ≡ without_subscription desk.old.items key.now client }
{
    match place_of(desk.as_slice(), key) {
        Place::At(index) => unsubscribe_at(desk, index, client),
        Place::Before(_) => false,
    }
}

/// Takes a client of the key at a place away, and the key if nobody is left. Answers whether the client was there.
fn unsubscribe_at<V: Drop>(desk: &mut Vec<Followed<V>>, index: usize, client: u32) -> bool
    requires { index < length desk.old.items }
    ensures was { (here : Followed V) → slice_get desk.old.items index ≡ Some here → result ≡ has_client here.clients client }
    ensures now { (here : Followed V) → slice_get desk.old.items index ≡ Some here
        → desk.new.items ≡ take index desk.old.items ++ (unless_left (with_clients here (without_client here.clients client)) ++ drop (index + 1) desk.old.items) }
{
    let here = &mut desk[index];
    let was = here.clients.remove(client);
    if here.clients.is_empty() {
        desk.remove(index);
    }
    was
}

/// Where a key stands among those that are followed, or would stand.
fn place_of<V>(desk: &[Followed<V>], key: &Text) -> Place
    ensures { IsPlace (by_key key.now) desk.now result }
{
    let mut index = 0;
    while index < desk.len() {
        match order(&desk[index].key, key) {
            Ordering::Less => index += 1,
            Ordering::Equal => return Place::At(index),
            Ordering::Greater => return Place::Before(index),
        }
    }
    Place::Before(index)
}

/// Which of two keys comes first, by their bytes.
fn order(key: &Text, other: &Text) -> Ordering
    ensures { result ≡ text_order key.now other.now }
{
    key.as_str().cmp(other.as_str())
}
