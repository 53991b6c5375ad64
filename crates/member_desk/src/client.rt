ghost use Rattle.std.specs.Prelude.{◌≡◌, map};
ghost use Rattle.member_desk.specs.Places.{IsPlace};
ghost use Rattle.member_desk.specs.Subscriptions.{by_number};
ghost use Rattle.member_desk.specs.Notices.{told_client};

use crate::place::Place;
use base_bytes::Memory;
use std::alloc::Global;
use std::cmp::Ordering;
use std::marker::Model;

/// What became of a request to subscribe.
#[derive(Clone, Copy, Debug, PartialEq, Eq)]
pub enum Subscribed {
    /// The client follows the key from now on, and was told nothing.
    New,
    /// It follows the key already, and nothing changed.
    Standing,
}

/// A client that follows a key, and whether it was told the key's told value.
#[derive(Clone, Copy, Debug, PartialEq, Eq)]
pub struct Client {
    pub(crate) number: u32,
    pub(crate) told: bool,
}

/// The clients of a key. Contracts see their list.
#[derive(Drop)]
pub struct Clients {
    clients: Vec<Client>,
}

impl Model for Clients {
    ghost use Rattle.std.specs.Prelude.{List};
    ghost use Rattle.member_desk.specs.declared.client.Client.{Client};

    ghost Value = { List Client };

    ghost view = { λ c. c.clients.items };
}

impl Clients {
    ghost use Rattle.std.specs.Prelude.{◌≡◌, ◌∷◌, [], map, if◌then◌else◌, OnOk, OnErr, IfOk};
    ghost use Rattle.member_desk.specs.declared.client.Subscribed.TheVariants as Subscribed;
    ghost use Rattle.member_desk.specs.Subscriptions.{untold, with_client, without_client, is_nobody, has_client};
    ghost use Rattle.member_desk.specs.Notices.{told_client};

    /// One client, which was told nothing.
    pub(crate) fn first(alloc: Global, number: u32) -> Result<Clients, Memory>
        ensures { IfOk result (λ clients. clients ≡ untold number ∷ []) }
    {
        let mut clients = Vec::new(alloc);
        let client = Client {
            number,
            told: false,
        };
        clients.push(client)?;
        Ok(Clients { clients })
    }

    /// The clients, rising.
    pub(crate) fn as_slice(&self) -> &[Client]
        ensures { result.now ≡ self.now }
    {
        self.clients.as_slice()
    }

    /// Whether there is none.
    pub(crate) fn is_empty(&self) -> bool
        ensures { result ≡ is_nobody self.now }
    {
        self.clients.len() == 0
    }

    /// Adds a client that was told nothing, unless it is there.
    pub(crate) fn add(&mut self, number: u32) -> Result<Subscribed, Memory>
        ensures ok { OnOk result (self.new ≡ with_client self.old number) }
        ensures standing { IfOk result (λ subscribed. subscribed ≡ (if has_client self.old number then Subscribed.Standing else Subscribed.New)) }
        ensures err { OnErr result (self.new ≡ self.old) }
    {
        match place_of(self.clients.as_slice(), number) {
            Place::At(_) => Ok(Subscribed::Standing),
            Place::Before(index) => {
                let client = Client {
                    number,
                    told: false,
                };
                match self.clients.insert(index, client) {
                    Ok(()) => Ok(Subscribed::New),
                    Err(_) => Err(Memory),
                }
            }
        }
    }

    /// Takes a client away. Answers whether it was there.
    pub(crate) fn remove(&mut self, number: u32) -> bool
        ensures was { result ≡ has_client self.old number }
        ensures now { self.new ≡ without_client self.old number }
    {
        match place_of(self.clients.as_slice(), number) {
            Place::At(index) => {
                self.clients.remove(index);
                true
            }
            Place::Before(_) => false,
        }
    }

    /// Notes that each client was told the key's told value.
    pub(crate) fn tell_all(&mut self)
        ensures { self.new ≡ map told_client self.old }
    {
        tell_each(self.clients.as_mut_slice());
    }
}

/// Where a client stands among others, or would stand.
fn place_of(clients: &[Client], number: u32) -> Place
    ensures { IsPlace (by_number number) clients.now result }
{
    let mut index = 0;
    while index < clients.len() {
        match order(&clients[index], number) {
            Ordering::Less => index += 1,
            Ordering::Equal => return Place::At(index),
            Ordering::Greater => return Place::Before(index),
        }
    }
    Place::Before(index)
}

/// Which of two clients comes first, by their numbers.
fn order(client: &Client, number: u32) -> Ordering
    ensures { result ≡ by_number number client.now }
{
    client.number.cmp(&number)
}

/// Notes of each client that it was told.
fn tell_each(clients: &mut [Client])
    ensures { clients.new ≡ map told_client clients.old }
{
    for client in clients.iter_mut() {
        client.told = true;
    }
}
