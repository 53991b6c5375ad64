ghost use Rattle.std.specs.Prelude.{◌≡◌, ℕ, ◌<◌, ◌≤◌, ◌^◌, ◌&&◌, ◌==◌, nat_lt, if◌then◌else◌, [], ◌∷◌, length, map, replicate, slice_get, Some, None, IfOk, OnOk, OnErr, option_copied, option_map, vec_capacity};
ghost use Rattle.model_history.specs.Table.{identity_limit};
ghost use Rattle.world_places.specs.Channels.{channel_at, channel_of, row_of, channels_in, no_messages, next_on, count_on, message_on, passed, extended, due_from, ChangesIn, ChangesOne};

use crate::sent::{SentTo, Sketches};
use base_bytes::{Items, Memory};
use base_vectors::{IDENTITIES, Id};
use std::alloc::Global;
use std::marker::Model;
use std::mem;

/// All messages ever sent from one identity to another, and the number of the next one due.
#[derive(Drop)]
pub(crate) struct Link<M> {
    pub(crate) messages: Vec<M>,
    pub(crate) next: usize,
}

/// The links from each identity to each. Those from one are made before its first step.
#[derive(Drop)]
pub struct Links<M> {
    alloc: Global,
    pub(crate) rows: Vec<Vec<Link<M>>>,
    /// Room for what is told of the next message that is taken. Contracts see the rows alone.
    spare: Vec<SentTo>,
}

impl<M> Model for Links<M> {
    ghost use Rattle.std.specs.Prelude.{◌≡◌, map, length};
    ghost use Rattle.model_history.specs.Table.{identity_limit};
    ghost use Rattle.world_places.specs.Channels.{Channels, channels_in};

    ghost Value = { Channels M };

    ghost view = { λ links. map channels_in links.rows.items };

    ghost invariant = { λ links. length links.rows.items ≡ identity_limit };
}

impl<M: Drop> Links<M> {
    /// Links without a message.
    pub(crate) fn new(alloc: Global) -> Result<Links<M>, Memory>
        ensures { IfOk result (λ links. (from to : ℕ) → channel_at links from to ≡ (if nat_lt from identity_limit && nat_lt to identity_limit then Some no_messages else None)) }
    {
        let mut rows = Items::new(alloc);
        for _number in 0..IDENTITIES {
            rows.push(Vec::new(alloc))?;
        }
        Ok(Links {
            alloc,
            rows: rows.into_vec(),
            spare: Vec::new(alloc),
        })
    }

    /// An empty list with room for what is told of one message: the one that was kept, if it has room.
    ///
    /// # Errors
    ///
    /// Memory was refused.
    pub(crate) fn room(&mut self) -> Result<Vec<SentTo>, Memory>
        ensures same { self.new ≡ self.old }
        ensures empty { IfOk result (λ room. room.items ≡ []) }
        ensures room { IfOk result (λ room. 1 ≤ vec_capacity room) }
    {
        let mut room = mem::replace(&mut self.spare, Vec::new(self.alloc));
        room.clear();
        room.reserve(1)?;
        Ok(room)
    }

    /// What was told, as it is. Where it is nothing, its room is kept for the next message.
    pub(crate) fn keep_room(&mut self, told: Sketches) -> Sketches
        ensures same { self.new ≡ self.old }
        ensures told { result ≡ told }
    {
        if !told.is_empty() {
            return told;
        }
        self.spare = told.into_vec();
        Items::new(self.alloc)
    }

    /// The link from one identity to another, if it is made.
    fn link(&self, from: Id, to: Id) -> Option<&Link<M>>
        ensures next { next_on (option_map channel_of (option_copied result)) ≡ next_on (channel_at self.now from to) }
        ensures count { count_on (option_map channel_of (option_copied result)) ≡ count_on (channel_at self.now from to) }
    {
        match self.rows.get(usize::from(from.number())) {
            Some(row) => row.get(usize::from(to.number())),
            None => None,
        }
    }

    /// The message of this number on a link, if it was sent.
    pub fn message(&self, from: Id, to: Id, index: usize) -> Option<&M>
        ensures { option_copied result ≡ message_on (channel_at self.now from to) index }
    {
        message_in(
            &self.rows,
            usize::from(from.number()),
            usize::from(to.number()),
            index,
        )
    }

    /// The number of the next message due on a link.
    pub fn next(&self, from: Id, to: Id) -> usize
        ensures { result ≡ next_on (channel_at self.now from to) }
    {
        match self.link(from, to) {
            Some(link) => link.next,
            None => 0,
        }
    }

    /// How many messages were sent on a link.
    pub fn sent(&self, from: Id, to: Id) -> usize
        ensures count { result ≡ count_on (channel_at self.now from to) }
        ensures few { result < 2 ^ 63 }
    {
        match self.link(from, to) {
            Some(link) => link.messages.len(),
            None => 0,
        }
    }

    /// Adds a message at the end of a link.
    ///
    /// # Errors
    ///
    /// Memory was refused, and the links are as they were.
    pub fn append(&mut self, from: Id, to: Id, message: M) -> Result<(), Memory>
        ensures ok { OnOk result (ChangesOne (extended (message ∷ [])) from to self.old self.new) }
        ensures err { OnErr result (self.new ≡ self.old) }
    {
        let sender = usize::from(from.number());
        if sender < self.rows.len() {
            append_in(
                self.alloc,
                &mut self.rows[sender],
                usize::from(to.number()),
                message,
            )?;
        }
        Ok(())
    }

    /// The message of this number is due next on a link.
    ///
    /// # Errors
    ///
    /// Memory was refused, and the links are as they were.
    pub fn set_next(&mut self, from: Id, to: Id, next: usize) -> Result<(), Memory>
        ensures ok { OnOk result (ChangesOne (due_from next) from to self.old self.new) }
        ensures err { OnErr result (self.new ≡ self.old) }
    {
        let sender = usize::from(from.number());
        if sender < self.rows.len() {
            set_next_in(
                self.alloc,
                &mut self.rows[sender],
                usize::from(to.number()),
                next,
            )?;
        }
        Ok(())
    }

    /// The message of this number was taken or lost: where it was the next one due, the one after it is due now.
    pub fn pass(&mut self, from: Id, to: Id, index: usize)
        ensures { index < count_on (channel_at self.old from to) → ChangesOne (passed index) from to self.old self.new }
    {
        if index < self.sent(from, to) {
            self.pass_sent(from, to, index);
        }
    }

    /// A message that was sent was taken or lost.
    fn pass_sent(&mut self, from: Id, to: Id, index: usize)
        requires { index < count_on (channel_at self.old from to) }
        ensures { ChangesOne (passed index) from to self.old self.new }
    {
        let sender = usize::from(from.number());
        if sender < self.rows.len() {
            pass_in(&mut self.rows[sender], usize::from(to.number()), index);
        }
    }
}

/// The message of a number on the link from one identity to another, if it was sent.
pub(crate) fn message_in<M>(
    rows: &[Vec<Link<M>>],
    from: usize,
    to: usize,
    index: usize,
) -> Option<&M>
    ensures { option_copied result ≡ message_on (channel_at (map channels_in rows.now) from to) index }
{
    match rows.get(from) {
        Some(row) => match row.get(to) {
            Some(link) => link.messages.get(index),
            None => None,
        },
        None => None,
    }
}

/// Links without a message, to each identity.
fn new_row<M: Drop>(alloc: Global) -> Result<Vec<Link<M>>, Memory>
    ensures { IfOk result (λ row. row_of row ≡ replicate identity_limit no_messages) }
{
    let mut row = Items::new(alloc);
    for _number in 0..IDENTITIES {
        row.push(Link {
            messages: Vec::new(alloc),
            next: 0,
        })?;
    }
    Ok(row.into_vec())
}

/// Makes the links from an identity, where they are not made yet.
pub(crate) fn make_row<M: Drop>(alloc: Global, row: &mut Vec<Link<M>>) -> Result<(), Memory>
    ensures ok { OnOk result (row_of row.new ≡ channels_in row.old) }
    ensures err { OnErr result (row_of row.new ≡ row_of row.old) }
{
    if row.is_empty() {
        *row = new_row(alloc)?;
    }
    Ok(())
}

/// The message of this number on the link to an identity was taken or lost.
fn pass_in<M: Drop>(row: &mut Vec<Link<M>>, to: usize, index: usize)
    requires { (link : Link M) → slice_get row.old.items to ≡ Some link → index < length link.messages.items }
    ensures { ChangesIn (passed index) to (row_of row.old) (row_of row.new) }
{
    if to < row.len() {
        let link = &mut row[to];
        if link.next == index {
            link.next = index + 1;
        }
    }
}

/// Adds a message at the end of the link to an identity.
fn append_in<M: Drop>(
    alloc: Global,
    row: &mut Vec<Link<M>>,
    to: usize,
    message: M,
) -> Result<(), Memory>
    ensures ok { OnOk result (ChangesIn (extended (message ∷ [])) to (channels_in row.old) (channels_in row.new)) }
    ensures err { OnErr result (channels_in row.new ≡ channels_in row.old) }
{
    make_row(alloc, row)?;
    if to < row.len() {
        let link = &mut row[to];
        link.messages.push(message)?;
    }
    Ok(())
}

/// The message of this number is due next on the link to an identity.
fn set_next_in<M: Drop>(
    alloc: Global,
    row: &mut Vec<Link<M>>,
    to: usize,
    next: usize,
) -> Result<(), Memory>
    ensures ok { OnOk result (ChangesIn (due_from next) to (channels_in row.old) (channels_in row.new)) }
    ensures err { OnErr result (channels_in row.new ≡ channels_in row.old) }
{
    make_row(alloc, row)?;
    if to < row.len() {
        let link = &mut row[to];
        link.next = next;
    }
    Ok(())
}
