use crate::copying::{copy_digests, copy_entries, copy_groups, copy_if_some, copy_texts};
use crate::sketch::{MessageKind, Sketch};
use base_bytes::{Items, Memory, Text};
use base_vectors::Id;
use data_envelope::{Envelope, Group};
use data_lattice::Replica;
use std::alloc::Global;

/// Something said of a key.
#[derive(Drop)]
pub struct Keyed<X> {
    pub key: Text,
    pub item: X,
}

/// Groups of records, in key order.
pub type Groups<T> = Items<Keyed<Group<T>>>;

/// Entries, in key order.
pub type Entries<T> = Items<Keyed<Envelope<T>>>;

/// Keys, in their order.
pub type Texts = Items<Text>;

/// The SHA-1 of an entry's spelling.
pub type Digest = [u8; 20];

/// Digests of entries, in key order.
pub type Digests = Items<Keyed<Digest>>;

/// What members send each other.
#[derive(Drop)]
pub enum Message<T: Replica> {
    /// Own records of the sender that the receiver was not sent: as groups, and as whole entries where a group is not to be had.
    Deltas {
        groups: Groups<T>,
        entries: Entries<T>,
    },
    /// Keys at which the sender lacked records that a group needs.
    Nack {
        keys: Texts,
    },
    /// The digests of the sender's entries that have records.
    Status {
        digests: Digests,
    },
    /// Whole entries, and keys whose entries the sender wants.
    Gossip {
        entries: Entries<T>,
        wants: Texts,
    },
    /// The sender's entry of a key, to be answered under the number of the sender's operation.
    Write {
        op: u64,
        key: Text,
        envelope: Envelope<T>,
    },
    /// The sender has the entry that the receiver wrote.
    WriteAck {
        op: u64,
    },
    /// The sender has the entry that the receiver wrote, but did not store it.
    WriteNack {
        op: u64,
    },
    /// Asks for the receiver's entry of a key, under the number of the sender's operation.
    Read {
        op: u64,
        key: Text,
    },
    /// The sender's entry of the key that the receiver asked for, if it has a record.
    ReadAnswer {
        op: u64,
        key: Text,
        envelope: Option<Envelope<T>>,
    },
}

/// A message on its way to a member.
#[derive(Drop)]
pub struct Post<T: Replica> {
    pub to: Id,
    pub message: Message<T>,
}

/// Messages on their way to members, in the order in which they were sent.
pub type Posts<T> = Items<Post<T>>;

impl<T: Replica> Message<T> {
    ghost use Rattle.std.specs.Prelude.{◌≡◌, IfOk};
    ghost use Rattle.member_messages.specs.Sketches.{sketch_of, groups_of, entries_of, names_of, digests_of};

    /// What is printed of the message.
    pub fn sketch(&self) -> Sketch
        ensures { result ≡ sketch_of self.now }
    {
        match self {
            Message::Deltas { groups, entries } => Sketch {
                kind: MessageKind::Deltas,
                first: groups.len(),
                second: entries.len(),
            },
            Message::Nack { keys } => Sketch {
                kind: MessageKind::Nack,
                first: keys.len(),
                second: 0,
            },
            Message::Status { digests } => Sketch {
                kind: MessageKind::Status,
                first: digests.len(),
                second: 0,
            },
            Message::Gossip { entries, wants } => Sketch {
                kind: MessageKind::Gossip,
                first: entries.len(),
                second: wants.len(),
            },
            Message::Write { .. } => Sketch::bare(MessageKind::Write),
            Message::WriteAck { .. } => Sketch::bare(MessageKind::WriteAck),
            Message::WriteNack { .. } => Sketch::bare(MessageKind::WriteNack),
            Message::Read { .. } => Sketch::bare(MessageKind::Read),
            Message::ReadAnswer { .. } => Sketch::bare(MessageKind::ReadAnswer),
        }
    }

    /// The groups that the message brings.
    pub fn groups(&self) -> &[Keyed<Group<T>>]
        ensures { result.now ≡ groups_of self.now }
    {
        match self {
            Message::Deltas { groups, .. } => groups.as_slice(),
            _ => &[],
        }
    }

    /// The entries that the message lists, each under its key.
    pub fn entries(&self) -> &[Keyed<Envelope<T>>]
        ensures { result.now ≡ entries_of self.now }
    {
        match self {
            Message::Deltas { entries, .. } => entries.as_slice(),
            Message::Gossip { entries, .. } => entries.as_slice(),
            _ => &[],
        }
    }

    /// The keys whose entries the message asks for.
    pub fn names(&self) -> &[Text]
        ensures { result.now ≡ names_of self.now }
    {
        match self {
            Message::Nack { keys } => keys.as_slice(),
            Message::Gossip { wants, .. } => wants.as_slice(),
            _ => &[],
        }
    }

    /// The digests that the message brings.
    pub fn digests(&self) -> &[Keyed<Digest>]
        ensures { result.now ≡ digests_of self.now }
    {
        match self {
            Message::Status { digests } => digests.as_slice(),
            _ => &[],
        }
    }

    /// An equal message.
    pub fn copy(&self, alloc: Global) -> Result<Message<T>, Memory>
        ensures { IfOk result (λ copy. copy ≡ self.now) }
    {
        match self {
            Message::Deltas { groups, entries } => {
                let groups = copy_groups(alloc, groups)?;
                let entries = copy_entries(alloc, entries)?;
                Ok(Message::Deltas { groups, entries })
            }
            Message::Nack { keys } => {
                let keys = copy_texts(alloc, keys)?;
                Ok(Message::Nack { keys })
            }
            Message::Status { digests } => {
                let digests = copy_digests(alloc, digests)?;
                Ok(Message::Status { digests })
            }
            Message::Gossip { entries, wants } => {
                let entries = copy_entries(alloc, entries)?;
                let wants = copy_texts(alloc, wants)?;
                Ok(Message::Gossip { entries, wants })
            }
            Message::Write { op, key, envelope } => {
                let key = key.copied();
                let envelope = envelope.copy(alloc)?;
                Ok(Message::Write {
                    op: *op,
                    key,
                    envelope,
                })
            }
            Message::WriteAck { op } => Ok(Message::WriteAck { op: *op }),
            Message::WriteNack { op } => Ok(Message::WriteNack { op: *op }),
            Message::Read { op, key } => {
                let key = key.copied();
                Ok(Message::Read { op: *op, key })
            }
            Message::ReadAnswer { op, key, envelope } => {
                let key = key.copied();
                let envelope = copy_if_some(alloc, envelope)?;
                Ok(Message::ReadAnswer {
                    op: *op,
                    key,
                    envelope,
                })
            }
        }
    }
}
