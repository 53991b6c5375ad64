use base_bytes::Text;
use base_vectors::{Id, Order, VersionVector};
use data_envelope::Group;
use data_lattice::SpelledData;
use data_meaning::Action;
use member_keeper::MemoryKeeper;
use member_messages::{Message, Post, Posts};
use member_node::{Input, KeyDecl, Node, Output, Reply};
use member_views::View;
use model_kinds::{Kind, Op};
use std::alloc::Global;
use std::test::Fail;
use trial_parts::Records;

/// The name of the key of all trials.
pub(crate) fn key() -> Result<Text, Fail> {
    Ok(Text::new("k")?)
}

/// A member of a view with one durable key, over a keeper that fails at the calls named.
pub(crate) fn member<T: SpelledData<Kind = Kind, Op = Op>>(
    alloc: Global,
    kind: Kind,
    id: Id,
    view: View,
    failing: Vec<u64>,
) -> Result<Node<T, MemoryKeeper>, Fail> {
    if !view.contains(id) {
        return Err("no member".into());
    }
    let keys: [KeyDecl<T>; 1] = [KeyDecl {
        key: key()?,
        kind,
        durable: true,
    }];
    match Node::new(alloc, id, view, &keys, MemoryKeeper::new(alloc, failing)) {
        Ok(node) => Ok(node),
        Err(_) => Err("memory".into()),
    }
}

/// A message on its way, and how many records of each identity its sender had taken.
#[derive(Drop)]
pub(crate) struct Sent<T: SpelledData<Kind = Kind, Op = Op>> {
    from: Id,
    pub(crate) to: Id,
    message: Message<T>,
    taken: VersionVector,
}

/// A running member, and beside it how many records of each identity it has taken.
#[derive(Drop)]
pub(crate) struct Running<T: SpelledData<Kind = Kind, Op = Op>> {
    node: Node<T, MemoryKeeper>,
    taken: VersionVector,
}

impl<T: SpelledData<Kind = Kind, Op = Op>> Running<T> {
    /// A member of a view, without a record.
    pub(crate) fn new(alloc: Global, kind: Kind, id: Id, view: View) -> Result<Running<T>, Fail> {
        Ok(Running {
            node: member(alloc, kind, id, view, Vec::new(alloc))?,
            taken: VersionVector::new(alloc),
        })
    }

    /// The identity.
    pub(crate) fn id(&self) -> Id {
        self.node.id()
    }

    /// Makes a step: what it answers, and what it sends.
    pub(crate) fn step(&mut self, input: &Input<T>) -> Result<(Reply, Posts<T>), Fail> {
        let Output { reply, posts, .. } = self.node.step(input)?;
        Ok((reply, posts))
    }

    /// Takes a message: what it sends. What the message brought is counted, if it was taken.
    pub(crate) fn take(&mut self, sent: &Sent<T>) -> Result<Posts<T>, Fail> {
        let Output { reply, posts, .. } = self.node.take(sent.from, &sent.message)?;
        if matches!(reply, Reply::Taken) {
            self.count(&sent.message, &sent.taken)?;
        }
        Ok(posts)
    }

    /// A message that it sends, on its way.
    pub(crate) fn sent(&self, alloc: Global, post: Post<T>) -> Result<Sent<T>, Fail> {
        let taken = self.taken.copy(alloc)?;
        let Post { to, message } = post;
        Ok(Sent {
            from: self.node.id(),
            to,
            message,
            taken,
        })
    }

    /// Adds a record that it made to those of all.
    pub(crate) fn note(&mut self, records: &mut Records, action: Action) -> Result<(), Fail> {
        records.add(self.node.id(), &mut self.taken, action)
    }

    /// Counts what a message brought, which it took. Entries bring what their sender had taken.
    fn count(&mut self, message: &Message<T>, sender: &VersionVector) -> Result<(), Fail> {
        for keyed in message.groups() {
            self.count_group(&keyed.item)?;
        }
        if !message.entries().is_empty() {
            self.taken.join(sender)?;
        }
        Ok(())
    }

    fn count_group(&mut self, group: &Group<T>) -> Result<(), Fail> {
        self.taken.raise(group.origin, group.upto)?;
        Ok(())
    }

    /// Whether it knows the records that it has taken.
    fn knows_what_it_took(&self, alloc: Global, key: &Text) -> Result<bool, Fail> {
        let known = self.node.entry(key).ok_or("key")?.known(alloc)?;
        Ok(matches!(known.compare(&self.taken), Order::Same))
    }

    /// Whether it shows what the records that it has taken mean.
    fn shows_what_it_took(
        &self,
        alloc: Global,
        key: &Text,
        records: &Records,
    ) -> Result<bool, Fail> {
        let shown = self.node.entry(key).ok_or("key")?.show(alloc)?;
        Ok(records.mean(&self.taken, &shown)?)
    }

    /// Whether it knows the records that it has taken, and shows what they mean.
    pub(crate) fn shows_what_is_meant(
        &self,
        alloc: Global,
        records: &Records,
    ) -> Result<bool, Fail> {
        let key = key()?;
        Ok(self.knows_what_it_took(alloc, &key)? && self.shows_what_it_took(alloc, &key, records)?)
    }
}
