//! The calls of a member, each by itself, with what a trial looks at of the answer.

use crate::seats::text;
use base_bytes::Text;
use base_vectors::Id;
use data_lattice::SpelledData;
use member_keeper::MemoryKeeper;
use member_messages::{Message, Posts};
use member_node::{
    Closed, Declared, Gossiped, Got, Installed, KeyDecl, Level, Look, Node, Outcome, Pruned,
    Received, Updated,
};
use member_views::View;
use model_kinds::{Kind, Op, Shown};
use std::test::Fail;

/// What an operation on a key comes to, and what is sent.
pub(crate) fn update<T: SpelledData<Kind = Kind, Op = Op>>(
    node: &mut Node<T, MemoryKeeper>,
    key: Text,
    op: Op,
    level: Level,
) -> Result<(Updated, Posts<T>), Fail> {
    let told = node.update(key, op, level)?;
    Ok((told.answer, told.posts))
}

/// What an increment of a key by one comes to, at the member alone.
pub(crate) fn increment<T: SpelledData<Kind = Kind, Op = Op>>(
    node: &mut Node<T, MemoryKeeper>,
    key: &str,
) -> Result<Updated, Fail> {
    let (updated, _) = update(node, text(key)?, Op::Increment(1), Level::Local)?;
    Ok(updated)
}

/// What a read of a key is answered.
pub(crate) fn get<T: SpelledData<Kind = Kind, Op = Op>>(
    node: &mut Node<T, MemoryKeeper>,
    key: Text,
    level: Level,
) -> Result<Got, Fail> {
    Ok(node.get(key, level)?.answer)
}

/// The count that a member shows at a key, if there is one.
pub(crate) fn count<T: SpelledData<Kind = Kind, Op = Op>>(
    node: &mut Node<T, MemoryKeeper>,
    key: Text,
) -> Result<Option<u128>, Fail> {
    match get(node, key, Level::Local)? {
        Got::Value(Shown::Count(count)) => Ok(Some(count)),
        Got::UnknownKey | Got::Nothing => Ok(None),
        _ => Err("no count".into()),
    }
}

/// What becomes of a message, and what is sent for it.
pub(crate) fn receive<T: SpelledData<Kind = Kind, Op = Op>>(
    node: &mut Node<T, MemoryKeeper>,
    from: Id,
    message: &Message<T>,
) -> Result<(Received, Posts<T>), Fail> {
    let told = node.receive(from, message)?;
    Ok((told.answer, told.posts))
}

/// What a flush sends.
pub(crate) fn flush<T: SpelledData<Kind = Kind, Op = Op>>(
    node: &mut Node<T, MemoryKeeper>,
) -> Result<Posts<T>, Fail> {
    Ok(node.flush()?)
}

/// What a round of gossip comes to, and what is sent.
pub(crate) fn gossip<T: SpelledData<Kind = Kind, Op = Op>>(
    node: &mut Node<T, MemoryKeeper>,
    to: Id,
) -> Result<(Gossiped, Posts<T>), Fail> {
    let told = node.gossip(to)?;
    Ok((told.answer, told.posts))
}

pub(crate) fn install<T: SpelledData<Kind = Kind, Op = Op>>(
    node: &mut Node<T, MemoryKeeper>,
    view: View,
) -> Result<Installed, Fail> {
    Ok(node.install(view)?.answer)
}

pub(crate) fn prune<T: SpelledData<Kind = Kind, Op = Op>>(
    node: &mut Node<T, MemoryKeeper>,
) -> Result<Pruned, Fail> {
    Ok(node.prune()?.answer)
}

/// What a tick made of the one identity that left, at the one key.
pub(crate) fn outcome(pruned: &Pruned) -> Result<Outcome, Fail> {
    let Pruned::Ticked(outcomes) = pruned else {
        return Err("no tick".into());
    };
    match outcomes.as_slice() {
        [only] => Ok(only.outcome),
        _ => Err("not one outcome".into()),
    }
}

pub(crate) fn timeout<T: SpelledData<Kind = Kind, Op = Op>>(
    node: &mut Node<T, MemoryKeeper>,
    op: u64,
) -> Result<Closed, Fail> {
    Ok(node.timeout(op)?.answer)
}

/// What becomes of the declaration of a key.
pub(crate) fn declare<T: SpelledData<Kind = Kind, Op = Op>>(
    node: &mut Node<T, MemoryKeeper>,
    decl: &KeyDecl<T>,
) -> Result<Declared, Fail> {
    Ok(node.declare(decl)?)
}

/// Whether an operation is still open.
pub(crate) fn is_open<T: SpelledData<Kind = Kind, Op = Op>>(
    node: &Node<T, MemoryKeeper>,
    op: u64,
) -> Result<bool, Fail> {
    Ok(matches!(node.look(op)?, Look::Open))
}
