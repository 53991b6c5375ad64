//! Members to try, over keepers in memory.

use base_bytes::Text;
use base_vectors::Id;
use data_lattice::SpelledData;
use member_keeper::MemoryKeeper;
use member_node::{KeyDecl, Node};
use member_views::{View, ViewList};
use model_kinds::{Kind, Op};
use std::alloc::Global;
use std::test::Fail;

/// The name of the key that each member has from the beginning.
pub(crate) const KEY: &str = "k";

pub(crate) fn text(name: &str) -> Result<Text, Fail> {
    Ok(Text::new(name)?)
}

pub(crate) fn identity(number: u8) -> Result<Id, Fail> {
    Ok(Id::new(number).ok_or("identity")?)
}

/// The views of a cluster that began with two members.
pub(crate) fn of_two(alloc: Global) -> Result<ViewList, Fail> {
    Ok(ViewList::new(alloc, 2)?)
}

/// The first view of a cluster of one member.
pub(crate) fn of_one(alloc: Global) -> Result<View, Fail> {
    Ok(ViewList::new(alloc, 1)?.last().copy(alloc)?)
}

/// The last of the views.
pub(crate) fn last(alloc: Global, views: &ViewList) -> Result<View, Fail> {
    Ok(views.last().copy(alloc)?)
}

/// A key of a member.
pub(crate) fn decl<T: SpelledData<Kind = Kind, Op = Op>>(
    key: Text,
    kind: Kind,
    durable: bool,
) -> KeyDecl<T> {
    KeyDecl { key, kind, durable }
}

/// A member of a view that has one key, a durable counter.
fn opened<T: SpelledData<Kind = Kind, Op = Op>>(
    alloc: Global,
    id: Id,
    view: View,
) -> Result<Node<T, MemoryKeeper>, Fail> {
    if !view.contains(id) {
        return Err("no member".into());
    }
    let keys: [KeyDecl<T>; 1] = [KeyDecl {
        key: text(KEY)?,
        kind: Kind::GCounter,
        durable: true,
    }];
    let keeper = MemoryKeeper::new(alloc, Vec::new(alloc));
    match Node::new(alloc, id, view, &keys, keeper) {
        Ok(node) => Ok(node),
        Err(_) => Err("memory".into()),
    }
}

/// The member of this number in a view.
pub(crate) fn seated<T: SpelledData<Kind = Kind, Op = Op>>(
    alloc: Global,
    number: u8,
    view: &View,
) -> Result<Node<T, MemoryKeeper>, Fail> {
    opened(alloc, identity(number)?, view.copy(alloc)?)
}
