use crate::ended::Ended;
use crate::words::Words;
use base_vectors::Id;
use data_value::Data;
use member_embedding::are_distinct;
use member_keeper::Keeper;
use member_node::{FromKeeperError, HIGHEST_LIMIT, KeyDecl, Node};
use member_views::{PLACES, View, ViewList};
use std::alloc::Global;

/// View 0, with so many members.
fn first_view(alloc: Global, members: u8) -> Result<View, Ended> {
    if members < 1 || members > PLACES {
        return Err(Ended::Usage);
    }
    let views = ViewList::new(alloc, members)?;
    Ok(views.last().copy(alloc)?)
}

/// The view that the words name: the spelled one, or view 0.
pub(crate) fn view_of(alloc: Global, words: &Words) -> Result<View, Ended> {
    match &words.view {
        Some(view) => {
            if words.members.is_some() {
                return Err(Ended::Usage);
            }
            Ok(view.copy(alloc)?)
        }
        None => match words.members {
            Some(members) => first_view(alloc, members),
            None => Err(Ended::Usage),
        },
    }
}

/// A member of a view with these keys, and with what a keeper has of the durable ones. It makes as many steps as one can.
pub(crate) fn opened<K: Keeper + Drop>(
    alloc: Global,
    keeper: K,
    id: Id,
    view: View,
    keys: &[KeyDecl<Data>],
) -> Result<Node<Data, K>, Ended> {
    if !view.contains(id) || !are_distinct(keys) {
        return Err(Ended::NoMember);
    }
    match Node::from_keeper(alloc, keeper, id, view, keys) {
        Ok(member) => Ok(member.with_limit(HIGHEST_LIMIT)),
        Err(FromKeeperError::Damaged(keeper, key)) => {
            drop(keeper);
            Err(Ended::Damaged(key))
        }
        Err(FromKeeperError::LoadFailed(keeper)) => {
            drop(keeper);
            Err(Ended::LoadFailed)
        }
        Err(FromKeeperError::Memory(keeper)) => {
            drop(keeper);
            Err(Ended::Memory)
        }
    }
}
