//! Gossip, timeout, and what an update and a read are refused for.

use crate::acts::{get, gossip, increment, timeout, update};
use crate::seats::{KEY, identity, last, of_two, seated, text};
use base_vectors::Id;
use data_lattice::SpelledData;
use data_value::Data;
use member_keeper::MemoryKeeper;
use member_messages::{Message, Post, Posts};
use member_node::{Closed, Gossiped, Got, Level, Node, UpdateRefusal, Updated};
use model_kinds::{Kind, Op};
use std::alloc::Global;
use std::test::Fail;

/// The first of two members.
fn first<T: SpelledData<Kind = Kind, Op = Op>>(
    alloc: Global,
) -> Result<Node<T, MemoryKeeper>, Fail> {
    seated(alloc, 0, &last(alloc, &of_two(alloc)?)?)
}

/// Whether these are one status to a member, with one digest.
fn is_status<T: SpelledData>(posts: &Posts<T>, receiver: Id) -> bool {
    match posts.as_slice() {
        [
            Post {
                to,
                message: Message::Status { digests },
            },
        ] => { *to == receiver && digests.len() == 1 }
        _ => false,
    }
}

#[test]
fn a_gossip_tells_a_peer_the_digests(rt: HostRuntime) -> Result<(), Fail> {
    let mut node: Node<Data, MemoryKeeper> = first(rt.alloc())?;
    assert_eq!(rt; increment(&mut node, KEY)?, Updated::Done);
    let (told, posts) = gossip(&mut node, identity(1)?)?;
    assert_eq!(rt; told, Gossiped::Told);
    assert!(rt; is_status(&posts, identity(1)?));
    Ok(())
}

#[test]
fn a_member_does_not_gossip_with_itself(rt: HostRuntime) -> Result<(), Fail> {
    let mut node: Node<Data, MemoryKeeper> = first(rt.alloc())?;
    let (told, posts) = gossip(&mut node, identity(0)?)?;
    assert_eq!(rt; told, Gossiped::NotAPeer);
    assert!(rt; posts.is_empty());
    Ok(())
}

#[test]
fn an_open_operation_is_closed_once(rt: HostRuntime) -> Result<(), Fail> {
    let mut node: Node<Data, MemoryKeeper> = first(rt.alloc())?;
    let (told, _) = update(&mut node, text(KEY)?, Op::Increment(5), Level::All)?;
    assert_eq!(rt; told, Updated::Pending(0));
    assert_eq!(rt; timeout(&mut node, 0)?, Closed::Closed);
    assert_eq!(rt; timeout(&mut node, 0)?, Closed::NoSuchOp);
    assert_eq!(rt; timeout(&mut node, 1)?, Closed::NoSuchOp);
    Ok(())
}

/// What an update is refused for.
fn refusal<T: SpelledData<Kind = Kind, Op = Op>>(
    node: &mut Node<T, MemoryKeeper>,
    key: &str,
    op: Op,
    level: Level,
) -> Result<UpdateRefusal, Fail> {
    match update(node, text(key)?, op, level)? {
        (Updated::Refused(why), _) => Ok(why),
        _ => Err("not refused".into()),
    }
}

#[test]
fn an_update_in_vain_is_refused(rt: HostRuntime) -> Result<(), Fail> {
    let mut node: Node<Data, MemoryKeeper> = first(rt.alloc())?;
    let unknown = refusal(&mut node, "other", Op::Increment(5), Level::Local)?;
    assert_eq!(rt; unknown, UpdateRefusal::UnknownKey);
    let kind = refusal(&mut node, KEY, Op::Enable, Level::Local)?;
    assert_eq!(rt; kind, UpdateRefusal::WrongKind);
    let few = refusal(&mut node, KEY, Op::Increment(5), Level::To(3))?;
    assert_eq!(rt; few, UpdateRefusal::TooFew);
    let told = format!(in rt.alloc(); "{few}")?;
    assert_eq!(rt; told.as_str(), "the view has too few members");
    Ok(())
}

#[test]
fn a_read_in_vain_is_refused(rt: HostRuntime) -> Result<(), Fail> {
    let mut node: Node<Data, MemoryKeeper> = first(rt.alloc())?;
    let unknown = get(&mut node, text("other")?, Level::Local)?;
    assert!(rt; matches!(unknown, Got::UnknownKey));
    let few = get(&mut node, text(KEY)?, Level::To(3))?;
    assert!(rt; matches!(few, Got::TooFew));
    let nothing = get(&mut node, text(KEY)?, Level::Local)?;
    assert!(rt; matches!(nothing, Got::Nothing));
    Ok(())
}
