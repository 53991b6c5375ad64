//! Views that are installed, and who may prune.

use crate::acts::{flush, increment, install, outcome, prune};
use crate::handing::hand;
use crate::seats::{KEY, last, of_two, seated};
use base_vectors::Id;
use data_lattice::SpelledData;
use data_value::Data;
use member_keeper::MemoryKeeper;
use member_node::{Installed, Node, Outcome, Pruned, Received};
use model_kinds::{Kind, Op};
use std::alloc::Global;
use std::test::Fail;

/// Whether the view of a member has this number, and this member in it.
fn is_in<T: SpelledData>(node: &Node<T, MemoryKeeper>, number: u32, member: Id) -> bool {
    node.view().number() == number && node.view().contains(member)
}

#[test]
fn a_view_is_installed_unless_it_is_old(rt: HostRuntime) -> Result<(), Fail> {
    let mut views = of_two(rt.alloc())?;
    let first = last(rt.alloc(), &views)?;
    let mut node: Node<Data, MemoryKeeper> = seated(rt.alloc(), 0, &first)?;
    let (joined, number) = views.join(5)?;
    let next = last(rt.alloc(), &views)?;
    assert_eq!(rt; install(&mut node, next)?, Installed::Installed);
    assert!(rt; is_in(&node, number, joined));
    assert_eq!(rt; install(&mut node, first)?, Installed::OldView);
    assert!(rt; is_in(&node, number, joined));
    Ok(())
}

/// Hands a member what another has done.
fn tells<T: SpelledData<Kind = Kind, Op = Op>>(
    alloc: Global,
    from: &mut Node<T, MemoryKeeper>,
    to: &mut Node<T, MemoryKeeper>,
) -> Result<(), Fail> {
    increment(from, KEY)?;
    let posts = flush(from)?;
    match hand(alloc, from.id(), to, posts)? {
        (Some(Received::Taken), _) => Ok(()),
        _ => Err("not taken".into()),
    }
}

/// The first of two members, which has a record of the other, which left.
fn left_alone<T: SpelledData<Kind = Kind, Op = Op>>(
    alloc: Global,
) -> Result<Node<T, MemoryKeeper>, Fail> {
    let mut views = of_two(alloc)?;
    let first = last(alloc, &views)?;
    let mut leader: Node<T, MemoryKeeper> = seated(alloc, 0, &first)?;
    let mut other: Node<T, MemoryKeeper> = seated(alloc, 1, &first)?;
    tells(alloc, &mut other, &mut leader)?;
    views.remove(other.id())?;
    install(&mut leader, last(alloc, &views)?)?;
    Ok(leader)
}

#[test]
fn a_leader_marks_and_then_prunes(rt: HostRuntime) -> Result<(), Fail> {
    let mut leader: Node<Data, MemoryKeeper> = left_alone(rt.alloc())?;
    assert_eq!(rt; outcome(&prune(&mut leader)?)?, Outcome::Marked);
    assert_eq!(rt; outcome(&prune(&mut leader)?)?, Outcome::Performed);
    Ok(())
}

#[test]
fn no_other_member_prunes(rt: HostRuntime) -> Result<(), Fail> {
    let view = last(rt.alloc(), &of_two(rt.alloc())?)?;
    let mut other: Node<Data, MemoryKeeper> = seated(rt.alloc(), 1, &view)?;
    let pruned = prune(&mut other)?;
    assert!(rt; matches!(pruned, Pruned::NotLeader(leader) if leader.number() == 0));
    Ok(())
}
