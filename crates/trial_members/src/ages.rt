//! How long a member lives: its limit of steps, and the operations that it forgets.

use crate::running::{key, member};
use base_vectors::Id;
use data_lattice::SpelledData;
use data_value::Data;
use member_keeper::MemoryKeeper;
use member_messages::Message;
use member_node::{HIGHEST_LIMIT, Input, Level, Look, Node, Reply, StepError};
use member_views::ViewList;
use model_kinds::{Kind, Op};
use std::alloc::Global;
use std::test::Fail;

/// The first of so many members, with a counter.
fn first_of<T: SpelledData<Kind = Kind, Op = Op>>(
    alloc: Global,
    members: u8,
) -> Result<Node<T, MemoryKeeper>, Fail> {
    if members < 1 || members > 8 {
        return Err("members".into());
    }
    let id = Id::new(0).ok_or("identity")?;
    let views = ViewList::new(alloc, members)?;
    let view = views.last().copy(alloc)?;
    member(alloc, Kind::GCounter, id, view, Vec::new(alloc))
}

/// Whether an increment is made, and else whether the member has made all its steps.
fn increments<T: SpelledData<Kind = Kind, Op = Op>>(
    node: &mut Node<T, MemoryKeeper>,
) -> Result<bool, Fail> {
    let (key, op, level) = (key()?, Op::Increment(1), Level::Local);
    match node.step(&Input::Update { key, op, level }) {
        Ok(_) => Ok(true),
        Err(StepError::HistoryFull) => Ok(false),
        Err(StepError::Memory) => Err("memory".into()),
    }
}

#[test]
fn a_member_makes_the_steps_of_its_limit(rt: HostRuntime) -> Result<(), Fail> {
    let node: Node<Data, MemoryKeeper> = first_of(rt.alloc(), 1)?;
    assert_eq!(rt; node.limit(), 16_384);
    let mut node = node.with_limit(2);
    assert!(rt; increments(&mut node)? && increments(&mut node)?);
    assert!(rt; !increments(&mut node)?);
    assert_eq!(rt; node.steps(), 2);
    let mut node = node.with_limit(3);
    assert!(rt; increments(&mut node)? && !increments(&mut node)?);
    let node = node.with_limit(1);
    assert_eq!(rt; node.limit(), 3);
    assert_eq!(rt; node.with_limit(usize::MAX).limit(), HIGHEST_LIMIT);
    Ok(())
}

/// The number of an increment that waits for a second member.
fn opened<T: SpelledData<Kind = Kind, Op = Op>>(
    node: &mut Node<T, MemoryKeeper>,
) -> Result<u64, Fail> {
    let (key, op, level) = (key()?, Op::Increment(1), Level::To(2));
    match node.step(&Input::Update { key, op, level })?.reply {
        Reply::Pending(op) => Ok(op),
        _ => Err("no operation".into()),
    }
}

/// Ends an operation by the answer of the other member.
fn end<T: SpelledData<Kind = Kind, Op = Op>>(
    node: &mut Node<T, MemoryKeeper>,
    op: u64,
) -> Result<bool, Fail> {
    let from = Id::new(1).ok_or("identity")?;
    Ok(
        node.take(from, &Message::WriteAck { op })?
            .finished
            .is_some(),
    )
}

/// Whether nothing is known of an operation.
fn is_unknown<T: SpelledData<Kind = Kind, Op = Op>>(
    node: &Node<T, MemoryKeeper>,
    op: u64,
) -> Result<bool, Fail> {
    Ok(matches!(node.look(op)?, Look::NoSuchOp))
}

#[test]
fn ended_operations_are_forgotten_up_to_an_open_one(rt: HostRuntime) -> Result<(), Fail> {
    let mut node: Node<Data, MemoryKeeper> = first_of(rt.alloc(), 2)?;
    for op in 0..40 {
        assert_eq!(rt; opened(&mut node)?, op);
    }
    assert!(rt; end(&mut node, 0)? && end(&mut node, 1)? && end(&mut node, 3)?);
    node.forget(1);
    assert!(rt; is_unknown(&node, 0)? && !is_unknown(&node, 1)?);
    node.forget(40);
    assert!(rt; is_unknown(&node, 1)? && matches!(node.look(2)?, Look::Open));
    assert!(rt; matches!(node.look(3)?, Look::Finished(_)));
    assert_eq!(rt; opened(&mut node)?, 40);
    assert!(rt; end(&mut node, 2)? && end(&mut node, 40)?);
    Ok(())
}
