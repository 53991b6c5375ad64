//! A member's step over a keeper, as a machine's and by itself.

use crate::running::{key, member};
use base_vectors::Id;
use data_lattice::SpelledData;
use data_value::Data;
use member_keeper::MemoryKeeper;
use member_node::{Fate, Input, Level, Node, Output, Reply};
use member_views::ViewList;
use model_kinds::{Kind, Op};
use std::alloc::Global;
use std::test::Fail;
use thread_machine::machine::Machine;

/// The only member of a first view, with a durable counter, over a keeper that fails at the calls named.
fn alone<T: SpelledData<Kind = Kind, Op = Op>>(
    alloc: Global,
    failing: Vec<u64>,
) -> Result<Node<T, MemoryKeeper>, Fail> {
    let id = Id::new(0).ok_or("identity")?;
    let views = ViewList::new(alloc, 1)?;
    let view = views.last().copy(alloc)?;
    member(alloc, Kind::GCounter, id, view, failing)
}

/// An operation on the key, at the member alone.
fn update<T: SpelledData<Kind = Kind, Op = Op>>(op: Op) -> Result<Input<T>, Fail> {
    let key = key()?;
    Ok(Input::Update {
        key,
        op,
        level: Level::Local,
    })
}

/// Whether the step is done.
fn is_done<T: SpelledData>(output: &Output<T>) -> bool {
    matches!(&output.reply, Reply::Done)
}

/// Whether two outputs, and a copy of the second, say that the step is done.
fn are_done<T: SpelledData>(
    alloc: Global,
    one: &Output<T>,
    other: &Output<T>,
) -> Result<bool, Fail> {
    Ok(is_done(one) && is_done(&other.copy(alloc)?))
}

/// A step of a machine: what became of the store, and whether both outputs say that it is done.
fn machine_step<T: SpelledData<Kind = Kind, Op = Op>>(
    alloc: Global,
    node: &mut Node<T, MemoryKeeper>,
    input: &Input<T>,
) -> Result<(Fate, bool), Fail> {
    let (fate, output, other) = Machine::step(node, input)?;
    Ok((fate, are_done(alloc, &output, &other)?))
}

/// An increment as the step of a machine.
fn machine_increment<T: SpelledData<Kind = Kind, Op = Op>>(
    alloc: Global,
    node: &mut Node<T, MemoryKeeper>,
) -> Result<(Fate, bool), Fail> {
    let input = update(Op::Increment(5))?;
    machine_step(alloc, node, &input)
}

/// Whether the member has the one key, which is durable and has records.
fn has_the_key<T: SpelledData<Kind = Kind, Op = Op>>(node: &Node<T, MemoryKeeper>) -> bool {
    let [state] = node.keys() else {
        return false;
    };
    state.durable() && state.entry().has_records() && state.name().as_str() == "k"
}

#[test]
fn a_step_is_one_of_the_machine(rt: HostRuntime) -> Result<(), Fail> {
    let alloc = rt.alloc();
    let mut node: Node<Data, MemoryKeeper> = alone(alloc, Vec::new(alloc))?;
    let (fate, done) = machine_increment(alloc, &mut node)?;
    assert_eq!(rt; fate, Fate::Stored);
    assert!(rt; done);
    assert!(rt; has_the_key(&node));
    assert_eq!(rt; node.into_keeper().entries().len(), 1);
    Ok(())
}

/// What a member answers to an operation.
fn reply_to<T: SpelledData<Kind = Kind, Op = Op>>(
    node: &mut Node<T, MemoryKeeper>,
    op: Op,
) -> Result<Reply, Fail> {
    let input = update(op)?;
    Ok(node.step(&input)?.reply)
}

/// Whether the store of an increment failed, and the entry changed all the same.
fn failed_store<T: SpelledData<Kind = Kind, Op = Op>>(
    node: &mut Node<T, MemoryKeeper>,
) -> Result<bool, Fail> {
    let reply = reply_to(node, Op::Increment(3))?;
    Ok(matches!(reply, Reply::StoreFailed) && has_the_key(node))
}

#[test]
fn a_failed_store_is_told_and_the_entry_changed(rt: HostRuntime) -> Result<(), Fail> {
    let alloc = rt.alloc();
    let mut node: Node<Data, MemoryKeeper> = alone(alloc, vec![in alloc; 0]?)?;
    assert!(rt; failed_store(&mut node)?);
    assert_eq!(rt; node.into_keeper().entries().len(), 0);
    Ok(())
}

/// What a member answers to a get.
fn reply_to_get<T: SpelledData<Kind = Kind, Op = Op>>(
    node: &mut Node<T, MemoryKeeper>,
) -> Result<Reply, Fail> {
    let key = key()?;
    let input = Input::Get {
        key,
        level: Level::Local,
    };
    Ok(node.step(&input)?.reply)
}

/// Whether a member tells that its key is deleted, to an update of any kind and to a get.
fn tells_deleted<T: SpelledData<Kind = Kind, Op = Op>>(
    node: &mut Node<T, MemoryKeeper>,
) -> Result<bool, Fail> {
    for op in [Op::Delete, Op::Increment(3), Op::Enable] {
        if !matches!(reply_to(node, op)?, Reply::Deleted) {
            return Ok(false);
        }
    }
    Ok(matches!(reply_to_get(node)?, Reply::Deleted))
}

#[test]
fn a_deleted_key_is_told(rt: HostRuntime) -> Result<(), Fail> {
    let mut node: Node<Data, MemoryKeeper> = alone(rt.alloc(), Vec::new(rt.alloc()))?;
    assert!(rt; matches!(reply_to(&mut node, Op::Delete)?, Reply::Done));
    assert!(rt; tells_deleted(&mut node)?);
    Ok(())
}
