//! Keys that are declared while a member runs.

use crate::acts::{count, declare, flush, gossip, increment, is_open, update};
use crate::handing::exchange;
use crate::seats::{decl, last, of_one, of_two, seated, text};
use base_bytes::Text;
use data_lattice::SpelledData;
use data_value::Data;
use member_keeper::MemoryKeeper;
use member_node::{Declared, Level, Node, Received, Updated};
use model_kinds::{Kind, Op};
use std::alloc::Global;
use std::test::Fail;

/// A member of the program, over a keeper in memory.
type Member = Node<Data, MemoryKeeper>;

/// The key that is declared late.
const LATE: &str = "a";

/// A member that is alone.
fn alone<T: SpelledData<Kind = Kind, Op = Op>>(
    alloc: Global,
) -> Result<Node<T, MemoryKeeper>, Fail> {
    seated(alloc, 0, &of_one(alloc)?)
}

/// One of two members.
fn of_both<T: SpelledData<Kind = Kind, Op = Op>>(
    alloc: Global,
    number: u8,
) -> Result<Node<T, MemoryKeeper>, Fail> {
    seated(alloc, number, &last(alloc, &of_two(alloc)?)?)
}

/// What becomes of a declaration of the late key.
fn declared<T: SpelledData<Kind = Kind, Op = Op>>(
    node: &mut Node<T, MemoryKeeper>,
    kind: Kind,
    durable: bool,
) -> Result<Declared, Fail> {
    declare(node, &decl(text(LATE)?, kind, durable))
}

/// A member with the late key, and one increment there.
fn ahead<T: SpelledData<Kind = Kind, Op = Op>>(
    alloc: Global,
) -> Result<Node<T, MemoryKeeper>, Fail> {
    let mut node: Node<T, MemoryKeeper> = of_both(alloc, 0)?;
    declared(&mut node, Kind::GCounter, false)?;
    increment(&mut node, LATE)?;
    Ok(node)
}

#[test]
fn a_key_begins_with_its_declaration(rt: HostRuntime) -> Result<(), Fail> {
    let mut node: Member = alone(rt.alloc())?;
    assert!(rt; matches!(increment(&mut node, LATE)?, Updated::Refused(_)));
    assert_eq!(rt; declared(&mut node, Kind::GCounter, false)?, Declared::New);
    assert_eq!(rt; count(&mut node, text(LATE)?)?, None);
    assert_eq!(rt; increment(&mut node, LATE)?, Updated::Done);
    assert_eq!(rt; count(&mut node, text(LATE)?)?, Some(1));
    Ok(())
}

#[test]
fn a_key_is_declared_once_and_keeps_what_it_has(rt: HostRuntime) -> Result<(), Fail> {
    let mut node: Member = ahead(rt.alloc())?;
    assert_eq!(rt;
        declared(&mut node, Kind::GCounter, false)?,
        Declared::Already
    );
    assert_eq!(rt;
        declared(&mut node, Kind::GSet, false)?,
        Declared::Otherwise
    );
    assert_eq!(rt;
        declared(&mut node, Kind::GCounter, true)?,
        Declared::Otherwise
    );
    assert_eq!(rt; count(&mut node, text(LATE)?)?, Some(1));
    assert_eq!(rt; node.keys().len(), 2);
    Ok(())
}

/// Declares a flag of this name.
fn declare_flag<T: SpelledData<Kind = Kind, Op = Op>>(
    node: &mut Node<T, MemoryKeeper>,
    name: &str,
) -> Result<(), Fail> {
    declare(node, &decl(text(name)?, Kind::Flag, false))?;
    Ok(())
}

/// The names of a member's keys, each with a space behind it.
fn names<T: SpelledData>(alloc: Global, node: &Node<T, MemoryKeeper>) -> Result<String, Fail> {
    let mut names = String::new(alloc);
    for state in node.keys() {
        names.push_str(state.name().as_str())?;
        names.push(' ')?;
    }
    Ok(names)
}

#[test]
fn keys_stand_in_the_order_of_their_names(rt: HostRuntime) -> Result<(), Fail> {
    let mut node: Member = alone(rt.alloc())?;
    for name in ["z", "b", "k0", "a", "kk"] {
        declare_flag(&mut node, name)?;
    }
    let names = names(rt.alloc(), &node)?;
    assert_eq!(rt; names.as_str(), "a b k k0 kk z ");
    Ok(())
}

/// Hands one member what another's flush sends. Answers what became of it.
fn flushed<T: SpelledData<Kind = Kind, Op = Op>>(
    alloc: Global,
    from: &mut Node<T, MemoryKeeper>,
    to: &mut Node<T, MemoryKeeper>,
) -> Result<Option<Received>, Fail> {
    let posts = flush(from)?;
    exchange(alloc, from, to, posts)
}

/// Hands one member another's digests, and what is asked for after them.
fn gossiped<T: SpelledData<Kind = Kind, Op = Op>>(
    alloc: Global,
    from: &mut Node<T, MemoryKeeper>,
    to: &mut Node<T, MemoryKeeper>,
) -> Result<(), Fail> {
    let (_, posts) = gossip(from, to.id())?;
    exchange(alloc, from, to, posts)?;
    Ok(())
}

#[test]
fn what_was_missed_comes_by_gossip(rt: HostRuntime) -> Result<(), Fail> {
    let mut one: Member = ahead(rt.alloc())?;
    let mut other: Member = of_both(rt.alloc(), 1)?;
    let passed_over = flushed(rt.alloc(), &mut one, &mut other)?;
    assert!(rt; matches!(passed_over, Some(Received::Already)));
    assert_eq!(rt; count(&mut other, text(LATE)?)?, None);
    declared(&mut other, Kind::GCounter, false)?;
    gossiped(rt.alloc(), &mut one, &mut other)?;
    assert_eq!(rt; count(&mut other, text(LATE)?)?, Some(1));
    Ok(())
}

#[test]
fn what_was_missed_comes_by_a_nack(rt: HostRuntime) -> Result<(), Fail> {
    let mut one: Member = ahead(rt.alloc())?;
    let mut other: Member = of_both(rt.alloc(), 1)?;
    flushed(rt.alloc(), &mut one, &mut other)?;
    declared(&mut other, Kind::GCounter, false)?;
    increment(&mut one, LATE)?;
    let gap = flushed(rt.alloc(), &mut one, &mut other)?;
    assert!(rt; matches!(gap, Some(Received::Gap(_))));
    assert_eq!(rt; count(&mut other, text(LATE)?)?, Some(2));
    Ok(())
}

#[test]
fn no_member_acknowledges_a_write_of_a_key_it_lacks(rt: HostRuntime) -> Result<(), Fail> {
    let mut one: Member = ahead(rt.alloc())?;
    let mut other: Member = of_both(rt.alloc(), 1)?;
    let (told, posts) = update(&mut one, text(LATE)?, Op::Increment(1), Level::All)?;
    let Updated::Pending(op) = told else {
        return Err("no operation".into());
    };
    let taken = exchange(rt.alloc(), &mut one, &mut other, posts)?;
    assert!(rt; matches!(taken, Some(Received::Already)));
    assert!(rt; is_open(&one, op)?);
    Ok(())
}
