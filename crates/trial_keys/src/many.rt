//! A member of many keys, which stand in no order.

use crate::acts::{count, get, update};
use crate::seats::{identity, of_one, text};
use base_bytes::Text;
use base_vectors::Id;
use data_lattice::SpelledData;
use data_value::Data;
use member_embedding::are_distinct;
use member_keeper::MemoryKeeper;
use member_node::{Got, KeyDecl, Level, Node, UpdateRefusal, Updated};
use member_views::View;
use model_kinds::{Kind, Op};
use std::alloc::Global;
use std::test::Fail;

/// So many keys.
const KEYS: u64 = 200;

/// The name of the key of a number.
fn name(alloc: Global, number: u64) -> Result<Text, Fail> {
    let name = format!(in alloc; "key {number}")?;
    text(name.as_str())
}

/// The counters of the numbers from 1 on: 73 and 200 have no common divisor.
fn counters<T: SpelledData<Kind = Kind, Op = Op>>(alloc: Global) -> Result<Vec<KeyDecl<T>>, Fail> {
    let mut keys = Vec::new(alloc);
    for place in 0..KEYS {
        keys.push(KeyDecl {
            key: name(alloc, place * 73 % KEYS + 1)?,
            kind: Kind::GCounter,
            durable: false,
        })?;
    }
    Ok(keys)
}

/// A member of a view with these keys.
fn opened<T: SpelledData<Kind = Kind, Op = Op>>(
    alloc: Global,
    id: Id,
    view: View,
    keys: &[KeyDecl<T>],
) -> Result<Node<T, MemoryKeeper>, Fail> {
    if !view.contains(id) || !are_distinct(keys) {
        return Err("no member".into());
    }
    let keeper = MemoryKeeper::new(alloc, Vec::new(alloc));
    match Node::new(alloc, id, view, keys, keeper) {
        Ok(node) => Ok(node),
        Err(_) => Err("memory".into()),
    }
}

/// The only member of a view, with the counters.
fn alone<T: SpelledData<Kind = Kind, Op = Op>>(
    alloc: Global,
) -> Result<Node<T, MemoryKeeper>, Fail> {
    let keys: Vec<KeyDecl<T>> = counters(alloc)?;
    opened(alloc, identity(0)?, of_one(alloc)?, &keys)
}

/// What an increment by a number comes to at its key.
fn raise<T: SpelledData<Kind = Kind, Op = Op>>(
    alloc: Global,
    node: &mut Node<T, MemoryKeeper>,
    number: u64,
) -> Result<Updated, Fail> {
    let op = Op::Increment(number);
    let (updated, _) = update(node, name(alloc, number)?, op, Level::Local)?;
    Ok(updated)
}

/// Adds to the counter of each number just this.
fn raise_each<T: SpelledData<Kind = Kind, Op = Op>>(
    alloc: Global,
    node: &mut Node<T, MemoryKeeper>,
) -> Result<bool, Fail> {
    for number in 1..=KEYS {
        if raise(alloc, node, number)? != Updated::Done {
            return Ok(false);
        }
    }
    Ok(true)
}

/// Whether each counter shows its number.
fn shows_each<T: SpelledData<Kind = Kind, Op = Op>>(
    alloc: Global,
    node: &mut Node<T, MemoryKeeper>,
) -> Result<bool, Fail> {
    for number in 1..=KEYS {
        if count(node, name(alloc, number)?)? != Some(u128::from(number)) {
            return Ok(false);
        }
    }
    Ok(true)
}

#[test]
fn each_key_is_found_and_no_other(rt: HostRuntime) -> Result<(), Fail> {
    let mut node: Node<Data, MemoryKeeper> = alone(rt.alloc())?;
    assert!(rt; raise_each(rt.alloc(), &mut node)?);
    assert!(rt; shows_each(rt.alloc(), &mut node)?);
    let unknown = raise(rt.alloc(), &mut node, 0)?;
    assert_eq!(rt; unknown, Updated::Refused(UpdateRefusal::UnknownKey));
    let unread = get(&mut node, name(rt.alloc(), 0)?, Level::Local)?;
    assert!(rt; matches!(unread, Got::UnknownKey));
    Ok(())
}
