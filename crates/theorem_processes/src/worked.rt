ghost use Rattle.std.specs.Prelude.{◌≡◌, List, map, IfSome};
ghost use Rattle.base_bytes.specs.TextOrder.{IsRising};
ghost use Rattle.model_kinds.specs.declared.operation.Op as operation;
ghost use Rattle.member_node.specs.declared.key.KeyDecl.{KeyDecl};
ghost use Rattle.member_node.specs.Declaring.{Declares};
ghost use Rattle.member_node.specs.Keys.{AreDistinct};
ghost use Rattle.theorem_processes.specs.Declaring.{ArePart};
ghost use Rattle.theorem_processes.specs.Processes.{IsMade, IsSpelledBy};
ghost use Rattle.theorem_processes.specs.Worked.{IsPosting, IsTaking, AreMet};

use base_bytes::Text;
use base_vectors::Id;
use data_delta_codec::SpelledDelta;
use member_codec::{read_message, spell_message};
use member_keeper::MemoryKeeper;
use member_node::{Declared, HIGHEST_LIMIT, Input, KeyDecl, Level, Node, Output, Post};
use member_views::{View, ViewList};
use model_kinds::Op;
use std::alloc::Global;

/// A new member of a view with some keys, with the highest limit of steps, over a keeper that has nothing.
fn member<T: SpelledDelta<Op = Op>>(
    alloc: Global,
    number: u8,
    view: &View,
    keys: &[KeyDecl<T>],
) -> Option<Node<T, MemoryKeeper>>
    requires distinct { AreDistinct (map (λ decl. decl.key) keys.now) }
    ensures made { (decls : List (KeyDecl T T.Kind operation.Op T.Delta)) → ArePart keys.now decls → IfSome result (IsMade decls number view.now) }
    ensures identity { IfSome result (λ member. member.id ≡ number) }
{
    let id = Id::new(number)?;
    if !view.contains(id) {
        return None;
    }
    let copy = match view.copy(alloc) {
        Ok(copy) => copy,
        Err(_) => return None,
    };
    let keeper = MemoryKeeper::new(alloc, Vec::new(alloc));
    match Node::new(alloc, id, copy, keys, keeper) {
        Ok(member) => Some(member.with_limit(HIGHEST_LIMIT)),
        Err(_) => None,
    }
}

/// The bytes of a post, if it is to this member.
fn spelled<T: SpelledDelta<Op = Op>>(alloc: Global, post: &Post<T>, to: Id) -> Option<Vec<u8>>
    ensures to { IfSome result (λ _. post.now.to ≡ to) }
    ensures bytes { IfSome result (λ bytes. IsSpelledBy T.SpelledData.own T.SpelledDelta.own post.now.message bytes.items) }
{
    if post.to.number() != to.number() {
        return None;
    }
    match spell_message(alloc, &post.message) {
        Ok(bytes) => Some(bytes),
        Err(_) => None,
    }
}

/// The bytes of the one message that a member posts, to another, when it updates a key at the level of all.
fn posted<T: SpelledDelta<Op = Op>>(
    alloc: Global,
    member: &mut Node<T, MemoryKeeper>,
    to: Id,
    key: Text,
    op: Op,
) -> Option<Vec<u8>>
    ensures { IfSome result (λ bytes. IsPosting T.SpelledData.own T.SpelledDelta.own member.old to bytes.items member.new) }
{
    let level = Level::All;
    let output = match member.step(&Input::Update { key, op, level }) {
        Ok(output) => output,
        Err(_) => return None,
    };
    let posts = output.posts.as_slice();
    if posts.len() != 1 {
        return None;
    }
    let bytes = spelled(alloc, &posts[0], to)?;
    Some(bytes)
}

/// Reads bytes that came as from a member, and takes the message.
fn taken<T: SpelledDelta<Op = Op>>(
    alloc: Global,
    member: &mut Node<T, MemoryKeeper>,
    from: Id,
    bytes: &[u8],
) -> Option<Output<T>>
    ensures { IfSome result (λ _. IsTaking T.SpelledData.own T.SpelledDelta.own member.old from bytes.now member.new) }
{
    let message = match read_message::<T>(alloc, bytes) {
        Ok(message) => message,
        Err(_) => return None,
    };
    match member.step(&Input::Take { from, message }) {
        Ok(output) => Some(output),
        Err(_) => None,
    }
}

/// Tells a member of a key.
fn declared<T: SpelledDelta<Op = Op>>(
    member: &mut Node<T, MemoryKeeper>,
    decl: &KeyDecl<T>,
) -> Option<Declared>
    ensures { IfSome result (Declares member.old decl.now member.new) }
{
    match member.declare(decl) {
        Ok(answer) => Some(answer),
        Err(_) => None,
    }
}

/// Two members, of which one posts to the other. This begins with no key, takes the bytes of the post, declares the first key, takes
/// the bytes again, and then forgets its operations below 1, of which there are none: real calls meet the premises of the theorem.
/// There is no answer where there is no key, or memory was refused.
pub fn a_post_is_taken_twice<T: SpelledDelta<Op = Op>>(
    alloc: Global,
    keys: &[KeyDecl<T>],
    key: Text,
    op: Op,
) -> Option<(Node<T, MemoryKeeper>, Node<T, MemoryKeeper>)>
    requires rising { IsRising (map (λ decl. decl.key) keys.now) }
    ensures { IfSome result (λ both. AreMet T.SpelledData.own T.SpelledDelta.own keys.now both.0 both.1) }
{
    if keys.is_empty() {
        return None;
    }
    let views = match ViewList::new(alloc, 2) {
        Ok(views) => views,
        Err(_) => return None,
    };
    let mut one = member(alloc, 0, views.last(), keys)?;
    let mut other = member(alloc, 1, views.last(), &keys[..0])?;
    let bytes = posted(alloc, &mut one, other.id(), key, op)?;
    taken(alloc, &mut other, one.id(), bytes.as_slice())?;
    declared(&mut other, &keys[0])?;
    taken(alloc, &mut other, one.id(), bytes.as_slice())?;
    other.forget(1);
    Some((one, other))
}
