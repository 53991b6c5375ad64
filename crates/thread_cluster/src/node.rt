ghost use Rattle.std.specs.Prelude.{◌≡◌, ◌≤◌, ◌-◌, ◌++◌, ◌∷◌, [], length, drop, IfOk, OnOk};
ghost use Rattle.thread_cluster.specs.Messages.{messages_to};

use crate::member::Member;
use base_bytes::Memory;
use base_vectors::Id;
use data_lattice::{Replica, SpelledData};
use member_keeper::Keeper;
use member_node::{Input, Look, Message, Node, Output, Post};
use std::alloc::Global;
use std::collections::VecDeque;

impl<T: SpelledData, K: Keeper + Drop> Member for Node<T, K>
where
    T::Op: Drop,
{
    type Message = Message<T>;

    /// The number of an operation.
    type Question = u64;

    type Answer = Look;

    ghost use Rattle.thread_cluster.specs.Messages.{messages_to, messages_of, Looks};

    ghost posted = { λ id output. messages_to id output.posts };

    ghost taken = { λ id input. messages_of id input };

    ghost Shows = { λ node op look. Looks node op look };

    fn take(from: Id, message: Message<T>) -> Input<T> {
        Input::Take { from, message }
    }

    fn takes(input: &Input<T>, from: Id) -> bool {
        match input {
            Input::Take { from: sender, .. } => *sender == from,
            _ => false,
        }
    }

    fn count_posted(output: &Output<T>, to: Id) -> usize {
        count_to(output.posts.as_slice(), to)
    }

    fn copy_posted(
        output: &Output<T>,
        alloc: Global,
        to: Id,
        skip: usize,
        copies: &mut VecDeque<Message<T>>,
    ) -> Result<usize, Memory> {
        copy_to(output.posts.as_slice(), alloc, to, skip, copies)
    }

    fn look(&self, question: &u64) -> Result<Look, Memory> {
        Node::look(self, *question)
    }
}

/// How many messages are to an identity.
fn count_to<T: Replica>(posts: &[Post<T>], to: Id) -> usize
    ensures { result ≡ length (messages_to to posts.now) }
{
    let mut count = 0;
    for post in posts {
        count += one_to(post, to);
    }
    count
}

/// 1 where the message is to the identity, else 0.
fn one_to<T: Replica>(post: &Post<T>, to: Id) -> usize
    ensures count { result ≡ length (messages_to to (post.now ∷ [])) }
    ensures one { result ≤ 1 }
{
    if post.to == to { 1 } else { 0 }
}

/// Puts copies of the messages to an identity behind these copies, but for the first `skip`. Answers how many are still to
/// be skipped.
fn copy_to<T: Replica>(
    posts: &[Post<T>],
    alloc: Global,
    to: Id,
    skip: usize,
    copies: &mut VecDeque<Message<T>>,
) -> Result<usize, Memory>
    ensures left { IfOk result (λ left. left ≡ skip - length (messages_to to posts.now)) }
    ensures copies { OnOk result (copies.new.items ≡ copies.old.items ++ drop skip (messages_to to posts.now)) }
{
    let mut left = skip;
    for post in posts {
        left = copy_one(post, alloc, to, left, copies)?;
    }
    Ok(left)
}

/// The same of one message.
fn copy_one<T: Replica>(
    post: &Post<T>,
    alloc: Global,
    to: Id,
    skip: usize,
    copies: &mut VecDeque<Message<T>>,
) -> Result<usize, Memory>
    ensures left { IfOk result (λ left. left ≡ skip - length (messages_to to (post.now ∷ []))) }
    ensures copies { OnOk result (copies.new.items ≡ copies.old.items ++ drop skip (messages_to to (post.now ∷ []))) }
{
    if post.to != to {
        return Ok(skip);
    }
    if skip > 0 {
        return Ok(skip - 1);
    }
    let copy = post.message.copy(alloc)?;
    copies.push_back(copy)?;
    Ok(0)
}
