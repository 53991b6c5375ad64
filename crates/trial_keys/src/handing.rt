//! Messages from one member to another, and what is answered.

use crate::acts::receive;
use base_vectors::Id;
use data_lattice::SpelledData;
use member_keeper::MemoryKeeper;
use member_messages::Posts;
use member_node::{Node, Received};
use model_kinds::{Kind, Op};
use std::alloc::Global;
use std::test::Fail;

/// Hands messages to a member. Answers what became of the last, and all that is sent for them.
pub(crate) fn hand<T: SpelledData<Kind = Kind, Op = Op>>(
    alloc: Global,
    from: Id,
    to: &mut Node<T, MemoryKeeper>,
    posts: Posts<T>,
) -> Result<(Option<Received>, Posts<T>), Fail> {
    let mut last = None;
    let mut answers: Posts<T> = Posts::new(alloc);
    for post in posts.into_vec() {
        let (received, sent) = receive(to, from, &post.message)?;
        for answer in sent.into_vec() {
            answers.push(answer)?;
        }
        last = Some(received);
    }
    Ok((last, answers))
}

/// Hands messages of one member to another, then what is answered, and then what is answered to that. Answers what became of the first.
pub(crate) fn exchange<T: SpelledData<Kind = Kind, Op = Op>>(
    alloc: Global,
    from: &mut Node<T, MemoryKeeper>,
    to: &mut Node<T, MemoryKeeper>,
    posts: Posts<T>,
) -> Result<Option<Received>, Fail> {
    let (one, other) = (from.id(), to.id());
    let (received, answers) = hand(alloc, one, to, posts)?;
    let (_, again) = hand(alloc, other, from, answers)?;
    hand(alloc, one, to, again)?;
    Ok(received)
}
