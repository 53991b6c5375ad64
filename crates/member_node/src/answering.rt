ghost use Rattle.std.specs.Prelude.{◌≡◌, length, map, IfOk};
ghost use Rattle.model_history.specs.Texts.{contains_text};
ghost use Rattle.member_node.specs.Replies.{meant};
ghost use Rattle.member_node.specs.Answers.{reply_to, only_asks, answers_of, MeansNamed};

use crate::change::{Changes, current};
use crate::key::KeyState;
use crate::reply::Reply;
use base_bytes::{Items, Memory, Text};
use base_vectors::Id;
use data_lattice::Replica;
use member_messages::{Entries, Keyed, Message, Post, Posts, Texts};
use std::alloc::Global;

/// Whether a key is among these.
fn contains(names: &[Text], key: &Text) -> bool
    ensures { result ≡ contains_text names.now key.now }
{
    names.iter().any(|name| key.as_str() == name.as_str())
}

/// The named entries that have records, as they are once the changes are written.
pub(crate) fn named<T: Replica>(
    alloc: Global,
    keys: &[KeyState<T>],
    changes: &Changes<T>,
    names: &[Text],
) -> Result<Entries<T>, Memory>
    requires { length changes.now ≡ length keys.now }
    ensures { IfOk result (MeansNamed T.Replica keys.now changes.now names.now) }
{
    let mut entries = Items::new(alloc);
    if names.is_empty() {
        return Ok(entries);
    }
    for (index, state) in keys.iter().enumerate() {
        let now = current(state, changes, index);
        if contains(names, &state.name) && now.has_records() {
            let key = state.name.copied();
            let item = now.copy(alloc)?;
            entries.push(Keyed { key, item })?;
        }
    }
    Ok(entries)
}

/// What is replied to a message, by the gaps that it met and whether it changed an entry.
pub(crate) fn reply<T: Replica>(message: &Message<T>, gaps: &[Keyed<Id>], changed: bool) -> Reply
    ensures { meant result ≡ reply_to (only_asks message.now) gaps.now changed }
{
    if let Some(gap) = gaps.first() {
        return Reply::Gap(gap.item);
    }
    match message {
        Message::Nack { .. } => Reply::Taken,
        Message::Status { .. } => Reply::Taken,
        _ => Reply::of_take(changed),
    }
}

/// The keys with gaps.
fn keys_of(alloc: Global, gaps: &[Keyed<Id>]) -> Result<Texts, Memory>
    ensures { IfOk result (λ keys. keys ≡ map (λ gap. gap.key) gaps.now) }
{
    let mut keys = Items::new(alloc);
    for gap in gaps {
        keys.push(gap.key.copied())?;
    }
    Ok(keys)
}

/// The answer to the sender of a message: that there are gaps, or the entries that it asked for.
pub(crate) fn answers<T: Replica>(
    alloc: Global,
    from: Id,
    gaps: &[Keyed<Id>],
    entries: Entries<T>,
) -> Result<Posts<T>, Memory>
    ensures { IfOk result (λ posts. posts ≡ answers_of from gaps.now entries) }
{
    let mut posts = Items::new(alloc);
    if !gaps.is_empty() {
        let keys = keys_of(alloc, gaps)?;
        let message = Message::Nack { keys };
        posts.push(Post { to: from, message })?;
    }
    if !entries.is_empty() {
        let wants = Items::new(alloc);
        let message = Message::Gossip { entries, wants };
        posts.push(Post { to: from, message })?;
    }
    Ok(posts)
}
