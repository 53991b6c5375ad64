ghost use Rattle.std.specs.Prelude.{◌≡◌, ◌≤◌, false, length, None, IfOk, IsTrue};
ghost use Rattle.member_node.specs.Answerable.{is_of_take};
ghost use Rattle.member_node.specs.Changes.{AreMade};
ghost use Rattle.member_node.specs.Keys.{AreDistinctKeys};
ghost use Rattle.member_node.specs.Taking.{IsKept};
ghost use Rattle.member_node.specs.Answers.{ComparesIfOk, BringsIfOk, TakesIfOk};
ghost use Rattle.member_node.specs.Outputs.{is_pending};

use crate::answering::{answers, named, reply};
use crate::change::{Changes, unchanged};
use crate::entries::{any_changed, take_entries};
use crate::gossip::answer;
use crate::groups::take_groups;
use crate::key::KeyState;
use crate::places::Places;
use crate::reply::{Output, Reply};
use base_bytes::Memory;
use base_vectors::Id;
use data_lattice::{Replica, SpelledData};
use member_messages::{Digest, Keyed, Message};
use std::alloc::Global;

/// What a message makes of the keys, and what is answered.
#[derive(Drop)]
pub(crate) struct MessageTaken<T: Replica> {
    pub(crate) changes: Changes<T>,
    pub(crate) output: Output<T>,
}

/// Takes digests that a member told, which changes nothing.
fn compared<T: SpelledData>(
    alloc: Global,
    keys: &[KeyState<T>],
    id: Id,
    from: Id,
    digests: &[Keyed<Digest>],
) -> Result<MessageTaken<T>, Memory>
    requires distinct { AreDistinctKeys keys.now }
    ensures counted { IfOk result (λ taken. length taken.changes ≡ length keys.now) }
    ensures few { IfOk result (λ taken. length taken.output.posts ≤ 2) }
    ensures opens_none { IfOk result (λ taken. is_pending taken.output.reply ≡ false) }
    ensures ends_none { IfOk result (λ taken. taken.output.finished ≡ None) }
    ensures takes { IfOk result (λ taken. IsTrue (is_of_take taken.output.reply)) }
    ensures kept { IfOk result (λ taken. AreMade (IsKept T.kind_of id) keys.now taken.changes) }
    ensures image { ComparesIfOk T.SpelledData.own id from keys.now digests.now result }
{
    let changes = unchanged(alloc, keys);
    let posts = answer(alloc, keys, from, digests)?;
    let reply = Reply::Taken;
    let output = Output {
        reply,
        posts,
        finished: None,
    };
    Ok(MessageTaken { changes, output })
}

/// Takes what a message brings: its groups, then its entries.
fn brought<T: Replica>(
    alloc: Global,
    keys: &[KeyState<T>],
    places: &Places,
    id: Id,
    view: u32,
    from: Id,
    message: &Message<T>,
) -> Result<MessageTaken<T>, Memory>
    requires distinct { AreDistinctKeys keys.now }
    ensures counted { IfOk result (λ taken. length taken.changes ≡ length keys.now) }
    ensures few { IfOk result (λ taken. length taken.output.posts ≤ 2) }
    ensures opens_none { IfOk result (λ taken. is_pending taken.output.reply ≡ false) }
    ensures ends_none { IfOk result (λ taken. taken.output.finished ≡ None) }
    ensures takes { IfOk result (λ taken. IsTrue (is_of_take taken.output.reply)) }
    ensures kept { IfOk result (λ taken. AreMade (IsKept T.kind_of id) keys.now taken.changes) }
    ensures image { BringsIfOk id view from keys.now message.now result }
{
    let mut changes = unchanged(alloc, keys);
    let gaps = take_groups(alloc, keys, places, &mut changes, id, message.groups())?;
    take_entries(
        alloc,
        keys,
        places,
        &mut changes,
        id,
        view,
        message.entries(),
    )?;
    let entries = named(alloc, keys, &changes, message.names())?;
    let changed = any_changed(keys, &changes);
    let reply = reply(message, gaps.as_slice(), changed);
    let posts = answers(alloc, from, gaps.as_slice(), entries)?;
    let output = Output {
        reply,
        posts,
        finished: None,
    };
    Ok(MessageTaken { changes, output })
}

/// Takes a message from a member.
pub(crate) fn taken<T: SpelledData>(
    alloc: Global,
    keys: &[KeyState<T>],
    places: &Places,
    id: Id,
    view: u32,
    from: Id,
    message: &Message<T>,
) -> Result<MessageTaken<T>, Memory>
    requires distinct { AreDistinctKeys keys.now }
    ensures counted { IfOk result (λ taken. length taken.changes ≡ length keys.now) }
    ensures few { IfOk result (λ taken. length taken.output.posts ≤ 2) }
    ensures opens_none { IfOk result (λ taken. is_pending taken.output.reply ≡ false) }
    ensures ends_none { IfOk result (λ taken. taken.output.finished ≡ None) }
    ensures takes { IfOk result (λ taken. IsTrue (is_of_take taken.output.reply)) }
    ensures kept { IfOk result (λ taken. AreMade (IsKept T.kind_of id) keys.now taken.changes) }
    ensures image { TakesIfOk T.SpelledData.own id view from keys.now message.now result }
{
    match message {
        Message::Status { digests } => compared(alloc, keys, id, from, digests.as_slice()),
        _ => brought(alloc, keys, places, id, view, from, message),
    }
}
