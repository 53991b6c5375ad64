ghost use Rattle.std.specs.Prelude.{◌≡◌, ℕ, ◌+◌, ◌≤◌, ◌++◌, [], true, length, map, is_some, ◌==◌, OnOk, OnErr, IfOk, Err, vec_len, vec_capacity};
ghost use Rattle.model_history.specs.Vector.{IdentitySet};
ghost use Rattle.model_members.specs.View.{is_member};
ghost use Rattle.member_node.specs.declared.reply.StepError.TheVariants as failed;
ghost use Rattle.member_node.specs.Steps.{IsUnchanged};
ghost use Rattle.world_places.specs.Channels.{channel_at, message_on, row_of, channels_in};
ghost use Rattle.world_places.specs.Sending.{HasRoom, IsAppended, AppendsPosts, told_of, receivers, most_posts, IsStepOnRow, IsStepOnLinks, TakesOnLinks};

use crate::links::{Link, Links, make_row, message_in};
use crate::sent::{SentTo, Sketches};
use base_bytes::{Items, Memory};
use base_vectors::Id;
use data_lattice::{Replica, SpelledData};
use member_keeper::Keeper;
use member_node::{Finished, Input, Level, Message, Node, Output, Post, Reply, StepError};
use member_views::View;
use std::alloc::Global;

/// Makes room for so many more messages behind those that were sent. Where there is none yet, room is taken for three times as
/// many as were sent, so that few are moved.
fn grow<M: Drop>(messages: &mut Vec<M>, room: usize) -> Result<(), Memory>
    ensures items { messages.new.items ≡ messages.old.items }
    ensures len { vec_len messages.new ≡ vec_len messages.old }
    ensures ok { OnOk result (vec_len messages.new + room ≤ vec_capacity messages.new) }
    ensures capacity { vec_capacity messages.old ≤ vec_capacity messages.new }
{
    let sent = messages.len();
    if room <= messages.capacity() - sent {
        return Ok(());
    }
    Ok(messages.reserve(room.max(sent.saturating_mul(3)))?)
}

/// Makes room for so many more messages on the link to an identity.
fn reserve_on<M: Drop>(row: &mut Vec<Link<M>>, to: Id, room: usize) -> Result<(), Memory>
    ensures same { row_of row.new ≡ row_of row.old }
    ensures room { OnOk result (HasRoom (λ id. id == to) room row.new) }
    ensures others { (ids : IdentitySet) → HasRoom ids room row.old → HasRoom ids room row.new }
{
    let index = usize::from(to.number());
    if index >= row.len() {
        return Ok(());
    }
    let link = &mut row[index];
    grow(&mut link.messages, room)
}

/// Makes room for so many more messages on the link to each member of a view.
fn reserve<M: Drop>(row: &mut Vec<Link<M>>, view: &View, room: usize) -> Result<(), Memory>
    ensures same { row_of row.new ≡ row_of row.old }
    ensures room { OnOk result (HasRoom (is_member view.now) room row.new) }
{
    for member in view.members() {
        reserve_on(row, member.id, room)?;
    }
    Ok(())
}

/// How many messages a member of a view sends at most in a step for an input.
fn most_posts<T: Replica>(view: &View, input: &Input<T>) -> usize
    ensures { result ≡ most_posts view.now input.now }
{
    match input {
        Input::Update { level, .. } | Input::Get { level, .. } => match level {
            Level::Local => 0,
            _ => view.members().len(),
        },
        Input::Flush => view.members().len(),
        Input::Take { .. } | Input::GossipTo(_) => 1,
        Input::Install(_) | Input::PruneTick | Input::Timeout(_) => 0,
    }
}

/// Makes the links from an identity, where they are not made yet, and room for so many more messages on one of them.
fn reserve_made<M: Drop>(
    alloc: Global,
    row: &mut Vec<Link<M>>,
    to: Id,
    room: usize,
) -> Result<(), Memory>
    ensures same { channels_in row.new ≡ channels_in row.old }
    ensures made { OnOk result (row_of row.new ≡ channels_in row.old) }
    ensures room { OnOk result (HasRoom (λ id. id == to) room row.new) }
{
    make_row(alloc, row)?;
    reserve_on(row, to, room)
}

/// Makes room on the links of a member of a view for what it may send in a step for an input.
fn make_room<T: Replica>(
    row: &mut Vec<Link<Message<T>>>,
    view: &View,
    input: &Input<T>,
    room: usize,
) -> Result<(), Memory>
    ensures same { row_of row.new ≡ row_of row.old }
    ensures room { OnOk result (HasRoom (receivers view.now input.now) room row.new) }
{
    match input {
        Input::Take { from: to, .. } | Input::GossipTo(to) => reserve_on(row, *to, room),
        _ => reserve(row, view, room),
    }
}

/// Puts a message at the end of the link to a member.
#[inline(always)]
fn append<M: Drop>(row: &mut Vec<Link<M>>, to: usize, message: M)
    ensures sent { (ids : IdentitySet) (room : ℕ) → HasRoom ids (room + 1) row.old → ids to ≡ true → IsAppended to message (row_of row.old) (row_of row.new) }
    ensures room { (ids : IdentitySet) (room : ℕ) → HasRoom ids (room + 1) row.old → HasRoom ids room row.new }
{
    if to < row.len() {
        let link = &mut row[to];
        let _ = link.messages.push(message);
    }
}

/// Puts posts at the ends of their links, and tells them.
#[inline(always)]
fn send<T: Replica>(row: &mut Vec<Link<Message<T>>>, posts: Vec<Post<T>>, sent: &mut Vec<SentTo>)
    ensures row { AppendsPosts posts.items row.old row.new }
    ensures told { vec_len sent.old + length posts.items ≤ vec_capacity sent.old → sent.new.items ≡ sent.old.items ++ map told_of posts.items }
{
    for post in posts {
        let Post { to, message } = post;
        let sketch = message.sketch();
        append(row, usize::from(to.number()), message);
        let _ = sent.push(SentTo { to, sketch });
    }
}

/// A list for what is told of so many messages.
fn list_for(alloc: Global, room: usize) -> Result<Vec<SentTo>, Memory>
    ensures empty { IfOk result (λ sent. sent.items ≡ []) }
    ensures room { IfOk result (λ sent. room ≤ vec_capacity sent) }
{
    Ok(Vec::with_capacity(alloc, room)?)
}

/// What a member answered: its reply, what it sent, and the operation that ended.
#[derive(Drop)]
pub struct Answered {
    pub reply: Reply,
    pub sent: Sketches,
    pub finished: Option<Finished>,
}

/// What a member answered, once its messages went to the ends of its links.
#[inline(always)]
fn posted<T: Replica>(
    row: &mut Vec<Link<Message<T>>>,
    output: Output<T>,
    sent: Vec<SentTo>,
) -> Answered
    ensures reply { result.reply ≡ output.reply }
    ensures finished { result.finished ≡ output.finished }
    ensures row { AppendsPosts output.posts row.old row.new }
    ensures told { sent.items ≡ [] → length output.posts ≤ vec_capacity sent → result.sent ≡ map told_of output.posts }
{
    let Output {
        reply,
        posts,
        finished,
    } = output;
    let mut sent = sent;
    send(row, posts.into_vec(), &mut sent);
    let sent = Items::from_vec(sent);
    Answered {
        reply,
        sent,
        finished,
    }
}

/// A member makes a step: its messages, which are few for the input, go to the ends of its links, and are told.
#[inline(always)]
fn step_on_row<T: SpelledData, K: Keeper + Drop>(
    alloc: Global,
    node: &mut Node<T, K>,
    row: &mut Vec<Link<Message<T>>>,
    input: &Input<T>,
) -> Result<Answered, StepError>
    ensures ok { IfOk result (λ answered. IsStepOnRow T.SpelledData.own node.old input.now answered node.new (row_of row.old) (row_of row.new)) }
    ensures full { result ≡ Err failed.HistoryFull → node.old.steps ≡ node.old.limit }
    ensures err { OnErr result (IsUnchanged node.old node.new × (row_of row.new ≡ row_of row.old)) }
{
    let room = most_posts(node.view(), input);
    let sent = list_for(alloc, room)?;
    make_room(row, node.view(), input, room)?;
    let output = node.step(input)?;
    Ok(posted(row, output, sent))
}

/// A member makes a step, before which its links are made.
#[inline(always)]
fn step_on_made<T: SpelledData, K: Keeper + Drop>(
    alloc: Global,
    node: &mut Node<T, K>,
    row: &mut Vec<Link<Message<T>>>,
    input: &Input<T>,
) -> Result<Answered, StepError>
    ensures ok { IfOk result (λ answered. IsStepOnRow T.SpelledData.own node.old input.now answered node.new (channels_in row.old) (channels_in row.new)) }
    ensures full { result ≡ Err failed.HistoryFull → node.old.steps ≡ node.old.limit }
    ensures err { OnErr result (IsUnchanged node.old node.new × (channels_in row.new ≡ channels_in row.old)) }
{
    make_row(alloc, row)?;
    step_on_row(alloc, node, row, input)
}

/// The member of an identity makes a step: its messages go to the ends of its links, and are told.
#[inline(always)]
pub fn step_on<T: SpelledData, K: Keeper + Drop>(
    alloc: Global,
    node: &mut Node<T, K>,
    links: &mut Links<Message<T>>,
    at: Id,
    input: &Input<T>,
) -> Result<Answered, StepError>
    ensures ok { IfOk result (λ answered. IsStepOnLinks T.SpelledData.own node.old input.now answered node.new at links.old links.new) }
    ensures full { result ≡ Err failed.HistoryFull → node.old.steps ≡ node.old.limit }
    ensures err { OnErr result (IsUnchanged node.old node.new × (links.new ≡ links.old)) }
{
    let sender = usize::from(at.number());
    step_on_made(alloc, node, &mut links.rows[sender], input)
}

/// The member of an identity takes the message of a number on a link to it, where it lies: its messages go to the ends of
/// its links, and are told in an empty list that has room for one.
#[inline(always)]
fn take_in_room<T: SpelledData, K: Keeper + Drop>(
    alloc: Global,
    node: &mut Node<T, K>,
    links: &mut Links<Message<T>>,
    from: Id,
    at: Id,
    index: usize,
    sent: Vec<SentTo>,
) -> Result<Answered, StepError>
    requires message { is_some (message_on (channel_at links.old from at) index) ≡ true }
    requires empty { sent.items ≡ [] }
    requires room { 1 ≤ vec_capacity sent }
    ensures ok { IfOk result (λ answered. TakesOnLinks T.SpelledData.own node.old from index answered node.new at links.old links.new) }
    ensures full { result ≡ Err failed.HistoryFull → node.old.steps ≡ node.old.limit }
    ensures err { OnErr result (IsUnchanged node.old node.new × (links.new ≡ links.old)) }
{
    let sender = usize::from(at.number());
    reserve_made(alloc, &mut links.rows[sender], from, 1)?;
    let Some(message) = message_in(&links.rows, usize::from(from.number()), sender, index) else {
        unreachable!();
    };
    let output = node.take(from, message)?;
    Ok(posted(&mut links.rows[sender], output, sent))
}

/// The member of an identity takes the message of a number on a link to it: its messages go to the ends of its links, and
/// are told.
#[inline(always)]
pub fn take_on<T: SpelledData, K: Keeper + Drop>(
    alloc: Global,
    node: &mut Node<T, K>,
    links: &mut Links<Message<T>>,
    from: Id,
    at: Id,
    index: usize,
) -> Result<Answered, StepError>
    requires { is_some (message_on (channel_at links.old from at) index) ≡ true }
    ensures ok { IfOk result (λ answered. TakesOnLinks T.SpelledData.own node.old from index answered node.new at links.old links.new) }
    ensures full { result ≡ Err failed.HistoryFull → node.old.steps ≡ node.old.limit }
    ensures err { OnErr result (IsUnchanged node.old node.new × (links.new ≡ links.old)) }
{
    let room = links.room()?;
    let answered = take_in_room(alloc, node, links, from, at, index, room)?;
    let Answered {
        reply,
        sent,
        finished,
    } = answered;
    let sent = links.keep_room(sent);
    Ok(Answered {
        reply,
        sent,
        finished,
    })
}
