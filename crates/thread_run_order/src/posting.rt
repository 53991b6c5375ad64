ghost use Rattle.std.specs.Prelude.{◌≡◌, Some, OnOk, option_map};
ghost use Rattle.thread_machine.specs.Machines.{machine_at};
ghost use Rattle.thread_cell.specs.Entries.{history_at};
ghost use Rattle.world_places.specs.Sending.{Sends};
ghost use Rattle.thread_run_order.specs.Finishing.{IsSent, AreSentByAll};

use base_bytes::Memory;
use base_vectors::Id;
use data_lattice::SpelledData;
use member_keeper::Keeper;
use member_node::{Message, Node, Output, Post};
use model_kinds::Op;
use thread_cell::histories::Histories;
use thread_machine::entry::Entry;
use thread_machine::machines::Machines;
use world_members::Links;

/// Puts posts of an identity at the ends of its links.
fn post_all<T: SpelledData<Op = Op>>(
    links: &mut Links<Message<T>>,
    from: Id,
    posts: Vec<Post<T>>,
) -> Result<(), Memory>
    ensures { OnOk result (Sends from posts.items links.old links.new) }
{
    for post in posts {
        let Post { to, message } = post;
        links.append(from, to, message)?;
    }
    Ok(())
}

/// What an entry posts.
fn posts_of<T: SpelledData<Op = Op>, K: Keeper + Drop>(entry: Entry<Node<T, K>>) -> Vec<Post<T>>
    ensures { result.items ≡ entry.output.posts }
{
    let Entry {
        input: _input,
        fate: _fate,
        output,
        stamp: _stamp,
        client: _client,
    } = entry;
    let Output {
        reply: _reply,
        posts,
        finished: _finished,
    } = output;
    posts.into_vec()
}

/// Puts what a history posts at the ends of the links of its member.
fn post_history<T: SpelledData<Op = Op>, K: Keeper + Drop>(
    links: &mut Links<Message<T>>,
    from: Id,
    history: Vec<Entry<Node<T, K>>>,
) -> Result<(), Memory>
    ensures { OnOk result (IsSent (Some from) history.items links.old links.new) }
{
    for entry in history {
        post_all(links, from, posts_of(entry))?;
    }
    Ok(())
}

/// The same where there may be no member.
fn post_of<T: SpelledData<Op = Op>, K: Keeper + Drop>(
    links: &mut Links<Message<T>>,
    member: &Option<Node<T, K>>,
    history: Vec<Entry<Node<T, K>>>,
) -> Result<(), Memory>
    ensures { OnOk result (IsSent (option_map (λ node. node.id) member.now) history.items links.old links.new) }
{
    match member {
        Some(node) => post_history(links, node.id(), history),
        None => Ok(()),
    }
}

/// Puts what the histories of all places post at the ends of the links of their members.
pub(crate) fn post_members<T: SpelledData<Op = Op>, K: Keeper + Drop>(
    links: &mut Links<Message<T>>,
    members: &Machines<Node<T, K>>,
    histories: Histories<Node<T, K>>,
) -> Result<(), Memory>
    ensures { OnOk result (AreSentByAll (λ place. option_map (λ node. node.id) (machine_at members.now place)) (history_at histories) links.old links.new) }
{
    post_of(links, &members.p0, histories.p0)?;
    post_of(links, &members.p1, histories.p1)?;
    post_of(links, &members.p2, histories.p2)?;
    post_of(links, &members.p3, histories.p3)?;
    post_of(links, &members.p4, histories.p4)?;
    post_of(links, &members.p5, histories.p5)?;
    post_of(links, &members.p6, histories.p6)?;
    post_of(links, &members.p7, histories.p7)
}
