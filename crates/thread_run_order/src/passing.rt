ghost use Rattle.std.specs.Prelude.{◌≡◌, ◌≤◌, ◌<◌, ◌^◌, true, false, All, length, OnOk};
ghost use Rattle.thread_cell.specs.Entries.{history_at};
ghost use Rattle.world_places.specs.Channels.{ChangesOne};
ghost use Rattle.thread_run_order.specs.Section.{takes_of, taken_from, TakesNothing};
ghost use Rattle.thread_run_order.specs.Finishing.{after_taken, ArePassedTo, ArePassed};

use base_bytes::Memory;
use base_vectors::Id;
use data_lattice::SpelledData;
use member_keeper::Keeper;
use member_node::{Input, Message, Node};
use member_views::View;
use model_kinds::Op;
use thread_cell::histories::Histories;
use thread_cluster::member::Member;
use thread_machine::entry::Entry;
use thread_machine::machine::Machine;
use world_members::Links;

/// How many messages of an identity an entry takes: one or none.
#[tactic(auto, using(crate::proofs::Closing::count_one))]
fn takes_one<T: SpelledData<Op = Op>, K: Keeper + Drop>(
    entry: &Entry<Node<T, K>>,
    from: Id,
) -> usize
    ensures taken { result ≡ length (takes_of from entry.now.input) }
    ensures one { result ≤ 1 }
{
    if <Node<T, K> as Member>::takes(&entry.input, from) {
        1
    } else {
        0
    }
}

/// Whether an entry takes a message.
fn takes_some<T: SpelledData<Op = Op>, K: Keeper + Drop>(entry: &Entry<Node<T, K>>) -> bool
    ensures { result ≡ false → TakesNothing entry.now }
{
    match &entry.input {
        Input::Take { .. } => true,
        _ => false,
    }
}

/// Whether a history takes no message at all, as one of updates alone does.
fn takes_none<T: SpelledData<Op = Op>, K: Keeper + Drop>(history: &[Entry<Node<T, K>>]) -> bool
    ensures { result ≡ true → All TakesNothing history.now }
{
    for entry in history {
        if takes_some(entry) {
            return false;
        }
    }
    true
}

/// How many messages of an identity a history takes.
fn count_taken<T: SpelledData<Op = Op>, K: Keeper + Drop>(
    history: &[Entry<Node<T, K>>],
    from: Id,
) -> usize
    ensures count { result ≡ length (taken_from from history.now) }
    ensures few { result < 2 ^ 63 }
{
    let mut count = 0;
    for i in 0..history.len() {
        count += takes_one(&history[i], from);
    }
    count
}

/// Passes what a history takes of an identity, where no message of that was pending.
fn pass_on<T: SpelledData<Op = Op>, K: Keeper + Drop>(
    links: &mut Links<Message<T>>,
    from: Id,
    to: Id,
    history: &[Entry<Node<T, K>>],
) -> Result<(), Memory>
    ensures { OnOk result (ChangesOne (after_taken (length (taken_from from history.now))) from to links.old links.new) }
{
    let next = links.next(from, to);
    let sent = links.sent(from, to);
    if next == sent {
        let taken = count_taken(history, from);
        links.set_next(from, to, next + taken)?;
    }
    Ok(())
}

/// Passes what a history takes of each member of a view.
fn pass_to<T: SpelledData<Op = Op>, K: Keeper + Drop>(
    links: &mut Links<Message<T>>,
    view: &View,
    to: Id,
    history: &[Entry<Node<T, K>>],
) -> Result<(), Memory>
    ensures { OnOk result (ArePassedTo view.now to history.now links.old links.new) }
{
    if takes_none(history) {
        return Ok(());
    }
    for member in view.members() {
        pass_on(links, member.id, to, history)?;
    }
    Ok(())
}

/// Passes what the members of a view take of each other.
pub(crate) fn pass_all<T: SpelledData<Op = Op>, K: Keeper + Drop>(
    links: &mut Links<Message<T>>,
    view: &View,
    histories: &Histories<Node<T, K>>,
) -> Result<(), Memory>
    ensures { OnOk result (ArePassed view.now (history_at histories.now) links.old links.new) }
{
    for member in view.members() {
        pass_to(links, view, member.id, history_of(histories, member.place))?;
    }
    Ok(())
}

/// The history of a place.
fn history_of<M: Machine>(histories: &Histories<M>, place: u8) -> &[Entry<M>]
    ensures { place < 8 → result.now ≡ history_at histories.now place }
{
    match place {
        0 => histories.p0.as_slice(),
        1 => histories.p1.as_slice(),
        2 => histories.p2.as_slice(),
        3 => histories.p3.as_slice(),
        4 => histories.p4.as_slice(),
        5 => histories.p5.as_slice(),
        6 => histories.p6.as_slice(),
        _ => histories.p7.as_slice(),
    }
}
