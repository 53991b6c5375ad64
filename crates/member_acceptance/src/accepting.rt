ghost use Rattle.std.specs.Prelude.{◌≡◌};
ghost use Rattle.std.specs.List.{list_all};
ghost use Rattle.data_envelope.specs.Words.{parts_of, group_parts};
ghost use Rattle.member_acceptance.specs.Accepting.{is_own, is_known, is_sender, brings_known, is_accepted};

use crate::naming::{counts_later, has_late_mark, names_later};
use base_vectors::Id;
use data_envelope::{Envelope, Group};
use data_lattice::Replica;
use member_messages::{Keyed, Message};
use member_views::View;

/// Whether a group has a sender's own records, needs those before them, and names no identity that was not given.
fn is_own<T: Replica>(view: &View, from: Id, group: &Group<T>) -> bool
    ensures { result ≡ is_own view.now from (group_parts group.now) }
{
    group.origin == from
        && group.needs.at(group.origin) == group.after
        && !counts_later(&group.needs, view.given())
}

/// Whether an entry names no identity that was not given, and has no mark of a later view.
fn is_known<T: Replica>(view: &View, entry: &Envelope<T>) -> bool
    ensures { result ≡ is_known T.mentioned view.now (parts_of entry.now) }
{
    !names_later(entry, view.given()) && !has_late_mark(entry.markers(), view.number())
}

/// Whether the sender is another member of the view.
fn is_sender(view: &View, id: Id, from: Id) -> bool
    ensures { result ≡ is_sender view.now id from }
{
    from != id && view.contains(from)
}

/// Whether each group has the sender's own records.
fn are_own<T: Replica>(view: &View, from: Id, groups: &[Keyed<Group<T>>]) -> bool
    ensures { result ≡ list_all (λ keyed. is_own view.now from (group_parts keyed.item)) groups.now }
{
    groups.iter().all(|keyed| is_own(view, from, &keyed.item))
}

/// Whether each entry names what the view knows.
fn are_known<T: Replica>(view: &View, entries: &[Keyed<Envelope<T>>]) -> bool
    ensures { result ≡ list_all (λ keyed. is_known T.mentioned view.now (parts_of keyed.item)) entries.now }
{
    entries.iter().all(|keyed| is_known(view, &keyed.item))
}

/// Whether the message brings no entry under the number of an operation, or one that names what the view knows.
fn brings_known<T: Replica>(view: &View, message: &Message<T>) -> bool
    ensures { result ≡ brings_known T.mentioned view.now message.now }
{
    match message {
        Message::Write { envelope, .. } => is_known(view, envelope),
        Message::ReadAnswer { envelope, .. } => match envelope {
            Some(envelope) => is_known(view, envelope),
            None => true,
        },
        _ => true,
    }
}

/// Whether an honest member could have sent the message to this one, which has this view: another member of the view sent it,
/// each group has the sender's own records and needs those before them, and nothing names an identity that was not given, or
/// a view that is not there.
///
/// What a group's delta names beside its origin, and who wrote a register, is not tested: they bring no record of anyone.
pub fn accepts<T: Replica>(view: &View, id: Id, from: Id, message: &Message<T>) -> bool
    ensures { result ≡ is_accepted T.mentioned view.now id from message.now }
{
    is_sender(view, id, from)
        && are_own(view, from, message.groups())
        && are_known(view, message.entries())
        && brings_known(view, message)
}
