ghost use Rattle.std.specs.Prelude.{◌≡◌, ◌≤◌, ◌&&◌, ◌||◌, not, nat_eq, length, find, option_map, IfOk};
ghost use Rattle.std.specs.Str.{bytes_eq};
ghost use Rattle.member_node.specs.Keys.{AreDistinctKeys};
ghost use Rattle.member_node.specs.Gossip.{TellsAlike, MeansComparison, after_told, MeansNews, MeansWants, GossipsIfOk, AnswersDigestsIfOk, MeansDigests, MeansStatus};

use crate::key::KeyState;
use base_bytes::{Items, Memory, Text};
use base_vectors::Id;
use data_lattice::{Replica, SpelledData};
use member_messages::{Digest, Digests, Entries, Keyed, Message, Post, Posts, Texts};
use std::alloc::Global;

/// The digest that is told of a key.
pub(crate) fn told_of(digests: &[Keyed<Digest>], key: &Text) -> Option<Digest>
    ensures { result ≡ option_map (λ told. told.item) (find (λ told. bytes_eq told.key key.now) digests.now) }
{
    match digests
        .iter()
        .find(|told| told.key.as_str() == key.as_str())
    {
        Some(told) => Some(told.item),
        None => None,
    }
}

/// Whether a digest is told, and is the one of the key's entry, which is made only then, if none is kept.
fn is_alike<T: SpelledData>(state: &KeyState<T>, told: Option<Digest>) -> Result<bool, Memory>
    ensures { IfOk result (TellsAlike T.Replica T.SpelledData.own state.now told) }
{
    match told {
        Some(told) => Ok(told == state.entry.digest()?),
        None => Ok(false),
    }
}

/// How a key stands to the digests that another told.
#[derive(Clone, Copy)]
pub(crate) struct Comparison {
    /// There is an entry that the other does not have alike.
    is_news: bool,
    /// The other told an entry that the member does not have alike.
    is_wanted: bool,
}

/// By whether there are records, whether a digest was told, and whether it is the own one.
fn compared(has_records: bool, was_told: bool, is_alike: bool) -> Comparison
    ensures news { result.is_news ≡ (has_records && not is_alike) }
    ensures wanted { result.is_wanted ≡ (was_told && (not has_records || not is_alike)) }
{
    Comparison {
        is_news: has_records && !is_alike,
        is_wanted: was_told && (!has_records || !is_alike),
    }
}

/// How a key stands to the digests that another told. Its own digest is made at most once.
fn compare<T: SpelledData>(
    state: &KeyState<T>,
    digests: &[Keyed<Digest>],
) -> Result<Comparison, Memory>
    ensures { IfOk result (MeansComparison T.Replica T.SpelledData.own state.now digests.now) }
{
    let told = told_of(digests, &state.name);
    let is_alike = is_alike(state, told)?;
    let has_records = state.entry.envelope().has_records();
    Ok(compared(has_records, told.is_some(), is_alike))
}

/// The digests without the first, where it is of this key. Members tell their keys in one order, so that of the next key then
/// comes first.
fn after<'a>(digests: &'a [Keyed<Digest>], key: &Text) -> &'a [Keyed<Digest>]
    ensures { result.now ≡ after_told key.now digests.now }
{
    match digests.split_first() {
        Some((told, rest)) if told.key.as_str() == key.as_str() => rest,
        _ => digests,
    }
}

/// What a member answers to digests: entries, and keys that it wants.
#[derive(Drop)]
struct Differences<T: Replica> {
    entries: Entries<T>,
    wants: Texts,
}

/// The entries that another does not have alike, and the keys that the member does not have alike.
fn news<T: SpelledData>(
    alloc: Global,
    keys: &[KeyState<T>],
    digests: &[Keyed<Digest>],
) -> Result<Differences<T>, Memory>
    requires distinct { AreDistinctKeys keys.now }
    ensures entries { IfOk result (λ news. MeansNews T.Replica T.SpelledData.own keys.now digests.now news.entries) }
    ensures wants { IfOk result (λ news. MeansWants T.Replica T.SpelledData.own keys.now digests.now news.wants) }
{
    let mut entries = Items::new(alloc);
    let mut wants = Items::new(alloc);
    let mut rest = digests;
    for state in keys {
        let comparison = compare(state, rest)?;
        rest = after(rest, &state.name);
        if comparison.is_news {
            let key = state.name.copied();
            let item = state.entry.envelope().copy(alloc)?;
            entries.push(Keyed { key, item })?;
        }
        if comparison.is_wanted {
            let name = state.name.copied();
            wants.push(name)?;
        }
    }
    Ok(Differences { entries, wants })
}

/// Whether there is neither an entry nor a key that is wanted.
fn is_nothing<T: Replica>(entries: &Entries<T>, wants: &Texts) -> bool
    ensures { result ≡ (nat_eq (length entries.now) 0 && nat_eq (length wants.now) 0) }
{
    entries.is_empty() && wants.is_empty()
}

/// Entries, and keys that the member wants, as a message, if there is any.
fn gossip<T: Replica>(
    alloc: Global,
    to: Id,
    entries: Entries<T>,
    wants: Texts,
) -> Result<Posts<T>, Memory>
    ensures image { GossipsIfOk T.Replica to entries wants result }
    ensures few { IfOk result (λ posts. length posts ≤ 1) }
{
    let mut posts = Items::new(alloc);
    if is_nothing(&entries, &wants) {
        return Ok(posts);
    }
    let message = Message::Gossip { entries, wants };
    posts.push(Post { to, message })?;
    Ok(posts)
}

/// The answer to digests that another told: what it does not have alike, and what the member does not, if there is any.
pub(crate) fn answer<T: SpelledData>(
    alloc: Global,
    keys: &[KeyState<T>],
    from: Id,
    digests: &[Keyed<Digest>],
) -> Result<Posts<T>, Memory>
    requires distinct { AreDistinctKeys keys.now }
    ensures image { AnswersDigestsIfOk T.Replica T.SpelledData.own from keys.now digests.now result }
    ensures few { IfOk result (λ posts. length posts ≤ 1) }
{
    let news = news(alloc, keys, digests)?;
    let Differences { entries, wants } = news;
    gossip(alloc, from, entries, wants)
}

/// The digests of the entries that have records.
fn digests<T: SpelledData>(alloc: Global, keys: &[KeyState<T>]) -> Result<Digests, Memory>
    ensures { IfOk result (MeansDigests T.Replica T.SpelledData.own keys.now) }
{
    let mut digests = Items::new(alloc);
    for state in keys {
        if state.entry.envelope().has_records() {
            let key = state.name.copied();
            let item = state.entry.digest()?;
            digests.push(Keyed { key, item })?;
        }
    }
    Ok(digests)
}

/// The status for another member.
pub(crate) fn status<T: SpelledData>(
    alloc: Global,
    keys: &[KeyState<T>],
    to: Id,
) -> Result<Posts<T>, Memory>
    ensures image { IfOk result (MeansStatus T.Replica T.SpelledData.own to keys.now) }
    ensures few { IfOk result (λ posts. length posts ≤ 1) }
{
    let digests = digests(alloc, keys)?;
    let mut posts = Items::new(alloc);
    let message = Message::Status { digests };
    posts.push(Post { to, message })?;
    Ok(posts)
}
