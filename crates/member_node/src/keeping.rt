ghost use Rattle.std.specs.Prelude.{◌≡◌, ◌<◌, IfOk};
ghost use Rattle.member_node.specs.Preparing.{IsSoundFor, Prepares};
ghost use Rattle.member_node.specs.Answerable.{RepliesTo};

use crate::gossip::told_of;
use crate::input::Input;
use crate::key::KeyState;
use crate::node::Node;
use crate::plan::Prepared;
use base_bytes::Memory;
use base_vectors::Id;
use data_lattice::{Replica, SpelledData};
use member_keeper::Keeper;
use member_messages::{Digest, Keyed, Message};

/// Keeps the digest of a key's entry, if the entry has records.
fn keep_if_any<T: SpelledData>(state: &mut KeyState<T>) -> Result<(), Memory>
    ensures { state.new ≡ state.old }
{
    if !state.entry.envelope().has_records() {
        return Ok(());
    }
    state.entry.keep()
}

/// Keeps the digest of each entry that has records.
fn keep_all<T: SpelledData>(keys: &mut [KeyState<T>]) -> Result<(), Memory>
    ensures { keys.new ≡ keys.old }
{
    for state in keys.iter_mut() {
        keep_if_any(state)?;
    }
    Ok(())
}

/// Keeps the digest of a key's entry, if another told one of it.
fn keep_if_told<T: SpelledData>(
    state: &mut KeyState<T>,
    digests: &[Keyed<Digest>],
) -> Result<(), Memory>
    ensures { state.new ≡ state.old }
{
    if told_of(digests, &state.name).is_none() {
        return Ok(());
    }
    state.entry.keep()
}

/// Keeps the digest of each entry of which another told one.
fn keep_told<T: SpelledData>(
    keys: &mut [KeyState<T>],
    digests: &[Keyed<Digest>],
) -> Result<(), Memory>
    ensures { keys.new ≡ keys.old }
{
    for state in keys.iter_mut() {
        keep_if_told(state, digests)?;
    }
    Ok(())
}

/// The keys whose entries' digests a step tells or compares.
enum Needed<'a> {
    /// None.
    Nothing,
    /// Those of all entries that have records.
    All,
    /// Those of which another told a digest.
    Told(&'a [Keyed<Digest>]),
}

/// What a step for a message compares.
fn needed_for_message<T: Replica>(message: &Message<T>) -> Needed<'_> {
    match message {
        Message::Status { digests } => Needed::Told(digests.as_slice()),
        _ => Needed::Nothing,
    }
}

/// What a step for an input tells or compares.
fn needed_for<T: Replica>(input: &Input<T>) -> Needed<'_> {
    match input {
        Input::GossipTo(_) => Needed::All,
        Input::Take { message, .. } => needed_for_message(message),
        _ => Needed::Nothing,
    }
}

/// Keeps the digests that are needed.
fn keep_for<T: SpelledData>(keys: &mut [KeyState<T>], needed: Needed<'_>) -> Result<(), Memory>
    ensures { keys.new ≡ keys.old }
{
    match needed {
        Needed::Nothing => Ok(()),
        Needed::All => keep_all(keys),
        Needed::Told(digests) => keep_told(keys, digests),
    }
}

impl<T: SpelledData, K: Keeper + Drop> Node<T, K> {
    ghost use Rattle.member_node.specs.declared.input.Input.TheVariants as input;

    /// Keeps the digests that are needed. Contracts see nothing of them.
    fn keep_digests(&mut self, needed: Needed<'_>) -> Result<(), Memory>
        ensures { self.new ≡ self.old }
    {
        keep_for(self.keys.as_mut_slice(), needed)
    }

    /// A step for an input, before it is made, once the digests that it tells or compares are kept.
    pub(crate) fn prepare_with_digests(&mut self, input: &Input<T>) -> Result<Prepared<T>, Memory>
        requires { self.old.steps < self.old.limit }
        ensures same { self.new ≡ self.old }
        ensures sound { IfOk result (IsSoundFor self.new) }
        ensures image { IfOk result (Prepares T.SpelledData.own self.new input.now) }
        ensures replies { IfOk result (RepliesTo input.now) }
    {
        self.keep_digests(needed_for(input))?;
        self.prepare(input)
    }

    /// A step for a message, before it is made, once the digests that it compares are kept.
    pub(crate) fn taken_with_digests(
        &mut self,
        from: Id,
        message: &Message<T>,
    ) -> Result<Prepared<T>, Memory>
        ensures same { self.new ≡ self.old }
        ensures sound { IfOk result (IsSoundFor self.new) }
        ensures image { IfOk result (Prepares T.SpelledData.own self.new (input.Take from message.now)) }
        ensures replies { IfOk result (RepliesTo (input.Take from message.now)) }
    {
        self.keep_digests(needed_for_message(message))?;
        self.taken(from, message)
    }
}
