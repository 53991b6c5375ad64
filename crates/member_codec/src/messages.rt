ghost use Rattle.std.specs.Prelude.{◌≡◌, ℕ, ◌≤◌, ◌++◌, List, length, drop, true, false, map, Ok, IfOk, OnOk, IfNone, IfSome};
ghost use Rattle.data_envelope.specs.Images.{Parts, GroupParts};
ghost use Rattle.data_codec.specs.Envelopes.{parts_in, envelope_spelled, IsEnvelope};
ghost use Rattle.base_places.specs.Places.{GivesOn};
ghost use Rattle.member_messages.specs.declared.sketch.MessageKind.TheVariants as kind;
ghost use Rattle.data_envelope.specs.Words.{parts_of, group_parts};
ghost use Rattle.base_places.specs.Lists.{AreSound, list_spelled, list_in};
ghost use Rattle.member_codec.specs.Numbers.{IsDigest, digest_spelled, digest_in};
ghost use Rattle.member_codec.specs.Keyed.{keyed_as, IsSoundKeyed, keyed_spelled, keyed_in};
ghost use Rattle.member_codec.specs.Groups.{group_in, group_spelled, IsSoundGroup};
ghost use Rattle.member_codec.specs.Messages.MessageParts.{Deltas, Gossip};
ghost use Rattle.member_codec.specs.Messages.{message_parts, byte_of, is_kind, kind_at, kind_of, body_spelled, message_spelled, IsMessage, body_in, kind_in, message_in};

use crate::lists::{put_both, put_three, take_both};
use crate::piece::Piece;
use base_bytes::{Memory, ReadError, Text};
use base_places::read_at;
use data_delta_codec::SpelledDelta;
use data_envelope::Envelope;
use member_messages::{Digests, Entries, Groups, Message, MessageKind, Texts};
use std::alloc::Global;

/// The byte of the message's kind.
fn byte_of<T: SpelledDelta>(message: &Message<T>) -> u8
    ensures { result ≡ byte_of (kind_of (message_parts message.now)) }
{
    match message {
        Message::Deltas { .. } => 1,
        Message::Nack { .. } => 2,
        Message::Status { .. } => 3,
        Message::Gossip { .. } => 4,
        Message::Write { .. } => 5,
        Message::WriteAck { .. } => 6,
        Message::WriteNack { .. } => 7,
        Message::Read { .. } => 8,
        Message::ReadAnswer { .. } => 9,
    }
}

/// Appends the spellings of groups, and of entries.
fn put_deltas<T: SpelledDelta>(
    groups: &Groups<T>,
    entries: &Entries<T>,
    into: &mut Vec<u8>,
) -> Result<(), Memory>
    ensures readable { OnOk result (IsMessage (IsEnvelope T.IsSound T.mentioned) (IsSoundGroup T.IsSoundDelta T.IsOfOrigin) (Deltas (map (keyed_as group_parts) groups.now) (map (keyed_as parts_of) entries.now))) }
    ensures value { OnOk result (into.new.items ≡ into.old.items ++ body_spelled (envelope_spelled T.byte_of T.spelled) (group_spelled T.delta_byte T.delta_spelled) (Deltas (map (keyed_as group_parts) groups.now) (map (keyed_as parts_of) entries.now))) }
{
    put_both(groups, entries, into)
}

/// Appends the spellings of entries, and of keys.
fn put_gossip<T: SpelledDelta>(
    entries: &Entries<T>,
    wants: &Texts,
    into: &mut Vec<u8>,
) -> Result<(), Memory>
    ensures readable { OnOk result (IsMessage (IsEnvelope T.IsSound T.mentioned) (IsSoundGroup T.IsSoundDelta T.IsOfOrigin) (Gossip (map (keyed_as parts_of) entries.now) wants.now)) }
    ensures value { OnOk result (into.new.items ≡ into.old.items ++ body_spelled (envelope_spelled T.byte_of T.spelled) (group_spelled T.delta_byte T.delta_spelled) (Gossip (map (keyed_as parts_of) entries.now) wants.now)) }
{
    put_both(entries, wants, into)
}

/// Appends the spelling of digests.
fn put_digests(digests: &Digests, into: &mut Vec<u8>) -> Result<(), Memory>
    ensures readable { OnOk result (AreSound (IsSoundKeyed IsDigest) digests.now) }
    ensures value { OnOk result (into.new.items ≡ into.old.items ++ list_spelled (keyed_spelled digest_spelled) digests.now) }
{
    digests.put(into)
}

/// Digests at a place, and the place after them.
fn take_digests(alloc: Global, from: &[u8], place: usize) -> Result<(Digests, usize), ReadError>
    requires { place ≤ length from.now }
    ensures within { IfOk result (λ x. x.1 ≤ length from.now) }
    ensures exact { GivesOn from.now (λ x. x) result (list_in (keyed_in digest_in) (drop place from.now)) }
{
    <Digests as Piece>::take(alloc, from, place)
}

/// Appends the spelling of what a message brings. After a refusal a part of it may have been appended.
fn put_body<T: SpelledDelta>(message: &Message<T>, into: &mut Vec<u8>) -> Result<(), Memory>
    ensures readable { OnOk result (IsMessage (IsEnvelope T.IsSound T.mentioned) (IsSoundGroup T.IsSoundDelta T.IsOfOrigin) (message_parts message.now)) }
    ensures value { OnOk result (into.new.items ≡ into.old.items ++ body_spelled (envelope_spelled T.byte_of T.spelled) (group_spelled T.delta_byte T.delta_spelled) (message_parts message.now)) }
{
    match message {
        Message::Deltas { groups, entries } => put_deltas(groups, entries, into),
        Message::Nack { keys } => keys.put(into),
        Message::Status { digests } => put_digests(digests, into),
        Message::Gossip { entries, wants } => put_gossip(entries, wants, into),
        Message::Write { op, key, envelope } => put_three(op, key, envelope, into),
        Message::WriteAck { op } => op.put(into),
        Message::WriteNack { op } => op.put(into),
        Message::Read { op, key } => put_both(op, key, into),
        Message::ReadAnswer { op, key, envelope } => put_three(op, key, envelope, into),
    }
}

/// Appends the spelling of a message. After a refusal a part of it may have been appended.
pub(crate) fn put_message<T: SpelledDelta>(
    message: &Message<T>,
    into: &mut Vec<u8>,
) -> Result<(), Memory>
    ensures readable { OnOk result (IsMessage (IsEnvelope T.IsSound T.mentioned) (IsSoundGroup T.IsSoundDelta T.IsOfOrigin) (message_parts message.now)) }
    ensures value { OnOk result (into.new.items ≡ into.old.items ++ message_spelled (envelope_spelled T.byte_of T.spelled) (group_spelled T.delta_byte T.delta_spelled) (message_parts message.now)) }
{
    into.push(1)?;
    into.push(byte_of(message))?;
    put_body(message, into)
}

/// Groups, and whole entries, at a place, and the place after it.
fn take_deltas<T: SpelledDelta>(
    alloc: Global,
    from: &[u8],
    place: usize,
) -> Result<(Message<T>, usize), ReadError>
    requires { place ≤ length from.now }
    ensures within { IfOk result (λ x. x.1 ≤ length from.now) }
    ensures exact { GivesOn from.now message_parts result (body_in (parts_in T.is_known T.read_in 1) (group_in T.is_delta_byte T.delta_in) kind.Deltas (drop place from.now)) }
{
    match take_both::<Groups<T>, Entries<T>>(alloc, from, place) {
        Ok(((groups, entries), next)) => Ok((Message::Deltas { groups, entries }, next)),
        Err(error) => Err(error),
    }
}

/// Keys at which records were lacking, at a place, and the place after it.
fn take_nack<T: SpelledDelta>(
    alloc: Global,
    from: &[u8],
    place: usize,
) -> Result<(Message<T>, usize), ReadError>
    requires { place ≤ length from.now }
    ensures within { IfOk result (λ x. x.1 ≤ length from.now) }
    ensures exact { GivesOn from.now message_parts result (body_in (parts_in T.is_known T.read_in 1) (group_in T.is_delta_byte T.delta_in) kind.Nack (drop place from.now)) }
{
    match <Texts as Piece>::take(alloc, from, place) {
        Ok((keys, next)) => Ok((Message::Nack { keys }, next)),
        Err(error) => Err(error),
    }
}

/// Digests, at a place, and the place after it.
fn take_status<T: SpelledDelta>(
    alloc: Global,
    from: &[u8],
    place: usize,
) -> Result<(Message<T>, usize), ReadError>
    requires { place ≤ length from.now }
    ensures within { IfOk result (λ x. x.1 ≤ length from.now) }
    ensures exact { GivesOn from.now message_parts result (body_in (parts_in T.is_known T.read_in 1) (group_in T.is_delta_byte T.delta_in) kind.Status (drop place from.now)) }
{
    match take_digests(alloc, from, place) {
        Ok((digests, next)) => Ok((Message::Status { digests }, next)),
        Err(error) => Err(error),
    }
}

/// Whole entries, and keys that are wanted, at a place, and the place after it.
fn take_gossip<T: SpelledDelta>(
    alloc: Global,
    from: &[u8],
    place: usize,
) -> Result<(Message<T>, usize), ReadError>
    requires { place ≤ length from.now }
    ensures within { IfOk result (λ x. x.1 ≤ length from.now) }
    ensures exact { GivesOn from.now message_parts result (body_in (parts_in T.is_known T.read_in 1) (group_in T.is_delta_byte T.delta_in) kind.Gossip (drop place from.now)) }
{
    match take_both::<Entries<T>, Texts>(alloc, from, place) {
        Ok(((entries, wants), next)) => Ok((Message::Gossip { entries, wants }, next)),
        Err(error) => Err(error),
    }
}

/// An entry under the number of an operation, at a place, and the place after it.
fn take_write<T: SpelledDelta>(
    alloc: Global,
    from: &[u8],
    place: usize,
) -> Result<(Message<T>, usize), ReadError>
    requires { place ≤ length from.now }
    ensures within { IfOk result (λ x. x.1 ≤ length from.now) }
    ensures exact { GivesOn from.now message_parts result (body_in (parts_in T.is_known T.read_in 1) (group_in T.is_delta_byte T.delta_in) kind.Write (drop place from.now)) }
{
    match take_both::<u64, (Text, Envelope<T>)>(alloc, from, place) {
        Ok(((op, (key, envelope)), next)) => Ok((Message::Write { op, key, envelope }, next)),
        Err(error) => Err(error),
    }
}

/// That an entry was taken, at a place, and the place after it.
fn take_write_ack<T: SpelledDelta>(
    alloc: Global,
    from: &[u8],
    place: usize,
) -> Result<(Message<T>, usize), ReadError>
    requires { place ≤ length from.now }
    ensures within { IfOk result (λ x. x.1 ≤ length from.now) }
    ensures exact { GivesOn from.now message_parts result (body_in (parts_in T.is_known T.read_in 1) (group_in T.is_delta_byte T.delta_in) kind.WriteAck (drop place from.now)) }
{
    match <u64 as Piece>::take(alloc, from, place) {
        Ok((op, next)) => Ok((Message::WriteAck { op }, next)),
        Err(error) => Err(error),
    }
}

/// That an entry was taken and not stored, at a place, and the place after it.
fn take_write_nack<T: SpelledDelta>(
    alloc: Global,
    from: &[u8],
    place: usize,
) -> Result<(Message<T>, usize), ReadError>
    requires { place ≤ length from.now }
    ensures within { IfOk result (λ x. x.1 ≤ length from.now) }
    ensures exact { GivesOn from.now message_parts result (body_in (parts_in T.is_known T.read_in 1) (group_in T.is_delta_byte T.delta_in) kind.WriteNack (drop place from.now)) }
{
    match <u64 as Piece>::take(alloc, from, place) {
        Ok((op, next)) => Ok((Message::WriteNack { op }, next)),
        Err(error) => Err(error),
    }
}

/// A key under the number of an operation, at a place, and the place after it.
fn take_read<T: SpelledDelta>(
    alloc: Global,
    from: &[u8],
    place: usize,
) -> Result<(Message<T>, usize), ReadError>
    requires { place ≤ length from.now }
    ensures within { IfOk result (λ x. x.1 ≤ length from.now) }
    ensures exact { GivesOn from.now message_parts result (body_in (parts_in T.is_known T.read_in 1) (group_in T.is_delta_byte T.delta_in) kind.Read (drop place from.now)) }
{
    match take_both::<u64, Text>(alloc, from, place) {
        Ok(((op, key), next)) => Ok((Message::Read { op, key }, next)),
        Err(error) => Err(error),
    }
}

/// An entry, if there is one, under the number of an operation, at a place, and the place after it.
fn take_read_answer<T: SpelledDelta>(
    alloc: Global,
    from: &[u8],
    place: usize,
) -> Result<(Message<T>, usize), ReadError>
    requires { place ≤ length from.now }
    ensures within { IfOk result (λ x. x.1 ≤ length from.now) }
    ensures exact { GivesOn from.now message_parts result (body_in (parts_in T.is_known T.read_in 1) (group_in T.is_delta_byte T.delta_in) kind.ReadAnswer (drop place from.now)) }
{
    match take_both::<u64, (Text, Option<Envelope<T>>)>(alloc, from, place) {
        Ok(((op, (key, envelope)), next)) => Ok((Message::ReadAnswer { op, key, envelope }, next)),
        Err(error) => Err(error),
    }
}

/// What a message of a kind brings, at a place, and the place after it.
fn take_body<T: SpelledDelta>(
    alloc: Global,
    kind: MessageKind,
    from: &[u8],
    place: usize,
) -> Result<(Message<T>, usize), ReadError>
    requires { place ≤ length from.now }
    ensures within { IfOk result (λ x. x.1 ≤ length from.now) }
    ensures exact { GivesOn from.now message_parts result (body_in (parts_in T.is_known T.read_in 1) (group_in T.is_delta_byte T.delta_in) kind (drop place from.now)) }
{
    match kind {
        MessageKind::Deltas => take_deltas(alloc, from, place),
        MessageKind::Nack => take_nack(alloc, from, place),
        MessageKind::Status => take_status(alloc, from, place),
        MessageKind::Gossip => take_gossip(alloc, from, place),
        MessageKind::Write => take_write(alloc, from, place),
        MessageKind::WriteAck => take_write_ack(alloc, from, place),
        MessageKind::WriteNack => take_write_nack(alloc, from, place),
        MessageKind::Read => take_read(alloc, from, place),
        MessageKind::ReadAnswer => take_read_answer(alloc, from, place),
    }
}

/// The kind of a byte, if it is one's.
fn kind_of(byte: u8) -> Option<MessageKind>
    ensures none { IfNone result (is_kind byte ≡ false) }
    ensures some { IfSome result (λ _kind. is_kind byte ≡ true) }
    ensures value { IfSome result (λ kind. kind ≡ kind_at byte) }
{
    match byte {
        1 => Some(MessageKind::Deltas),
        2 => Some(MessageKind::Nack),
        3 => Some(MessageKind::Status),
        4 => Some(MessageKind::Gossip),
        5 => Some(MessageKind::Write),
        6 => Some(MessageKind::WriteAck),
        7 => Some(MessageKind::WriteNack),
        8 => Some(MessageKind::Read),
        9 => Some(MessageKind::ReadAnswer),
        _ => None,
    }
}

/// A message behind its format, at a place, and the place after it.
fn take_kind<T: SpelledDelta>(
    alloc: Global,
    from: &[u8],
    place: usize,
) -> Result<(Message<T>, usize), ReadError>
    requires { place ≤ length from.now }
    ensures within { IfOk result (λ x. x.1 ≤ length from.now) }
    ensures exact { GivesOn from.now message_parts result (kind_in (parts_in T.is_known T.read_in 1) (group_in T.is_delta_byte T.delta_in) (drop place from.now)) }
{
    match read_at::<u8>(alloc, from, place) {
        Ok((byte, next)) => match kind_of(byte) {
            Some(kind) => take_body(alloc, kind, from, next),
            None => Err(ReadError::BadByte(place)),
        },
        Err(error) => Err(error),
    }
}

/// The message that is spelled at a place, and the place after it; else the place of the first field that is cut short or
/// breaks its rule.
pub(crate) fn take_message<T: SpelledDelta>(
    alloc: Global,
    from: &[u8],
    place: usize,
) -> Result<(Message<T>, usize), ReadError>
    requires { place ≤ length from.now }
    ensures within { IfOk result (λ x. x.1 ≤ length from.now) }
    ensures exact { GivesOn from.now message_parts result (message_in (parts_in T.is_known T.read_in 1) (group_in T.is_delta_byte T.delta_in) (drop place from.now)) }
{
    match read_at::<u8>(alloc, from, place) {
        Ok((format, next)) => {
            if format != 1 {
                return Err(ReadError::BadByte(place));
            }
            take_kind(alloc, from, next)
        }
        Err(error) => Err(error),
    }
}
