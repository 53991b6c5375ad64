ghost use Rattle.std.specs.Prelude.{◌≡◌, ◌≤◌, ◌++◌, length, drop, IfOk, OnOk};
ghost use Rattle.data_envelope.specs.Images.{GroupParts};
ghost use Rattle.data_envelope.specs.Words.{group_parts};
ghost use Rattle.base_places.specs.Places.{GivesOn};
ghost use Rattle.member_codec.specs.Groups.{before_in, change_in, group_in, group_spelled, IsSoundGroup};
ghost use Rattle.member_codec.specs.GroupLaws as laws;

use crate::lists::take_both;
use crate::numbers::Span;
use crate::piece::Piece;
use base_bytes::{Memory, ReadError};
use base_places::read_at;
use base_vectors::{Id, VersionVector};
use data_delta_codec::SpelledDelta;
use data_envelope::Group;
use std::alloc::Global;

/// The byte that tells what a delta is, and the delta, which is of an origin, at a place, and the place after them.
fn read_change<T: SpelledDelta>(
    alloc: Global,
    origin: Id,
    from: &[u8],
    place: usize,
) -> Result<(T::Delta, usize), ReadError>
    requires { place ≤ length from.now }
    ensures within { IfOk result (λ x. x.1 ≤ length from.now) }
    ensures of_origin { IfOk result (λ x. T.IsOfOrigin x.0 origin) }
    ensures exact { GivesOn from.now (λ x. x) result (change_in T.is_delta_byte T.delta_in origin (drop place from.now)) }
{
    match read_at::<u8>(alloc, from, place) {
        Ok((kind, middle)) => {
            if !T::is_delta(kind) {
                return Err(ReadError::BadByte(place));
            }
            T::read_delta(alloc, kind, origin, from, middle)
        }
        Err(error) => Err(error),
    }
}

/// What stands before the delta of a group: the origin, the numbers, and what is needed.
#[derive(Drop)]
struct Front {
    origin: Id,
    span: Span,
    needs: VersionVector,
}

/// What stands before the delta of a group at a place, and the place after it.
fn take_front(alloc: Global, from: &[u8], place: usize) -> Result<(Front, usize), ReadError>
    requires { place ≤ length from.now }
    ensures within { IfOk result (λ x. x.1 ≤ length from.now) }
    ensures exact { GivesOn from.now (λ front. (front.origin, ((front.span.after, front.span.upto), front.needs))) result (before_in (drop place from.now)) }
{
    match take_both::<Id, (Span, VersionVector)>(alloc, from, place) {
        Ok(((origin, (span, needs)), next)) => {
            let front = Front {
                origin,
                span,
                needs,
            };
            Ok((front, next))
        }
        Err(error) => Err(error),
    }
}

impl<T: SpelledDelta> Piece for Group<T> {
    ghost Parts = { GroupParts T.Delta };

    ghost parts = { group_parts };

    ghost IsSound = { IsSoundGroup T.IsSoundDelta T.IsOfOrigin };

    ghost spelled = { group_spelled T.delta_byte T.delta_spelled };

    ghost piece_in = { group_in T.is_delta_byte T.delta_in };

    fn put(&self, into: &mut Vec<u8>) -> Result<(), Memory> {
        let span = Span {
            after: self.after,
            upto: self.upto,
        };
        self.origin.put(into)?;
        span.put(into)?;
        self.needs.put(into)?;
        into.push(T::delta_kind(&self.delta))?;
        T::spell_delta(&self.delta, into)
    }

    fn take(alloc: Global, from: &[u8], place: usize) -> Result<(Group<T>, usize), ReadError> {
        match take_front(alloc, from, place) {
            Ok((front, middle)) => {
                match read_change::<T>(alloc, front.origin, from, middle) {
                    Ok((delta, next)) => {
                        let group = Group {
                            origin: front.origin,
                            after: front.span.after,
                            upto: front.span.upto,
                            needs: front.needs,
                            delta,
                        };
                        Ok((group, next))
                    }
                    Err(error) => Err(error),
                }
            }
            Err(error) => Err(error),
        }
    }

    ghost spells = { laws.group_spells T.is_delta_byte T.delta_byte T.delta_spelled T.delta_in T.IsSoundDelta T.IsOfOrigin T.delta_read_is_spelled T.delta_spelled_is_read T.delta_is_known };
}
