ghost use Rattle.std.specs.Prelude.{◌≡◌, ℕ, ◌<◌, ◌≤◌, ◌^◌, List, length, drop};
ghost use Rattle.base_bytes.specs.Fields.{Gives};
ghost use Rattle.base_bytes.specs.Spelling.{GivesAt};
ghost use Rattle.member_codec.specs.Numbers.{span_spelled, span_in, IsSpan, digest_spelled, digest_in, IsDigest};
ghost use Rattle.member_codec.specs.NumberLaws as laws;

use crate::piece::Piece;
use base_bytes::{Fault, FieldError, Memory, ReadError, Spelled, keep, placed, read_number};
use member_messages::Digest;
use std::alloc::Global;

/// An origin's records after one number and up to another.
#[derive(Clone, Copy, Debug, PartialEq, Eq)]
pub(crate) struct Span {
    pub(crate) after: u64,
    pub(crate) upto: u64,
    ghost numbers: { (after < upto) × (upto ≤ 2 ^ 62) },
}

/// The numbers of records are at most this.
const MOST_SEQ: u64 = 0x4000_0000_0000_0000;

/// Two numbers of records, the second above the first, and the bytes after them.
#[tactic(auto, unfolding(crate::specs::Numbers::span_in))]
fn read_span(bytes: &[u8]) -> Result<((u64, u64), &[u8]), FieldError>
    ensures { Gives (λ x. (x.0, x.1.now)) result (span_in bytes.now) }
{
    let (after, rest) = read_number(bytes)?;
    let (upto, left) = read_number(rest)?;
    keep(after < upto && upto <= MOST_SEQ, rest)?;
    Ok(((after, upto), left))
}

/// Two numbers of records at a place, and the place after them.
fn span_at(from: &[u8], place: usize) -> Result<((u64, u64), usize), ReadError>
    requires { place ≤ length from.now }
    ensures { GivesAt (length from.now) result (span_in (drop place from.now)) }
{
    placed(from.len(), read_span(&from[place..]))
}

impl Piece for Span {
    ghost Parts = { ℕ × ℕ };

    ghost parts = { λ span. (span.after, span.upto) };

    ghost IsSound = { IsSpan };

    ghost spelled = { span_spelled };

    ghost piece_in = { span_in };

    fn put(&self, into: &mut Vec<u8>) -> Result<(), Memory> {
        self.after.spell(into)?;
        self.upto.spell(into)
    }

    fn take(_alloc: Global, from: &[u8], place: usize) -> Result<(Span, usize), ReadError> {
        match span_at(from, place) {
            Ok(((after, upto), next)) => Ok((Span { after, upto }, next)),
            Err(error) => Err(error),
        }
    }

    ghost spells = { laws.span_spells };
}

/// A digest, and the bytes after it.
#[tactic(auto, unfolding(crate::specs::Numbers::digest_in))]
fn read_digest(bytes: &[u8]) -> Result<(Digest, &[u8]), FieldError>
    ensures { Gives (λ x. (x.0, x.1.now)) result (digest_in bytes.now) }
{
    if bytes.len() < 20 {
        return Err(FieldError::Fault(Fault::Short(bytes.len())));
    }
    let (front, rest) = bytes.split_at(20);
    let mut digest = [0; 20];
    digest.copy_from_slice(front);
    Ok((digest, rest))
}

/// A digest at a place, and the place after it.
fn digest_at(from: &[u8], place: usize) -> Result<(Digest, usize), ReadError>
    requires { place ≤ length from.now }
    ensures { GivesAt (length from.now) result (digest_in (drop place from.now)) }
{
    placed(from.len(), read_digest(&from[place..]))
}

impl Piece for Digest {
    ghost Parts = { List ℕ };

    ghost parts = { λ digest. digest };

    ghost IsSound = { IsDigest };

    ghost spelled = { digest_spelled };

    ghost piece_in = { digest_in };

    fn put(&self, into: &mut Vec<u8>) -> Result<(), Memory> {
        Ok(into.extend_from_slice(self)?)
    }

    fn take(_alloc: Global, from: &[u8], place: usize) -> Result<(Digest, usize), ReadError> {
        digest_at(from, place)
    }

    ghost spells = { laws.digest_spells };
}
