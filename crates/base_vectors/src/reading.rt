ghost use Rattle.std.specs.Prelude.{◌≡◌, ◌≤◌, IfOk};
ghost use Rattle.std.specs.FinMap as map;
ghost use Rattle.base_bytes.specs.Fields.{Gives};
ghost use Rattle.base_vectors.specs.Fields.{identity_in};
ghost use Rattle.base_vectors.specs.IdSets.{members_in};
ghost use Rattle.base_vectors.specs.Spelling.{nobody, pair_in, pairs_in, raised_by, numbers_in, members_from, added_by, ids_in};

use crate::fields::{read_identity, read_positive};
use crate::id::{IDENTITIES, Id};
use crate::id_set::IdSet;
use crate::numbers::Numbers;
use base_bytes::{FieldError, keep, read_byte};
use std::alloc::Global;

/// An identity and its number.
#[tactic(auto, unfolding(crate::specs::Spelling::pair_in))]
fn read_pair(
    most: u64,
    barred: IdSet,
    least: u8,
    bytes: &[u8],
) -> Result<((Id, u64), &[u8]), FieldError>
    ensures { Gives (λ x. (x.0, x.1.now)) result (pair_in most (members_in barred) least bytes.now) }
{
    match read_identity(least, barred, bytes) {
        Ok((id, rest)) => {
            let (number, rest) = read_positive(most, rest)?;
            Ok(((id, number), rest))
        }
        Err(error) => Err(error),
    }
}

/// So many identities, rising, and their numbers.
fn read_pairs(
    alloc: Global,
    most: u64,
    barred: IdSet,
    count: u8,
    bytes: &[u8],
) -> Result<(Numbers, &[u8]), FieldError>
    ensures { Gives (λ x. (x.0, x.1.now)) result (raised_by map.empty (pairs_in most (members_in barred) 0 count bytes.now)) }
{
    let mut numbers = Numbers::new(alloc);
    let mut least = 0;
    let mut rest = bytes;
    for _ in 0..count {
        match read_pair(most, barred, least, rest) {
            Ok((pair, after)) => {
                numbers.raise(pair.0, pair.1)?;
                least = pair.0.number() + 1;
                rest = after;
            }
            Err(error) => return Err(error),
        }
    }
    Ok((numbers, rest))
}

/// The number of pairs, and the pairs.
#[tactic(auto, unfolding(crate::specs::Spelling::numbers_in))]
pub(crate) fn read_numbers(
    alloc: Global,
    most: u64,
    barred: IdSet,
    bytes: &[u8],
) -> Result<(Numbers, &[u8]), FieldError>
    ensures { Gives (λ x. (x.0, x.1.now)) result (numbers_in most (members_in barred) bytes.now) }
{
    let (count, rest) = read_byte(bytes)?;
    keep(count <= IDENTITIES, bytes)?;
    read_pairs(alloc, most, barred, count, rest)
}

/// An identity, whoever it is.
fn read_member(least: u8, bytes: &[u8]) -> Result<(Id, &[u8]), FieldError>
    ensures { Gives (λ x. (x.0, x.1.now)) result (identity_in least nobody bytes.now) }
{
    read_identity(least, IdSet::empty(), bytes)
}

/// A set of so many identities, rising.
fn read_members(count: u8, bytes: &[u8]) -> Result<(IdSet, &[u8]), FieldError>
    ensures { Gives (λ x. (x.0, x.1.now)) result (added_by 0 (members_from 0 count bytes.now)) }
{
    let mut set = IdSet::empty();
    let mut least = 0;
    let mut rest = bytes;
    for _ in 0..count {
        match read_member(least, rest) {
            Ok(found) => {
                set = set.with(found.0);
                least = found.0.number() + 1;
                rest = found.1;
            }
            Err(error) => return Err(error),
        }
    }
    Ok((set, rest))
}

/// The number of members, and the members.
#[tactic(auto, unfolding(crate::specs::Spelling::ids_in))]
pub(crate) fn read_ids(bytes: &[u8]) -> Result<(IdSet, &[u8]), FieldError>
    ensures { Gives (λ x. (x.0, x.1.now)) result (ids_in bytes.now) }
{
    let (count, rest) = read_byte(bytes)?;
    keep(1 <= count, bytes)?;
    read_members(count, rest)
}
