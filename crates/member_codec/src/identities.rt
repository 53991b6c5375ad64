ghost use Rattle.std.specs.Prelude.{◌≡◌, ℕ, ◌≤◌, ◌^◌, length, drop};
ghost use Rattle.base_bytes.specs.Fields.{Gives};
ghost use Rattle.base_bytes.specs.Spelling.{GivesAt};
ghost use Rattle.base_vectors.specs.Fields.{identity_in};
ghost use Rattle.base_vectors.specs.FieldLaws.{IsAllowed};
ghost use Rattle.base_vectors.specs.Spelling.{nobody, numbers_in, AreSpellable};
ghost use Rattle.base_vectors.specs.Vectors.{Numbers};
ghost use Rattle.member_codec.specs.Identities.{identity_spelled, versions_spelled};
ghost use Rattle.member_codec.specs.IdentityLaws as laws;

use crate::piece::Piece;
use base_bytes::{FieldError, Memory, ReadError, Spelled, placed};
use base_vectors::{Id, IdSet, VersionVector, read_identity};
use std::alloc::Global;

/// An identity, whoever it is, and the bytes after it.
fn read_anybody(bytes: &[u8]) -> Result<(Id, &[u8]), FieldError>
    ensures { Gives (λ x. (x.0, x.1.now)) result (identity_in 0 nobody bytes.now) }
{
    read_identity(0, IdSet::empty(), bytes)
}

/// An identity at a place, and the place after it.
fn identity_at(from: &[u8], place: usize) -> Result<(Id, usize), ReadError>
    requires { place ≤ length from.now }
    ensures { GivesAt (length from.now) result (identity_in 0 nobody (drop place from.now)) }
{
    match read_anybody(&from[place..]) {
        Ok((id, rest)) => Ok((id, from.len().saturating_sub(rest.len()))),
        Err(error) => Err(error.at_place(from.len())),
    }
}

impl Piece for Id {
    ghost Parts = { ℕ };

    ghost parts = { λ id. id };

    ghost IsSound = { IsAllowed 0 nobody };

    ghost spelled = { identity_spelled };

    ghost piece_in = { identity_in 0 nobody };

    fn put(&self, into: &mut Vec<u8>) -> Result<(), Memory> {
        let number = self.number();
        number.spell(into)
    }

    fn take(_alloc: Global, from: &[u8], place: usize) -> Result<(Id, usize), ReadError> {
        identity_at(from, place)
    }

    ghost spells = { laws.identity_spells };
}

/// Numbers of records, none of them barred, and the bytes after them.
fn read_versions(alloc: Global, bytes: &[u8]) -> Result<(VersionVector, &[u8]), FieldError>
    ensures { Gives (λ x. (x.0, x.1.now)) result (numbers_in (2 ^ 62) nobody bytes.now) }
{
    VersionVector::read(alloc, IdSet::empty(), bytes)
}

/// Numbers of records at a place, and the place after them.
fn versions_at(
    alloc: Global,
    from: &[u8],
    place: usize,
) -> Result<(VersionVector, usize), ReadError>
    requires { place ≤ length from.now }
    ensures { GivesAt (length from.now) result (numbers_in (2 ^ 62) nobody (drop place from.now)) }
{
    placed(from.len(), read_versions(alloc, &from[place..]))
}

impl Piece for VersionVector {
    ghost Parts = { Numbers };

    ghost parts = { λ versions. versions };

    ghost IsSound = { AreSpellable (2 ^ 62) };

    ghost spelled = { versions_spelled };

    ghost piece_in = { numbers_in (2 ^ 62) nobody };

    fn put(&self, into: &mut Vec<u8>) -> Result<(), Memory> {
        self.spell(into)
    }

    fn take(alloc: Global, from: &[u8], place: usize) -> Result<(VersionVector, usize), ReadError> {
        versions_at(alloc, from, place)
    }

    ghost spells = { laws.versions_spells };
}
