ghost use Rattle.std.specs.Prelude.{◌≡◌};
ghost use Rattle.base_bytes.specs.Fields.{Gives};
ghost use Rattle.base_vectors.specs.Fields.{identity_in, positive_in};
ghost use Rattle.base_vectors.specs.IdSets.{members_in};

use crate::id::{IDENTITIES, Id};
use crate::id_set::IdSet;
use base_bytes::{Fault, FieldError, keep, read_byte, read_number};

/// An identity at the front of these bytes, from a least one on and none that is barred; and the bytes after it.
#[tactic(auto, unfolding(crate::specs::Fields::identity_in))]
pub fn read_identity(least: u8, barred: IdSet, bytes: &[u8]) -> Result<(Id, &[u8]), FieldError>
    ensures { Gives (λ x. (x.0, x.1.now)) result (identity_in least (members_in barred) bytes.now) }
{
    let (number, rest) = read_byte(bytes)?;
    let Some(id) = Id::new(number) else {
        return Err(FieldError::Fault(Fault::BadByte(bytes.len())));
    };
    keep(least <= number && !barred.has(id), bytes)?;
    Ok((id, rest))
}

/// A number at the front of these bytes, from 1 to a greatest one; and the bytes after it.
#[tactic(auto, unfolding(crate::specs::Fields::positive_in))]
pub fn read_positive(most: u64, bytes: &[u8]) -> Result<(u64, &[u8]), FieldError>
    ensures { Gives (λ x. (x.0, x.1.now)) result (positive_in most bytes.now) }
{
    let (number, rest) = read_number(bytes)?;
    keep(1 <= number && number <= most, bytes)?;
    Ok((number, rest))
}
