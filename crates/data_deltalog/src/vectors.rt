ghost use Rattle.std.specs.Prelude.{◌≡◌, ◌≤◌, ◌^◌, ◌↔◌, ℕ, IfOk, IsTrue, unwrap_or};
ghost use Rattle.model_history.specs.Table.{with_at};
ghost use Rattle.base_vectors.specs.Vectors.{number_at};
ghost use Rattle.data_deltalog.specs.Contents.{AgreeBut};

use base_bytes::Memory;
use base_vectors::{Id, Seq, VersionVector};
use std::alloc::Global;

/// Whether two vectors have the same numbers at all identities but one.
pub(crate) fn agree_but(one: &VersionVector, other: &VersionVector, id: Id) -> bool
    ensures { IsTrue result ↔ AgreeBut id (number_at one.now) (number_at other.now) }
{
    for number in 0..one.limit().max(other.limit()) {
        if let Some(at) = Id::new(number) {
            if at != id && one.at(at) != other.at(at) {
                return false;
            }
        }
    }
    true
}

/// Puts another vector in the place of one, if it is brought.
pub(crate) fn put(vector: &mut VersionVector, brought: Option<VersionVector>)
    ensures { vector.new ≡ unwrap_or brought vector.old }
{
    if let Some(brought) = brought {
        *vector = brought;
    }
}

/// What a taker of a group needs that ends in a record: all that its origin had before it, but of the origin no more than
/// the group's first record comes after.
pub(crate) fn needed(
    alloc: Global,
    before: &VersionVector,
    origin: Id,
    after: Seq,
) -> Result<VersionVector, Memory>
    requires { after ≤ 2 ^ 62 }
    ensures { IfOk result (λ needed. (i : ℕ) → number_at needed i ≡ with_at (number_at before.now) origin after i) }
{
    let _below_limit = origin.number();
    let mut needed = before.copy(alloc)?;
    needed.without(origin);
    if after > 0 {
        needed.raise(origin, after)?;
    }
    Ok(needed)
}
