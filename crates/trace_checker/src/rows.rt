ghost use Rattle.std.specs.Prelude.{◌≡◌, ◌<◌, ℕ, length, OnOk, IfOk};
ghost use Rattle.trace_checker.specs.Rows.{vector_of, IsPut};

use base_bytes::Memory;
use base_vectors::{Id, VersionVector};
use std::alloc::Global;

/// How many records of each identity one holds.
pub(crate) fn vector_of(
    alloc: Global,
    held: &[VersionVector],
    id: Id,
) -> Result<VersionVector, Memory>
    ensures { IfOk result (λ vector. vector ≡ vector_of held.now id) }
{
    match held.get(usize::from(id.number())) {
        Some(vector) => vector.copy(alloc),
        None => Ok(VersionVector::new(alloc)),
    }
}

/// Makes the list longer than an index, by vectors that count nothing.
fn lengthen_held(held: &mut Vec<VersionVector>, alloc: Global, index: usize) -> Result<(), Memory>
    requires { index < 255 }
    ensures same { OnOk result ((i : ℕ) → vector_of held.new.items i ≡ vector_of held.old.items i) }
    ensures long { OnOk result (index < length held.new.items) }
{
    while held.len() <= index {
        held.push(VersionVector::new(alloc))?;
    }
    Ok(())
}

/// Puts another vector at an identity.
pub(crate) fn put_vector(
    held: &mut Vec<VersionVector>,
    alloc: Global,
    id: Id,
    vector: VersionVector,
) -> Result<(), Memory>
    ensures { OnOk result (IsPut held.old.items held.new.items id vector) }
{
    let index = usize::from(id.number());
    lengthen_held(held, alloc, index)?;
    held[index] = vector;
    Ok(())
}
