ghost use Rattle.std.specs.Prelude.{◌<◌, ◌≤◌, ◌^◌};

use base_bytes::Memory;
use base_vectors::{Id, Seq, VersionVector};
use data_lattice::Replica;
use std::alloc::Global;

/// An origin's records after one number and up to another, as one delta. The numbers rise, and are at most `2^62`.
#[derive(Drop)]
pub struct Group<T: Replica> {
    pub origin: Id,
    pub after: Seq,
    pub upto: Seq,
    ghost numbers: { (after < upto) × (upto ≤ 2 ^ 62) },
    /// The records that a taker has to have.
    pub needs: VersionVector,
    pub delta: T::Delta,
    /// The delta is of the origin.
    ghost of_origin: { ∥ T.IsOfOrigin delta origin ∥₁ },
}

impl<T: Replica> Group<T> {
    ghost use Rattle.std.specs.Prelude.{◌≡◌, IfOk};

    /// An equal group.
    pub fn copy(&self, alloc: Global) -> Result<Group<T>, Memory>
        ensures { IfOk result (λ copy. copy ≡ self.now) }
    {
        let needs = self.needs.copy(alloc)?;
        let delta = T::copy_delta(alloc, &self.delta)?;
        Ok(Group {
            origin: self.origin,
            after: self.after,
            upto: self.upto,
            needs,
            delta,
        })
    }
}
