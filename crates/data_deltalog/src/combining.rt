ghost use Rattle.std.specs.Prelude.{◌≡◌, ℕ, ◌<◌, drop, length, IfOk};
ghost use Rattle.data_deltalog.specs.Contents.{combined_of, AreDeltasFor, IsDeltaFor};

use crate::recent::Recent;
use base_bytes::Memory;
use data_lattice::Replica;
use std::alloc::Global;

/// The deltas of the records from an index on, as one; nothing where one has no delta.
pub(crate) fn combined<T: Replica>(
    alloc: Global,
    records: &Recent<Option<T::Delta>>,
    first: usize,
) -> Result<Option<T::Delta>, Memory>
    requires some { first < length records.now }
    requires deltas { (kind : T.Kind) × (origin : ℕ) × AreDeltasFor T.IsOfOrigin T.delta_fits_kind kind origin records.now }
    ensures value { IfOk result (λ delta. delta ≡ combined_of T.combined (drop first records.now)) }
    ensures fits { (kind : T.Kind) (origin : ℕ) → AreDeltasFor T.IsOfOrigin T.delta_fits_kind kind origin records.now → IfOk result (IsDeltaFor T.IsOfOrigin T.delta_fits_kind kind origin) }
{
    let kept = records.len();
    let Some(oldest) = records.at(first) else {
        return Ok(None);
    };
    let mut combined = T::copy_delta(alloc, oldest)?;
    for index in first + 1..kept {
        match records.at(index) {
            Some(later) => T::extend_delta(&mut combined, later)?,
            None => return Ok(None),
        }
    }
    Ok(Some(combined))
}
