ghost use Rattle.std.specs.Prelude.{◌≡◌, ◌<◌, ◌^◌, true, false, IfOk, IfErr, OnErr, OnOk};
ghost use Rattle.base_vectors.specs.Vectors.{number_at};
ghost use Rattle.data_markers.specs.Marks.{performed_in};
ghost use Rattle.data_envelope.specs.Words.{parts_of};
ghost use Rattle.data_deltalog.specs.Words.{HasRoom};
ghost use Rattle.member_node.specs.Recording.{is_open_to, FollowsAll, IsRecorded, MeansRecorded, IsUnrefused, TellsRefusal};

use base_bytes::Memory;
use base_vectors::Id;
use data_deltalog::{DeltaLog, NextRecord};
use data_envelope::Envelope;
use data_lattice::{ApplyError, Replica};
use std::alloc::Global;

/// The next record of the identity for the log, without its delta: all that the entry has is before it.
fn prepared<T: Replica>(
    alloc: Global,
    entry: &Envelope<T>,
    log: &DeltaLog<T>,
) -> Result<NextRecord<T::Delta>, Memory>
    ensures before { IfOk result (FollowsAll T.Replica log.now entry.now) }
    ensures room { IfOk result (HasRoom log.now) }
{
    if entry.markers().is_empty() {
        return log.prepare(alloc, entry.versions(), None);
    }
    let known = entry.known(alloc)?;
    log.prepare_after(known, None)
}

/// Makes an operation the next record of the identity in the entry, and answers it for the log. The log's room is taken before
/// the entry changes.
pub(crate) fn next_record<T: Replica>(
    alloc: Global,
    entry: &mut Envelope<T>,
    log: &DeltaLog<T>,
    op: &T::Op,
    id: Id,
) -> Result<NextRecord<T::Delta>, ApplyError>
    requires fits { is_open_to T.Replica entry.old.value op.now ≡ true }
    requires member { performed_in (parts_of entry.old).marks id ≡ false }
    requires room { number_at (parts_of entry.old).versions id < 2 ^ 62 }
    ensures recorded { IfOk result (IsRecorded T.Replica id log.now entry.old entry.new) }
    ensures image { IfOk result (MeansRecorded T.Replica id op.now entry.old log.now entry.new) }
    ensures unrefused { OnOk result (IsUnrefused T.Replica id op.now entry.old) }
    ensures refused { IfErr result (TellsRefusal T.Replica id op.now entry.old) }
    ensures err { OnErr result (entry.new ≡ entry.old) }
{
    let _below_limit = id.number();
    let next = prepared(alloc, entry, log)?;
    match entry.update(op, id) {
        Ok(delta) => Ok(next.with_delta(delta)),
        Err(error) => Err(error),
    }
}
