ghost use Rattle.std.specs.Prelude.{◌≡◌, ◌<◌, length, slice_index_or, slice_set};
ghost use Rattle.std.specs.Option.{option_copied};
ghost use Rattle.member_node.specs.Planning.{recorded, IsPlanned, ticked_entry as entry_after_tick, IsRecordable, CanCarryOut};
ghost use Rattle.member_node.specs.declared.plan.Plan.TheVariants as plan;
ghost use Rattle.member_node.specs.declared.operations.OperationChange.TheVariants as operations;

use crate::change::{Changes, write_all};
use crate::key::KeyState;
use crate::operations::OperationChange;
use crate::reply::{Output, Reply};
use crate::ticking::{KeyTick, write_ticks};
use data_deltalog::NextRecord;
use data_envelope::Envelope;
use data_lattice::Replica;
use member_views::View;
use std::alloc::Global;

/// What becomes of the keys, once all memory for it was given.
#[derive(Drop)]
pub(crate) enum Plan<T: Replica> {
    /// They stay as they are.
    Nothing,
    /// The key at a place has another entry, with one own record more.
    At {
        index: usize,
        entry: Envelope<T>,
        next: NextRecord<T::Delta>,
    },
    /// Each changes so.
    Each(Changes<T>),
    /// What a tick makes of each.
    Ticked(Vec<KeyTick<T>>),
}

/// A step before it is made: the view that is installed by it, what becomes of the keys and of the operations, and the
/// output.
#[derive(Drop)]
pub(crate) struct Prepared<T: Replica> {
    pub(crate) view: Option<View>,
    pub(crate) plan: Plan<T>,
    pub(crate) operations: OperationChange,
    pub(crate) output: Output<T>,
}

impl<T: Replica> Prepared<T> {
    ghost use Rattle.std.specs.Prelude.{None, []};

    /// A reply, and nothing else.
    pub(crate) fn reply(alloc: Global, reply: Reply) -> Prepared<T>
        ensures view { result.view ≡ None }
        ensures plan { result.plan ≡ plan.Nothing }
        ensures operations { result.operations ≡ operations.Same }
        ensures output { result.output ≡ record { reply = reply; posts = []; finished = None } }
    {
        Prepared {
            view: None,
            plan: Plan::Nothing,
            operations: OperationChange::Same,
            output: Output::told(alloc, reply),
        }
    }
}

/// Another entry of a key, and the record in its log.
fn record<T: Replica>(state: &mut KeyState<T>, entry: Envelope<T>, next: NextRecord<T::Delta>)
    requires { IsRecordable T.Replica state.old next }
    ensures { state.new ≡ recorded state.old entry next }
{
    state.log.add(next);
    state.entry.put(entry);
}

/// Another entry of the key at a place, and the record in its log.
fn record_at<T: Replica>(
    keys: &mut [KeyState<T>],
    index: usize,
    entry: Envelope<T>,
    next: NextRecord<T::Delta>,
)
    requires { CanCarryOut T.Replica keys.old (plan.At index entry next) }
    ensures { IsPlanned keys.old (plan.At index entry next) keys.new }
{
    record(&mut keys[index], entry, next);
}

/// Makes of the keys what was planned, which takes no memory.
pub(crate) fn carry_out<T: Replica>(keys: &mut [KeyState<T>], plan: Plan<T>)
    requires { CanCarryOut T.Replica keys.old plan }
    ensures { IsPlanned keys.old plan keys.new }
{
    match plan {
        Plan::Nothing => {}
        Plan::At { index, entry, next } => record_at(keys, index, entry, next),
        Plan::Each(changes) => write_all(keys, changes),
        Plan::Ticked(ticks) => write_ticks(keys, ticks),
    }
}

/// The new entry of the key at a place after a tick, if there is one.
pub(crate) fn ticked_entry<T: Replica>(ticks: &[KeyTick<T>], place: usize) -> Option<&Envelope<T>>
    ensures { option_copied result ≡ entry_after_tick ticks.now place }
{
    match ticks.get(place) {
        Some(tick) => tick.entry.as_ref(),
        None => None,
    }
}
