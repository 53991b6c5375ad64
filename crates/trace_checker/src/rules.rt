ghost use Rattle.std.specs.Prelude.{◌≡◌, ◌≤◌, ◌<◌, ◌↔◌, ◌==◌, ◌&&◌, ℕ, List, not, nat_lt, length, IsTrue, Some, slice_get};
ghost use Rattle.model_history.specs.Table.{identity_limit};
ghost use Rattle.model_history.specs.Vector.{Covers};
ghost use Rattle.model_kinds.specs.SixKinds as kinds;
ghost use Rattle.base_vectors.specs.Vectors.{number_at};
ghost use Rattle.trace_values.specs.Rows.{row_of};
ghost use Rattle.trace_checker.specs.Prunes.{has_prune, has_delete};
ghost use Rattle.trace_checker.specs.Holds.{HoldsLast, first_broken};

use crate::prunes::{PruneMade, has_delete, has_prune};
use base_bytes::Items;
use base_vectors::{Dot, Id, VersionVector};
use data_meaning::Record;
use model_kinds::{Kind, Op};
use trace_values::row_of;

/// Whether an operation is one of the kind, or a delete.
pub(crate) fn fits(kind: Kind, op: &Op) -> bool
    ensures { result ≡ kinds.six_kinds.fits kind op.now }
{
    match (kind, op) {
        (_, Op::Delete) => true,
        (Kind::GCounter, Op::Increment(_)) => true,
        (Kind::PnCounter, Op::Increment(_) | Op::Decrement(_)) => true,
        (Kind::GSet, Op::Add(_)) => true,
        (Kind::OrSet, Op::Add(_) | Op::Remove(_)) => true,
        (Kind::Flag, Op::Enable) => true,
        (Kind::LwwRegister, Op::Assign { .. }) => true,
        _ => false,
    }
}

/// Whether a member that holds so much may record the operation: it fits, and no delete is held.
pub(crate) fn may_record(kind: Kind, op: &Op, deletes: &[Dot], known: &VersionVector) -> bool
    ensures { result ≡ (kinds.six_kinds.fits kind op.now && not (has_delete deletes.now (number_at known.now))) }
{
    fits(kind, op) && !has_delete(deletes, known)
}

/// Whether a member that holds so much may prune the identity: it is another, of which a record is held and no prune.
pub(crate) fn may_prune(prunes: &[PruneMade], known: &VersionVector, at: Id, removed: Id) -> bool
    ensures { result ≡ (not (removed == at) && nat_lt 0 (number_at known.now removed) && not (has_prune prunes.now (number_at known.now) removed)) }
{
    removed.number() != at.number() && known.at(removed) > 0 && !has_prune(prunes, known, removed)
}

/// Whether the records that the vector counts were all made.
pub(crate) fn are_made(rows: &[Items<Record>], known: &VersionVector) -> bool
    ensures { IsTrue result ↔ ((j : ℕ) → j < identity_limit → number_at known.now j ≤ length (row_of rows.now j)) }
{
    for number in 0..known.limit() {
        if let Some(id) = Id::new(number) {
            if known.at(id) > row_of(rows, id).len() as u64 {
                return false;
            }
        }
    }
    true
}

/// Whether the vector counts the past of the last record that it counts of an identity.
fn holds_last(rows: &[Items<Record>], known: &VersionVector, id: Id, count: u64) -> bool
    requires same { count ≡ number_at known.now id }
    requires some { 1 ≤ count }
    ensures { IsTrue result ↔ HoldsLast rows.now known.now id }
{
    match row_of(rows, id).get((count - 1) as usize) {
        Some(last) => known.covers(&last.past),
        None => false,
    }
}

/// Whether an identity's number didn't rise, or the vector counts the past of the last record that it counts.
fn is_held(rows: &[Items<Record>], mine: &VersionVector, known: &VersionVector, id: Id) -> bool
    ensures { IsTrue result ↔ (number_at mine.now id < number_at known.now id → HoldsLast rows.now known.now id) }
{
    let count = known.at(id);
    if count > mine.at(id) {
        holds_last(rows, known, id, count)
    } else {
        true
    }
}

/// Whether of each identity whose number rose the vector counts the past of the last record that it counts.
pub(crate) fn holds_pasts(
    rows: &[Items<Record>],
    mine: &VersionVector,
    known: &VersionVector,
) -> bool
    ensures { IsTrue result ↔ ((j : ℕ) → j < identity_limit → number_at mine.now j < number_at known.now j → HoldsLast rows.now known.now j) }
{
    for number in 0..known.limit() {
        if let Some(id) = Id::new(number) {
            if !is_held(rows, mine, known, id) {
                return false;
            }
        }
    }
    true
}

/// Whether the vector counts some record.
pub(crate) fn counts_some(known: &VersionVector) -> bool
    ensures { IsTrue result ↔ ((i : ℕ) × (i < identity_limit) × (0 < number_at known.now i)) }
{
    for number in 0..known.limit() {
        if let Some(id) = Id::new(number) {
            if known.at(id) > 0 {
                return true;
            }
        }
    }
    false
}

/// The least rule that is broken, where each test says that its rule isn't.
pub(crate) fn first_broken(recorded: bool, held: bool, exact: bool, shown: bool) -> Option<u8>
    ensures { result ≡ first_broken recorded held exact shown }
{
    if !recorded {
        Some(1)
    } else if !held {
        Some(2)
    } else if !exact {
        Some(3)
    } else if !shown {
        Some(4)
    } else {
        None
    }
}

/// Whether all three tests are passed.
pub(crate) fn all_three(first: bool, second: bool, third: bool) -> bool
    ensures { result ≡ (first && second && third) }
{
    first && second && third
}
