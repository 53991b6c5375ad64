ghost use Rattle.std.specs.Prelude.{◌≡◌, ◌+◌, ◌-◌, ◌≤◌, IfOk, OnOk};
ghost use Rattle.model_history.specs.Table.{identities};
ghost use Rattle.model_kinds.specs.SixKinds as kinds;
ghost use Rattle.model_meanings.specs.Counter.{amount_of};
ghost use Rattle.model_meanings.specs.Growing.{is_operation};
ghost use Rattle.base_vectors.specs.Vectors.{number_at};
ghost use Rattle.data_meaning.specs.Records.{action_of};
ghost use Rattle.trace_values.specs.Rows.{last_of, IsPushed};
ghost use Rattle.trace_values.specs.Sums.{no_sums, with_action, both_sums, counted_sums};

use crate::rows::{last_of, push_row};
use base_bytes::{Items, Memory};
use base_vectors::{Id, Seq, VersionVector};
use data_meaning::Action;
use model_kinds::Op;
use std::alloc::Global;

/// What some records come to: the sums of what they add and take, and whether one switches on.
#[derive(Clone, Copy)]
pub(crate) struct Sums {
    pub(crate) added: u128,
    pub(crate) taken: u128,
    pub(crate) enabled: bool,
}

/// What no records come to.
fn no_sums() -> Sums
    ensures { result ≡ no_sums }
{
    Sums {
        added: 0,
        taken: 0,
        enabled: false,
    }
}

/// What a record adds to a counter.
fn increment(action: &Action) -> u64
    ensures { result ≡ amount_of kinds.increment (action_of action.now) }
{
    match action {
        Action::Operation(Op::Increment(amount)) => *amount,
        _ => 0,
    }
}

/// What a record takes from a counter.
fn decrement(action: &Action) -> u64
    ensures { result ≡ amount_of kinds.decrement (action_of action.now) }
{
    match action {
        Action::Operation(Op::Decrement(amount)) => *amount,
        _ => 0,
    }
}

/// Whether a record switches a flag on.
fn enables(action: &Action) -> bool
    ensures { result ≡ is_operation kinds.enables (action_of action.now) }
{
    match action {
        Action::Operation(Op::Enable) => true,
        _ => false,
    }
}

/// A sum. Memory has no room for so many records that it is too large.
fn added_up(sum: u128, more: u128) -> Result<u128, Memory>
    ensures { IfOk result (λ all. all ≡ sum + more) }
{
    match sum.checked_add(more) {
        Some(all) => Ok(all),
        None => Err(Memory),
    }
}

/// What records come to with one more.
fn with_action(sums: Sums, action: &Action) -> Result<Sums, Memory>
    ensures { IfOk result (λ all. all ≡ with_action sums (action_of action.now)) }
{
    let added = added_up(sums.added, u128::from(increment(action)))?;
    let taken = added_up(sums.taken, u128::from(decrement(action)))?;
    Ok(Sums {
        added,
        taken,
        enabled: sums.enabled || enables(action),
    })
}

/// What two lots of records come to.
fn both_sums(sums: Sums, other: Sums) -> Result<Sums, Memory>
    ensures { IfOk result (λ all. all ≡ both_sums sums other) }
{
    let added = added_up(sums.added, other.added)?;
    let taken = added_up(sums.taken, other.taken)?;
    Ok(Sums {
        added,
        taken,
        enabled: sums.enabled || other.enabled,
    })
}

/// Keeps what the records of an identity come to with one more, which has this number.
pub(crate) fn push_sums(
    rows: &mut Vec<Items<Sums>>,
    alloc: Global,
    id: Id,
    number: Seq,
    action: &Action,
) -> Result<(), Memory>
    requires { 1 ≤ number }
    ensures { OnOk result (IsPushed rows.old.items rows.new.items id (with_action (last_of no_sums rows.old.items id (number - 1)) (action_of action.now))) }
{
    let before = last_of(rows.as_slice(), id, number - 1, no_sums());
    let sums = with_action(before, action)?;
    push_row(rows, alloc, id, sums)
}

/// What the records come to that a vector counts.
#[tactic(auto, unfolding(crate::specs::Sums::counted_sums))]
pub(crate) fn sums_of(rows: &[Items<Sums>], known: &VersionVector) -> Result<Sums, Memory>
    ensures { IfOk result (λ sums. sums ≡ counted_sums rows.now (number_at known.now) identities) }
{
    let mut sums = no_sums();
    for number in 0_u8..255 {
        if let Some(id) = Id::new(number) {
            sums = both_sums(sums, last_of(rows, id, known.at(id), no_sums()))?;
        }
    }
    Ok(sums)
}
