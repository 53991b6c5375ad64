ghost use Rattle.std.specs.Prelude.{◌≡◌, ◌+◌, ◌-◌, ◌≤◌, IfOk, OnOk};
ghost use Rattle.model_history.specs.Table.{identities};
ghost use Rattle.base_vectors.specs.Vectors.{number_at};
ghost use Rattle.model_kinds.specs.SixKinds.{assigned};
ghost use Rattle.model_meanings.specs.Growing.{found};
ghost use Rattle.data_meaning.specs.Records.{action_of};
ghost use Rattle.data_meaning.specs.Stamping.{text_in};
ghost use Rattle.trace_values.specs.Rows.{last_of, IsPushed};
ghost use Rattle.trace_values.specs.Writes.{no_write, write_after, newest_of, first_newest, text_at, winning_text};

use crate::rows::{last_of, push_row, row_of};
use base_bytes::{Items, Memory, Text};
use base_vectors::{Id, Seq, VersionVector};
use data_meaning::{Action, Record};
use model_kinds::Op;
use std::alloc::Global;

/// The last write of some records of an identity: its number, and its timestamp; both 0 where none is one.
#[derive(Clone, Copy)]
pub(crate) struct LastWrite {
    pub(crate) number: Seq,
    pub(crate) timestamp: u128,
}

/// Where none is a write.
fn no_write() -> LastWrite
    ensures { result ≡ no_write }
{
    LastWrite {
        number: 0,
        timestamp: 0,
    }
}

/// The greatest timestamp of the records that a vector counts; 0 where none is a write.
#[tactic(auto, unfolding(crate::specs::Writes::newest_of))]
fn newest(writes: &[Items<LastWrite>], known: &VersionVector) -> u128
    ensures { result ≡ newest_of writes.now (number_at known.now) identities }
{
    let mut newest = 0;
    for number in 0_u8..255 {
        if let Some(id) = Id::new(number) {
            newest = last_of(writes, id, known.at(id), no_write())
                .timestamp
                .max(newest);
        }
    }
    newest
}

/// One more than a timestamp. Memory has no room for so many records that there is none.
fn next(timestamp: u128) -> Result<u128, Memory>
    ensures { IfOk result (λ next. next ≡ timestamp + 1) }
{
    match timestamp.checked_add(1) {
        Some(next) => Ok(next),
        None => Err(Memory),
    }
}

/// The last write of an identity's records with one more, which has this number and this past.
fn write_after(
    writes: &[Items<LastWrite>],
    id: Id,
    number: Seq,
    past: &VersionVector,
    action: &Action,
) -> Result<LastWrite, Memory>
    requires { 1 ≤ number }
    ensures { IfOk result (λ write. write ≡ write_after (last_of no_write writes.now id (number - 1)) (newest_of writes.now (number_at past.now) identities) number (action_of action.now)) }
{
    match action {
        Action::Operation(Op::Assign { now, .. }) => {
            let least = next(newest(writes, past))?;
            let timestamp = u128::from(now.number()).max(least);
            Ok(LastWrite { number, timestamp })
        }
        _ => Ok(last_of(writes, id, number - 1, no_write())),
    }
}

/// Keeps the last write of an identity's records with one more, which has this number and this past.
pub(crate) fn push_write(
    writes: &mut Vec<Items<LastWrite>>,
    alloc: Global,
    id: Id,
    number: Seq,
    past: &VersionVector,
    action: &Action,
) -> Result<(), Memory>
    requires { 1 ≤ number }
    ensures { OnOk result (IsPushed writes.old.items writes.new.items id (write_after (last_of no_write writes.old.items id (number - 1)) (newest_of writes.old.items (number_at past.now) identities) number (action_of action.now))) }
{
    let write = write_after(writes.as_slice(), id, number, past, action)?;
    push_row(writes, alloc, id, write)
}

/// The text that an action writes, empty where it is no write.
fn text_in(action: &Action) -> Text
    ensures { result ≡ text_in (found assigned (action_of action.now)) }
{
    match action {
        Action::Operation(Op::Assign { text, .. }) => text.copied(),
        _ => Text::empty(),
    }
}

/// The text that a record of an identity writes, empty where it is no write.
fn text_at(rows: &[Items<Record>], id: Id, number: Seq) -> Text
    ensures { result ≡ text_at rows.now id number }
{
    match row_of(rows, id).get(number.saturating_sub(1) as usize) {
        Some(made) => text_in(&made.action),
        None => Text::empty(),
    }
}

/// The first identity whose last write, of those that a vector counts, has this timestamp.
fn first_with(writes: &[Items<LastWrite>], known: &VersionVector, newest: u128) -> Option<Id>
    ensures { result ≡ first_newest writes.now (number_at known.now) newest }
{
    for number in 0_u8..255 {
        if let Some(id) = Id::new(number) {
            if newest != 0 && last_of(writes, id, known.at(id), no_write()).timestamp == newest {
                return Some(id);
            }
        }
    }
    None
}

/// The text of the write with the greatest timestamp of those that a vector counts, of these the least identity's.
pub(crate) fn winning_text(
    rows: &[Items<Record>],
    writes: &[Items<LastWrite>],
    known: &VersionVector,
) -> Text
    ensures { result ≡ winning_text rows.now writes.now (number_at known.now) }
{
    let newest = newest(writes, known);
    match first_with(writes, known, newest) {
        Some(id) => {
            let last = last_of(writes, id, known.at(id), no_write());
            text_at(rows, id, last.number)
        }
        None => Text::empty(),
    }
}
