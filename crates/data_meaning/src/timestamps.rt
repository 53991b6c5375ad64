ghost use Rattle.std.specs.Prelude.{◌≡◌, ◌≤◌, ◌+◌, ◌^◌, ◌++◌, [], ◌∷◌, ℕ, map, length, option_copied, option_map, OnOk, IfOk, All};
ghost use Rattle.std.specs.List.{zip};
ghost use Rattle.model_kinds.specs.SixKinds.{assigned};
ghost use Rattle.model_meanings.specs.Growing.{found};
ghost use Rattle.model_meanings.specs.Refusal.{greatest_share};
ghost use Rattle.data_meaning.specs.Records.{action_of};
ghost use Rattle.data_meaning.specs.Stamping.{newest_in, timestamp_by, timestamps, first_with, winner_in, text_in, written_by};

use crate::record::{Action, Record};
use crate::touches::is_in;
use base_bytes::{Memory, Text};
use base_vectors::VersionVector;
use model_kinds::Op;
use std::alloc::Global;

/// The greatest timestamp of a past, or of all records; 0 where there is none.
fn newest(records: &[Record], timestamps: &[u128], past: Option<&VersionVector>) -> u128
    ensures { result ≡ newest_in (zip records.now timestamps.now) (option_copied past.entry) }
{
    records
        .iter()
        .zip(timestamps)
        .fold(0, |newest, (record, timestamp)| {
            if is_in(past, record) {
                newest.max(*timestamp)
            } else {
                newest
            }
        })
}

/// The timestamp of a record: for a write the greater of its clock and one more than the greatest timestamp in its past.
fn timestamp(records: &[Record], timestamps: &[u128], record: &Record) -> u128
    requires { All (λ t. t ≤ 2 ^ 127) timestamps.now }
    ensures value { result ≡ timestamp_by (zip records.now timestamps.now) «record».now.past «record».now.action }
    ensures range { (limit : ℕ) → greatest_share ≤ limit → All (λ t. t ≤ limit) timestamps.now → result ≤ limit + 1 }
{
    match &record.action {
        Action::Operation(Op::Assign { now, .. }) => {
            let before = newest(records, timestamps, Some(&record.past));
            u128::from(now.number()).max(before + 1)
        }
        _ => 0,
    }
}

/// Adds a timestamp at the end.
fn append(timestamps: &mut Vec<u128>, timestamp: u128) -> Result<(), Memory>
    ensures { OnOk result (timestamps.new.items ≡ timestamps.old.items ++ timestamp ∷ []) }
{
    match timestamps.push(timestamp) {
        Ok(()) => Ok(()),
        Err(_) => Err(Memory),
    }
}

/// The timestamps, given those of the pasts.
fn deeper(alloc: Global, records: &[Record], timestamps: &[u128]) -> Result<Vec<u128>, Memory>
    requires { All (λ t. t ≤ 2 ^ 127) timestamps.now }
    ensures value { IfOk result (λ more. more.items ≡ map (λ r. timestamp_by (zip records.now timestamps.now) r.past r.action) records.now) }
    ensures range { (limit : ℕ) → greatest_share ≤ limit → All (λ t. t ≤ limit) timestamps.now → IfOk result (λ more. All (λ t. t ≤ limit + 1) more.items) }
{
    let mut more = Vec::new(alloc);
    for record in records {
        append(&mut more, timestamp(records, timestamps, record))?;
    }
    Ok(more)
}

/// The timestamps of the records. A chain of pasts is shorter than the list of records.
fn timestamps(alloc: Global, records: &[Record]) -> Result<Vec<u128>, Memory>
    ensures { IfOk result (λ all. all.items ≡ timestamps records.now (length records.now)) }
{
    let mut timestamps = vec![in alloc; 0; records.len()]?;
    for _record in records {
        timestamps = deeper(alloc, records, &timestamps)?;
    }
    Ok(timestamps)
}

/// The first record with a timestamp, and that timestamp, unless it is 0.
fn first_with<'a>(
    records: &'a [Record],
    timestamps: &'a [u128],
    wanted: u128,
) -> Option<(&'a Record, &'a u128)>
    ensures { option_map (λ p. (p.0.now, p.1.now)) result ≡ first_with (zip records.now timestamps.now) wanted }
{
    records
        .iter()
        .zip(timestamps)
        .find(|(_, timestamp)| wanted != 0 && **timestamp == wanted)
}

/// The text that a record writes, empty where it is no write.
fn text_of(action: &Action) -> Text
    ensures { result ≡ text_in (found assigned (action_of action.now)) }
{
    match action {
        Action::Operation(Op::Assign { text, .. }) => text.copied(),
        _ => Text::empty(),
    }
}

/// What a winner writes, or the empty text where there is none.
fn written(winner: Option<(&Record, &u128)>) -> Text
    ensures { result ≡ written_by (option_map (λ p. (p.0.now, p.1.now)) winner.entry) }
{
    match winner {
        Some((record, _)) => text_of(&record.action),
        None => Text::empty(),
    }
}

/// The text of the write with the greatest timestamp, of these the least origin's.
pub(crate) fn winning_text(alloc: Global, records: &[Record]) -> Result<Text, Memory>
    ensures { IfOk result (λ text. text ≡ written_by (winner_in (zip records.now (timestamps records.now (length records.now))))) }
{
    let timestamps = timestamps(alloc, records)?;
    let newest = newest(records, &timestamps, None);
    Ok(written(first_with(records, &timestamps, newest)))
}
