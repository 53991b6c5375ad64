ghost use Rattle.std.specs.Prelude.{◌≡◌, map, length, option_copied, IfOk};
ghost use Rattle.std.specs.List.{zip};
ghost use Rattle.model_kinds.specs.SixKinds.{adds, removes};
ghost use Rattle.data_meaning.specs.Touching.{is_before, is_in, is_adding, is_seen, is_live, had_live, has_live, touches_by, touching};

use crate::record::{Action, Record};
use base_bytes::{Memory, Text};
use base_vectors::{Id, VersionVector};
use model_kinds::Op;
use std::alloc::Global;

/// Whether a past counts a record.
fn is_before(past: &VersionVector, record: &Record) -> bool
    ensures { result ≡ is_before past.now record.now }
{
    record.number <= past.at(record.origin)
}

/// Whether a record is in a past, or all are looked at.
pub(crate) fn is_in(past: Option<&VersionVector>, record: &Record) -> bool
    ensures { result ≡ is_in (option_copied past.entry) record.now }
{
    match past {
        None => true,
        Some(past) => is_before(past, record),
    }
}

fn adds(op: &Op, element: &Text) -> bool
    ensures { result ≡ adds op.now element.now }
{
    match op {
        Op::Add(text) => text.as_str() == element.as_str(),
        _ => false,
    }
}

fn removes(op: &Op, element: &Text) -> bool
    ensures { result ≡ removes op.now element.now }
{
    match op {
        Op::Remove(text) => text.as_str() == element.as_str(),
        _ => false,
    }
}

/// Whether a record adds the element, as a prune does that touches it.
fn is_adding(action: &Action, element: &Text, touches: bool) -> bool
    ensures { result ≡ is_adding element.now action.now touches }
{
    match action {
        Action::Operation(op) => adds(op, element),
        Action::Prune(_) => touches,
    }
}

/// Whether a record that touches the element has this one in its past.
fn is_seen(
    records: &[Record],
    touching: &[bool],
    past: Option<&VersionVector>,
    record: &Record,
) -> bool
    ensures { result ≡ is_seen (zip records.now touching.now) (option_copied past.entry) record.now }
{
    records.iter().zip(touching).any(|(later, touches)| {
        *touches && is_in(past, later) && is_before(&later.past, record)
    })
}

/// Whether a record adds the element, and no record that touches it has this one in its past.
fn is_live(
    records: &[Record],
    touching: &[bool],
    past: Option<&VersionVector>,
    element: &Text,
    record: &Record,
    touches: bool,
) -> bool
    ensures { result ≡ is_live (zip records.now touching.now) (option_copied past.entry) element.now record.now touches }
{
    is_adding(&record.action, element, touches) && !is_seen(records, touching, past, record)
}

/// Whether an identity has a live adding record of the element in a past.
fn had_live(
    records: &[Record],
    touching: &[bool],
    past: &VersionVector,
    element: &Text,
    origin: Id,
) -> bool
    ensures { result ≡ had_live (zip records.now touching.now) past.now element.now origin }
{
    records.iter().zip(touching).any(|(record, touches)| {
        is_before(past, record)
            && record.origin == origin
            && is_live(records, touching, Some(past), element, record, *touches)
    })
}

/// Whether some record adds the element and is live.
pub(crate) fn has_live(records: &[Record], touching: &[bool], element: &Text) -> bool
    ensures { result ≡ has_live (zip records.now touching.now) element.now }
{
    records.iter().zip(touching).any(|(record, touches)| is_live(
        records, touching, None, element, record, *touches,
    ))
}

/// Whether a record touches the element: it adds or removes it, or prunes an identity that has a live adding record of it in the prune's past.
fn touches(records: &[Record], touching: &[bool], element: &Text, record: &Record) -> bool
    ensures { result ≡ touches_by (zip records.now touching.now) element.now record.now.past record.now.action }
{
    match &record.action {
        Action::Operation(op) => adds(op, element) || removes(op, element),
        Action::Prune(removed) => had_live(records, touching, &record.past, element, *removed),
    }
}

/// Which records touch the element, given which of their pasts do.
fn deeper(
    alloc: Global,
    records: &[Record],
    touching: &[bool],
    element: &Text,
) -> Result<Vec<bool>, Memory>
    ensures { IfOk result (λ more. more.items ≡ map (λ r. touches_by (zip records.now touching.now) element.now r.past r.action) records.now) }
{
    let more = records
        .iter()
        .map(|record| touches(records, touching, element, record))
        .collect(alloc)?;
    Ok(more)
}

/// Which records touch the element. A chain of pasts is shorter than the list of records.
pub(crate) fn touching(
    alloc: Global,
    records: &[Record],
    element: &Text,
) -> Result<Vec<bool>, Memory>
    ensures { IfOk result (λ all. all.items ≡ touching records.now element.now (length records.now)) }
{
    let mut touching = vec![in alloc; false; records.len()]?;
    for _record in records {
        touching = deeper(alloc, records, &touching, element)?;
    }
    Ok(touching)
}
