ghost use Rattle.std.specs.Prelude.{◌≡◌};
ghost use Rattle.base_vectors.specs.Vectors.{number_at};
ghost use Rattle.model_kinds.specs.SixKinds as kinds;
ghost use Rattle.data_meaning.specs.Records.{action_of};
ghost use Rattle.trace_values.specs.Touches.{last_at, past_at, sees, is_seen, is_adding, adds_at, is_last_live, is_live, is_added};

use crate::rising::Rising;
use crate::rows::row_of;
use base_bytes::{Items, Text};
use base_vectors::{Id, Seq, VersionVector};
use data_meaning::{Action, Record};
use model_kinds::Op;

/// The last counted record of an identity that touches the element.
fn last_at(touches: &[Rising], known: &VersionVector, id: Id) -> Seq
    ensures { result ≡ last_at touches.now (number_at known.now) id }
{
    match touches.get(usize::from(id.number())) {
        Some(numbers) => numbers.last_counted(known.at(id)),
        None => 0,
    }
}

fn adds(op: &Op, element: &Text) -> bool
    ensures { result ≡ kinds.adds op.now element.now }
{
    match op {
        Op::Add(text) => text.as_str() == element.as_str(),
        _ => false,
    }
}

/// Whether a record adds the element, where it touches it.
fn is_adding(action: &Action, element: &Text) -> bool
    ensures { result ≡ is_adding element.now (action_of action.now) }
{
    match action {
        Action::Operation(op) => adds(op, element),
        Action::Prune(_) => true,
    }
}

/// How many records of an identity stand in the past of a record of another one.
fn past_at(rows: &[Items<Record>], other: Id, number: Seq, id: Id) -> Seq
    ensures { result ≡ past_at rows.now other number id }
{
    match row_of(rows, other).get(number.saturating_sub(1) as usize) {
        Some(made) => made.past.at(id),
        None => 0,
    }
}

/// Whether a record of an identity adds the element, where it touches it.
fn adds_at(rows: &[Items<Record>], id: Id, number: Seq, element: &Text) -> bool
    ensures { result ≡ adds_at rows.now id number element.now }
{
    match row_of(rows, id).get(number.saturating_sub(1) as usize) {
        Some(made) => is_adding(&made.action, element),
        None => false,
    }
}

/// Whether the last counted record of another identity that touches the element has a record of this one in its past.
fn sees(
    rows: &[Items<Record>],
    touches: &[Rising],
    known: &VersionVector,
    id: Id,
    number: Seq,
    other: Id,
) -> bool
    ensures { result ≡ sees rows.now touches.now (number_at known.now) id number other }
{
    let last = last_at(touches, known, other);
    last != 0 && number <= past_at(rows, other, last, id)
}

/// Whether one of the last counted records that touch the element has this record in its past.
fn is_seen(
    rows: &[Items<Record>],
    touches: &[Rising],
    known: &VersionVector,
    id: Id,
    number: Seq,
) -> bool
    ensures { result ≡ is_seen rows.now touches.now (number_at known.now) id number }
{
    for place in 0..known.limit() {
        if let Some(other) = Id::new(place) {
            if sees(rows, touches, known, id, number, other) {
                return true;
            }
        }
    }
    false
}

/// Whether the last counted record of an identity that touches the element adds it, and no last one has it in its past.
pub(crate) fn is_last_live(
    rows: &[Items<Record>],
    touches: &[Rising],
    element: &Text,
    known: &VersionVector,
    id: Id,
) -> bool
    ensures { result ≡ is_last_live rows.now touches.now element.now (number_at known.now) id }
{
    let last = last_at(touches, known, id);
    last != 0 && adds_at(rows, id, last, element) && !is_seen(rows, touches, known, id, last)
}

/// Whether one of the last counted records that touch the element adds it, and none of them has it in its past.
pub(crate) fn is_live(
    rows: &[Items<Record>],
    touches: &[Rising],
    element: &Text,
    known: &VersionVector,
) -> bool
    ensures { result ≡ is_live rows.now touches.now element.now (number_at known.now) }
{
    for place in 0..known.limit() {
        if let Some(id) = Id::new(place) {
            if is_last_live(rows, touches, element, known, id) {
                return true;
            }
        }
    }
    false
}

/// Whether a vector counts a record that adds the element.
pub(crate) fn is_added(adds: &[Rising], known: &VersionVector) -> bool
    ensures { result ≡ is_added adds.now (number_at known.now) }
{
    for place in 0..known.limit() {
        if let Some(id) = Id::new(place) {
            if last_at(adds, known, id) != 0 {
                return true;
            }
        }
    }
    false
}
