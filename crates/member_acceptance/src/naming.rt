ghost use Rattle.std.specs.Prelude.{◌≡◌, ◌&&◌, nat_lt, nat_le};
ghost use Rattle.std.specs.List.{list_any};
ghost use Rattle.model_history.specs.Table.{identities};
ghost use Rattle.base_vectors.specs.Vectors.{number_at};
ghost use Rattle.data_markers.specs.Marks.{mark_of};
ghost use Rattle.data_envelope.specs.Words.{parts_of};
ghost use Rattle.member_acceptance.specs.Naming.{mark_names, names_at, is_late, counts_later, is_named, names_later, has_late_mark};

use base_vectors::{IDENTITIES, Id, VersionVector};
use data_envelope::Envelope;
use data_lattice::Replica;
use data_markers::{Marker, Markers};

/// Whether a mark names an identity.
fn mark_names(marker: Marker, id: Id) -> bool
    ensures { result ≡ mark_names marker id }
{
    match marker {
        Marker::Initialized { owner, seen, .. } => owner == id || seen.has(id),
        Marker::Performed { owner, .. } => owner == id,
    }
}

/// Whether the mark of an identity names another, or is of it.
fn names_at(markers: &Markers, removed: Id, id: Id) -> bool
    ensures { result ≡ names_at removed (mark_of markers.now removed) id }
{
    match markers.get(removed) {
        Some(marker) => removed == id || mark_names(marker, id),
        None => false,
    }
}

/// Whether some mark names an identity.
fn marks_name(markers: &Markers, id: Id) -> bool
    ensures { result ≡ list_any (λ r. names_at r (mark_of markers.now r) id) identities }
{
    for number in 0..markers.limit() {
        if let Some(removed) = Id::new(number) {
            if names_at(markers, removed, id) {
                return true;
            }
        }
    }
    false
}

/// Whether an entry names an identity: in the numbers of records, in the data or in the marks.
pub fn is_named<T: Replica>(entry: &Envelope<T>, id: Id) -> bool
    ensures { result ≡ is_named T.mentioned (parts_of entry.now) id }
{
    entry.versions().at(id) > 0 || entry.value().mentions(id) || marks_name(entry.markers(), id)
}

/// Whether an entry names this identity, which was not given.
fn names_ungiven<T: Replica>(entry: &Envelope<T>, given: u8, id: Id) -> bool
    ensures { result ≡ (nat_le given id && is_named T.mentioned (parts_of entry.now) id) }
{
    given <= id.number() && is_named(entry, id)
}

/// Whether an entry names an identity that was not given.
pub(crate) fn names_later<T: Replica>(entry: &Envelope<T>, given: u8) -> bool
    ensures { result ≡ names_later T.mentioned given (parts_of entry.now) }
{
    for number in 0..IDENTITIES {
        if let Some(id) = Id::new(number) {
            if names_ungiven(entry, given, id) {
                return true;
            }
        }
    }
    false
}

/// Whether there is a number at this identity, which was not given.
fn counts_ungiven(numbers: &VersionVector, given: u8, id: Id) -> bool
    ensures { result ≡ (nat_le given id && nat_lt 0 (number_at numbers.now id)) }
{
    given <= id.number() && numbers.at(id) > 0
}

/// Whether there is a number at an identity that was not given.
pub(crate) fn counts_later(numbers: &VersionVector, given: u8) -> bool
    ensures { result ≡ counts_later given numbers.now }
{
    for number in 0..IDENTITIES {
        if let Some(id) = Id::new(number) {
            if counts_ungiven(numbers, given, id) {
                return true;
            }
        }
    }
    false
}

/// Whether the mark of an identity was begun in a view above this one.
fn is_late(markers: &Markers, view: u32, removed: Id) -> bool
    ensures { result ≡ is_late view (mark_of markers.now removed) }
{
    match markers.get(removed) {
        Some(Marker::Initialized { view: begun, .. }) => view < begun,
        Some(Marker::Performed { .. }) => false,
        None => false,
    }
}

/// Whether a mark was begun in a view above this one.
pub(crate) fn has_late_mark(markers: &Markers, view: u32) -> bool
    ensures { result ≡ has_late_mark view markers.now }
{
    for number in 0..IDENTITIES {
        if let Some(removed) = Id::new(number) {
            if is_late(markers, view, removed) {
                return true;
            }
        }
    }
    false
}
