ghost use Rattle.std.specs.Prelude.{◌≡◌, ◌↔◌, ℕ, IsTrue, IfOk};
ghost use Rattle.model_history.specs.History.{History, at};
ghost use Rattle.model_members.specs.Entry.{Entry};
ghost use Rattle.model_members.specs.DataType.{meaning};
ghost use Rattle.base_vectors.specs.Vectors.{number_at};
ghost use Rattle.data_envelope.specs.Images.{StandsFor};
ghost use Rattle.data_envelope.specs.Words.{parts_of};
ghost use Rattle.member_desk.specs.Histories.{shown_as, HasCountsOf, LooksAt};

use base_bytes::Memory;
use base_vectors::{Id, VersionVector};
use data_envelope::Envelope;
use data_lattice::Replica;
use model_kinds::Shown;
use std::alloc::Global;

/// What was told of a key: what was shown, and how many records of each identity the member had when the desk last looked.
#[derive(Drop)]
pub struct Told {
    pub(crate) shown: Shown,
    pub(crate) counts: VersionVector,
}

/// What a flush finds at a followed key.
#[derive(Drop)]
pub(crate) enum Look {
    /// There is no record.
    Nothing,
    /// The records are those of the last look.
    Same,
    /// There are others, and this is shown now.
    Other(Told),
}

/// What is found at a key of which this was told. The value is asked for only where records came since.
pub(crate) fn find_at<T: Replica>(
    alloc: Global,
    told: &Option<Told>,
    entry: &Envelope<T>,
) -> Result<Look, Memory>
    ensures { (log : History T.Op) (held : Entry T.Op) → StandsFor T.IsDataOf (parts_of entry.now) log held
        → IfOk result (LooksAt (λ history. shown_as (meaning T.data_type (T.kind_of entry.now.value) history)) told.now held) }
{
    if !entry.has_records() {
        return Ok(Look::Nothing);
    }
    if is_last_look(told, entry) {
        return Ok(Look::Same);
    }
    let counts = entry.known(alloc)?;
    let shown = shown_now(alloc, entry)?;
    Ok(Look::Other(Told { shown, counts }))
}

/// Whether something was told, and the records are those of the last look.
fn is_last_look<T: Replica>(told: &Option<Told>, entry: &Envelope<T>) -> bool
    ensures { (log : History T.Op) (held : Entry T.Op) → StandsFor T.IsDataOf (parts_of entry.now) log held → IsTrue result ↔ HasCountsOf told.now held.history }
{
    match told {
        Some(told) => has_counts(entry, &told.counts),
        None => false,
    }
}

/// Whether the entry has so many records of each identity.
fn has_counts<T: Replica>(entry: &Envelope<T>, counts: &VersionVector) -> bool
    ensures { (log : History T.Op) (held : Entry T.Op) → StandsFor T.IsDataOf (parts_of entry.now) log held → IsTrue result ↔ ((i : ℕ) → number_at counts.now i ≡ at held.history i) }
{
    for number in 0..entry.limit().max(counts.limit()) {
        if let Some(id) = Id::new(number) {
            if entry.at(id) != counts.at(id) {
                return false;
            }
        }
    }
    true
}

/// What the entry shows, or that its key is deleted.
fn shown_now<T: Replica>(alloc: Global, entry: &Envelope<T>) -> Result<Shown, Memory>
    ensures { (log : History T.Op) (held : Entry T.Op) → StandsFor T.IsDataOf (parts_of entry.now) log held
        → IfOk result (λ shown. shown ≡ shown_as (meaning T.data_type (T.kind_of entry.now.value) held.history)) }
{
    if entry.closed() {
        return Ok(Shown::Deleted);
    }
    entry.show(alloc)
}
