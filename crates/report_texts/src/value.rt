ghost use Rattle.std.specs.Prelude.{◌≡◌, string_bytes};
ghost use Rattle.model_history.specs.History.{History};
ghost use Rattle.model_members.specs.Entry.{Entry};
ghost use Rattle.data_envelope.specs.Images.{StandsFor};
ghost use Rattle.data_envelope.specs.Words.{parts_of};
ghost use Rattle.report_texts.specs.Entries.{has_records, AddsValue};

use crate::shown::push_shown;
use base_bytes::Memory;
use base_vectors::Id;
use data_envelope::Envelope;
use data_lattice::Replica;
use std::alloc::Global;

/// Whether an entry has a record.
fn has_records<T: Replica>(envelope: &Envelope<T>) -> bool
    ensures { (log : History T.Op) (entry : Entry T.Op) → StandsFor T.IsDataOf (parts_of envelope.now) log entry → result ≡ has_records entry }
{
    for number in 0..envelope.limit() {
        if let Some(id) = Id::new(number) {
            if envelope.at(id) > 0 {
                return true;
            }
        }
    }
    false
}

/// Adds the value of an entry, or a dash where it has no record.
pub fn push_value<T: Replica>(
    alloc: Global,
    text: &mut String,
    envelope: &Envelope<T>,
) -> Result<(), Memory>
    ensures { AddsValue T.IsDataOf (parts_of envelope.now) T.data_type.shown (T.kind_of envelope.now.value) (string_bytes text.old) (string_bytes text.new) result }
{
    if !has_records(envelope) {
        text.push_str("-")?;
        return Ok(());
    }
    let shown = envelope.show(alloc)?;
    push_shown(alloc, text, &shown)
}
