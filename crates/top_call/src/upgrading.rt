ghost use Rattle.std.specs.Prelude.{◌≤◌};
ghost use Rattle.report_lines.specs.Kept.{AreKept};
ghost use Rattle.top_call.specs.Due.{IsDueFor};
ghost use Rattle.top_call.specs.Passages.{reading};
ghost use Rattle.top_call.specs.Upgrading.{IsPlaceDue, IsUpgradeDueBy};
ghost use Rattle.top_call.specs.declared.words.Asked.TheVariants as is_asked;

use crate::answer::{Answer, bytes_of};
use crate::due::Due;
use base_outside::Source;
use data_codec::{CodecError, read_stored, spell_stored};
use data_lattice::SpelledData;
use data_value::Data;
use member_keeper::Keeper;
use std::alloc::Global;

/// What is due where bytes were not read as a stored entry.
fn fault_due(alloc: Global, error: CodecError) -> Due
    ensures { IsPlaceDue error result }
{
    match error {
        CodecError::NotAnEnvelope(place) => match format!(in alloc;
            "not an envelope: place {place}\n"
        ) {
            Ok(text) => Due::NotAnEnvelope(text),
            Err(_) => Due::Memory,
        },
        CodecError::Memory => Due::Memory,
    }
}

/// What is due for the bytes of a stored entry: these in format 2, or the place of their first fault.
fn upgraded<T: SpelledData>(alloc: Global, bytes: &[u8]) -> Due
    ensures { IsUpgradeDueBy T.is_known T.read_in T.byte_of T.spelled T.IsSound T.mentioned bytes.now result }
{
    match read_stored::<T>(alloc, bytes) {
        Ok(envelope) => match spell_stored(alloc, &envelope) {
            Ok(bytes) => Due::Upgraded(bytes),
            Err(_) => Due::Memory,
        },
        Err(error) => fault_due(alloc, error),
    }
}

/// What is due where the stored entry on the source is to be written in format 2.
pub(crate) fn upgrade_due<S: Source, K: Keeper>(
    alloc: Global,
    source: &mut S,
    keepers: Vec<K>,
) -> Answer<K>
    ensures due { IsDueFor K.Keeper.own is_asked.Upgrade (reading S.Source.own source.old source.new) keepers.items result.keepers.items result.due }
    ensures kept { AreKept K.Keeper.own keepers.items result.keepers.items }
    ensures later { S.faults source.old ≤ S.faults source.new }
{
    match bytes_of(alloc, source) {
        Ok(bytes) => Answer {
            due: upgraded::<Data>(alloc, &bytes),
            keepers,
        },
        Err(due) => Answer { due, keepers },
    }
}
