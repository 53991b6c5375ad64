ghost use Rattle.std.specs.Prelude.{◌≡◌, ◌++◌, IfOk, OnOk};
ghost use Rattle.data_envelope.specs.Words.{parts_of};
ghost use Rattle.data_codec.specs.Envelopes.{spelled_in, envelope_spelled, IsEnvelope};
ghost use Rattle.data_codec.specs.Entries.{entry_spelled, entry_digest};
ghost use Rattle.data_codec.specs.Stored.{envelope_stored, entry_stored};
ghost use Rattle.data_codec.specs.Calls.{SpellsEntry, DigestsEntry};
ghost use Rattle.sha1.specs.Sha1.{sha1};

use base_bytes::Memory;
use data_envelope::Envelope;
use data_lattice::SpelledData;
use sha1::Sha1;
use std::alloc::Global;

/// Appends the spelling of an envelope in a format.
fn append_in<T: SpelledData>(
    format: u8,
    envelope: &Envelope<T>,
    into: &mut Vec<u8>,
) -> Result<(), Memory>
    ensures readable { OnOk result (IsEnvelope T.IsSound T.mentioned (parts_of envelope.now)) }
    ensures value { OnOk result (into.new.items ≡ into.old.items ++ spelled_in T.byte_of T.spelled format (parts_of envelope.now)) }
{
    into.push(format)?;
    into.push(envelope.value().kind_byte())?;
    envelope.markers().spell(into)?;
    envelope.versions().spell(into)?;
    envelope.value().spell_data(into)
}

/// Appends the spelling of an envelope. After a refusal a part of it may have been appended.
pub fn append<T: SpelledData>(envelope: &Envelope<T>, into: &mut Vec<u8>) -> Result<(), Memory>
    ensures readable { OnOk result (IsEnvelope T.IsSound T.mentioned (parts_of envelope.now)) }
    ensures value { OnOk result (into.new.items ≡ into.old.items ++ envelope_spelled T.byte_of T.spelled (parts_of envelope.now)) }
{
    append_in(1, envelope, into)
}

/// The spelling of an envelope.
pub fn spell<T: SpelledData>(alloc: Global, envelope: &Envelope<T>) -> Result<Vec<u8>, Memory>
    ensures value { IfOk result (λ bytes. bytes.items ≡ envelope_spelled T.byte_of T.spelled (parts_of envelope.now)) }
    ensures image { SpellsEntry T.IsDataOf (parts_of envelope.now) (entry_spelled T.history_byte T.history_spelled (T.kind_of envelope.now.value)) result }
    // What is spelled is what `read` reads again.
    ensures readable { IfOk result (λ _bytes. IsEnvelope T.IsSound T.mentioned (parts_of envelope.now)) }
{
    let mut bytes = Vec::new(alloc);
    append(envelope, &mut bytes)?;
    Ok(bytes)
}

/// The bytes by which an envelope is stored: format 2, which is the byte 2, the spelling without its first byte, and the
/// SHA-1 (FIPS 180-4) of all these.
pub fn spell_stored<T: SpelledData>(
    alloc: Global,
    envelope: &Envelope<T>,
) -> Result<Vec<u8>, Memory>
    ensures value { IfOk result (λ bytes. bytes.items ≡ envelope_stored T.byte_of T.spelled (parts_of envelope.now)) }
    ensures image { SpellsEntry T.IsDataOf (parts_of envelope.now) (entry_stored T.history_byte T.history_spelled (T.kind_of envelope.now.value)) result }
    // What is stored is what `read_stored` reads again.
    ensures readable { IfOk result (λ _bytes. IsEnvelope T.IsSound T.mentioned (parts_of envelope.now)) }
{
    let mut bytes = Vec::new(alloc);
    append_in(2, envelope, &mut bytes)?;
    let seal = Sha1::digest(&bytes);
    bytes.extend_from_slice(&seal)?;
    Ok(bytes)
}

/// The SHA-1 (FIPS 180-4) of the envelope's spelling.
pub fn digest<T: SpelledData>(alloc: Global, envelope: &Envelope<T>) -> Result<[u8; 20], Memory>
    ensures value { IfOk result (λ digest. digest ≡ sha1 (envelope_spelled T.byte_of T.spelled (parts_of envelope.now))) }
    ensures image { DigestsEntry T.IsDataOf (parts_of envelope.now) (entry_digest T.history_byte T.history_spelled (T.kind_of envelope.now.value)) result }
{
    let bytes = spell(alloc, envelope)?;
    Ok(Sha1::digest(&bytes))
}
