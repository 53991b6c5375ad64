ghost use Rattle.std.specs.Prelude.{◌≡◌, length, IfOk, Ok};
ghost use Rattle.base_bytes.specs.Fields.{Gives};
ghost use Rattle.data_envelope.specs.Images.{Parts};
ghost use Rattle.data_envelope.specs.Words.{parts_of};
ghost use Rattle.data_codec.specs.Envelopes.{IsEnvelope};
ghost use Rattle.data_codec.specs.Answers.{IsWhole, IsRead};
ghost use Rattle.data_codec.specs.Stored.{IsStored, seal_of, is_second, sealed_of, stored_of};

use crate::error::CodecError;
use crate::reading::{Head, read, read_front};
use base_bytes::{Fault, FieldError, keep};
use data_envelope::Envelope;
use data_lattice::SpelledData;
use sha1::Sha1;
use std::alloc::Global;

/// Nothing where the bytes are the SHA-1 of those before them. It is one field.
#[tactic(auto, unfolding(crate::specs::Stored::seal_of))]
fn read_seal(before: &[u8], bytes: &[u8]) -> Result<(), FieldError>
    ensures { Gives (λ x. x) result (seal_of before.now bytes.now) }
{
    if bytes.len() < 20 {
        return Err(FieldError::Fault(Fault::Short(bytes.len())));
    }
    let (seal, rest) = bytes.split_at(20);
    let digest = Sha1::digest(before);
    keep(seal == digest.as_slice(), bytes)?;
    keep(rest.is_empty(), rest)
}

/// The head and the data of the envelope that the bytes are in format 2.
fn read_sealed<T: SpelledData>(alloc: Global, bytes: &[u8]) -> Result<(Head, T), CodecError>
    ensures { IsWhole (length bytes.now) result (sealed_of T.is_known T.read_in bytes.now) }
{
    match read_front::<T>(alloc, 2, bytes) {
        Ok((found, place)) => {
            let (before, rest) = bytes.split_at(place);
            match read_seal(before, rest) {
                Ok(()) => Ok(found),
                Err(error) => Err(CodecError::among(bytes.len(), error)),
            }
        }
        Err(error) => Err(error),
    }
}

/// The envelope that the bytes are in format 2.
fn read_second<T: SpelledData>(alloc: Global, bytes: &[u8]) -> Result<Envelope<T>, CodecError>
    ensures { IsRead (length bytes.now) result (sealed_of T.is_known T.read_in bytes.now) }
{
    match read_sealed::<T>(alloc, bytes) {
        Ok((head, value)) => Ok(Envelope::from_parts(alloc, value, head.versions, head.marks)),
        Err(error) => Err(error),
    }
}

/// Whether the first byte says that the bytes are in format 2.
fn is_second(bytes: &[u8]) -> bool
    ensures { result ≡ is_second bytes.now }
{
    match bytes {
        [first, ..] => *first == 2,
        [] => false,
    }
}

/// The envelope that the bytes are in format 1 or 2; else the place of the first field that is cut short, breaks its rule or
/// is left over. The last field of format 2 has 20 bytes, and its rule is that they are the SHA-1 of those before them.
pub fn read_stored<T: SpelledData>(alloc: Global, bytes: &[u8]) -> Result<Envelope<T>, CodecError>
    // What is read is stored so.
    ensures found { IfOk result (λ envelope. IsEnvelope T.IsSound T.mentioned (parts_of envelope) × IsStored T.byte_of T.spelled (parts_of envelope) bytes.now) }
    // What is stored so is read, unless memory runs out.
    ensures only { (parts : Parts T) → IsEnvelope T.IsSound T.mentioned parts → IsStored T.byte_of T.spelled parts bytes.now → IsRead (length bytes.now) result (Ok parts) }
    // Which fault it is.
    ensures exact { IsRead (length bytes.now) result (stored_of T.is_known T.read_in bytes.now) }
{
    if is_second(bytes) {
        read_second(alloc, bytes)
    } else {
        read(alloc, bytes)
    }
}
