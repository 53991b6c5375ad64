ghost use Rattle.std.specs.Prelude.{◌≡◌, length, IfOk, Ok};
ghost use Rattle.base_bytes.specs.Fields.{Gives};
ghost use Rattle.data_envelope.specs.Images.{Parts};
ghost use Rattle.data_envelope.specs.Words.{parts_of};
ghost use Rattle.data_codec.specs.Envelopes.{head_in, parts_in, envelope_of, envelope_spelled, IsEnvelope};
ghost use Rattle.data_codec.specs.Answers.{IsFront, IsWhole, IsRead};

use crate::error::CodecError;
use base_bytes::{FieldError, keep, read_byte};
use base_vectors::VersionVector;
use data_envelope::Envelope;
use data_lattice::SpelledData;
use data_markers::Markers;
use std::alloc::Global;

/// What stands before the data: the kind's byte, the marks, and the numbers of records.
#[derive(Drop)]
pub(crate) struct Head {
    pub(crate) kind: u8,
    pub(crate) marks: Markers,
    pub(crate) versions: VersionVector,
}

/// The head of an envelope in a format, and the bytes after it.
#[tactic(auto, unfolding(crate::specs::Envelopes::head_in))]
pub(crate) fn read_head<T: SpelledData>(
    alloc: Global,
    format: u8,
    bytes: &[u8],
) -> Result<(Head, &[u8]), FieldError>
    ensures { Gives (λ x. (x.0, x.1.now)) result (head_in T.is_known format bytes.now) }
{
    let (first, rest) = read_byte(bytes)?;
    keep(first == format, bytes)?;
    let (kind, after) = read_byte(rest)?;
    keep(T::is_kind(kind), rest)?;
    let (marks, after) = Markers::read(alloc, after)?;
    let (versions, after) = VersionVector::read(alloc, marks.performed_ids(), after)?;
    let head = Head {
        kind,
        marks,
        versions,
    };
    Ok((head, after))
}

/// The head and the data of the envelope that stands in a format at the front of the bytes, and the place after it.
pub(crate) fn read_front<T: SpelledData>(
    alloc: Global,
    format: u8,
    bytes: &[u8],
) -> Result<((Head, T), usize), CodecError>
    ensures { IsFront (length bytes.now) result (parts_in T.is_known T.read_in format bytes.now) }
{
    let total = bytes.len();
    let (head, rest) = match read_head::<T>(alloc, format, bytes) {
        Ok(found) => found,
        Err(error) => return Err(CodecError::among(total, error)),
    };
    let place = total.saturating_sub(rest.len());
    let barred = head.marks.performed_ids();
    match T::read_data(alloc, head.kind, barred, bytes, place) {
        Ok((value, next)) => Ok(((head, value), next)),
        Err(error) => Err(CodecError::of(error)),
    }
}

/// The head and the data of the envelope that the bytes spell.
fn read_whole<T: SpelledData>(alloc: Global, bytes: &[u8]) -> Result<(Head, T), CodecError>
    ensures { IsWhole (length bytes.now) result (envelope_of T.is_known T.read_in bytes.now) }
{
    let total = bytes.len();
    match read_front::<T>(alloc, 1, bytes) {
        Ok((found, next)) => {
            if next != total {
                return Err(CodecError::NotAnEnvelope(next));
            }
            Ok(found)
        }
        Err(error) => Err(error),
    }
}

/// The envelope that the bytes spell; else the place of the first field that is cut short, breaks its rule or is left over.
pub fn read<T: SpelledData>(alloc: Global, bytes: &[u8]) -> Result<Envelope<T>, CodecError>
    // What is read is spelled so.
    ensures found { IfOk result (λ envelope. IsEnvelope T.IsSound T.mentioned (parts_of envelope) × (bytes.now ≡ envelope_spelled T.byte_of T.spelled (parts_of envelope))) }
    // What is spelled so is read, unless memory runs out.
    ensures only { (parts : Parts T) → IsEnvelope T.IsSound T.mentioned parts → bytes.now ≡ envelope_spelled T.byte_of T.spelled parts → IsRead (length bytes.now) result (Ok parts) }
    // Which fault it is.
    ensures exact { IsRead (length bytes.now) result (envelope_of T.is_known T.read_in bytes.now) }
{
    match read_whole::<T>(alloc, bytes) {
        Ok((head, value)) => Ok(Envelope::from_parts(alloc, value, head.versions, head.marks)),
        Err(error) => Err(error),
    }
}
