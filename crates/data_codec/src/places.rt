ghost use Rattle.std.specs.Prelude.{◌≡◌, ◌≤◌, length, drop, IfOk};
ghost use Rattle.base_bytes.specs.Spelling.{GivesAt};
ghost use Rattle.base_places.specs.Places.{GivesOn};
ghost use Rattle.data_envelope.specs.Words.{parts_of};
ghost use Rattle.data_codec.specs.Envelopes.{head_in, parts_in};

use crate::reading::{Head, read_head};
use base_bytes::{ReadError, placed};
use data_envelope::Envelope;
use data_lattice::SpelledData;
use std::alloc::Global;

/// The head of an envelope at a place, and the place after it.
fn head_at<T: SpelledData>(
    alloc: Global,
    from: &[u8],
    place: usize,
) -> Result<(Head, usize), ReadError>
    requires { place ≤ length from.now }
    ensures { GivesAt (length from.now) result (head_in T.is_known 1 (drop place from.now)) }
{
    placed(from.len(), read_head::<T>(alloc, 1, &from[place..]))
}

/// The envelope that is spelled at a place, and the place after it; else the place of the first field that is cut short or
/// breaks its rule.
pub fn read_at<T: SpelledData>(
    alloc: Global,
    from: &[u8],
    place: usize,
) -> Result<(Envelope<T>, usize), ReadError>
    requires { place ≤ length from.now }
    ensures within { IfOk result (λ x. x.1 ≤ length from.now) }
    ensures exact { GivesOn from.now parts_of result (parts_in T.is_known T.read_in 1 (drop place from.now)) }
{
    match head_at::<T>(alloc, from, place) {
        Ok((head, middle)) => {
            let barred = head.marks.performed_ids();
            match T::read_data(alloc, head.kind, barred, from, middle) {
                Ok((value, next)) => Ok((
                    Envelope::from_parts(alloc, value, head.versions, head.marks),
                    next,
                )),
                Err(error) => Err(error),
            }
        }
        Err(error) => Err(error),
    }
}
