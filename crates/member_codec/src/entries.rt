ghost use Rattle.data_envelope.specs.Images.{Parts};
ghost use Rattle.data_envelope.specs.Words.{parts_of};
ghost use Rattle.data_codec.specs.Envelopes.{parts_in, envelope_spelled, IsEnvelope};
ghost use Rattle.member_codec.specs.EntryLaws as laws;

use crate::piece::Piece;
use base_bytes::{Memory, ReadError};
use data_codec::{append, read_at};
use data_envelope::Envelope;
use data_lattice::SpelledData;
use std::alloc::Global;

impl<T: SpelledData> Piece for Envelope<T> {
    ghost Parts = { Parts T };

    ghost parts = { parts_of };

    ghost IsSound = { IsEnvelope T.IsSound T.mentioned };

    ghost spelled = { envelope_spelled T.byte_of T.spelled };

    ghost piece_in = { parts_in T.is_known T.read_in 1 };

    fn put(&self, into: &mut Vec<u8>) -> Result<(), Memory> {
        append(self, into)
    }

    fn take(alloc: Global, from: &[u8], place: usize) -> Result<(Envelope<T>, usize), ReadError> {
        read_at::<T>(alloc, from, place)
    }

    ghost spells = { laws.envelope_spells T.is_known T.read_in T.byte_of T.spelled T.IsSound T.mentioned T.read_is_spelled T.spelled_is_read T.byte_is_known };
}
