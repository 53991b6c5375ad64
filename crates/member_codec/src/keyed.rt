ghost use Rattle.member_messages.specs.declared.message.Keyed.{Keyed};
ghost use Rattle.member_codec.specs.Keyed.{IsSoundKeyed, keyed_spelled, keyed_in, keyed_as};
ghost use Rattle.member_codec.specs.KeyedLaws as laws;

use crate::lists::{put_both, take_both};
use crate::piece::Piece;
use base_bytes::{Memory, ReadError, Text};
use member_messages::Keyed;
use std::alloc::Global;

impl<X: Piece> Piece for Keyed<X> {
    ghost Parts = { Keyed X.Parts };

    ghost parts = { keyed_as X.parts };

    ghost IsSound = { IsSoundKeyed X.IsSound };

    ghost spelled = { keyed_spelled X.spelled };

    ghost piece_in = { keyed_in X.piece_in };

    fn put(&self, into: &mut Vec<u8>) -> Result<(), Memory> {
        put_both(&self.key, &self.item, into)
    }

    fn take(alloc: Global, from: &[u8], place: usize) -> Result<(Keyed<X>, usize), ReadError> {
        match take_both::<Text, X>(alloc, from, place) {
            Ok(((key, item), next)) => Ok((Keyed { key, item }, next)),
            Err(error) => Err(error),
        }
    }

    ghost spells = { laws.keyed_spells X.IsSound X.spelled X.piece_in X.spells };
}
