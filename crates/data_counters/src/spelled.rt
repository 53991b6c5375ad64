ghost use Rattle.std.specs.Prelude.{◌≡◌, ◌++◌, ◌==◌, refl, OnOk};
ghost use Rattle.base_bytes.specs.Fields.{Gives};
ghost use Rattle.base_vectors.specs.IdSets.{members_in};
ghost use Rattle.model_kinds.specs.SixKinds.{increment};
ghost use Rattle.data_counters.specs.Spelled.{growing_byte, signed_byte, counter_spelled, signed_spelled, counter_in, signed_in, IsSoundCounter, IsSoundSigned, growing_history_spelled, signed_history_spelled};
ghost use Rattle.data_counters.specs.SpelledLaws as laws;

use crate::amounts::Amounts;
use crate::counter::{GCounter, PnCounter};
use base_bytes::{FieldError, Memory, ReadError, placed};
use base_vectors::IdSet;
use data_lattice::SpelledData;
use std::alloc::Global;

/// A growing counter at the front of these bytes, without a barred identity; and the bytes after it.
#[tactic(auto, unfolding(crate::specs::Spelled::counter_in))]
fn read_growing(alloc: Global, barred: IdSet, bytes: &[u8]) -> Result<(GCounter, &[u8]), FieldError>
    ensures { Gives (λ x. (x.0, x.1.now)) result (counter_in (members_in barred) bytes.now) }
{
    let (shares, rest) = Amounts::read(alloc, barred, bytes)?;
    Ok((GCounter { shares }, rest))
}

/// A counter that moves both ways at the front of these bytes, without a barred identity; and the bytes after it.
#[tactic(auto, unfolding(crate::specs::Spelled::signed_in))]
fn read_signed(alloc: Global, barred: IdSet, bytes: &[u8]) -> Result<(PnCounter, &[u8]), FieldError>
    ensures { Gives (λ x. (x.0, x.1.now)) result (signed_in (members_in barred) bytes.now) }
{
    let (plus, rest) = read_growing(alloc, barred, bytes)?;
    let (minus, rest) = read_growing(alloc, barred, rest)?;
    Ok((PnCounter { plus, minus }, rest))
}

impl SpelledData for GCounter {
    ghost byte_of = { λ _. growing_byte };

    ghost is_known = { λ byte. byte == growing_byte };

    ghost IsSound = { IsSoundCounter };

    ghost spelled = { counter_spelled };

    ghost read_in = { λ _ barred. counter_in barred };

    ghost history_byte = { λ _ _. growing_byte };

    ghost history_spelled = { λ _. growing_history_spelled };

    fn is_kind(byte: u8) -> bool {
        byte == 1
    }

    fn kind_byte(&self) -> u8 {
        1
    }

    fn spell_data(&self, into: &mut Vec<u8>) -> Result<(), Memory> {
        let bytes = self.shares.spelled()?;
        Ok(into.extend_from_slice(&bytes)?)
    }

    fn read_data(
        alloc: Global,
        _kind: u8,
        barred: IdSet,
        from: &[u8],
        place: usize,
    ) -> Result<(GCounter, usize), ReadError> {
        placed(from.len(), read_growing(alloc, barred, &from[place..]))
    }

    ghost spelling_is = { λ _. refl };

    ghost byte_is_known = { λ _. refl };

    ghost read_is_spelled = { laws.growing_takes };

    ghost spelled_is_read = { laws.growing_again };

    ghost mentioned_few = { laws.growing_few };

    ghost byte_means = { λ _ _ _ _ _ _. refl };

    ghost spelling_means = { laws.shares_mean increment };
}

impl SpelledData for PnCounter {
    ghost byte_of = { λ _. signed_byte };

    ghost is_known = { λ byte. byte == signed_byte };

    ghost IsSound = { IsSoundSigned };

    ghost spelled = { signed_spelled };

    ghost read_in = { λ _ barred. signed_in barred };

    ghost history_byte = { λ _ _. signed_byte };

    ghost history_spelled = { λ _. signed_history_spelled };

    fn is_kind(byte: u8) -> bool {
        byte == 2
    }

    fn kind_byte(&self) -> u8 {
        2
    }

    fn spell_data(&self, into: &mut Vec<u8>) -> Result<(), Memory> {
        let bytes = self.plus.shares.spelled_before(&self.minus.shares)?;
        Ok(into.extend_from_slice(&bytes)?)
    }

    fn read_data(
        alloc: Global,
        _kind: u8,
        barred: IdSet,
        from: &[u8],
        place: usize,
    ) -> Result<(PnCounter, usize), ReadError> {
        placed(from.len(), read_signed(alloc, barred, &from[place..]))
    }

    ghost spelling_is = { λ _. refl };

    ghost byte_is_known = { λ _. refl };

    ghost read_is_spelled = { laws.both_take };

    ghost spelled_is_read = { laws.both_again };

    ghost mentioned_few = { laws.both_few };

    ghost byte_means = { λ _ _ _ _ _ _. refl };

    ghost spelling_means = { laws.both_mean };
}
