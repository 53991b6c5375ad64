ghost use Rattle.std.specs.Prelude.{◌≡◌, ◌==◌, refl};
ghost use Rattle.base_bytes.specs.Fields.{Gives};
ghost use Rattle.data_counters.specs.Spelled.{growing_byte, signed_byte};
ghost use Rattle.data_delta_codec.specs.Counters.{amount_in, share_in, shares_in, share_spelled, shares_spelled, IsSoundShare, AreSoundShares};
ghost use Rattle.data_delta_codec.specs.CounterLaws as laws;

use crate::spelled_delta::SpelledDelta;
use base_bytes::{Fault, FieldError, Memory, ReadError, Spelled, read_number};
use base_vectors::Id;
use data_counters::{Amount, GCounter, PnCounter, PnShare, Share};
use std::alloc::Global;

/// What an identity holds of a counter, and the bytes after it.
#[tactic(auto, unfolding(crate::specs::Counters::amount_in))]
fn read_amount(bytes: &[u8]) -> Result<(Amount, &[u8]), FieldError>
    ensures { Gives (λ x. (x.0, x.1.now)) result (amount_in bytes.now) }
{
    let (number, rest) = read_number(bytes)?;
    let Some(amount) = Amount::new(number) else {
        return Err(FieldError::Fault(Fault::BadByte(bytes.len())));
    };
    Ok((amount, rest))
}

/// The share of an origin, and the bytes after it.
#[tactic(auto, unfolding(crate::specs::Counters::share_in))]
fn read_share(origin: Id, bytes: &[u8]) -> Result<(Share, &[u8]), FieldError>
    ensures { Gives (λ x. (x.0, x.1.now)) result (share_in origin bytes.now) }
{
    match read_amount(bytes) {
        Ok((share, rest)) => Ok((Share { origin, share }, rest)),
        Err(error) => Err(error),
    }
}

/// The two shares of an origin, and the bytes after them.
#[tactic(auto, unfolding(crate::specs::Counters::shares_in))]
fn read_shares(origin: Id, bytes: &[u8]) -> Result<(PnShare, &[u8]), FieldError>
    ensures { Gives (λ x. (x.0, x.1.now)) result (shares_in origin bytes.now) }
{
    match read_amount(bytes) {
        Ok((plus, rest)) => match read_amount(rest) {
            Ok((minus, rest)) => {
                let shares = PnShare {
                    origin,
                    plus,
                    minus,
                };
                Ok((shares, rest))
            }
            Err(error) => Err(error),
        },
        Err(error) => Err(error),
    }
}

impl SpelledDelta for GCounter {
    ghost delta_byte = { λ _. growing_byte };

    ghost is_delta_byte = { λ byte. byte == growing_byte };

    ghost IsSoundDelta = { IsSoundShare };

    ghost delta_spelled = { share_spelled };

    ghost delta_in = { λ _ origin. share_in origin };

    fn is_delta(byte: u8) -> bool {
        byte == 1
    }

    fn delta_kind(_delta: &Share) -> u8 {
        1
    }

    fn spell_delta(delta: &Share, into: &mut Vec<u8>) -> Result<(), Memory> {
        let share = delta.share.number();
        share.spell(into)
    }

    fn read_delta(
        _alloc: Global,
        _kind: u8,
        origin: Id,
        from: &[u8],
        place: usize,
    ) -> Result<(Share, usize), ReadError> {
        match read_share(origin, &from[place..]) {
            Ok((found, rest)) => Ok((found, from.len().saturating_sub(rest.len()))),
            Err(error) => Err(error.at_place(from.len())),
        }
    }

    ghost delta_is_known = { λ _. refl };

    ghost delta_read_is_spelled = { laws.growing_takes };

    ghost delta_spelled_is_read = { laws.growing_again };
}

impl SpelledDelta for PnCounter {
    ghost delta_byte = { λ _. signed_byte };

    ghost is_delta_byte = { λ byte. byte == signed_byte };

    ghost IsSoundDelta = { AreSoundShares };

    ghost delta_spelled = { shares_spelled };

    ghost delta_in = { λ _ origin. shares_in origin };

    fn is_delta(byte: u8) -> bool {
        byte == 2
    }

    fn delta_kind(_delta: &PnShare) -> u8 {
        2
    }

    fn spell_delta(delta: &PnShare, into: &mut Vec<u8>) -> Result<(), Memory> {
        let plus = delta.plus.number();
        let minus = delta.minus.number();
        plus.spell(into)?;
        minus.spell(into)
    }

    fn read_delta(
        _alloc: Global,
        _kind: u8,
        origin: Id,
        from: &[u8],
        place: usize,
    ) -> Result<(PnShare, usize), ReadError> {
        match read_shares(origin, &from[place..]) {
            Ok((found, rest)) => Ok((found, from.len().saturating_sub(rest.len()))),
            Err(error) => Err(error.at_place(from.len())),
        }
    }

    ghost delta_is_known = { λ _. refl };

    ghost delta_read_is_spelled = { laws.signed_takes };

    ghost delta_spelled_is_read = { laws.signed_again };
}
