ghost use Rattle.std.specs.Prelude.{◌≡◌, ℕ, nat_eq, refl};
ghost use Rattle.base_vectors.specs.IdSets.{members_in};
ghost use Rattle.data_delta_codec.specs.Sets.{others, set_delta_spelled, set_delta_in, IsSoundSetDelta};
ghost use Rattle.data_delta_codec.specs.SetLaws as laws;

use crate::spelled_delta::SpelledDelta;
use base_bytes::{Memory, ReadError};
use base_vectors::{IDENTITIES, Id, IdSet};
use data_lattice::SpelledData;
use data_orset::{OrSet, SetDelta};
use std::alloc::Global;

/// All identities but one.
fn others(origin: Id) -> IdSet
    ensures { (i : ℕ) → members_in result i ≡ others origin i }
{
    let mut set = IdSet::empty();
    for number in 0..IDENTITIES {
        if let Some(id) = Id::new(number) {
            if number != origin.number() {
                set = set.with(id);
            }
        }
    }
    set
}

impl SpelledDelta for OrSet {
    ghost delta_byte = { λ _. 4 };

    ghost is_delta_byte = { λ byte. nat_eq byte 4 };

    ghost IsSoundDelta = { IsSoundSetDelta };

    ghost delta_spelled = { set_delta_spelled };

    ghost delta_in = { λ _ origin. set_delta_in origin };

    fn is_delta(byte: u8) -> bool {
        byte == 4
    }

    fn delta_kind(_delta: &SetDelta) -> u8 {
        4
    }

    fn spell_delta(delta: &SetDelta, into: &mut Vec<u8>) -> Result<(), Memory> {
        delta.fresh.spell_data(into)?;
        delta.seen.spell_data(into)
    }

    fn read_delta(
        alloc: Global,
        _kind: u8,
        origin: Id,
        from: &[u8],
        place: usize,
    ) -> Result<(SetDelta, usize), ReadError> {
        match OrSet::read_data(alloc, 4, others(origin), from, place) {
            Ok((fresh, middle)) => match OrSet::read_data(alloc, 4, IdSet::empty(), from, middle) {
                Ok((seen, next)) => Ok((SetDelta { fresh, seen }, next)),
                Err(error) => Err(error),
            },
            Err(error) => Err(error),
        }
    }

    ghost delta_is_known = { λ _. refl };

    ghost delta_read_is_spelled = { laws.set_delta_takes };

    ghost delta_spelled_is_read = { laws.set_delta_again };
}
