ghost use Rattle.std.specs.Prelude.{◌≡◌, nat_eq, refl};
ghost use Rattle.std.proofs.Common.{ap};
ghost use Rattle.data_orset.specs.Elements.{IsSoundSet, set_spelled, elements_spelled, history_elements};
ghost use Rattle.data_orset.specs.Reading.{set_in};
ghost use Rattle.data_orset.specs.ElementLaws as laws;
ghost use Rattle.data_orset.specs.SpellingLaws as meaning;

use crate::set::OrSet;
use base_bytes::{Memory, ReadError, placed};
use base_vectors::IdSet;
use data_lattice::SpelledData;
use std::alloc::Global;

/// The byte of a set's kind.
const KIND: u8 = 4;

impl SpelledData for OrSet {
    ghost byte_of = { λ _. 4 };

    ghost is_known = { λ byte. nat_eq byte 4 };

    ghost IsSound = { IsSoundSet };

    ghost spelled = { set_spelled };

    ghost read_in = { λ _ barred bytes. set_in barred bytes };

    ghost history_byte = { λ _ _. 4 };

    ghost history_spelled = { λ _ H. elements_spelled (history_elements H) };

    fn is_kind(byte: u8) -> bool {
        byte == KIND
    }

    fn kind_byte(&self) -> u8 {
        KIND
    }

    fn spell_data(&self, into: &mut Vec<u8>) -> Result<(), Memory> {
        self.spell(into)
    }

    fn read_data(
        alloc: Global,
        _kind: u8,
        barred: IdSet,
        from: &[u8],
        place: usize,
    ) -> Result<(OrSet, usize), ReadError> {
        placed(from.len(), OrSet::read(alloc, barred, &from[place..]))
    }

    ghost spelling_is = { λ _. refl };

    ghost byte_is_known = { λ _. refl };

    ghost read_is_spelled = { laws.set_takes };

    ghost spelled_is_read = { λ x barred rest. laws.set_again x barred rest };

    ghost mentioned_few = { laws.set_few };

    ghost byte_means = { λ _ _ _ _ _ _. refl };

    ghost spelling_means = { λ state log held gone pruned is. ap elements_spelled (meaning.elements_are state log held gone pruned is) };
}
